//! What is drawn.

ghost use Rattle.std.specs.Prelude.{◌≡◌};

use std::alloc::AllocError;

/// A call. Moments are numbered from 0 on: at each one call begins, takes effect or returns.
#[derive(Drop)]
pub struct Bar {
    /// Its process, by the place of its name.
    pub lane: u64,
    /// What is said of it: its words and its reply.
    pub text: Vec<u8>,
    /// The moment at which it begins.
    pub begin: u64,
    /// The one at which it returns; `None` where it doesn't.
    pub end: Option<u64>,
    /// The one at which it takes effect; `None` where it has none.
    pub point: Option<u64>,
}

/// A history, as it is drawn.
#[derive(Drop)]
pub struct Scene {
    /// What was found of it.
    pub title: Vec<u8>,
    /// The names of its processes.
    pub names: Vec<Vec<u8>>,
    /// Its calls, in the order in which they began.
    pub bars: Vec<Bar>,
    /// The place of the call whose return leaves no order; `None` where there is none.
    pub bad: Option<u64>,
    /// What is said below.
    pub notes: Vec<Vec<u8>>,
}

/// Why there is no picture.
#[derive(Clone, Copy, Debug, PartialEq, Eq)]
pub enum PictureError {
    /// There are more than 400 calls.
    TooManyCalls,
    /// A call has no lane, or begins after it takes effect or returns, or before another call of its process returned.
    Disorderly,
    /// The drawing doesn't show the scene. No scene is known of which it is so.
    Misdrawn,
    /// Memory was refused.
    Memory,
}

impl From<AllocError> for PictureError {
    ghost use Rattle.std.specs.Prelude.{◌≡◌};
    ghost use Rattle.history_picture.specs.declared.scene.PictureError.TheVariants.{Memory};

    ghost from_gives = { λ _ error. error ≡ Memory };

    fn from(_: AllocError) -> PictureError {
        PictureError::Memory
    }
}
