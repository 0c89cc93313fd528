//! What is asked between two holds of the lock.

ghost use Rattle.std.specs.Prelude.{OnErr};

use uni_core::Place;

/// A gate doesn't let a step pass.
#[derive(Clone, Copy, Debug, PartialEq, Eq)]
pub struct GaveUp;

/// Is asked before each step of a call, while the lock is free.
pub trait Gate {
    /// Process `p` is about to take a step. `place` is the one that its next step touched when it was
    /// last seen.
    ///
    /// An `Err` says that the step isn't to be taken now.
    fn before(&self, p: u64, place: Place) -> Result<(), GaveUp>;
}

/// Lets every step pass.
#[derive(Clone, Copy, Debug)]
pub struct NoGate;

impl Gate for NoGate {
    fn before(&self, _p: u64, _place: Place) -> Result<(), GaveUp>
        ensures { OnErr result ⊥ }
    {
        Ok(())
    }
}
