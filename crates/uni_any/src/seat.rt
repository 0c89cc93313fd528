//! Seats.
ghost use Rattle.std.specs.Prelude.{◌≡◌, ◌≤◌};
ghost use Rattle.triple_buffers.specs.Parties.{key_of, layout_of};

use crate::news::Block;
use crate::rule::{NewsOf, ObjectBuffers, ObjectParty};
use seq_object::SeqObject;
use std::alloc::{AllocError, Global};
use std::sync::Arc;
use thiserror::Error;

/// An object that threads share, each by a seat of its own.
#[derive(Drop)]
pub struct AnyShared<O: SeqObject> {
    pub(crate) buffers: ObjectBuffers<O>,
    pub ghost laid: { layout_of buffers ≡ record { words = 1; parties = (key_of buffers).processes } },
    pub ghost few: { (1 ≤ (key_of buffers).processes) × ((key_of buffers).processes ≤ 64) },
}

/// A version of an object.
pub type BlockOf<O> = Block<<O as SeqObject>::State, <O as SeqObject>::Resp>;

/// A seat: the handle for the calls of one process.
#[derive(Drop)]
pub struct AnySeat<O: SeqObject> {
    pub(crate) party: ObjectParty<O>,
    pub(crate) p: u64,
    pub(crate) made: u64,
    pub(crate) asked: Option<Arc<O::Inv, Global>>,
    pub(crate) last: Arc<BlockOf<O>, Global>,
    pub(crate) seen: Vec<NewsOf<O>>,
    pub(crate) named: u64,
}

/// The reply to a call, and a version of the object in which the call is. Versions count from 0, the start.
#[derive(Clone, Copy, Debug, PartialEq, Eq)]
pub struct AnyAnswer<R> {
    /// The reply.
    pub reply: R,
    /// The version.
    pub version: u64,
}

/// Why a call has no reply.
#[derive(Debug, Clone, Copy, PartialEq, Eq, Drop, Error)]
pub enum AnyFault {
    /// The seat has a call pending: `resume` goes on with it.
    #[error("a call is pending")]
    Pending,
    /// The seat has made 2^50 calls.
    #[error("all calls are made")]
    Spent,
    /// Memory was refused.
    #[error("out of memory")]
    Memory,
}

impl From<AllocError> for AnyFault {
    ghost use Rattle.std.specs.Prelude.{◌≡◌};
    ghost use Rattle.uni_any.specs.declared.seat.AnyFault.TheVariants.{Memory};

    ghost from_gives = { λ _ fault. fault ≡ Memory };

    fn from(_: AllocError) -> AnyFault {
        AnyFault::Memory
    }
}

/// A call is pending: `resume` goes on with it.
#[derive(Debug, Clone, Copy, PartialEq, Eq, Drop, Error)]
#[error("a call is pending")]
pub struct CallPending;

/// Why a pending call has no reply.
#[derive(Debug, Clone, Copy, PartialEq, Eq, Drop, Error)]
pub enum AnyResumeFault {
    /// No call is pending.
    #[error("no call is pending")]
    NothingPending,
    /// Memory was refused: the call is pending still.
    #[error("out of memory")]
    Memory,
}

impl From<AllocError> for AnyResumeFault {
    ghost use Rattle.std.specs.Prelude.{◌≡◌};
    ghost use Rattle.uni_any.specs.declared.seat.AnyResumeFault.TheVariants.{Memory};

    ghost from_gives = { λ _ fault. fault ≡ Memory };

    fn from(_: AllocError) -> AnyResumeFault {
        AnyResumeFault::Memory
    }
}
