//! What a search wants of an object beside its calls.

ghost use Rattle.std.specs.Prelude.{◌≡◌, ◌↔◌, IsTrue, ℕ};
ghost use Rattle.lin_check.specs.Parts.{IsInParts};

use crate::event::Event;
use seq_object::SeqObject;
use std::alloc::{AllocError, Global};

/// An object whose states can be compared.
pub trait Checkable: SeqObject {
    /// Whether two states are the same.
    fn is_same(a: &Self::State, b: &Self::State) -> bool
        ensures { IsTrue result ↔ a.now ≡ b.now };

    /// A number for a state, the same one for the same states. It only says where to look.
    fn key(state: &Self::State) -> u64;

    /// The part of the object that an invocation is of, as the key of a map; 0 for an object of one part.
    ghost part: { Self.Inv → ℕ };

    /// The part that an invocation is of.
    fn part_of(inv: &Self::Inv) -> u64
        ensures { result ≡ part inv.now };

    /// For each call of a history how late it is tried, by the place of its event. Only the time of a search depends on
    /// it.
    ///
    /// An `Err` says that memory was refused.
    fn ranks(
        alloc: Global,
        history: &[Event<Self::Inv, Self::Resp>],
    ) -> Result<Vec<u64>, AllocError>;

    /// An order that a history may have, before any search; `None` where there is no guess. A guess is checked, so
    /// nothing is promised of it.
    ///
    /// An `Err` says that memory was refused.
    fn guess(
        alloc: Global,
        history: &[Event<Self::Inv, Self::Resp>],
    ) -> Result<Option<Vec<usize>>, AllocError>;

    /// What a call is answered follows from the calls of its part alone.
    ghost parts: { (object : Self) → IsInParts (Self.SeqObject.sequential object) part };
}
