//! What a seat keeps of its calls.

use seq_object::CallId;
use uni_core::Place;

/// The receipt of a call: what it asked for and what it was told. It can't be copied.
#[derive(Debug, Drop, PartialEq, Eq)]
pub struct Receipt<I, R> {
    /// The call.
    pub call: CallId,
    /// What it asked for.
    pub inv: I,
    /// Its reply.
    pub reply: R,
    /// How many own steps it took.
    pub steps: u64,
    /// How many turns it took.
    pub turns: u64,
}

/// A seat's call that hasn't ended.
#[derive(Drop)]
pub(crate) struct PendingCall<I> {
    /// The call.
    pub(crate) call: CallId,
    /// What it asks for.
    pub(crate) inv: I,
    /// The place that its next step touches, as it was seen last.
    pub(crate) place: Place,
}
