//! A reply with its place.

/// A reply, with the place of its call in the order of all calls, from 0.
#[derive(Debug, Clone, Copy, PartialEq, Eq, Drop)]
pub struct InPlace<R> {
    /// How many calls came before it.
    pub place: u64,
    /// The reply.
    pub reply: R,
}
