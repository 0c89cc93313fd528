//! An entry of the log.

use seq_object::CallId;

/// An entry of the log: a call that took effect.
#[derive(Debug, Drop, PartialEq, Eq)]
pub struct Entry<I, R> {
    /// Its number in the list; the anchor's number is one less than the first entry's.
    pub seq: u64,
    /// The call.
    pub call: CallId,
    /// What the call asks for.
    pub inv: I,
    /// The response, where it is settled. Only the last entry can be without one.
    pub reply: Option<R>,
}
