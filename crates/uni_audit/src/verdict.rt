//! What calls returned, and what an audit says.

use seq_object::CallId;

/// A call that returned, with its response.
#[derive(Clone, Copy, Debug, PartialEq, Eq)]
pub struct Return<R> {
    /// The call.
    pub call: CallId,
    /// Its response.
    pub reply: R,
}

/// What an audit says.
#[derive(Clone, Copy, Debug, PartialEq, Eq)]
pub enum Verdict {
    /// There is no fault.
    Agrees,
    /// The call of the entry at this place, from 0, isn't the next one of its process: its number
    /// isn't the number of earlier entries of that process.
    BadCall(u64),
    /// The reply of the entry at this place, from 0, isn't the object's answer there.
    BadReply(u64),
    /// This call returned, and there is no entry of it, or its entry has no reply.
    Missing(CallId),
    /// This call returned another reply than its entry's.
    BadReturn(CallId),
    /// This call returned twice.
    Twice(CallId),
}
