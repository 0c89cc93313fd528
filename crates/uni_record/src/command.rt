//! Commands to a record, and what they answer.

use seq_object::CallId;
use thiserror::Error;

/// What a record is asked to do.
#[derive(Debug, Drop, PartialEq, Eq)]
pub enum Command<I> {
    /// This process begins a call that asks for this.
    Call(u64, I),
    /// This process takes the next step of its pending call.
    Step(u64),
    /// The era ends, under as many processes as before.
    Trim,
    /// The era ends, and there are so many processes then.
    Reshape(u64),
}

/// Why a command was refused. Where several hold, the first is told, in the order of the call that
/// the command is.
#[derive(Clone, Copy, Debug, PartialEq, Eq, Error)]
pub enum Refusal {
    /// A call or a step: there is no such process.
    #[error("there is no such process")]
    BadProcess,
    /// A call: this process has one pending.
    #[error("process {0} has a call pending")]
    Busy(u64),
    /// A call: this process has made as many in this era as a row has.
    #[error("process {0} has made as many calls in this era as a row has")]
    RowFull(u64),
    /// A step: this process has no call pending.
    #[error("process {0} has no call pending")]
    Idle(u64),
    /// A reshape: the number of processes isn't from 1 to 64.
    #[error("the number of processes isn't from 1 to 64")]
    BadCount,
    /// The end of an era: this process, the least of such, has a call pending.
    #[error("process {0} has a call pending")]
    Pending(u64),
    /// The end of an era: the numbers of the next one would pass 2^48 - 1.
    #[error("the numbers of the next era would pass 2^48 - 1")]
    SeqFull,
    /// All but a step: the history has no room for it.
    #[error("the history has no room for it")]
    HistoryFull,
    /// Memory was refused.
    #[error("out of memory")]
    Memory,
}

/// What a command answers.
#[derive(Clone, Copy, Debug, PartialEq, Eq)]
pub enum Outcome<R> {
    /// The process has begun this call.
    Called(CallId),
    /// The process has taken a step, and its call goes on.
    Went,
    /// The process has taken the last step of this call, which has ended with this response.
    Returned(CallId, R),
    /// The era has ended; the new anchor has this number.
    Trimmed(u64),
    /// The era has ended, and there are so many processes; the new anchor has this number.
    Reshaped(u64, u64),
    /// Nothing was done.
    Refused(Refusal),
}
