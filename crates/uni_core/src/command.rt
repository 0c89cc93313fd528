//! Commands to a world, and what they answer.

use seq_object::CallId;
use thiserror::Error;

/// What a world is asked to do.
#[derive(Debug, Drop, PartialEq, Eq)]
pub enum Command<I> {
    /// This process begins a call that asks for this.
    Call(u64, I),
    /// This process takes the next step of its pending call.
    Step(u64),
}

/// Why a command was refused. Where several hold, the first of these is told.
#[derive(Clone, Copy, Debug, PartialEq, Eq, Error)]
pub enum Refusal {
    /// There is no such process.
    #[error("there is no such process")]
    BadProcess,
    /// A call: this process has one pending.
    #[error("process {0} has a call pending")]
    Busy(u64),
    /// A call: this process has made as many in this era as a row has.
    #[error("process {0} has made as many calls in this era as a row has")]
    RowFull(u64),
    /// A step: this process has no call pending.
    #[error("process {0} has no call pending")]
    Idle(u64),
    /// Memory was refused.
    #[error("out of memory")]
    Memory,
}

/// What a command answers.
#[derive(Clone, Copy, Debug, PartialEq, Eq)]
pub enum Outcome<R> {
    /// The process has begun this call.
    Called(CallId),
    /// The process has taken a step, and its call goes on.
    Went,
    /// The process has taken the last step of this call, which has ended with this response.
    Returned(CallId, R),
    /// Nothing was done.
    Refused(Refusal),
}
