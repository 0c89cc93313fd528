//! Refusals, and what a step answers.

use thiserror::Error;

/// Why no world was opened. Where several hold, the first of these is told.
#[derive(Clone, Copy, Debug, PartialEq, Eq, Error)]
pub enum OpenFault {
    /// The number of processes isn't from 1 to 64.
    #[error("the number of processes isn't from 1 to 64")]
    BadCount,
    /// The row isn't from 1 to 4096.
    #[error("the row isn't from 1 to 4096")]
    BadRow,
    /// The numbers of an era would pass 2^48 - 1.
    #[error("the numbers of an era would pass 2^48 - 1")]
    SeqFull,
    /// Memory was refused.
    #[error("out of memory")]
    Memory,
}

/// Why no call was begun. Where several hold, the first of these is told.
#[derive(Clone, Copy, Debug, PartialEq, Eq, Error)]
pub enum BeginFault {
    /// There is no such process.
    #[error("there is no such process")]
    BadProcess,
    /// This process has a call pending.
    #[error("process {0} has a call pending")]
    Busy(u64),
    /// This process has made as many calls in this era as a row has.
    #[error("process {0} has made as many calls in this era as a row has")]
    RowFull(u64),
    /// Memory was refused.
    #[error("out of memory")]
    Memory,
}

/// Why no step was taken. Where several hold, the first of these is told.
#[derive(Clone, Copy, Debug, PartialEq, Eq, Error)]
pub enum StepFault {
    /// There is no such process.
    #[error("there is no such process")]
    BadProcess,
    /// This process has no call pending.
    #[error("process {0} has no call pending")]
    Idle(u64),
    /// Memory was refused to the object's apply.
    #[error("out of memory")]
    Memory,
}

/// Why an era wasn't ended by a trim. Where several hold, the first of these is told.
#[derive(Clone, Copy, Debug, PartialEq, Eq, Error)]
pub enum TrimFault {
    /// This process, the least of such, has a call pending.
    #[error("process {0} has a call pending")]
    Pending(u64),
    /// The numbers of the next era would pass 2^48 - 1.
    #[error("the numbers of the next era would pass 2^48 - 1")]
    SeqFull,
}

/// Why an era wasn't ended by a reshape. Where several hold, the first of these is told.
#[derive(Clone, Copy, Debug, PartialEq, Eq, Error)]
pub enum ReshapeFault {
    /// The number of processes isn't from 1 to 64.
    #[error("the number of processes isn't from 1 to 64")]
    BadCount,
    /// This process, the least of such, has a call pending.
    #[error("process {0} has a call pending")]
    Pending(u64),
    /// The numbers of the next era, with so many processes, would pass 2^48 - 1.
    #[error("the numbers of the next era would pass 2^48 - 1")]
    SeqFull,
    /// Memory was refused.
    #[error("out of memory")]
    Memory,
}

/// What a step answers.
#[derive(Clone, Copy, Debug)]
pub enum Progress<R> {
    /// The call goes on.
    Going,
    /// The call has ended with this response.
    Done(R),
}
