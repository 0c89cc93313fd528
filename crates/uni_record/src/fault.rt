//! Refusals of a record.

use thiserror::Error;
use uni_core::OpenFault;

/// Why nothing was opened. Where several hold, the first of these is told.
#[derive(Clone, Copy, Debug, PartialEq, Eq, Error)]
pub enum RecordOpenFault {
    /// The number of processes isn't from 1 to 64.
    #[error("the number of processes isn't from 1 to 64")]
    BadCount,
    /// The row isn't from 1 to 4096.
    #[error("the row isn't from 1 to 4096")]
    BadRow,
    /// The numbers of the first era would pass 2^48 - 1.
    #[error("the numbers of the first era would pass 2^48 - 1")]
    SeqFull,
    /// The history isn't from 1 to 16777216.
    #[error("the history isn't from 1 to 16777216")]
    BadHistory,
    /// Memory was refused.
    #[error("out of memory")]
    Memory,
}

impl From<OpenFault> for RecordOpenFault {
    ghost use Rattle.std.specs.Prelude.{◌≡◌};
    ghost use Rattle.uni_record.specs.Refusals.{record_fault};

    ghost from_gives = { λ fault made. made ≡ record_fault fault };

    fn from(fault: OpenFault) -> RecordOpenFault {
        match fault {
            OpenFault::BadCount => RecordOpenFault::BadCount,
            OpenFault::BadRow => RecordOpenFault::BadRow,
            OpenFault::SeqFull => RecordOpenFault::SeqFull,
            OpenFault::Memory => RecordOpenFault::Memory,
        }
    }
}

/// Why no call was begun. Where several hold, the first of these is told.
#[derive(Clone, Copy, Debug, PartialEq, Eq, Error)]
pub enum RecordBeginFault {
    /// There is no such process.
    #[error("there is no such process")]
    BadProcess,
    /// This process has a call pending.
    #[error("process {0} has a call pending")]
    Busy(u64),
    /// This process has made as many calls in this era as a row has.
    #[error("process {0} has made as many calls in this era as a row has")]
    RowFull(u64),
    /// The events of another call may not fit into the history.
    #[error("the events of another call may not fit into the history")]
    HistoryFull,
    /// Memory was refused.
    #[error("out of memory")]
    Memory,
}

/// Why no step was taken. Where several hold, the first of these is told. The history never lacks
/// room for a step, since `begin` has set it aside.
#[derive(Clone, Copy, Debug, PartialEq, Eq, Error)]
pub enum RecordStepFault {
    /// There is no such process.
    #[error("there is no such process")]
    BadProcess,
    /// This process has no call pending.
    #[error("process {0} has no call pending")]
    Idle(u64),
    /// Memory was refused to the object.
    #[error("out of memory")]
    Memory,
}

/// Why an era wasn't ended by a trim. Where several hold, the first of these is told.
#[derive(Clone, Copy, Debug, PartialEq, Eq, Error)]
pub enum RecordTrimFault {
    /// This process, the least of such, has a call pending.
    #[error("process {0} has a call pending")]
    Pending(u64),
    /// The numbers of the next era would pass 2^48 - 1.
    #[error("the numbers of the next era would pass 2^48 - 1")]
    SeqFull,
    /// The history is full.
    #[error("the history is full")]
    HistoryFull,
    /// Memory was refused.
    #[error("out of memory")]
    Memory,
}

/// Why an era wasn't ended by a reshape. Where several hold, the first of these is told.
#[derive(Clone, Copy, Debug, PartialEq, Eq, Error)]
pub enum RecordReshapeFault {
    /// The number of processes isn't from 1 to 64.
    #[error("the number of processes isn't from 1 to 64")]
    BadCount,
    /// This process, the least of such, has a call pending.
    #[error("process {0} has a call pending")]
    Pending(u64),
    /// The numbers of the next era, with so many processes, would pass 2^48 - 1.
    #[error("the numbers of the next era would pass 2^48 - 1")]
    SeqFull,
    /// The history is full.
    #[error("the history is full")]
    HistoryFull,
    /// Memory was refused.
    #[error("out of memory")]
    Memory,
}
