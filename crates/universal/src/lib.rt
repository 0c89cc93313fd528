//! Herlihy's wait-free universal construction: what a user of it takes, under one name.
//!
//! An object of your own is a `SeqObject`. Give it to a `World`, whose calls run step by step as you
//! say; to a `Recorded`, which keeps the events and can be audited; or to a `Shared`, which threads
//! call, each by its `Seat`. An object whose state is a few words is a `SmallObject`, and a `SmallShared`
//! shares it among threads without a lock; one of 31 bits is a `WordObject`, and a `WordLog` shares it.
#![tactic(auto)]

pub use seq_object::{CallId, SeqObject};
pub use uni_core::{
    BeginFault, OpenFault, Progress, ReshapeFault, StepFault, TrimFault, World, reshape, trim,
};
pub use uni_log::{Entry, Log};
pub use uni_record::{
    RecordBeginFault, RecordOpenFault, RecordReshapeFault, RecordStepFault, RecordTrimFault,
    Recorded, Verdict, audit,
};
pub use uni_shared::{ApplyFault, CloseFault, Gate, GaveUp, NoGate, Seat, Shared};
pub use uni_small::{CallsSpent, SmallObject, SmallOpenFault, SmallSeat, SmallShared};
pub use uni_words::{Answer, RowFull, WordLog, WordObject, WordOpenFault, WordSeat, read_log};
