//! The record of a run of processes that share an object, and its audit.
#![tactic(auto)]

mod command;
mod counts;
mod eras;
mod event;
mod events;
mod fault;
mod readers;
mod recorded;
mod room;
mod run;

pub use command::{Command, Outcome, Refusal};
pub use counts::Counts;
pub use event::Event;
pub use events::Events;
pub use fault::{
    RecordBeginFault, RecordOpenFault, RecordReshapeFault, RecordStepFault, RecordTrimFault,
};
pub use recorded::Recorded;
pub use room::MAX_HISTORY;
pub use uni_audit::{Return, Verdict, audit};
