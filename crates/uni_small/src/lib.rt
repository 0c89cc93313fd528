//! The wait-free protocol for objects of several words on the words of an `atomic_table`.
#![tactic(auto)]

mod apply;
mod attempt;
pub mod laws;
mod log;
mod object;
mod orphan;
mod read;
mod resume;
mod rule;
mod seat;
mod sizes;
mod span;
mod touched;
mod view;

pub use apply::{CallsSpent, MAX_CALLS};
pub use log::{MAX_PROCESSES, SmallOpenFault, SmallShared};
pub use object::SmallObject;
pub use orphan::SmallOrphan;
pub use seat::SmallSeat;
pub use sizes::MAX_WIDTH;
pub use touched::Touched;
