//! The log of a world of processes that share an object: the calls that are in the list, in the
//! order in which they took effect (Herlihy 1991, section 4).
#![tactic(auto)]

mod cursor;
mod entry;
mod log;

pub use cursor::LogCursor;
pub use entry::Entry;
pub use log::Log;
