//! Recorded histories as text: four formats, and what is wrong with a line that is of none.
//!
//! A line that is empty or begins with `#` says nothing. The first other line decides the format.
#![tactic(auto)]

mod fault;
mod fields;
mod history;
mod lines;
mod maps;
mod names;
mod own;
mod reading;
mod stamped;
mod tokens;
mod turns;

pub use fault::{Fault, ReadError, Reason};
pub use history::{History, Placed, Told};
pub use reading::read_history;
