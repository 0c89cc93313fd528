//! The audit of a log and of what calls returned: it trusts neither.
#![tactic(auto)]

mod call_places;
mod checker;
mod verdict;

pub use checker::{Check, audit, check_entries, check_entry, check_for, check_returns};
pub use verdict::{Return, Verdict};
