//! Scripts of calls on an object that processes share: what a script means, and `bench` that runs
//! one on the wait-free universal construction and writes what each call answers.
//!
//! What a script means is `outcome_of_script` in `specs/`, a definition over worlds of the definitions. Scripts are
//! over
//! four objects that have names, or over one of a user's own, which is named for them.
#![tactic(auto)]

mod answer;
mod catalogue;
mod commands;
mod driver;
mod ends;
mod fault;
mod grammar;
mod laws;
mod lines;
mod options;
mod own;
mod remarks;
mod replay;
mod schedules;
mod script_run;
mod statuses;
mod summary;

pub use answer::Refusal;
pub use ends::{Checked, Failed, TextIn, TextOut, write_all};
pub use fault::{BenchFault, push_fault};
pub use grammar::{
    Command, Header, ObjectName, Version, Words, command_of, header_of, is_note, is_plain,
    object_of, words_of,
};
pub use laws::finish_returns;
pub use options::{Echo, Options};
pub use own::{bench_object, run_of_object};
pub use remarks::{PlacedRemark, Remark};
pub use replay::bench;
pub use schedules::{Drawn, Plan, schedule};
pub use script_run::{ScriptRecord, ScriptRun, run_of_script};
pub use statuses::{refuse_words, report_fault, tell};
pub use summary::Summary;
