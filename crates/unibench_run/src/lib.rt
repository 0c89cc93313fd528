//! What `unibench` does: all of the program but its `main`. It reads the command line, and runs the bench
//! of `uni_script`, draws a schedule, or runs threads that share an object.
#![tactic(auto)]

mod any;
mod hints;
mod language;
mod lock;
mod program;
mod request;
mod small;
mod small_calls;
mod threads;
mod typed;
mod watch;

pub use program::run;
pub use request::{Form, Plan, RandomPlan, Request, ThreadsObject, read_words};
pub use threads::{ThreadsFault, push_agrees, push_threads_fault, run_plan};
pub use typed::Typed;
pub use watch::Watch;
