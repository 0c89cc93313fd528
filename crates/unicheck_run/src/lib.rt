//! What `unicheck` does: all of the program but its `main`. It reads the words of the command line and a recorded
//! history, and writes whether that is linearizable.
#![tactic(auto)]

mod answer;
mod judging;
mod picture;
mod program;
mod report;
mod stop;
mod watch;
mod words;

pub use judging::{Finding, judge};
pub use program::{judge_input, judge_text, run};
pub use watch::{Stage, Watch};
pub use words::{Form, ObjectName, Request};
