//! What `unidraw` does: all of the program but its `main`. It reads the words of the command line, and draws the
//! picture of a script in the form that they ask for. Where nothing else is said, an `Err` says that memory was
//! refused.
#![tactic(auto)]

mod program;
mod words;

pub use program::{Form, Request, run};
