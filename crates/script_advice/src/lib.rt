//! Why a line of a script is bad: the word that is wrong, and what could stand there.
//!
//! It stands beside the grammar of `uni_script`, which alone says which line is bad.
#![tactic(auto)]

mod advice;
mod explain;
mod forms;
mod reasons;
mod words;

pub use advice::{Advice, Cause, Place, advice_on};
pub use explain::{KeepsText, Kept, report_explained};
pub use forms::{Field, Form};
pub use reasons::explanation;
