//! What a program over scripts does with its command line: the pieces of one that is read by `clap`, and the answer to
//! words that ask for no run.
#![tactic(auto)]

mod answer;
mod numbers;
mod pieces;

pub use answer::answer_words;
pub use numbers::{in_range, number_of};
pub use pieces::{flag, is_set, may_be_path};
