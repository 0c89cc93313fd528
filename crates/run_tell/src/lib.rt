//! Runs of scripts, told: from the bytes of a script to a text with a piece for how the run opened, and one for each
//! event that is chosen, each note and each refusal, in the script's order.
//!
//! What the pieces are, a `Telling` says: lines of JSON, which tell what each event did to the memory (a trace), or the
//! calls that begin and the replies (a history); sentences for a terminal (steps); or a page for a browser, which needs
//! no network. What they are stands in `specs`: `TraceLines`, `History`, `Sentences` and `Page`; of what JSON they
//! are made in `Json`. docs/trace.md and docs/pictures.md tell what a reader sees.
//!
//! Where nothing else is said, an `Err` says that memory was refused.
#![tactic(auto)]

mod history;
mod history_lines;
mod json;
mod opened;
mod order;
mod page;
mod rows;
mod sentences;
mod steps;
mod told;
mod trace;
mod trace_members;
mod value;
mod viewer;

pub use history::{InHistory, tell_history};
pub use json::{list_of, object_of, push_members, push_more_members, push_object};
pub use opened::Opened;
pub use order::Telling;
pub use page::{page_of, page_text, trace_ends_no_element};
pub use rows::InRows;
pub use sentences::{
    access_of, changes_in, frame_words, opening_words, push_sentence, remark_words,
};
pub use steps::{InWords, push_change_words};
pub use told::{tell_record, tell_script};
pub use trace::{InJson, InLines, InWholeJson, push_line};
pub use value::{Member, Value};
pub use viewer::{END, MIDDLE, START};
