//! The runs of scripts as lines of a terminal: from the bytes of a script to a text of so many columns.
//!
//! What a picture shows of a script (`run_layout`) becomes strokes, one upon the other (`sketch_of`); they are tried,
//! and where they show all of it they become a text (`tried`). docs/pictures.md tells what a reader sees. Where nothing
//! else is said, an `Err` says that memory was refused.
#![tactic(auto)]

mod canvas;
mod lines;
mod parts;
mod sheet;
mod strokes;
mod texts;

pub use canvas::{Ink, Stroke};
pub use lines::{lines_of, lines_of_object};
pub use sheet::{Block, Sketch, sketch_of, tried};
pub use texts::COLUMNS;
