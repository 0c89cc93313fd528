//! Pictures of the runs of scripts: from the bytes of a script to the text of an SVG.
//!
//! What a picture shows of a script (`run_layout`) is drawn (`draw`), the drawing is tried (`tried`), and one that
//! shows all of it becomes a text (`svg_text`). docs/pictures.md tells what a reader sees. Where nothing else is said,
//! an `Err` says that memory was refused.
#![tactic(auto)]

mod cells;
mod figures;
mod lanes;
mod legend;
mod notes;
mod parts;
mod picture;
mod rows;
mod sheet;
mod strip;

pub use picture::{picture_of, picture_of_object, tried};
pub use sheet::{Drawn, draw};
