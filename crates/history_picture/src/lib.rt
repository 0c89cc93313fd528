//! The picture of a recorded history: a lane for each process, a bar for each call from its call to its return, and a
//! dot where it takes effect.
//!
//! A picture is drawn (`draw`), the drawing is looked at, and one that shows the scene becomes a text (`svg_text`).
//! Where nothing else is said, an `Err` says that memory was refused.
#![tactic(auto)]

mod drawing;
mod orderly;
mod parts;
mod picture;
mod scene;

pub use picture::{page_of_scene, svg_of_scene};
pub use scene::{Bar, PictureError, Scene};
