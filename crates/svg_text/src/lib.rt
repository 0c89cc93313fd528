//! Shapes with places in whole numbers, and their text: an SVG.
//!
//! What the text of shapes is stands in `specs/Svg.antt`: `svg_text`; that it is well-formed XML
//! is a law, over the trees of `specs/Xml.antt`.
#![tactic(auto)]

mod paint;
mod shape;
mod svg;

pub use paint::{Colour, Paint};
pub use shape::{Anchor, Drawing, Shape, Spot};
pub use svg::{escaped_has_no_markup, push_escaped, svg_of, text_is_of_a_tree};
