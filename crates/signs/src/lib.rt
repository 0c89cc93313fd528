//! What a drawing has to show, and whether it does: it is tried when it is done.
#![tactic(auto)]

mod check;
mod shape;
mod sign;
mod view;

pub use check::{Seen, are_in_sight, are_shown, are_within, fill};
pub use shape::holds;
pub use sign::{Edge, Layout, Look, Part, Span};
pub use view::{are_clear, are_from, are_high_enough};
