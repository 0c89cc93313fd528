//! Words and triple buffers that threads share, under one rule: a write is one atomic step, and a take is one.
#![tactic(auto)]

mod close;
mod closed;
mod layout;
mod open;
mod party;
mod rule;
mod steps;

pub use closed::ClosedBuffers;
pub use layout::Layout;
pub use party::{Parties, Party};
pub use rule::{BufferRule, Buffers, Sight, TakePlay, WordPlay, WritePlay};
