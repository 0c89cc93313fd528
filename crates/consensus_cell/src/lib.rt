//! What one process decides, or writes, and the others read: the parts of a cell of a shared
//! object.
#![tactic(auto)]

mod consensus;
mod register;

pub use consensus::Settle;
pub use register::Own;
