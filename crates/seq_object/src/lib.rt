//! Deterministic sequential objects, and the names of calls to them.
#![tactic(auto)]

mod call_id;
mod object;
mod swap_register;

pub use call_id::CallId;
pub use object::{SeqObject, legal_by_places};
pub use swap_register::SwapRegister;
