//! Objects whose states, invocations and replies are numbers, for threads to share without a lock.
#![tactic(auto)]

mod machine;
mod register;
mod small_machine;

pub use machine::{MachineFault, WordMachine, table_fault};
pub use register::{RegisterCall, WordRegister};
pub use small_machine::small_machine_follows_plain;
