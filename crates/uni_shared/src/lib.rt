//! A record under a lock, and seats whose threads take the lock once for each event.
#![tactic(auto)]

mod agreement;
mod closed;
mod fault;
mod gate;
mod held;
mod laws;
mod receipt;
mod seat;
mod shared;

pub use closed::{CloseFault, Closed, Refused};
pub use fault::ApplyFault;
pub use gate::{Gate, GaveUp, NoGate};
pub use held::{Held, StepHeldFault, begin_held, step_held, trim_held};
pub use laws::holds_are_a_run;
pub use receipt::Receipt;
pub use seat::Seat;
pub use shared::{Shared, trim};
