//! The wait-free universal construction in single steps: n processes share an object through a
//! list of cells, and each step of a process touches one shared place.
#![tactic(auto)]

mod command;
mod ends;
mod fault;
mod local;
mod readers;
mod renew;
mod run;
mod same;
mod shared;
mod stage;
mod transition;
mod world;

pub use command::{Command, Outcome, Refusal};
pub use ends::{next_number, reshape, trim};
pub use fault::{BeginFault, OpenFault, Progress, ReshapeFault, StepFault, TrimFault};
pub use shared::WorldCells;
pub use stage::{Place, StepKind};
pub use world::{World, counts_fit};
