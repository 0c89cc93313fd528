//! A small object by a program: a list of instructions that go through its state, the invocation and the reply.
#![tactic(auto)]

mod instruction;
mod program;
mod small;
mod step;
mod words;

pub use instruction::{Area, Checked, Instruction, Modular, Place, Test};
pub use program::{Flaw, Program, ProgramFault};
pub use step::every_call_ends;
pub use words::{instructions_of, unknown_operation};
