//! A program as a small object.
ghost use Rattle.program_object.specs.Meaning.{called, program_meaning, program_steady};

use crate::program::Program;
use crate::step::run;
use uni_small::SmallObject;

impl SmallObject for Program {
    ghost meaning = { program_meaning };

    fn width(&self) -> u64 {
        self.start.len() as u64
    }

    fn invocation_width(&self) -> u64 {
        self.invocation
    }

    fn reply_width(&self) -> u64 {
        self.reply
    }

    fn start(&self, state: &mut [u64]) {
        state.copy_from_slice(&self.start);
    }

    fn apply(&self, state: &mut [u64], invocation: &[u64], reply: &mut [u64]) {
        run(&self.instructions, self.steps, state, invocation, reply);
    }

    ghost steady = { program_steady };
}
