//! The objects that can be opened.
ghost use Rattle.std.specs.Prelude.{◌≡◌, ◌<◌, ◌^◌};
ghost use Rattle.universal_c.specs.Meaning.{meaning};

use uni_words::{WordObject, WordSticky, WordTally};
use word_objects::{WordMachine, WordRegister};

/// An object, by its kind.
#[derive(Drop)]
pub enum Object {
    /// A sum.
    Tally,
    /// A register that keeps the first value.
    Sticky,
    /// A register with the usual read-modify-write operations.
    Register,
    /// An object of finitely many states, by its tables.
    Machine(WordMachine),
}

impl WordObject for Object {
    ghost sequential = { meaning };

    fn start(&self) -> u32 {
        match self {
            Object::Tally => WordTally.start(),
            Object::Sticky => WordSticky.start(),
            Object::Register => WordRegister.start(),
            Object::Machine(machine) => machine.start(),
        }
    }

    fn next(&self, state: u32, inv: u64) -> u32 {
        match self {
            Object::Tally => WordTally.next(state, inv),
            Object::Sticky => WordSticky.next(state, inv),
            Object::Register => WordRegister.next(state, inv),
            Object::Machine(machine) => machine.next(state, inv),
        }
    }

    fn answer(&self, state: u32, inv: u64) -> u32 {
        match self {
            Object::Tally => WordTally.answer(state, inv),
            Object::Sticky => WordSticky.answer(state, inv),
            Object::Register => WordRegister.answer(state, inv),
            Object::Machine(machine) => machine.answer(state, inv),
        }
    }
}
