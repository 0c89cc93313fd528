//! The small objects that can be opened.
ghost use Rattle.std.specs.Prelude.{◌≡◌, length};
ghost use Rattle.universal_c.specs.SmallMeaning.{small_meaning, small_steady, state_words};

use program_object::Program;
use small_objects::{
    SmallBook, SmallCounter, SmallCounters, SmallMap, SmallQueue, SmallRegister, SmallStack,
};
use uni_small::{SmallObject, Touched};
use word_objects::WordMachine;

/// A small object, by its kind.
#[derive(Drop)]
pub enum SmallKind {
    /// A counter of 64 bits.
    Counter,
    /// A register of 64 bits, with compare-and-exchange.
    Register,
    /// An array of counters of 64 bits.
    Counters(SmallCounters),
    /// A bounded queue.
    Queue(SmallQueue),
    /// A bounded stack.
    Stack(SmallStack),
    /// A map of words with a capacity.
    Map(SmallMap),
    /// A book of sixteen accounts.
    Book,
    /// An object of finitely many states, by its tables.
    Machine(WordMachine),
    /// An object by a program.
    Program(Program),
}

#[tactic(auto, using(crate::specs::SmallMeaning::state_long))]
impl SmallObject for SmallKind {
    ghost meaning = { small_meaning };

    fn width(&self) -> u64 {
        match self {
            SmallKind::Counter => SmallCounter.width(),
            SmallKind::Register => SmallRegister.width(),
            SmallKind::Counters(counters) => counters.width(),
            SmallKind::Queue(queue) => queue.width(),
            SmallKind::Stack(stack) => stack.width(),
            SmallKind::Map(map) => map.width(),
            SmallKind::Book => SmallBook.width(),
            SmallKind::Machine(machine) => machine.width(),
            SmallKind::Program(program) => program.width(),
        }
    }

    fn invocation_width(&self) -> u64 {
        match self {
            SmallKind::Counter => SmallCounter.invocation_width(),
            SmallKind::Register => SmallRegister.invocation_width(),
            SmallKind::Counters(counters) => counters.invocation_width(),
            SmallKind::Queue(queue) => queue.invocation_width(),
            SmallKind::Stack(stack) => stack.invocation_width(),
            SmallKind::Map(map) => map.invocation_width(),
            SmallKind::Book => SmallBook.invocation_width(),
            SmallKind::Machine(machine) => machine.invocation_width(),
            SmallKind::Program(program) => program.invocation_width(),
        }
    }

    fn reply_width(&self) -> u64 {
        match self {
            SmallKind::Counter => SmallCounter.reply_width(),
            SmallKind::Register => SmallRegister.reply_width(),
            SmallKind::Counters(counters) => counters.reply_width(),
            SmallKind::Queue(queue) => queue.reply_width(),
            SmallKind::Stack(stack) => stack.reply_width(),
            SmallKind::Map(map) => map.reply_width(),
            SmallKind::Book => SmallBook.reply_width(),
            SmallKind::Machine(machine) => machine.reply_width(),
            SmallKind::Program(program) => program.reply_width(),
        }
    }

    fn start(&self, state: &mut [u64]) {
        match self {
            SmallKind::Counter => SmallCounter.start(state),
            SmallKind::Register => SmallRegister.start(state),
            SmallKind::Counters(counters) => counters.start(state),
            SmallKind::Queue(queue) => queue.start(state),
            SmallKind::Stack(stack) => stack.start(state),
            SmallKind::Map(map) => map.start(state),
            SmallKind::Book => SmallBook.start(state),
            SmallKind::Machine(machine) => machine.start(state),
            SmallKind::Program(program) => program.start(state),
        }
    }

    fn apply(&self, state: &mut [u64], invocation: &[u64], reply: &mut [u64]) {
        match self {
            SmallKind::Counter => SmallCounter.apply(state, invocation, reply),
            SmallKind::Register => SmallRegister.apply(state, invocation, reply),
            SmallKind::Counters(counters) => counters.apply(state, invocation, reply),
            SmallKind::Queue(queue) => queue.apply(state, invocation, reply),
            SmallKind::Stack(stack) => stack.apply(state, invocation, reply),
            SmallKind::Map(map) => map.apply(state, invocation, reply),
            SmallKind::Book => SmallBook.apply(state, invocation, reply),
            SmallKind::Machine(machine) => machine.apply(state, invocation, reply),
            SmallKind::Program(program) => program.apply(state, invocation, reply),
        }
    }

    fn touches(&self, state: &[u64], invocation: &[u64]) -> Touched {
        match self {
            SmallKind::Counter => SmallCounter.touches(state, invocation),
            SmallKind::Register => SmallRegister.touches(state, invocation),
            SmallKind::Counters(counters) => counters.touches(state, invocation),
            SmallKind::Queue(queue) => queue.touches(state, invocation),
            SmallKind::Stack(stack) => stack.touches(state, invocation),
            SmallKind::Map(map) => map.touches(state, invocation),
            SmallKind::Book => SmallBook.touches(state, invocation),
            SmallKind::Machine(machine) => machine.touches(state, invocation),
            SmallKind::Program(program) => program.touches(state, invocation),
        }
    }

    ghost steady = { small_steady };
}
