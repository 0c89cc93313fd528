//! An array of counters.
ghost use Rattle.std.specs.Prelude.{refl};
ghost use Rattle.std.proofs.Common.{◌∙◌, length-set};
ghost use Rattle.small_objects.specs.Counters.{call_in, call_words, counters, spelled};

use crate::row::clear;
use crate::words::Words;
use uni_small::{SmallObject, Touched};

/// A call of an array of counters.
#[derive(Clone, Copy, Debug, PartialEq, Eq, Drop)]
pub struct CountersCall {
    /// The index of a counter.
    pub counter: u64,
    /// What is added to it.
    pub operand: u64,
}

#[tactic(auto, using(crate::proofs::Short::two_set))]
impl Words for CountersCall {
    ghost words = { 2 };

    ghost encode = { call_words };

    ghost decode = { call_in };

    fn count() -> u64 {
        2
    }

    fn store(&self, to: &mut [u64]) {
        to[0] = self.counter;
        to[1] = self.operand;
    }

    fn load(from: &[u64]) -> CountersCall {
        CountersCall {
            counter: from[0],
            operand: from[1],
        }
    }

    ghost long = { λ x. refl };

    ghost fits = { λ x valid. refl };
}

/// So many counters modulo 2^64, each from 0. A call adds its operand to one of them, and is answered the
/// number before. One that names none changes nothing, and is answered 0.
#[derive(Clone, Copy, Debug, Drop)]
pub struct SmallCounters {
    /// How many counters there are.
    pub count: u64,
}

#[tactic(auto, using(crate::proofs::Short::one_set))]
impl SmallObject for SmallCounters {
    ghost meaning = { λ o. spelled o.count };

    fn width(&self) -> u64 {
        self.count
    }

    fn invocation_width(&self) -> u64 {
        2
    }

    fn reply_width(&self) -> u64 {
        1
    }

    fn start(&self, state: &mut [u64]) {
        clear(state);
    }

    fn apply(&self, state: &mut [u64], invocation: &[u64], reply: &mut [u64]) {
        let CountersCall { counter, operand } = CountersCall::load(invocation);
        let i = counter as usize;
        if i >= state.len() {
            reply[0] = 0;
            return;
        }
        let before = state[i];
        state[i] = before.wrapping_add(operand);
        reply[0] = before;
    }

    fn touches(&self, _state: &[u64], invocation: &[u64]) -> Touched {
        let counter = invocation[0];
        Touched {
            head: 0,
            from: counter,
            to: counter.saturating_add(1),
        }
    }

    ghost steady = { λ o state inv long. (length-set state _ _ ∙ long, refl) };
}
