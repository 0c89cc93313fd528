//! A register with compare-and-exchange.
ghost use Rattle.std.specs.Prelude.{refl};
ghost use Rattle.std.proofs.Common.{◌∙◌, length-set};
ghost use Rattle.small_objects.specs.Register.{call_fits, call_in, call_long, call_words, spelled};

use crate::words::Words;
use uni_small::SmallObject;

/// A call of a register. The reply is the value before.
#[derive(Clone, Copy, Debug, PartialEq, Eq, Drop)]
pub enum RegisterCall {
    /// Reads the value.
    Read,
    /// Writes a value.
    Write(u64),
    /// Writes the second value where the register has the first. So it has written where the reply is
    /// the first value.
    CompareExchange(u64, u64),
}

#[tactic(auto, using(crate::proofs::Short::three_set))]
impl Words for RegisterCall {
    ghost words = { 3 };

    ghost encode = { call_words };

    ghost decode = { call_in };

    fn count() -> u64 {
        3
    }

    fn store(&self, to: &mut [u64]) {
        let (operation, first, second) = match *self {
            RegisterCall::Read => (0, 0, 0),
            RegisterCall::Write(value) => (1, value, 0),
            RegisterCall::CompareExchange(expected, value) => (2, expected, value),
        };
        to[0] = operation;
        to[1] = first;
        to[2] = second;
    }

    fn load(from: &[u64]) -> RegisterCall {
        match from[0] {
            1 => RegisterCall::Write(from[1]),
            2 => RegisterCall::CompareExchange(from[1], from[2]),
            _ => RegisterCall::Read,
        }
    }

    ghost long = { call_long };

    ghost fits = { λ x valid. call_fits x };
}

/// A register of 64 bits. It is 0 at the start.
#[derive(Clone, Copy, Debug, Drop)]
pub struct SmallRegister;

#[tactic(auto, using(crate::proofs::Short::one_set))]
impl SmallObject for SmallRegister {
    ghost meaning = { λ o. spelled };

    fn width(&self) -> u64 {
        1
    }

    fn invocation_width(&self) -> u64 {
        3
    }

    fn reply_width(&self) -> u64 {
        1
    }

    fn start(&self, state: &mut [u64]) {
        state[0] = 0;
    }

    fn apply(&self, state: &mut [u64], invocation: &[u64], reply: &mut [u64]) {
        let before = state[0];
        state[0] = match RegisterCall::load(invocation) {
            RegisterCall::Read => before,
            RegisterCall::Write(value) => value,
            RegisterCall::CompareExchange(expected, value) => {
                if before == expected { value } else { before }
            }
        };
        reply[0] = before;
    }

    ghost steady = { λ o state inv long. (length-set state 0 _ ∙ long, refl) };
}
