//! A bounded stack.
ghost use Rattle.std.specs.Prelude.{◌≡◌, refl};
ghost use Rattle.small_objects.specs.Stack.{IsStack, stack, stack_steady};
ghost use Rattle.small_objects.specs.Encoding.{first_word, of_one_word};

use crate::row::{clear, touching};
use uni_small::{SmallObject, Touched};

/// A stack of numbers that aren't 0, at most so many. An invocation that isn't 0 puts its number on, and is
/// answered 1, or 0 where the stack is full; 0 takes the newest number off, and is answered it, or 0 where
/// there is none. Its state is how many there are, and then they, the newest last.
#[derive(Clone, Copy, Debug, Drop)]
pub struct SmallStack {
    /// How many numbers fit.
    pub capacity: u32,
}

impl SmallStack {
    /// Applies an invocation of one word to a state that calls lead to, and gives the reply.
    fn step(&self, state: &mut [u64], inv: u64) -> u64
        requires { IsStack self.now.capacity state.old }
        ensures state { state.new ≡ (stack self.now.capacity).next state.old inv }
        ensures reply { result ≡ (stack self.now.capacity).answer state.old inv }
    {
        let count = state[0] as usize;
        if inv == 0 {
            if count == 0 {
                return 0;
            }
            let newest = state[count];
            state[count] = 0;
            state[0] = count as u64 - 1;
            return newest;
        }
        if count >= self.capacity as usize {
            return 0;
        }
        state[1 + count] = inv;
        state[0] = count as u64 + 1;
        1
    }
}

#[tactic(auto, using(crate::proofs::Rows::none_long, crate::proofs::Rows::zero_row, crate::proofs::Short::one_set))]
impl SmallObject for SmallStack {
    ghost meaning = { λ o. of_one_word (stack o.capacity) };

    fn width(&self) -> u64 {
        self.capacity as u64 + 1
    }

    fn invocation_width(&self) -> u64 {
        1
    }

    fn reply_width(&self) -> u64 {
        1
    }

    fn start(&self, state: &mut [u64]) {
        clear(state);
    }

    fn apply(&self, state: &mut [u64], invocation: &[u64], reply: &mut [u64]) {
        reply[0] = self.step(state, invocation[0]);
    }

    fn touches(&self, state: &[u64], invocation: &[u64]) -> Touched {
        let count = state[0];
        let place = if invocation[0] == 0 { count } else { count + 1 };
        touching(1, place)
    }

    ghost steady = { λ o state inv long. (stack_steady o.capacity state (first_word inv) long, refl) };
}
