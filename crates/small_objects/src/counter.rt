//! A counter.
ghost use Rattle.std.specs.Prelude.{refl};
ghost use Rattle.std.proofs.Common.{◌∙◌, length-set};
ghost use Rattle.small_objects.specs.Counter.{counter};
ghost use Rattle.small_objects.specs.Encoding.{of_one_word};

use uni_small::SmallObject;

/// A counter modulo 2^64, from 0. An invocation adds its number, and is answered the sum before.
#[derive(Clone, Copy, Debug, Drop)]
pub struct SmallCounter;

#[tactic(auto, using(crate::proofs::Short::one_set))]
impl SmallObject for SmallCounter {
    ghost meaning = { λ o. of_one_word counter };

    fn width(&self) -> u64 {
        1
    }

    fn invocation_width(&self) -> u64 {
        1
    }

    fn reply_width(&self) -> u64 {
        1
    }

    fn start(&self, state: &mut [u64]) {
        state[0] = 0;
    }

    fn apply(&self, state: &mut [u64], invocation: &[u64], reply: &mut [u64]) {
        let before = state[0];
        state[0] = before.wrapping_add(invocation[0]);
        reply[0] = before;
    }

    ghost steady = { λ o state inv long. (length-set state 0 _ ∙ long, refl) };
}
