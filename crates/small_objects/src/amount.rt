//! Amounts in words.
ghost use Rattle.small_objects.specs.Amount.{IsAmount, amount_fits, amount_in, amount_long, amount_words};

use crate::words::Words;
use ready_objects::Amount;

/// An amount that may be missing: whether it is there, and the amount.
#[tactic(auto, using(crate::proofs::Short::two_set))]
impl Words for Option<Amount> {
    ghost words = { 2 };

    ghost encode = { amount_words };

    ghost decode = { amount_in };

    ghost valid = { IsAmount };

    fn count() -> u64 {
        2
    }

    fn store(&self, to: &mut [u64]) {
        let (present, amount) = match *self {
            None => (0, 0),
            Some(amount) => (1, amount.number()),
        };
        to[0] = present;
        to[1] = amount;
    }

    fn load(from: &[u64]) -> Option<Amount> {
        if from[0] == 1 {
            Amount::new(from[1])
        } else {
            None
        }
    }

    ghost long = { amount_long };

    ghost fits = { amount_fits };
}
