//! Two objects of words.
ghost use Rattle.std.specs.Prelude.{◌<◌, ◌^◌};
ghost use Rattle.uni_words.specs.Objects.{sticky, tally};

use crate::object::WordObject;

/// The greatest invocation that sticks a value.
const LAST_STICK: u64 = 1_000_000_000;

/// The modulus of a tally.
const TALLY_END: u64 = 2_147_483_648;

/// A sticky register. Its state is 0 while it is unset, and `v + 1` with the value `v`, up to
/// 999999999. An invocation `i` from 1 to 1000000000 sticks `i - 1`, which changes only the unset
/// state; 0 and each greater one read. The reply is the state afterwards.
#[derive(Clone, Copy, Drop)]
pub struct WordSticky;

impl WordObject for WordSticky {
    ghost sequential = { λ o. sticky };

    fn start(&self) -> u32 {
        0
    }

    fn next(&self, state: u32, inv: u64) -> u32 {
        if state == 0 && inv <= LAST_STICK {
            inv as u32
        } else {
            state
        }
    }

    fn answer(&self, state: u32, inv: u64) -> u32 {
        self.next(state, inv)
    }
}

/// A sum, 0 at the start. An invocation adds its number, modulo 2^31, and is answered the sum before.
#[derive(Clone, Copy, Drop)]
pub struct WordTally;

impl WordObject for WordTally {
    ghost sequential = { λ o. tally };

    fn start(&self) -> u32 {
        0
    }

    fn next(&self, state: u32, inv: u64) -> u32 {
        ((state as u64 + inv % TALLY_END) % TALLY_END) as u32
    }

    fn answer(&self, state: u32, _inv: u64) -> u32 {
        state
    }
}
