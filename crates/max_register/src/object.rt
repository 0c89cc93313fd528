//! A max-register, as an object of words.

ghost use Rattle.max_register.specs.MaxRegister.{max_register};

use universal::WordObject;

/// The modulus of what is written, 2^31.
const VALUES: u64 = 2_147_483_648;

/// A register that keeps the greatest number that was written. It is 0 at the start. An invocation
/// writes its number modulo 2^31, and is answered the value before; so 0 reads.
#[derive(Clone, Copy, Drop)]
pub struct MaxRegister;

impl WordObject for MaxRegister {
    ghost sequential = { λ _. max_register };

    fn start(&self) -> u32 {
        0
    }

    fn next(&self, state: u32, inv: u64) -> u32 {
        state.max((inv % VALUES) as u32)
    }

    fn answer(&self, state: u32, _inv: u64) -> u32 {
        state
    }
}
