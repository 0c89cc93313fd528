//! The smallest object whose responses tell in which order its calls took effect.

ghost use Rattle.seq_object.specs.Exact.{nat_eq_exact};
ghost use Rattle.seq_object.specs.SwapRegister.{swap_register};

use crate::object::SeqObject;
use std::alloc::{AllocError, Global};

/// A register that keeps the last number; the response is the number before. It begins with `start`.
/// Each response names the call before it, so an order of calls can be read off: for tests, and as
/// an example of how an object is written.
#[derive(Clone, Copy, Debug)]
pub struct SwapRegister {
    /// The number that the first call is answered.
    pub start: u32,
}

impl SeqObject for SwapRegister {
    type State = u32;

    type Inv = u32;

    type Resp = u32;

    ghost sequential = { λ register. swap_register register.start };

    ghost same_inv = { nat_eq_exact };

    ghost same_resp = { nat_eq_exact };

    fn start(&self, _alloc: Global) -> Result<u32, AllocError> {
        Ok(self.start)
    }

    fn apply(&self, _alloc: Global, before: &u32, number: &u32) -> Result<(u32, u32), AllocError> {
        Ok((*number, *before))
    }

    fn copy_inv(_alloc: Global, number: &u32) -> Result<u32, AllocError> {
        Ok(*number)
    }
}
