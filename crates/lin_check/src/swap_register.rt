//! The smallest object that can be checked.

ghost use Rattle.std.specs.Prelude.{ℕ};
ghost use Rattle.seq_object.specs.SwapRegister.{swap_register};
ghost use Rattle.lin_check.specs.Parts.{in_one_part};

use crate::checkable::Checkable;
use crate::event::Event;
use crate::order::by_return;
use seq_object::SwapRegister;
use std::alloc::{AllocError, Global};

impl Checkable for SwapRegister {
    fn is_same(a: &u32, b: &u32) -> bool {
        *a == *b
    }

    fn key(state: &u32) -> u64 {
        u64::from(*state)
    }

    ghost part = { λ _. 0 };

    ghost parts = { λ object. in_one_part (swap_register object.start) };

    fn part_of(_inv: &u32) -> u64 {
        0
    }

    fn ranks(alloc: Global, history: &[Event<u32, u32>]) -> Result<Vec<u64>, AllocError> {
        by_return(alloc, history)
    }

    fn guess(
        _alloc: Global,
        _history: &[Event<u32, u32>],
    ) -> Result<Option<Vec<usize>>, AllocError> {
        Ok(None)
    }
}
