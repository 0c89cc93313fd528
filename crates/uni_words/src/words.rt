//! The words of a closed log.
ghost use Rattle.std.specs.Prelude.{◌≡◌, ◌≤◌};
ghost use Rattle.std.specs.Mem.Slots.{slots_items, slots_len, IsFull};
ghost use Rattle.uni_model.specs.Places.{seq_of};
ghost use Rattle.uni_model.specs.Places.Name.{Anchor};
ghost use Rattle.uni_words.specs.Log.{AreCallCells, told_memory};
ghost use Rattle.uni_words.specs.Words.{words_of};

use atomic_table::Closed;
use std::alloc::Global;

/// The words of a log that is closed, with how many processes it had and how many calls each could
/// make.
pub struct Words {
    pub(crate) n: u64,
    pub(crate) k: u64,
    pub(crate) closed: Closed<u8, Global>,
    pub ghost full: { IsFull closed.words × (slots_len closed.words ≡ words_of n k) },
    pub ghost empty: { slots_len closed.slots ≡ 0 },
    pub ghost few: { (1 ≤ n) × (n ≤ 64) × (1 ≤ k) × (k ≤ 4096) },
    pub ghost first: { seq_of (told_memory n k (slots_items closed.words)) Anchor ≡ 1 },
    pub ghost cells: { AreCallCells n k (slots_items closed.words) },
}

impl Drop for Words {
    fn drop(self) {
        let Words { n: _, k: _, closed } = self;
        closed.free();
    }
}
