//! Reading the log of closed words.
ghost use Rattle.std.specs.Prelude.{◌≡◌, ◌+◌, ◌*◌, ◌<◌, ◌≤◌, IfOk, Some, map, slice_index};
ghost use Rattle.uni_model.specs.Chain.{invoked_at, response_in};
ghost use Rattle.uni_model.specs.Indices.{name_of};
ghost use Rattle.uni_words.specs.Belongs.{count_in, log_in, row_in, words_in};
ghost use Rattle.uni_words.specs.Log.{entry_shown, told_memory};
ghost use Rattle.uni_words.specs.Words.{cells_of, start_of};

use crate::words::Words;
use seq_object::CallId;
use std::alloc::{AllocError, Global};

/// An entry of the log: a call that took effect.
#[derive(Debug, Clone, Copy, PartialEq, Eq, Drop)]
pub struct WordEntry {
    /// Its number; the first entry has 2.
    pub seq: u64,
    /// The call.
    pub call: CallId,
    /// Its invocation.
    pub inv: u64,
    /// Its reply, where it is settled.
    pub reply: Option<u32>,
}

impl Words {
    /// The word of a cell in the column that begins so many times the number of cells after the heads.
    fn word_of_cell(&self, column: u64, cell: u64) -> u64
        requires { (column < 5) × (cell < cells_of (count_in self.now) (row_in self.now)) }
        ensures { result ≡ slice_index (words_in self.now)
            (start_of (count_in self.now) (row_in self.now) (column + 2) + cell) }
    {
        let cells = self.n * self.k + 1;
        self.closed
            .word((2 * self.n + column * cells + cell) as usize)
    }

    /// The entry of a call's cell, with this number.
    fn entry(&self, cell: u64, seq: u64) -> WordEntry
        requires { (1 ≤ cell) × (cell < cells_of (count_in self.now) (row_in self.now)) }
        ensures seq { (entry_shown result).number ≡ seq }
        ensures call { invoked_at (told_memory (count_in self.now) (row_in self.now) (words_in self.now))
            (name_of (count_in self.now) cell) ≡ Some (entry_shown result).call }
        ensures reply { response_in (told_memory (count_in self.now) (row_in self.now) (words_in self.now))
            (name_of (count_in self.now) cell) ≡ (entry_shown result).response }
    {
        let new = self.word_of_cell(4, cell);
        let reply = if new == 0 {
            None
        } else {
            Some((new % 4_294_967_296 / 2) as u32)
        };
        WordEntry {
            seq,
            call: CallId {
                process: ((cell - 1) % self.n) as u32,
                nth: (cell - 1) / self.n,
            },
            inv: self.word_of_cell(0, cell),
            reply,
        }
    }
}

/// The entries of the log, in the order in which the calls took effect.
///
/// An `Err` says that memory was refused.
pub fn read_log(alloc: Global, words: &Words) -> Result<Vec<WordEntry>, AllocError>
    ensures log { IfOk result (λ entries. map entry_shown entries.items ≡ log_in words.now) }
{
    let mut entries = Vec::new(alloc);
    let mut at = 0;
    for place in 0..words.n * words.k {
        let link = words.word_of_cell(3, at);
        if link == 0 {
            return Ok(entries);
        }
        at = link - 1;
        entries.push(words.entry(at, place + 2))?;
    }
    Ok(entries)
}
