//! An object of several words that threads share.
ghost use Rattle.std.specs.Prelude.{[], ◌*◌, ◌+◌, ◌<◌, ◌≡◌, IfOk, length};
ghost use Rattle.uni_small.specs.Image.{AreWidths, buffer_words, first_image, reply_place, spell};
ghost use Rattle.uni_small.specs.Board.{AreFew, announce_word, argument_word, buffer_in, buffer_word, words_of};
ghost use Rattle.uni_small.specs.Plays.{first_view};

use crate::object::SmallObject;
use crate::rule::{Setup, SmallTable};
use crate::seat::Seen;
use crate::sizes::Sizes;
use crate::view::View;
use atomic_table::{Seat, Table};
use std::alloc::{AllocError, Global};
use thiserror::Error;

// The table is private to this module and to these three, so no other function can touch a word: each step of a
// call is counted in `steps`, and what opening, closing and taking in a seat load is no step of one.
mod close;
pub(crate) mod open;
mod steps;

/// The greatest number of processes.
pub const MAX_PROCESSES: u64 = 64;

/// Why an object is not opened. Where several hold, the first of these is told.
#[derive(Debug, Clone, Copy, PartialEq, Eq, Drop, Error)]
pub enum SmallOpenFault {
    /// The number of processes isn't from 1 to 64.
    #[error("the number of processes isn't from 1 to 64")]
    BadCount,
    /// A state, an invocation or a reply has more than 65536 words, or a reply has none.
    #[error("a state, an invocation or a reply has more than 65536 words, or a reply has none")]
    BadWidth,
    /// Memory was refused.
    #[error("out of memory")]
    Memory,
}

/// An object of several words that threads share, each by a seat of its own.
#[derive(Drop)]
pub struct SmallShared<O: SmallObject> {
    pub(crate) setup: Setup<O>,
    table: SmallTable<O>,
    pub ghost same: { table.shared.key ≡ setup },
    pub ghost sized: { table.shared.table_id.words ≡ words_of setup.sizes },
    pub ghost slotless: { table.shared.table_id.slots ≡ 0 },
    pub ghost few: { AreFew setup.sizes },
}

/// The words of a buffer at the start.
pub(crate) fn first_words<O: SmallObject>(
    alloc: Global,
    object: &O,
    sizes: &Sizes,
) -> Result<Vec<u64>, AllocError>
    requires few { AreFew sizes.now }
    requires wide { length (O.meaning object.now).object.initial ≡ sizes.now.state }
    ensures { IfOk result (λ words. words.items ≡ spell (first_image (O.meaning object.now).object sizes.now)) }
{
    let n = sizes.processes;
    let mut state = vec![in alloc; 0u64; sizes.state as usize]?;
    object.start(&mut state);
    let mut words = vec![in alloc; 0u64; (n + n * sizes.reply) as usize]?;
    words.extend_from_slice(&state)?;
    Ok(words)
}

impl<O: SmallObject> SmallShared<O> {
    /// An object of these sizes, and the seat of all its processes.
    pub(crate) fn with_one_seat(
        alloc: Global,
        object: O,
        sizes: Sizes,
    ) -> Result<(SmallShared<O>, Seat<Seen, View<O>>), AllocError>
        requires few { AreFew sizes }
        requires widths { AreWidths (O.meaning object) sizes }
        requires wide { length (O.meaning object).object.initial ≡ sizes.state }
        ensures { IfOk result (λ made. (made.0.setup ≡ record { object = object; sizes = sizes })
            × (made.1.table_id ≡ made.0.table.shared.table_id)
            × (made.1.me ≡ (first_view O.meaning object sizes, []))) }
    {
        let n = sizes.processes;
        let first = first_words(alloc, &object, &sizes)?;
        let mut words = vec![in alloc; 0u64; (1 + n + n * sizes.invocation) as usize]?;
        for _ in 0..2 * n {
            words.extend_from_slice(&first)?;
        }
        let setup = Setup { object, sizes };
        let (table, seat) = Table::of_words(alloc, &words, &setup)?;
        Ok((SmallShared { setup, table }, seat))
    }

    /// The word of an announcement.
    pub(crate) fn announce_word(&self, p: u64) -> usize
        requires { p < self.now.setup.sizes.processes }
        ensures { result ≡ announce_word p }
    {
        (1 + p) as usize
    }

    /// A word of an argument.
    pub(crate) fn argument_word(&self, p: u64, k: u64) -> usize
        requires { (p < self.now.setup.sizes.processes) × (k < self.now.setup.sizes.invocation) }
        ensures { result ≡ argument_word self.now.setup.sizes p k }
    {
        let sizes = &self.setup.sizes;
        (1 + sizes.processes + (p * sizes.invocation + k)) as usize
    }

    /// How many words a buffer has.
    pub(crate) fn buffer_words(&self) -> u64
        ensures { result ≡ buffer_words self.now.setup.sizes }
    {
        let sizes = &self.setup.sizes;
        let n = sizes.processes;
        n + n * sizes.reply + sizes.state
    }

    /// A word of a buffer.
    pub(crate) fn buffer_word(&self, b: u64, i: u64) -> usize
        requires { (b < 2 * self.now.setup.sizes.processes) × (i < buffer_words self.now.setup.sizes) }
        ensures { result ≡ buffer_word self.now.setup.sizes b i }
    {
        let sizes = &self.setup.sizes;
        let n = sizes.processes;
        (1 + n + n * sizes.invocation + b * self.buffer_words() + i) as usize
    }

    /// A word of the reply to process p in the buffer that s names.
    pub(crate) fn reply_word(&self, p: u64, s: u64, k: u64) -> usize
        requires inside { (p < self.now.setup.sizes.processes) × (k < self.now.setup.sizes.reply) }
        requires named { buffer_in s < 2 * self.now.setup.sizes.processes }
        ensures { result ≡ buffer_word self.now.setup.sizes (buffer_in s) (reply_place self.now.setup.sizes p k) }
    {
        let sizes = &self.setup.sizes;
        self.buffer_word(s % 128, sizes.processes + (p * sizes.reply + k))
    }
}
