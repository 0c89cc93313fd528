//! Closing the words and the buffers.
ghost use Rattle.std.specs.Prelude.{◌≡◌, ◌<◌};
ghost use Rattle.triple_buffers.specs.Closed.{AreLast, layout_in, value_in, word_in};
ghost use Rattle.triple_buffers.specs.Parties.{IsPartyOf, key_of, layout_of};

use crate::closed::{ClosedBuffers, free_but};
use crate::party::Party;
use crate::rule::{BufferRule, Buffers, Setup};
use crate::steps::FRESH;

impl<T, V, K: Drop, P: BufferRule<T, V, K>> Buffers<T, V, K, P> {
    /// Closes the words and buffers with one of the parties, which is one of these. Other parties may be dropped. It
    /// takes no memory.
    ///
    /// What is closed are the last words, and the values that were written last for this party: there are contents that
    /// keep the caller's rule, in which the view of the party's seat is the party's.
    pub fn close_with(self, party: Party<T, V>) -> ClosedBuffers<T>
        requires party { IsPartyOf self party }
        ensures layout { layout_in result ≡ layout_of self }
        ensures last { AreLast (P.holds (key_of self)) party result }
    {
        let Buffers { setup, table } = self;
        let Setup { about, layout } = setup;
        drop(about);
        let Party { seat, number, .. } = party;
        ClosedBuffers {
            layout,
            party: number,
            table: table.close_with(seat),
        }
    }
}

impl<T> ClosedBuffers<T> {
    /// What a word was at last.
    pub fn word(&self, word: u64) -> u64
        requires word { word < (layout_in self.now).words }
        ensures { result ≡ word_in self.now word }
    {
        self.table.word(word as usize)
    }
}

impl<T: Drop> ClosedBuffers<T> {
    /// What a party wrote last for the one that closed, where that wasn't taken. All else is dropped, and the memory
    /// is freed.
    pub fn take(self, from: u64) -> Option<T>
        requires from { from < (layout_in self).parties }
        ensures { result ≡ value_in self from }
    {
        let (layout, party, table) = self.apart();
        let word = table.word(layout.word(from, party));
        let value = free_but(table, layout.slot(from, party, word % FRESH));
        if word < FRESH {
            return None;
        }
        value
    }
}
