//! Steps of a party.
ghost use Rattle.std.specs.Prelude.{◌≡◌, ◌+◌, ◌<◌, ◌≤◌, ◌==◌};
ghost use prog.Atomic.{either};
ghost use Rattle.triple_buffers.specs.Contents.{AllowsChange, AllowsTake, AllowsWrite};
ghost use Rattle.triple_buffers.specs.Parties.{IsPartyOf, key_of, number_of, parties_of, seat_of, steps_of};
ghost use Rattle.triple_buffers.specs.Parties.{view_of, words_of};

use crate::party::Party;
use crate::rule::{
    BufferRule, Buffers, Looks, OnWord, Opens, TakePlay, Takes, WordPlay, WritePlay, Writes,
};

/// The word of a buffer names the slot that lies between its ends, and is so much more where a value lies there that
/// wasn't taken.
pub(crate) const FRESH: u64 = 4;

impl<T, V, K, P: BufferRule<T, V, K>> Buffers<T, V, K, P> {
    /// Loads a word: one step.
    pub fn load<M: WordPlay<V>>(&self, party: &mut Party<T, V>, word: u64) -> u64
        requires party { IsPartyOf self.now party.old }
        requires word { word < words_of self.now }
        requires rule { AllowsChange (P.holds (key_of self.now)) (seat_of party.old) (view_of party.old) word (λ n. n)
            (M.then 0 0 (view_of party.old)) }
        ensures kept { IsPartyOf self.now party.new × (number_of party.new ≡ number_of party.old)
            × (seat_of party.new ≡ seat_of party.old) }
        ensures told { M.then 0 0 (view_of party.old) result (view_of party.new) }
        ensures one_step { steps_of party.new ≡ steps_of party.old + 1 }
    {
        self.table
            .shared
            .load::<OnWord<M>>(&mut party.seat, word as usize)
    }

    /// A word that is `old` becomes `new`, and another one stays; the answer is what it was: one step.
    pub fn compare_exchange<M: WordPlay<V>>(
        &self,
        party: &mut Party<T, V>,
        word: u64,
        old: u64,
        new: u64,
    ) -> u64
        requires party { IsPartyOf self.now party.old }
        requires word { word < words_of self.now }
        requires rule { AllowsChange (P.holds (key_of self.now)) (seat_of party.old) (view_of party.old) word
            (λ n. either (n == old) new n) (M.then old new (view_of party.old)) }
        ensures kept { IsPartyOf self.now party.new × (number_of party.new ≡ number_of party.old)
            × (seat_of party.new ≡ seat_of party.old) }
        ensures told { M.then old new (view_of party.old) result (view_of party.new) }
        ensures one_step { steps_of party.new ≡ steps_of party.old + 1 }
    {
        self.table
            .shared
            .compare_exchange::<OnWord<M>>(&mut party.seat, word as usize, old, new)
    }

    /// Writes the party's buffer for another one: two steps, of which the second is the write. The value takes the
    /// place of one that wasn't taken. The answer is what lay in the slot: one of the values that the party wrote
    /// before, or none.
    pub fn write<M: WritePlay<T, V>>(&self, party: &mut Party<T, V>, to: u64, value: T) -> Option<T>
        requires party { IsPartyOf self.now party.old }
        requires to { to < parties_of self.now }
        requires rule { AllowsWrite (P.holds (key_of self.now)) (seat_of party.old) (view_of party.old)
            (number_of party.old) to value (M.then (view_of party.old) to value) }
        ensures kept { IsPartyOf self.now party.new × (number_of party.new ≡ number_of party.old)
            × (seat_of party.new ≡ seat_of party.old) }
        ensures told { M.then (view_of party.old) to value (view_of party.new) }
        ensures two_steps { steps_of party.new ≡ steps_of party.old + 2 }
    {
        let word = self.setup.layout.word(party.number, to);
        self.table.shared.load::<Opens>(&mut party.seat, word);
        let back = party.backs[to as usize];
        let slot = self.setup.layout.slot(party.number, to, back);
        let before = self
            .table
            .shared
            .exchange(&mut party.seat, slot, Some(value));
        let found = self
            .table
            .shared
            .swap::<Writes<M>>(&mut party.seat, word, back + FRESH);
        party.backs[to as usize] = found % FRESH;
        before
    }

    /// Takes what another party's buffer has for this one: one step where it has nothing, and else two, of which the
    /// second is the take.
    pub fn take<M: TakePlay<T, V>>(&self, party: &mut Party<T, V>, from: u64) -> Option<T>
        requires party { IsPartyOf self.now party.old }
        requires from { from < parties_of self.now }
        requires rule { AllowsTake (P.holds (key_of self.now)) (seat_of party.old) (view_of party.old) from
            (number_of party.old) (M.then (view_of party.old) from) }
        ensures kept { IsPartyOf self.now party.new × (number_of party.new ≡ number_of party.old)
            × (seat_of party.new ≡ seat_of party.old) }
        ensures told { M.then (view_of party.old) from result (view_of party.new) }
        ensures few_steps { steps_of party.new ≤ steps_of party.old + 2 }
    {
        let word = self.setup.layout.word(from, party.number);
        if self.table.shared.load::<Looks<M>>(&mut party.seat, word) < FRESH {
            return None;
        }
        let front = party.fronts[from as usize];
        let found = self
            .table
            .shared
            .swap::<Takes<M>>(&mut party.seat, word, front);
        party.fronts[from as usize] = found % FRESH;
        if found < FRESH {
            return None;
        }
        let slot = self.setup.layout.slot(from, party.number, found % FRESH);
        self.table.shared.exchange(&mut party.seat, slot, None)
    }
}
