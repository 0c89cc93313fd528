//! Cells in columns, one for each field.

ghost use Rattle.std.specs.Prelude.{◌≡◌, ◌∷◌, [], ◌+◌, ◌<◌, ◌≤◌, IfOk, OnOk, OnErr, IsSome, Some, None, length};
ghost use Rattle.std.specs.Prelude.{slice_index_or, option_map};
ghost use Rattle.std.specs.Option.{option_copied};
ghost use Rattle.cell_arena.specs.CellRecord.{anchor_with, settled, with_seq, with_before, with_after, with_new};
ghost use Rattle.cell_arena.specs.Columns.{blank, filled, with_cell};

use crate::cell_id::CellId;
use consensus_cell::Settle;
use std::alloc::{AllocError, Global};
use std::marker::Model;
use std::mem;

/// A column for each field of a cell. Room is reserved for all cells of an era, and filled up to the last
/// one that was made. A contract sees for how many there is room, and what stands at each index.
#[derive(Drop)]
pub(crate) struct Columns<S, I, R> {
    room: usize,
    inv: Vec<Option<I>>,
    seq: Vec<u64>,
    before: Vec<Option<CellId>>,
    after: Vec<Settle<CellId>>,
    state: Vec<Settle<(S, Option<R>)>>,
}

impl<S, I, R> Model for Columns<S, I, R> {
    ghost use Rattle.std.specs.Prelude.{◌≤◌, vec_capacity};
    ghost use Rattle.cell_arena.specs.Columns.{Reserved, cells_in, AreEven};

    ghost Value = { Reserved S I R };

    ghost view = { λ c. record {
      room = c.room;
      cells = cells_in (record {
        inv = c.inv.items;
        seq = c.seq.items;
        before = c.before.items;
        after = c.after.items;
        new = c.state.items;
      });
    } };

    ghost invariant = { λ c. AreEven (record {
      inv = c.inv.items;
      seq = c.seq.items;
      before = c.before.items;
      after = c.after.items;
      new = c.state.items;
    }) × ((c.room ≤ vec_capacity c.inv) × ((c.room ≤ vec_capacity c.seq) × ((c.room ≤ vec_capacity c.before)
        × ((c.room ≤ vec_capacity c.after) × (c.room ≤ vec_capacity c.state))))) };
}

impl<S: Drop, I: Drop, R: Drop> Columns<S, I, R> {
    /// Columns with room for so many cells, and no cell. An `Err` says that memory was refused.
    pub(crate) fn reserved(alloc: Global, room: usize) -> Result<Self, AllocError>
        ensures { IfOk result (λ columns. columns ≡ record { room = room; cells = [] }) }
    {
        let inv = Vec::with_capacity(alloc, room)?;
        let seq = Vec::with_capacity(alloc, room)?;
        let before = Vec::with_capacity(alloc, room)?;
        let after = Vec::with_capacity(alloc, room)?;
        let state = Vec::with_capacity(alloc, room)?;
        Ok(Columns {
            room,
            inv,
            seq,
            before,
            after,
            state,
        })
    }

    /// Reserves room for at least so many cells. An `Err` says that memory was refused: nothing is changed then.
    pub(crate) fn reserve(&mut self, room: usize) -> Result<(), AllocError>
        ensures cells { self.new.cells ≡ self.old.cells }
        ensures room { OnOk result (room ≤ self.new.room) }
        ensures unchanged { OnErr result (self.new ≡ self.old) }
    {
        let more = room.saturating_sub(self.seq.len());
        self.inv.reserve_exact(more)?;
        self.seq.reserve_exact(more)?;
        self.before.reserve_exact(more)?;
        self.after.reserve_exact(more)?;
        self.state.reserve_exact(more)?;
        self.room = self.room.max(room);
        Ok(())
    }

    /// The number at an index.
    #[inline]
    #[tactic(auto, using(crate::proofs::CellsIn::columns))]
    pub(crate) fn seq(&self, at: usize) -> u64
        requires { at < length self.now.cells }
        ensures { result ≡ (slice_index_or self.now.cells at blank).seq }
    {
        self.seq[at]
    }

    /// What the call at an index asks for.
    #[inline]
    #[tactic(auto, using(crate::proofs::CellsIn::columns))]
    pub(crate) fn inv(&self, at: usize) -> Option<&I>
        requires { at < length self.now.cells }
        ensures { option_copied result ≡ (slice_index_or self.now.cells at blank).inv }
    {
        let inv = &self.inv[at];
        inv.as_ref()
    }

    /// The next cell, settled at an index.
    #[inline]
    #[tactic(auto, using(crate::proofs::CellsIn::columns))]
    pub(crate) fn after(&self, at: usize) -> Option<CellId>
        requires { at < length self.now.cells }
        ensures { result ≡ (slice_index_or self.now.cells at blank).after }
    {
        let after = &self.after[at];
        after.get().copied()
    }

    /// The cell before, at an index.
    #[inline]
    #[tactic(auto, using(crate::proofs::CellsIn::columns))]
    pub(crate) fn before(&self, at: usize) -> Option<CellId>
        requires { at < length self.now.cells }
        ensures { result ≡ (slice_index_or self.now.cells at blank).before }
    {
        self.before[at]
    }

    /// The state and the response, settled at an index.
    #[inline]
    #[tactic(auto, using(crate::proofs::CellsIn::columns))]
    pub(crate) fn new_of(&self, at: usize) -> Option<&(S, Option<R>)>
        requires { at < length self.now.cells }
        ensures { option_copied result ≡ (slice_index_or self.now.cells at blank).new }
    {
        let new = &self.state[at];
        new.get()
    }

    /// Makes a cell at an index; the columns are filled up to it.
    pub(crate) fn make(&mut self, at: usize, inv: I)
        requires { at < self.old.room }
        ensures { self.new ≡ with_cell (filled self.old (at + 1)) at
            (record (slice_index_or self.old.cells at blank) { inv = Some inv }) }
    {
        for _ in self.seq.len()..at + 1 {
            self.push_blank();
        }
        self.set_inv(at, inv);
    }

    /// Writes what the call at an index asks for.
    #[tactic(auto, using(crate::proofs::CellsIn::columns))]
    fn set_inv(&mut self, at: usize, inv: I)
        requires { at < length self.old.cells }
        ensures { self.new ≡ with_cell self.old at
            (record (slice_index_or self.old.cells at blank) { inv = Some inv }) }
    {
        self.inv[at] = Some(inv);
    }

    /// Adds a place where nothing is made. Its room is reserved, so no push is refused.
    fn push_blank(&mut self)
        requires { length self.old.cells < self.old.room }
        ensures { self.new ≡ filled self.old (length self.old.cells + 1) }
    {
        let _ = self.inv.push(None);
        let _ = self.seq.push(0);
        let _ = self.before.push(None);
        let _ = self.after.push(Settle::new());
        let _ = self.state.push(Settle::new());
    }

    /// Writes the number at an index.
    #[inline]
    #[tactic(auto, using(crate::proofs::CellsIn::columns))]
    pub(crate) fn set_seq(&mut self, at: usize, seq: u64)
        requires { at < length self.old.cells }
        ensures { self.new ≡ with_cell self.old at (with_seq seq (slice_index_or self.old.cells at blank)) }
    {
        self.seq[at] = seq;
    }

    /// Writes the cell before, at an index.
    #[inline]
    #[tactic(auto, using(crate::proofs::CellsIn::columns))]
    pub(crate) fn set_before(&mut self, at: usize, before: CellId)
        requires { at < length self.old.cells }
        ensures { self.new ≡ with_cell self.old at (with_before before (slice_index_or self.old.cells at blank)) }
    {
        self.before[at] = Some(before);
    }

    /// Proposes the next cell at an index; the answer is what is settled then.
    #[inline]
    #[tactic(auto, using(crate::proofs::CellsIn::columns))]
    pub(crate) fn decide_after(&mut self, at: usize, next: CellId) -> CellId
        requires { at < length self.old.cells }
        ensures answer { result ≡ settled (slice_index_or self.old.cells at blank).after next }
        ensures cell { self.new ≡ with_cell self.old at (with_after next (slice_index_or self.old.cells at blank)) }
    {
        let after = &mut self.after[at];
        *after.decide(next)
    }

    /// Proposes the state and the response at an index.
    #[inline]
    #[tactic(auto, using(crate::proofs::CellsIn::columns))]
    pub(crate) fn settle(&mut self, at: usize, new: (S, Option<R>))
        requires { at < length self.old.cells }
        ensures { self.new ≡ with_cell self.old at (with_new new (slice_index_or self.old.cells at blank)) }
    {
        let settle = &mut self.state[at];
        settle.decide(new);
    }

    /// Takes the state out at an index where one is settled.
    #[tactic(auto, using(crate::proofs::CellsIn::columns))]
    pub(crate) fn take_state(&mut self, at: usize) -> S
        requires within { at < length self.old.cells }
        requires settled { IsSome (slice_index_or self.old.cells at blank).new }
        ensures state { option_map (λ new. new.0) (slice_index_or self.old.cells at blank).new ≡ Some result }
        ensures cell { self.new ≡ with_cell self.old at
            (record (slice_index_or self.old.cells at blank) { new = None }) }
    {
        let settled = mem::replace(&mut self.state[at], Settle::new());
        let (state, _) = settled.into_inner().unwrap();
        state
    }

    /// Takes every cell out, and puts an anchor in.
    pub(crate) fn begin(&mut self, state: S, seq: u64)
        requires { 0 < self.old.room }
        ensures { self.new ≡ record self.old { cells = anchor_with state seq ∷ [] } }
    {
        self.clear();
        self.push_blank();
        self.set_seq(0, seq);
        self.settle(0, (state, None));
    }

    /// Takes every cell out.
    fn clear(&mut self)
        ensures { self.new ≡ record self.old { cells = [] } }
    {
        self.inv.clear();
        self.seq.clear();
        self.before.clear();
        self.after.clear();
        self.state.clear();
    }
}
