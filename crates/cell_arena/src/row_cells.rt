//! An arena whose cells are kept in rows.

ghost use Rattle.std.specs.Prelude.{◌≡◌, ◌≤◌, ℕ, IfOk, IsSome, Some, option_map};
ghost use Rattle.std.specs.Borrow.{sem};
ghost use Rattle.cell_arena.specs.CellRecord.{anchor_with, settled, with_new, ChangesOnly, IsUnchanged, HasOnlyAnchor};
ghost use Rattle.cell_arena.specs.Ending.{EndsSo};
ghost use Rattle.cell_arena.specs.contracts.row_cells.RowCells.{the_row};
ghost use Rattle.cell_arena.specs.Arena.{processes_of, made_of, cell_of};

use crate::cell_id::CellId;
use crate::cells::Cells;
use crate::fault::ArenaFault;
use crate::rows::CellRows;
use consensus_cell::Settle;
use std::alloc::{AllocError, Global};
use std::marker::Model;
use std::mem;

/// An arena that keeps a vector of cells for each process, which takes memory as cells are made.
#[derive(Drop)]
pub struct RowCells<S, I, R> {
    rows: CellRows<S, I, R>,
}

impl<S, I, R> Model for RowCells<S, I, R> {
    ghost use Rattle.cell_arena.specs.Arena.{Arena};
    ghost use Rattle.cell_arena.specs.Rows.{arena_of};

    ghost Value = { Arena S I R };

    ghost view = { λ a. arena_of a.rows };
}

impl<S: Drop, I: Drop, R: Drop> RowCells<S, I, R> {
    /// The arena of `n` processes, each of which can make `k` cells in an era, with the anchor
    /// alone: it has this state and the number `seq`.
    ///
    /// There are 1 to 64 processes, `k` is from 1 to 4096, and `seq` is at least 1. An `Err` says
    /// that memory was refused.
    pub fn opened(alloc: Global, n: u64, k: u64, state: S, seq: u64) -> Result<Self, AllocError>
        requires processes { (1 ≤ n) × (n ≤ 64) }
        requires row { (1 ≤ k) × (k ≤ 4096) }
        requires threaded { 1 ≤ seq }
        ensures cell { IfOk result (λ arena. HasOnlyAnchor (cell_of arena) (Some (anchor_with state seq))) }
        ensures made { IfOk result (λ arena. (p : ℕ) → made_of arena p ≡ 0) }
        ensures shape { IfOk result (λ arena. (processes_of arena ≡ n) × (arena.row ≡ k)) }
    {
        let rows = CellRows::opened(alloc, n, k, state, seq)?;
        Ok(RowCells { rows })
    }
}

impl<S: Drop, I: Drop, R: Copy> Cells for RowCells<S, I, R> {
    type Inv = I;

    type State = S;

    type Resp = R;

    ghost processes = { processes_of };

    ghost row = { λ a. a.row };

    ghost cell = { cell_of };

    ghost made = { made_of };

    fn shape(&self) {
        self.rows.shape();
    }

    fn room(&self, p: u64) -> u64 {
        self.rows.room(p)
    }

    fn make(&mut self, _alloc: Global, p: u64, inv: I) -> Result<CellId, (ArenaFault, I)> {
        let processes = self.rows.processes();
        let nth = self.rows.made(p);
        if self.rows.room(p) == 0 {
            return Err((ArenaFault::RowFull(p), inv));
        }
        if let Err(inv) = self.rows.add(p, inv) {
            return Err((ArenaFault::Memory, inv));
        }
        Ok(CellId::of(processes, p, nth))
    }

    fn seq(&self, id: CellId) -> u64 {
        let cell = self.rows.cell(id);
        cell.seq.read()
    }

    fn inv(&self, id: CellId) -> Option<&I> {
        let cell = self.rows.cell(id);
        cell.inv.as_ref()
    }

    fn after(&self, id: CellId) -> Option<CellId> {
        let cell = self.rows.cell(id);
        cell.after.get().copied()
    }

    fn before(&self, id: CellId) -> Option<CellId> {
        let cell = self.rows.cell(id);
        cell.before.read()
    }

    fn new_of(&self, id: CellId) -> Option<&(S, Option<R>)> {
        let cell = self.rows.cell(id);
        cell.new.get()
    }

    fn set_seq(&mut self, id: CellId, seq: u64) {
        let cell = self.rows.cell_mut(id);
        cell.seq.write(seq);
    }

    fn set_before(&mut self, id: CellId, before: CellId) {
        let cell = self.rows.cell_mut(id);
        cell.before.write(Some(before));
    }

    fn decide_after(&mut self, id: CellId, next: CellId) -> CellId {
        let cell = self.rows.cell_mut(id);
        *cell.after.decide(next)
    }

    fn decide_new(&mut self, id: CellId, new: (S, Option<R>)) -> &(S, Option<R>)
        requires { IsSome (cell_of self.old id) }
        ensures answer { option_map (λ c. settled c.new new) (cell_of self.old id) ≡ Some result.now }
        ensures* changes { sem 𝓛 (EndsSo (the_row S.row I.row R.row) self.entry (λ last.
            ChangesOnly (cell_of self.old) (cell_of last) id (option_map (with_new new) (cell_of self.old id))
            × IsUnchanged (made_of self.old) (made_of last)
            × (processes_of last ≡ processes_of self.old) × (last.row ≡ self.old.row))) }
    {
        self.rows.settle(id, new);
        let cell = self.rows.cell(id);
        cell.new.get().unwrap()
    }

    fn clear_to(&mut self, last: CellId) {
        let cell = self.rows.cell_mut(last);
        let seq = cell.seq.read();
        let settled = mem::replace(&mut cell.new, Settle::new());
        let (state, _) = settled.into_inner().unwrap();
        self.rows.clear(state, seq);
    }
}
