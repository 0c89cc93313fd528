//! An arena whose cells are kept in columns.

ghost use Rattle.std.specs.Prelude.{◌≡◌, ◌+◌, ◌*◌, ◌-◌, ◌<◌, ◌≤◌, ◌↔◌, ℕ, IfOk};
ghost use Rattle.std.specs.Prelude.{OnOk, OnErr, IfErr, IsErrAnd, IsSome, IsSomeAnd, Some, option_map};
ghost use Rattle.std.specs.Borrow.{sem};
ghost use Rattle.cell_arena.specs.CellRecord.{anchor_with, anchor_for, fresh, index_of, settled, with_new, ChangesOnly};
ghost use Rattle.cell_arena.specs.CellRecord.{IsUnchanged, HasOnlyAnchor};
ghost use Rattle.cell_arena.specs.Arena.{processes_of, made_of, cell_of};
ghost use Rattle.cell_arena.specs.Ending.{EndsSo};
ghost use Rattle.cell_arena.specs.contracts.column_cells.ColumnCells.{the_row};

use crate::cell_id::CellId;
use crate::cells::Cells;
use crate::columns::Columns;
use crate::fault::ArenaFault;
use std::alloc::{AllocError, Global};
use std::marker::Model;

/// An arena that keeps a column for each field of a cell, and reserves the room of an era at once:
/// no call but `opened` and `clear_for` takes memory.
#[derive(Drop)]
pub struct ColumnCells<S, I, R> {
    row: u64,
    made: Vec<u64>,
    columns: Columns<S, I, R>,
}

impl<S, I, R> Model for ColumnCells<S, I, R> {
    ghost use Rattle.cell_arena.specs.Arena.{Arena};
    ghost use Rattle.cell_arena.specs.ColumnCells.{arena_of, IsFlat};

    ghost Value = { Arena S I R };

    ghost view = { λ a. arena_of (record { row = a.row; made = a.made.items; columns = a.columns }) };

    ghost invariant = { λ a. IsFlat (record { row = a.row; made = a.made.items; columns = a.columns }) };
}

impl<S: Drop, I: Drop, R: Drop> ColumnCells<S, I, R> {
    /// The arena of `n` processes, each of which can make `k` cells in an era, with the anchor
    /// alone: it has this state and the number `seq`. The room for `n * k + 1` cells is reserved.
    ///
    /// There are 1 to 64 processes, `k` is from 1 to 4096, and `seq` is at least 1. An `Err` says
    /// that memory was refused.
    pub fn opened(alloc: Global, n: u64, k: u64, state: S, seq: u64) -> Result<Self, AllocError>
        requires processes { (1 ≤ n) × (n ≤ 64) }
        requires row { (1 ≤ k) × (k ≤ 4096) }
        requires threaded { 1 ≤ seq }
        ensures cell { IfOk result (λ arena. HasOnlyAnchor (cell_of arena) (Some (anchor_with state seq))) }
        ensures made { IfOk result (λ arena. (p : ℕ) → made_of arena p ≡ 0) }
        ensures shape { IfOk result (λ arena. (processes_of arena ≡ n) × (arena.row ≡ k)) }
    {
        let made = vec![in alloc; 0; n as usize]?;
        let mut columns = Columns::reserved(alloc, (k * n + 1) as usize)?;
        columns.begin(state, seq);
        Ok(ColumnCells {
            row: k,
            made,
            columns,
        })
    }

    /// Begins an era of `m` processes: what `clear_to` does, for another number of them. The room
    /// for `m * k + 1` cells, where `k` is how many a row has, is made first.
    ///
    /// `last` has to be threaded, that is its number isn't 0, and its state settled. There are 1 to
    /// 64 processes. An `Err` says that memory was refused: nothing is changed then.
    pub fn clear_for(&mut self, alloc: Global, last: CellId, m: u64) -> Result<(), AllocError>
        requires last { IsSomeAnd (cell_of self.old last) (λ c. (0 < c.seq) × IsSome c.new) }
        requires processes { (1 ≤ m) × (m ≤ 64) }
        ensures cell { OnOk result (HasOnlyAnchor (cell_of self.new) (option_map anchor_for (cell_of self.old last))) }
        ensures made { OnOk result ((p : ℕ) → made_of self.new p ≡ 0) }
        ensures shape { OnOk result ((processes_of self.new ≡ m) × (self.new.row ≡ self.old.row)) }
        ensures unchanged { OnErr result (self.new ≡ self.old) }
    {
        let at = last.index() as usize;
        let made = vec![in alloc; 0; m as usize]?;
        self.columns.reserve((self.row * m + 1) as usize)?;
        let seq = self.columns.seq(at);
        let state = self.columns.take_state(at);
        self.columns.begin(state, seq);
        self.made = made;
        Ok(())
    }

    /// Proposes the state and the response of a cell's call.
    #[inline]
    fn settle(&mut self, id: CellId, new: (S, Option<R>))
        requires { IsSome (cell_of self.old id) }
        ensures cell { ChangesOnly (cell_of self.old) (cell_of self.new) id
            (option_map (with_new new) (cell_of self.old id)) }
        ensures made { IsUnchanged (made_of self.old) (made_of self.new) }
        ensures shape { (processes_of self.new ≡ processes_of self.old) × (self.new.row ≡ self.old.row) }
    {
        self.columns.settle(id.index() as usize, new);
    }
}

impl<S: Drop, I: Drop, R: Copy> Cells for ColumnCells<S, I, R> {
    type Inv = I;

    type State = S;

    type Resp = R;

    ghost processes = { processes_of };

    ghost row = { λ a. a.row };

    ghost cell = { cell_of };

    ghost made = { made_of };

    fn shape(&self) {
        let _ = &self.columns;
    }

    #[inline]
    fn room(&self, p: u64) -> u64 {
        self.row - self.made[p as usize]
    }

    fn make(&mut self, _alloc: Global, p: u64, inv: I) -> Result<CellId, (ArenaFault, I)>
        requires { p < processes_of self.old }
        ensures id { IfOk result (λ id. id ≡ index_of (processes_of self.old) p (made_of self.old p)) }
        ensures cell { IfOk result (λ id. ChangesOnly (cell_of self.old) (cell_of self.new) id (Some (fresh inv))) }
        ensures made { OnOk result (ChangesOnly (made_of self.old) (made_of self.new) p (made_of self.old p + 1)) }
        ensures shape { (processes_of self.new ≡ processes_of self.old) × (self.new.row ≡ self.old.row) }
        ensures full { IsErrAnd result (λ e. e.0 ≡ ArenaFault.RowFull p) ↔ (made_of self.old p ≡ self.old.row) }
        ensures fault { IfErr result (λ e. e.0 ≡ ArenaFault.RowFull p) }
        ensures handed_back { IfErr result (λ e. e.1 ≡ inv) }
        ensures unchanged { OnErr result (self.new ≡ self.old) }
    {
        let nth = self.made[p as usize];
        if nth == self.row {
            return Err((ArenaFault::RowFull(p), inv));
        }
        let id = CellId::of(self.made.len() as u64, p, nth);
        self.columns.make(id.index() as usize, inv);
        self.made[p as usize] = nth + 1;
        Ok(id)
    }

    #[inline]
    fn seq(&self, id: CellId) -> u64 {
        self.columns.seq(id.index() as usize)
    }

    #[inline]
    fn inv(&self, id: CellId) -> Option<&I> {
        self.columns.inv(id.index() as usize)
    }

    #[inline]
    fn after(&self, id: CellId) -> Option<CellId> {
        self.columns.after(id.index() as usize)
    }

    #[inline]
    fn before(&self, id: CellId) -> Option<CellId> {
        self.columns.before(id.index() as usize)
    }

    #[inline]
    fn new_of(&self, id: CellId) -> Option<&(S, Option<R>)> {
        self.columns.new_of(id.index() as usize)
    }

    #[inline]
    fn set_seq(&mut self, id: CellId, seq: u64) {
        self.columns.set_seq(id.index() as usize, seq);
    }

    #[inline]
    fn set_before(&mut self, id: CellId, before: CellId) {
        self.columns.set_before(id.index() as usize, before);
    }

    #[inline]
    fn decide_after(&mut self, id: CellId, next: CellId) -> CellId {
        self.columns.decide_after(id.index() as usize, next)
    }

    #[inline]
    fn decide_new(&mut self, id: CellId, new: (S, Option<R>)) -> &(S, Option<R>)
        requires { IsSome (cell_of self.old id) }
        ensures answer { option_map (λ c. settled c.new new) (cell_of self.old id) ≡ Some result.now }
        ensures* changes { sem 𝓛 (EndsSo (the_row S.row I.row R.row) self.entry (λ last.
            ChangesOnly (cell_of self.old) (cell_of last) id (option_map (with_new new) (cell_of self.old id))
            × IsUnchanged (made_of self.old) (made_of last)
            × (processes_of last ≡ processes_of self.old) × (last.row ≡ self.old.row))) }
    {
        self.settle(id, new);
        let at = id.index() as usize;
        self.columns.new_of(at).unwrap()
    }

    fn clear_to(&mut self, last: CellId) {
        let at = last.index() as usize;
        let seq = self.columns.seq(at);
        let state = self.columns.take_state(at);
        self.columns.begin(state, seq);
        self.made.fill(0);
    }
}
