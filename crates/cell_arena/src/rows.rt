//! The cells of an arena in rows, one for each process.

ghost use Rattle.std.specs.Prelude.{◌≡◌, ◌+◌, ◌-◌, ◌<◌, ◌≤◌, ℕ, IfOk, OnOk, OnErr, IfErr};
ghost use Rattle.std.specs.Prelude.{IsSome, Some, length, option_map};
ghost use Rattle.std.specs.Borrow.{sem};
ghost use Rattle.cell_arena.specs.CellRecord.{anchor_with, fresh, index_of, with_new, ChangesOnly, IsUnchanged};
ghost use Rattle.cell_arena.specs.CellRecord.{HasOnlyAnchor};
ghost use Rattle.cell_arena.specs.Arena.{processes_of, made_of, cell_of};
ghost use Rattle.cell_arena.specs.Rows.{Rows, AreRows, AreEmpty, arena_of, cell_at};
ghost use Rattle.cell_arena.specs.Lending.{LendsCell};

use crate::cell::{Cell, Row};
use crate::cell_id::{CellId, Place};
use std::alloc::{AllocError, Global};
use std::marker::Model;

/// The anchor, and a vector of cells for each process.
#[derive(Drop)]
pub(crate) struct CellRows<S, I, R> {
    row: u64,
    anchor: Cell<S, I, R>,
    rows: Vec<Row<S, I, R>>,
}

impl<S, I, R> Model for CellRows<S, I, R> {
    ghost use Rattle.cell_arena.specs.Rows.{Rows, AreRows};

    ghost Value = { Rows S I R };

    ghost view = { λ a. record { row = a.row; anchor = a.anchor; rows = a.rows.items } };

    ghost invariant = { λ a. AreRows (record { row = a.row; anchor = a.anchor; rows = a.rows.items }) };
}

impl<S: Drop, I: Drop, R: Drop> CellRows<S, I, R> {
    /// The rows of `n` processes, of at most `k` cells, with no cell but the anchor.
    pub(crate) fn opened(
        alloc: Global,
        n: u64,
        k: u64,
        state: S,
        seq: u64,
    ) -> Result<Self, AllocError>
        requires processes { (1 ≤ n) × (n ≤ 64) }
        requires row { (1 ≤ k) × (k ≤ 4096) }
        ensures cell { IfOk result (λ rows. HasOnlyAnchor (cell_of (arena_of rows)) (Some (anchor_with state seq))) }
        ensures made { IfOk result (λ rows. (p : ℕ) → made_of (arena_of rows) p ≡ 0) }
        ensures shape { IfOk result (λ rows. (processes_of (arena_of rows) ≡ n) × (rows.row ≡ k)) }
    {
        let rows = empty_rows(alloc, n)?;
        Ok(CellRows {
            row: k,
            anchor: Cell::anchor(state, seq),
            rows,
        })
    }

    /// What rows keep, for proofs.
    pub(crate) fn shape(&self)
        ensures { AreRows self.now }
    {
        let _ = &self.rows;
    }

    /// How many processes there are.
    pub(crate) fn processes(&self) -> u64
        ensures processes { result ≡ processes_of (arena_of self.now) }
        ensures few { result ≤ 64 }
    {
        self.rows.len() as u64
    }

    /// How many cells a process has made.
    pub(crate) fn made(&self, p: u64) -> u64
        requires { p < processes_of (arena_of self.now) }
        ensures made { result ≡ made_of (arena_of self.now) p }
        ensures few { (result ≤ self.now.row) × (self.now.row ≤ 4096) }
    {
        let row = &self.rows[p as usize];
        row.cells.len() as u64
    }

    /// How many cells a process can still make.
    pub(crate) fn room(&self, p: u64) -> u64
        requires { p < processes_of (arena_of self.now) }
        ensures { result ≡ self.now.row - made_of (arena_of self.now) p }
    {
        self.row - self.made(p)
    }

    /// Adds a cell that was just made to the row of a process. An `Err` says that memory was
    /// refused: it hands the invocation back, and nothing is changed.
    pub(crate) fn add(&mut self, p: u64, inv: I) -> Result<(), I>
        requires process { p < processes_of (arena_of self.old) }
        requires room { made_of (arena_of self.old) p < self.old.row }
        ensures cell { OnOk result (ChangesOnly (cell_of (arena_of self.old)) (cell_of (arena_of self.new))
            (index_of (processes_of (arena_of self.old)) p (made_of (arena_of self.old) p)) (Some (fresh inv))) }
        ensures made { OnOk result (ChangesOnly (made_of (arena_of self.old)) (made_of (arena_of self.new)) p
            (made_of (arena_of self.old) p + 1)) }
        ensures shape { (processes_of (arena_of self.new) ≡ processes_of (arena_of self.old))
            × (self.new.row ≡ self.old.row) }
        ensures handed_back { IfErr result (λ back. back ≡ inv) }
        ensures unchanged { OnErr result (self.new ≡ self.old) }
    {
        let row = &mut self.rows[p as usize];
        row.add(inv)
    }

    /// The cell at an index.
    pub(crate) fn cell(&self, id: CellId) -> &Cell<S, I, R>
        requires { IsSome (cell_of (arena_of self.now) id) }
        ensures { cell_of (arena_of self.now) id ≡ Some result.now }
    {
        match id.place(self.rows.len()) {
            Place::Anchor => &self.anchor,
            Place::Made { owner, nth } => {
                let row = &self.rows[owner];
                &row.cells[nth]
            }
        }
    }

    /// The cell at an index, to be changed.
    pub(crate) fn cell_mut(&mut self, id: CellId) -> &mut Cell<S, I, R>
        requires { IsSome (cell_of (arena_of self.old) id) }
        ensures cell { cell_of (arena_of self.old) id ≡ Some result.now }
        ensures stored { cell_at self.old id ≡ Some result.now }
        ensures shape { AreRows self.old }
        ensures* writes_back { sem 𝓛 (LendsCell S.row I.row R.row self.entry id result) }
    {
        match id.place(self.rows.len()) {
            Place::Anchor => &mut self.anchor,
            Place::Made { owner, nth } => self.rows[owner].cell_mut(nth),
        }
    }

    /// Proposes the state and the response of a cell's call.
    pub(crate) fn settle(&mut self, id: CellId, new: (S, Option<R>))
        requires { IsSome (cell_of (arena_of self.old) id) }
        ensures cell { ChangesOnly (cell_of (arena_of self.old)) (cell_of (arena_of self.new)) id
            (option_map (with_new new) (cell_of (arena_of self.old) id)) }
        ensures made { IsUnchanged (made_of (arena_of self.old)) (made_of (arena_of self.new)) }
        ensures shape { (processes_of (arena_of self.new) ≡ processes_of (arena_of self.old))
            × (self.new.row ≡ self.old.row) }
    {
        let cell = self.cell_mut(id);
        cell.new.decide(new);
    }

    /// Takes every cell out, and puts an anchor in.
    pub(crate) fn clear(&mut self, state: S, seq: u64)
        ensures cell { HasOnlyAnchor (cell_of (arena_of self.new)) (Some (anchor_with state seq)) }
        ensures made { (p : ℕ) → made_of (arena_of self.new) p ≡ 0 }
        ensures shape { (processes_of (arena_of self.new) ≡ processes_of (arena_of self.old))
            × (self.new.row ≡ self.old.row) }
    {
        self.anchor = Cell::anchor(state, seq);
        empty(&mut self.rows);
    }
}

/// As many rows, with no cells.
fn empty_rows<S: Drop, I: Drop, R: Drop>(
    alloc: Global,
    n: u64,
) -> Result<Vec<Row<S, I, R>>, AllocError>
    ensures len { IfOk result (λ rows. length rows.items ≡ n) }
    ensures empty { IfOk result (λ rows. AreEmpty rows.items) }
{
    let mut rows = Vec::new(alloc);
    for _ in 0..n {
        rows.push(Row::new(alloc))?;
    }
    Ok(rows)
}

/// Takes the cells out of each row.
fn empty<S: Drop, I: Drop, R: Drop>(rows: &mut Vec<Row<S, I, R>>)
    ensures len { length rows.new.items ≡ length rows.old.items }
    ensures empty { AreEmpty rows.new.items }
{
    for row in rows.iter_mut() {
        row.cells.clear();
    }
}
