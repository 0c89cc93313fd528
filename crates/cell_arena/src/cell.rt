//! A cell, and the cells of one process.

ghost use Rattle.std.specs.Prelude.{◌≡◌, ◌<◌, [], ◌∷◌, ◌++◌, length, slice_get, Some, OnOk, OnErr};
ghost use Rattle.std.specs.Prelude.{IfErr};
ghost use Rattle.std.specs.Borrow.{sem};
ghost use Rattle.cell_arena.specs.CellRecord.{fresh, anchor_with};
ghost use Rattle.cell_arena.specs.Lending.{LendsNth};

use crate::cell_id::CellId;
use consensus_cell::{Own, Settle};
use std::alloc::Global;
use std::marker::Model;

/// A cell of the list.
#[derive(Drop)]
pub(crate) struct Cell<S, I, R> {
    pub(crate) inv: Option<I>,
    pub(crate) seq: Own<u64>,
    pub(crate) before: Own<Option<CellId>>,
    pub(crate) after: Settle<CellId>,
    pub(crate) new: Settle<(S, Option<R>)>,
}

impl<S, I, R> Model for Cell<S, I, R> {
    ghost use Rattle.cell_arena.specs.CellRecord.{CellRecord};

    ghost Value = { CellRecord S I R };

    ghost view = { λ c. record { inv = c.inv; seq = c.seq; before = c.before; after = c.after; new = c.new } };
}

impl<S: Drop, I: Drop, R: Drop> Cell<S, I, R> {
    /// A cell that was just made.
    pub(crate) fn fresh(inv: I) -> Self
        ensures { result ≡ fresh inv }
    {
        Cell {
            inv: Some(inv),
            seq: Own::new(0),
            before: Own::new(None),
            after: Settle::new(),
            new: Settle::new(),
        }
    }

    /// An anchor: a state, and its number.
    pub(crate) fn anchor(state: S, seq: u64) -> Self
        ensures { result ≡ anchor_with state seq }
    {
        let mut new = Settle::new();
        let _ = new.decide((state, None));
        Cell {
            inv: None,
            seq: Own::new(seq),
            before: Own::new(None),
            after: Settle::new(),
            new,
        }
    }

    /// What its call asks for.
    fn into_inv(self) -> Option<I>
        ensures { result ≡ self.inv }
    {
        self.inv
    }
}

/// The cells of one process, in the order in which it made them.
#[derive(Drop)]
pub(crate) struct Row<S, I, R> {
    pub(crate) cells: Vec<Cell<S, I, R>>,
}

impl<S, I, R> Model for Row<S, I, R> {
    ghost use Rattle.std.specs.Prelude.{List};
    ghost use Rattle.cell_arena.specs.CellRecord.{CellRecord};

    ghost Value = { List (CellRecord S I R) };

    ghost view = { λ r. r.cells.items };
}

impl<S: Drop, I: Drop, R: Drop> Row<S, I, R> {
    /// No cells.
    pub(crate) fn new(alloc: Global) -> Self
        ensures { result ≡ [] }
    {
        Row {
            cells: Vec::new(alloc),
        }
    }

    /// Adds a cell that was just made. An `Err` says that memory was refused: it hands the
    /// invocation back, and nothing is changed.
    pub(crate) fn add(&mut self, inv: I) -> Result<(), I>
        ensures added { OnOk result (self.new ≡ self.old ++ fresh inv ∷ []) }
        ensures handed_back { IfErr result (λ back. back ≡ inv) }
        ensures unchanged { OnErr result (self.new ≡ self.old) }
    {
        match self.cells.push(Cell::fresh(inv)) {
            Ok(()) => Ok(()),
            Err(refused) => Err(refused.value.into_inv().unwrap()),
        }
    }

    /// A cell, to be changed.
    pub(crate) fn cell_mut(&mut self, nth: usize) -> &mut Cell<S, I, R>
        requires { nth < length self.old }
        ensures cell { slice_get self.old nth ≡ Some result.now }
        ensures* writes_back { sem 𝓛 (LendsNth S.row I.row R.row self.entry nth result) }
    {
        &mut self.cells[nth]
    }
}
