//! The names of cells.

ghost use Rattle.std.specs.Prelude.{◌≡◌, ◌≢◌, ◌<◌, ◌≤◌, ℕ};
ghost use Rattle.cell_arena.specs.CellRecord.{index_of};

use std::marker::Model;

/// The name of a cell: its index in the arena. A contract sees the index.
#[derive(Clone, Copy, Debug, PartialEq, Eq)]
pub struct CellId {
    index: u32,
}

impl Model for CellId {
    ghost Value = { ℕ };

    ghost view = { λ id. id.index };

    ghost inverse = { λ index. record { index = index } };
}

/// Where a cell is.
#[derive(Clone, Copy)]
pub(crate) enum Place {
    /// It is the anchor.
    Anchor,
    /// A process made it.
    Made {
        /// The process, from 0.
        owner: usize,
        /// How many cells that process had made before.
        nth: usize,
    },
}

impl CellId {
    ghost use Rattle.cell_arena.specs.CellId.{IsPlaceOf};

    /// The anchor, the first cell of the list: index 0.
    pub fn anchor() -> Self
        ensures { result ≡ 0 }
    {
        CellId { index: 0 }
    }

    /// The cell that process `owner`, from 0, of `n` processes made as its `nth`, from 0:
    /// index `1 + nth * n + owner`. There are 1 to 64 processes, and `nth` is below 4096.
    #[inline]
    pub fn of(n: u64, owner: u64, nth: u64) -> Self
        requires processes { n ≤ 64 }
        requires owner { owner < n }
        requires nth { nth < 4096 }
        ensures { result ≡ index_of n owner nth }
    {
        CellId {
            index: (1 + nth * n + owner) as u32,
        }
    }

    /// Where the cell is, among this many processes.
    pub(crate) fn place(self, processes: usize) -> Place
        requires { 0 < processes }
        ensures { IsPlaceOf processes self result }
    {
        match self.index {
            0 => Place::Anchor,
            index => Place::Made {
                owner: (index as usize - 1) % processes,
                nth: (index as usize - 1) / processes,
            },
        }
    }

    /// The index in the arena.
    #[inline]
    pub fn index(&self) -> u32
        ensures { result ≡ self.now }
    {
        self.index
    }
}

/// Two cells have one name only if they have one owner, and are its cells of one number; and no
/// cell that a process made has the anchor's name.
pub fn of_is_injective()
    ensures injective { (n owner nth owner' nth' : ℕ) → owner < n → owner' < n →
        index_of n owner nth ≡ index_of n owner' nth' → (owner ≡ owner') × (nth ≡ nth') }
    ensures never_anchor { (n owner nth : ℕ) → index_of n owner nth ≢ 0 }
{}
