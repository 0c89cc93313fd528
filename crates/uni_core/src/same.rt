//! Whether two worlds are the same.

ghost use Rattle.std.specs.Prelude.{◌≡◌, ◌<◌, ℕ, IsSome, IsTrue, option_map, slice_get};
ghost use Rattle.std.specs.Option.{option_copied};
ghost use Rattle.cell_arena.specs.CellRecord.{index_of};
ghost use Rattle.cell_arena.specs.Arena.{cell_of};
ghost use Rattle.uni_model.specs.Worlds.{calls_in_era};
ghost use Rattle.uni_model.specs.Places.{new_of};
ghost use Rattle.uni_model.specs.Places.Name.{Anchor};
ghost use Rattle.uni_core.specs.World.{world_of};
ghost use Rattle.uni_core.specs.Same.{without_counts, outline, standing_of};

use crate::world::World;
use cell_arena::{CellId, Cells};
use seq_object::SeqObject;

/// Whether two cells ask for the same.
fn same_inv<O: SeqObject>(a: Option<&O::Inv>, b: Option<&O::Inv>) -> bool
    ensures { IsTrue result → option_copied a.entry ≡ option_copied b.entry }
{
    match (a, b) {
        (None, None) => true,
        (Some(a), Some(b)) => *a == *b,
        _ => false,
    }
}

impl<O: SeqObject> World<O> {
    /// Whether a cell contains the same in another world, and a value is settled in both or in none.
    fn same_cell(&self, other: &World<O>, cell: CellId) -> bool
        requires here { IsSome (cell_of self.now.shared.cells cell) }
        requires there { IsSome (cell_of other.now.shared.cells cell) }
        ensures { IsTrue result → option_map outline (cell_of self.now.shared.cells cell)
            ≡ option_map outline (cell_of other.now.shared.cells cell) }
    {
        let a = self.cells();
        let b = other.cells();
        a.seq(cell) == b.seq(cell)
            && a.before(cell) == b.before(cell)
            && a.after(cell) == b.after(cell)
            && a.new_of(cell).is_some() == b.new_of(cell).is_some()
            && same_inv::<O>(a.inv(cell), b.inv(cell))
    }

    /// The same of the cells of process `p`, of which there are as many in both worlds.
    fn same_row(&self, other: &World<O>, p: u64) -> bool
        requires process { p < (world_of self.now).n }
        requires processes { (world_of other.now).n ≡ (world_of self.now).n }
        ensures count { IsTrue result → calls_in_era (world_of other.now) p ≡ calls_in_era (world_of self.now) p }
        ensures cells { IsTrue result → (nth : ℕ) → nth < calls_in_era (world_of self.now) p
            → option_map outline (cell_of self.now.shared.cells (index_of (world_of self.now).n p nth))
            ≡ option_map outline (cell_of other.now.shared.cells (index_of (world_of self.now).n p nth)) }
    {
        self.shape();
        other.shape();
        self.cells().shape();
        other.cells().shape();
        let n = self.processes();
        let made = self.calls_in_era(p);
        if other.calls_in_era(p) != made {
            return false;
        }
        for nth in 0..made {
            if !self.same_cell(other, CellId::of(n, p, nth)) {
                return false;
            }
        }
        true
    }

    /// The same of all cells.
    fn same_cells(&self, other: &World<O>) -> bool
        requires { (world_of other.now).n ≡ (world_of self.now).n }
        ensures { IsTrue result → (i : ℕ) → option_map outline (cell_of self.now.shared.cells i)
            ≡ option_map outline (cell_of other.now.shared.cells i) }
    {
        self.shape();
        other.shape();
        self.cells().shape();
        other.cells().shape();
        if !self.same_cell(other, CellId::anchor()) {
            return false;
        }
        for p in 0..self.processes() {
            if !self.same_row(other, p) {
                return false;
            }
        }
        true
    }

    /// Whether the processes keep the same for themselves, but for the counts of their latest calls.
    fn same_locals(&self, other: &World<O>) -> bool
        ensures { IsTrue result → (p : ℕ) → option_map standing_of (slice_get self.now.locals p)
            ≡ option_map standing_of (slice_get other.now.locals p) }
    {
        if self.locals.len() != other.locals.len() {
            return false;
        }
        for p in 0..self.locals.len() {
            if !self.locals[p].stands_as(&other.locals[p]) {
                return false;
            }
        }
        true
    }

    /// Whether two worlds over one object and one anchor's state are the same, but for what is counted
    /// of the latest calls. States are compared by whether they are settled: what is settled in a cell
    /// follows from what is settled in the anchor.
    pub fn is_same(&self, other: &World<O>) -> bool
        requires object { other.now.object ≡ self.now.object }
        requires anchor { new_of (world_of other.now).memory Anchor ≡ new_of (world_of self.now).memory Anchor }
        ensures { IsTrue result → without_counts (world_of self.now) ≡ without_counts (world_of other.now) }
    {
        self.shape();
        other.shape();
        if self.processes() != other.processes() {
            return false;
        }
        if !self.machine.shared.same_entries(&other.machine.shared) {
            return false;
        }
        if !self.same_locals(other) {
            return false;
        }
        self.same_cells(other)
    }
}
