//! The arena's contract, whichever way its cells are kept.

ghost use Rattle.std.specs.Prelude.{◌≡◌, ◌+◌, ◌-◌, ◌<◌, ◌≤◌, ◌⊎◌, ◌↔◌, ℕ, Option};
ghost use Rattle.std.specs.Prelude.{Some, IsSome, IsSomeAnd, IsErrAnd, IfOk, OnOk, OnErr, IfErr, option_map};
ghost use Rattle.std.specs.Option.{option_copied};
ghost use Rattle.std.specs.Borrow.{sem};
ghost use Rattle.cell_arena.specs.Ending.{EndsSo};
ghost use Rattle.cell_arena.specs.CellRecord.{CellRecord, fresh, anchor_for, index_of, settled, with_seq, with_before};
ghost use Rattle.cell_arena.specs.CellRecord.{with_after, with_new, ChangesOnly, IsUnchanged, HasOnlyAnchor};

use crate::cell_id::CellId;
use crate::fault::ArenaFault;
use std::alloc::Global;

/// The cells of one era of a shared object: the anchor, at index 0, and those that each process
/// has made (Herlihy 1991, section 4: the cells of the list).
///
/// A contract sees the record of the cell at each index, nothing where there is none, and how many
/// cells each process has made. Each call is the named change at one index; nothing else changes.
/// A cell that is named must be there, and a process be one of the arena's.
pub trait Cells: Drop {
    /// What a call asks for.
    type Inv: Drop;

    /// A state of the object.
    type State: Drop;

    /// A response.
    type Resp: Copy;

    /// How many processes there are.
    ghost processes: { Self → ℕ };

    /// How many cells a process can make in an era.
    ghost row: { Self → ℕ };

    /// The cell at an index; nothing where none is made.
    ghost cell: { Self → ℕ → Option (CellRecord Self.State Self.Inv Self.Resp) };

    /// How many cells a process has made in this era.
    ghost made: { Self → ℕ → ℕ };

    /// What every arena keeps, for proofs: the call does nothing. There are 1 to 64 processes, and
    /// a row has at most 4096 cells. The anchor is there, and of each process the cells that it
    /// has made, at the indices that `CellId::of` gives; there is no other cell.
    fn shape(&self)
        ensures processes { (1 ≤ processes self.now) × (processes self.now ≤ 64) }
        ensures row { row self.now ≤ 4096 }
        ensures made { (p : ℕ) → made self.now p ≤ row self.now }
        ensures anchor { IsSome (cell self.now 0) }
        ensures cells { (p nth : ℕ) → p < processes self.now →
            IsSome (cell self.now (index_of (processes self.now) p nth)) ↔ (nth < made self.now p) }
        ensures no_others { (i : ℕ) → IsSome (cell self.now i) →
            (i ≡ 0) ⊎ ((p : ℕ) × (nth : ℕ) × (p < processes self.now) × (nth < made self.now p)
            × (i ≡ index_of (processes self.now) p nth)) };

    /// How many cells process `p` can still make in this era.
    fn room(&self, p: u64) -> u64
        requires { p < processes self.now }
        ensures { result ≡ row self.now - made self.now p };

    /// Makes the next cell of process `p`: number 0, nothing settled, nothing before it.
    ///
    /// Errors, in this order: `RowFull(p)` where `p` has made as many cells as a row has; `Memory`.
    /// After either nothing is changed, and the invocation is handed back.
    fn make(
        &mut self,
        alloc: Global,
        p: u64,
        inv: Self::Inv,
    ) -> Result<CellId, (ArenaFault, Self::Inv)>
        requires { p < processes self.old }
        ensures id { IfOk result (λ id. id ≡ index_of (processes self.old) p (made self.old p)) }
        ensures cell { IfOk result (λ id. ChangesOnly (cell self.old) (cell self.new) id (Some (fresh inv))) }
        ensures made { OnOk result (ChangesOnly (made self.old) (made self.new) p (made self.old p + 1)) }
        ensures shape { (processes self.new ≡ processes self.old) × (row self.new ≡ row self.old) }
        ensures full { IsErrAnd result (λ e. e.0 ≡ ArenaFault.RowFull p) ↔ (made self.old p ≡ row self.old) }
        ensures fault { IfErr result (λ e. (e.0 ≡ ArenaFault.RowFull p) ⊎ (e.0 ≡ ArenaFault.Memory)) }
        ensures handed_back { IfErr result (λ e. e.1 ≡ inv) }
        ensures unchanged { OnErr result (self.new ≡ self.old) };

    /// The number of a cell; 0 while it isn't threaded.
    fn seq(&self, id: CellId) -> u64
        requires { IsSome (cell self.now id) }
        ensures { option_map (λ c. c.seq) (cell self.now id) ≡ Some result };

    /// What the call of a cell asks for; `None` of the anchor.
    fn inv(&self, id: CellId) -> Option<&Self::Inv>
        requires { IsSome (cell self.now id) }
        ensures { option_map (λ c. c.inv) (cell self.now id) ≡ Some (option_copied result) };

    /// The cell that is settled as the next one, or `None`.
    fn after(&self, id: CellId) -> Option<CellId>
        requires { IsSome (cell self.now id) }
        ensures { option_map (λ c. c.after) (cell self.now id) ≡ Some result };

    /// The cell before a cell, or `None` where none was written.
    fn before(&self, id: CellId) -> Option<CellId>
        requires { IsSome (cell self.now id) }
        ensures { option_map (λ c. c.before) (cell self.now id) ≡ Some result };

    /// The state and the response that are settled at a cell, or `None`. The anchor's response is
    /// `None`.
    fn new_of(&self, id: CellId) -> Option<&(Self::State, Option<Self::Resp>)>
        requires { IsSome (cell self.now id) }
        ensures { option_map (λ c. c.new) (cell self.now id) ≡ Some (option_copied result) };

    /// Writes the number of a cell.
    fn set_seq(&mut self, id: CellId, seq: u64)
        requires { IsSome (cell self.old id) }
        ensures cell { ChangesOnly (cell self.old) (cell self.new) id (option_map (with_seq seq) (cell self.old id)) }
        ensures made { IsUnchanged (made self.old) (made self.new) }
        ensures shape { (processes self.new ≡ processes self.old) × (row self.new ≡ row self.old) };

    /// Writes which cell is before a cell.
    fn set_before(&mut self, id: CellId, before: CellId)
        requires { IsSome (cell self.old id) }
        ensures cell { ChangesOnly (cell self.old) (cell self.new) id
            (option_map (with_before before) (cell self.old id)) }
        ensures made { IsUnchanged (made self.old) (made self.new) }
        ensures shape { (processes self.new ≡ processes self.old) × (row self.new ≡ row self.old) };

    /// Proposes the next cell: it is settled where none is yet. The answer is the next cell that
    /// is settled then.
    fn decide_after(&mut self, id: CellId, next: CellId) -> CellId
        requires { IsSome (cell self.old id) }
        ensures answer { option_map (λ c. settled c.after next) (cell self.old id) ≡ Some result }
        ensures cell { ChangesOnly (cell self.old) (cell self.new) id
            (option_map (with_after next) (cell self.old id)) }
        ensures made { IsUnchanged (made self.old) (made self.new) }
        ensures shape { (processes self.new ≡ processes self.old) × (row self.new ≡ row self.old) };

    /// Proposes the state after a cell's call, and the response: the pair is settled where none is
    /// yet, and dropped otherwise. The answer is what is settled then.
    fn decide_new(
        &mut self,
        id: CellId,
        new: (Self::State, Option<Self::Resp>),
    ) -> &(Self::State, Option<Self::Resp>)
        requires { IsSome (cell self.old id) }
        ensures answer { option_map (λ c. settled c.new new) (cell self.old id) ≡ Some result.now }
        ensures* changes { sem 𝓛 (EndsSo Self.row self.entry (λ last.
            ChangesOnly (cell self.old) (cell last) id (option_map (with_new new) (cell self.old id))
            × IsUnchanged (made self.old) (made last)
            × (processes last ≡ processes self.old) × (row last ≡ row self.old))) };

    /// Begins an era: one cell is left, the anchor, with the state and the number of `last`. No
    /// process has made a cell then. The state is moved; the call takes no memory.
    ///
    /// `last` has to be threaded, that is its number isn't 0, and its state settled.
    fn clear_to(&mut self, last: CellId)
        requires { IsSomeAnd (cell self.old last) (λ c. (0 < c.seq) × IsSome c.new) }
        ensures cell { HasOnlyAnchor (cell self.new) (option_map anchor_for (cell self.old last)) }
        ensures made { (p : ℕ) → made self.new p ≡ 0 }
        ensures shape { (processes self.new ≡ processes self.old) × (row self.new ≡ row self.old) };
}
