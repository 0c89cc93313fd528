//! The shared places: the cells, and the entries of announce and head.

ghost use Rattle.std.specs.Prelude.{◌≡◌, ◌+◌, ◌-◌, ◌<◌, ◌≤◌, ℕ, IfOk, OnOk, OnErr, IsSome, IsTrue};
ghost use Rattle.std.specs.Prelude.{Some, None, IsSomeAnd, length, slice_index_or, option_map, unwrap_or, replicate};
ghost use Rattle.std.specs.Option.{option_copied};
ghost use Rattle.cell_arena.specs.CellRecord.{ChangesOnly, index_of};
ghost use Rattle.cell_arena.specs.Arena.{processes_of, made_of, cell_of};
ghost use Rattle.uni_model.specs.Places.{memory_with, announce_of, head_of, inv_of, seq_of, after_of, new_of};
ghost use Rattle.uni_model.specs.Places.{before_of};
ghost use Rattle.uni_model.specs.Places.Place.{Announced, HeadOf, InvOf, SeqOf, AfterOf, NewOf, BeforeOf};
ghost use Rattle.uni_model.specs.Places.Content.{CellName, Invocation, Number, Link, Settled};
ghost use Rattle.uni_model.specs.Places.Name.{Of};
ghost use Rattle.uni_model.specs.Chain.{response_in};
ghost use Rattle.std.specs.Option.{option_or};
ghost use Rattle.uni_model.specs.Worlds.{anchor_memory};
ghost use Rattle.uni_core.specs.SharedEntries.{named, first_of, memory_of, HasShapeOf, IsRenewed};
ghost use Rattle.uni_core.specs.Local.{new_local};

use crate::local::Local;
use cell_arena::{CellId, Cells, ColumnCells};
use consensus_cell::Own;
use std::alloc::{AllocError, Global};
use std::marker::Model;

/// The form of arena that a world keeps its cells in.
pub type WorldCells<S, I, R> = ColumnCells<S, I, R>;

/// The shared places. A contract sees what each of them contains.
#[derive(Drop)]
pub(crate) struct SharedEntries<S, I, R> {
    cells: WorldCells<S, I, R>,
    announce: Vec<Own<CellId>>,
    heads: Vec<Own<CellId>>,
    first: Vec<u64>,
}

impl<S, I, R> Model for SharedEntries<S, I, R> {
    ghost use Rattle.std.specs.Prelude.{◌≡◌, ◌≤◌, length};
    ghost use Rattle.cell_arena.specs.Arena.{processes_of};
    ghost use Rattle.uni_core.specs.SharedEntries.{SharedEntries as Entries};

    ghost Value = { Entries S I R };

    ghost view = { λ a. record {
      cells = a.cells;
      announce = a.announce.items;
      heads = a.heads.items;
      first = a.first.items;
    } };

    ghost invariant = { λ a. (length a.announce.items ≡ processes_of a.cells)
        × (length a.heads.items ≡ processes_of a.cells) × (processes_of a.cells ≤ length a.first.items) };
}

/// Whether two lists of entries name the same cells.
fn same_names(a: &[Own<CellId>], b: &[Own<CellId>]) -> bool
    ensures { IsTrue result → a.now ≡ b.now }
{
    if a.len() != b.len() {
        return false;
    }
    for i in 0..a.len() {
        if a[i].read() != b[i].read() {
            return false;
        }
    }
    true
}

/// Whether two lists of numbers are the same.
fn same_numbers(a: &[u64], b: &[u64]) -> bool
    ensures { IsTrue result → a.now ≡ b.now }
{
    if a.len() != b.len() {
        return false;
    }
    for i in 0..a.len() {
        if a[i] != b[i] {
            return false;
        }
    }
    true
}

/// The next call of each process becomes its first of an era.
fn take_begun(first: &mut Vec<u64>, locals: &[Local])
    requires { length first.old.items ≡ length locals.now }
    ensures long { length first.new.items ≡ length first.old.items }
    ensures first { (p : ℕ) → slice_index_or first.new.items p 0 ≡ (slice_index_or locals.now p new_local).begun }
{
    for p in 0..locals.len() {
        first[p] = locals[p].begun;
    }
}

impl<S: Drop, I: Drop, R: Copy> SharedEntries<S, I, R> {
    /// The shared places of `n` processes with rows of `k` cells: the anchor alone, with this state
    /// and number, and every entry names it.
    pub(crate) fn opened(
        alloc: Global,
        n: u64,
        k: u64,
        state: S,
        seq: u64,
    ) -> Result<Self, AllocError>
        requires processes { (1 ≤ n) × (n ≤ 64) }
        requires row { (1 ≤ k) × (k ≤ 4096) }
        requires threaded { 1 ≤ seq }
        ensures memory { IfOk result (λ a. memory_of a ≡ anchor_memory state seq) }
        ensures shape { IfOk result (λ a. (processes_of a.cells ≡ n) × (a.cells.row ≡ k)) }
        ensures made { IfOk result (λ a. (p : ℕ) → made_of a.cells p ≡ 0) }
        ensures first { IfOk result (λ a. a.first ≡ replicate n 0) }
    {
        let cells = WorldCells::opened(alloc, n, k, state, seq)?;
        let entry = Own::new(CellId::anchor());
        Ok(SharedEntries {
            cells,
            announce: vec![in alloc; entry; n as usize]?,
            heads: vec![in alloc; entry; n as usize]?,
            first: vec![in alloc; 0; n as usize]?,
        })
    }

    /// How many processes there are.
    pub(crate) fn processes(&self) -> u64
        ensures { result ≡ processes_of self.now.cells }
    {
        self.announce.len() as u64
    }

    /// The cells.
    pub(crate) fn cells(&self) -> &WorldCells<S, I, R>
        ensures { result.now ≡ self.now.cells }
    {
        &self.cells
    }

    /// The number of process `p`'s first call of the era.
    pub(crate) fn first(&self, p: u64) -> u64
        requires { p < processes_of self.now.cells }
        ensures { result ≡ first_of self.now p }
    {
        self.first[p as usize]
    }

    /// Whether the entries name the same cells, and the first calls of the era are the same.
    pub(crate) fn same_entries(&self, other: &Self) -> bool
        ensures { IsTrue result → (self.now.announce ≡ other.now.announce) × (self.now.heads ≡ other.now.heads)
            × (self.now.first ≡ other.now.first) }
    {
        same_names(&self.announce, &other.announce)
            && same_names(&self.heads, &other.heads)
            && same_numbers(&self.first, &other.first)
    }

    /// Ends the era: leaves one cell, the anchor, with the state and the number of `last`. Every entry
    /// names it, and the next call of each process is its first of the era.
    ///
    /// `last` has to be threaded, that is its number isn't 0, and its state settled.
    pub(crate) fn renew(&mut self, last: CellId, locals: &[Local])
        requires last { IsSomeAnd (cell_of self.old.cells last) (λ c. (0 < c.seq) × IsSome c.new) }
        requires locals { length self.old.first ≡ length locals.now }
        ensures memory { IsRenewed (cell_of self.old.cells last) (memory_of self.new) }
        ensures first { (p : ℕ) → first_of self.new p ≡ (slice_index_or locals.now p new_local).begun }
        ensures long { length self.new.first ≡ length locals.now }
        ensures shape { (processes_of self.new.cells ≡ processes_of self.old.cells)
            × (self.new.cells.row ≡ self.old.cells.row) }
        ensures made { (p : ℕ) → made_of self.new.cells p ≡ 0 }
    {
        let entry = Own::new(CellId::anchor());
        take_begun(&mut self.first, locals);
        self.cells.clear_to(last);
        self.announce.fill(entry);
        self.heads.fill(entry);
    }

    /// What `renew` does, for `m` processes, 1 to 64. An `Err` says that memory was refused: nothing
    /// is changed then.
    pub(crate) fn renew_for(
        &mut self,
        alloc: Global,
        last: CellId,
        locals: &[Local],
        m: u64,
    ) -> Result<(), AllocError>
        requires last { IsSomeAnd (cell_of self.old.cells last) (λ c. (0 < c.seq) × IsSome c.new) }
        requires processes { (1 ≤ m) × (m ≤ 64) }
        requires locals { m ≤ length locals.now }
        ensures memory { OnOk result (IsRenewed (cell_of self.old.cells last) (memory_of self.new)) }
        ensures first { OnOk result ((p : ℕ) → first_of self.new p
            ≡ (slice_index_or locals.now p new_local).begun) }
        ensures long { OnOk result (length self.new.first ≡ length locals.now) }
        ensures shape { OnOk result ((processes_of self.new.cells ≡ m)
            × (self.new.cells.row ≡ self.old.cells.row)) }
        ensures made { OnOk result ((p : ℕ) → made_of self.new.cells p ≡ 0) }
        ensures unchanged { OnErr result (self.new ≡ self.old) }
    {
        let entry = Own::new(CellId::anchor());
        let announce = vec![in alloc; entry; m as usize]?;
        let heads = vec![in alloc; entry; m as usize]?;
        let mut first = vec![in alloc; 0; locals.len()]?;
        self.cells.clear_for(alloc, last, m)?;
        take_begun(&mut first, locals);
        self.announce = announce;
        self.heads = heads;
        self.first = first;
        Ok(())
    }

    /// How many cells process `p` can still make in this era.
    pub(crate) fn room(&self, p: u64) -> u64
        requires { p < processes_of self.now.cells }
        ensures { result ≡ self.now.cells.row - made_of self.now.cells p }
    {
        self.cells.room(p)
    }

    /// Makes the next cell of process `p`, in whose row there is room.
    pub(crate) fn make(&mut self, alloc: Global, p: u64, inv: I) -> CellId
        requires process { p < processes_of self.old.cells }
        requires room { made_of self.old.cells p < self.old.cells.row }
        ensures id { result ≡ index_of (processes_of self.old.cells) p (made_of self.old.cells p) }
        ensures memory { memory_of self.new ≡ memory_with (memory_of self.old)
            (InvOf (Of p (first_of self.old p + made_of self.old.cells p))) (Invocation (Some inv)) }
        ensures made { ChangesOnly (made_of self.old.cells) (made_of self.new.cells) p (made_of self.old.cells p + 1) }
        ensures shape { (processes_of self.new.cells ≡ processes_of self.old.cells)
            × (self.new.cells.row ≡ self.old.cells.row) × (self.new.first ≡ self.old.first) }
    {
        self.cells.shape();
        match self.cells.make(alloc, p, inv) {
            Ok(id) => id,
            Err((_, _)) => unreachable!(),
        }
    }

    /// The cell that process `q` announces.
    pub(crate) fn announced(&self, q: u64) -> CellId
        requires { q < processes_of self.now.cells }
        ensures { named self.now result ≡ announce_of (memory_of self.now) q }
    {
        self.announce[q as usize].read()
    }

    /// Process `p` announces a cell.
    pub(crate) fn announce(&mut self, p: u64, id: CellId)
        requires { p < processes_of self.old.cells }
        ensures shape { HasShapeOf self.old self.new }
        ensures memory { memory_of self.new ≡ memory_with (memory_of self.old) (Announced p)
            (CellName (named self.old id)) }
    {
        self.announce[p as usize].write(id);
    }

    /// The cell that the head entry of process `q` names.
    pub(crate) fn head(&self, q: u64) -> CellId
        requires { q < processes_of self.now.cells }
        ensures { named self.now result ≡ head_of (memory_of self.now) q }
    {
        self.heads[q as usize].read()
    }

    /// The head entry of process `p` becomes this cell.
    pub(crate) fn set_head(&mut self, p: u64, id: CellId)
        requires { p < processes_of self.old.cells }
        ensures shape { HasShapeOf self.old self.new }
        ensures memory { memory_of self.new ≡ memory_with (memory_of self.old) (HeadOf p)
            (CellName (named self.old id)) }
    {
        self.heads[p as usize].write(id);
    }

    /// The number of a cell.
    pub(crate) fn seq(&self, id: CellId) -> u64
        requires { IsSome (cell_of self.now.cells id) }
        ensures { result ≡ seq_of (memory_of self.now) (named self.now id) }
    {
        self.cells.shape();
        self.cells.seq(id)
    }

    /// Writes the number of a cell.
    pub(crate) fn set_seq(&mut self, id: CellId, seq: u64)
        requires { IsSome (cell_of self.old.cells id) }
        ensures shape { HasShapeOf self.old self.new }
        ensures memory { memory_of self.new ≡ memory_with (memory_of self.old) (SeqOf (named self.old id))
            (Number seq) }
    {
        self.cells.shape();
        self.cells.set_seq(id, seq);
    }

    /// The cell before a cell; `None` where none was written.
    pub(crate) fn before(&self, id: CellId) -> Option<CellId>
        requires { IsSome (cell_of self.now.cells id) }
        ensures { option_map (named self.now) result ≡ before_of (memory_of self.now) (named self.now id) }
    {
        self.cells.shape();
        self.cells.before(id)
    }

    /// Writes which cell is before a cell.
    pub(crate) fn set_before(&mut self, id: CellId, before: CellId)
        requires { IsSome (cell_of self.old.cells id) }
        ensures shape { HasShapeOf self.old self.new }
        ensures memory { memory_of self.new ≡ memory_with (memory_of self.old) (BeforeOf (named self.old id))
            (Link (Some (named self.old before))) }
    {
        self.cells.shape();
        self.cells.set_before(id, before);
    }

    /// The cell that is settled after a cell, where one is.
    pub(crate) fn after(&self, id: CellId) -> Option<CellId>
        requires { IsSome (cell_of self.now.cells id) }
        ensures { option_map (named self.now) result ≡ after_of (memory_of self.now) (named self.now id) }
    {
        self.cells.shape();
        self.cells.after(id)
    }

    /// Proposes the cell after a cell; the answer is what is settled then.
    pub(crate) fn decide_after(&mut self, id: CellId, next: CellId) -> CellId
        requires { IsSome (cell_of self.old.cells id) }
        ensures shape { HasShapeOf self.old self.new }
        ensures answer { named self.old result
            ≡ unwrap_or (after_of (memory_of self.old) (named self.old id)) (named self.old next) }
        ensures memory { memory_of self.new ≡ memory_with (memory_of self.old) (AfterOf (named self.old id))
            (Link (option_or (after_of (memory_of self.old) (named self.old id)) (Some (named self.old next)))) }
    {
        self.cells.shape();
        self.cells.decide_after(id, next)
    }

    /// The state and the response that are settled in a cell.
    pub(crate) fn new_of(&self, id: CellId) -> Option<&(S, Option<R>)>
        requires { IsSome (cell_of self.now.cells id) }
        ensures { option_copied result ≡ new_of (memory_of self.now) (named self.now id) }
    {
        self.cells.shape();
        self.cells.new_of(id)
    }

    /// What the call of a cell asks for.
    pub(crate) fn inv(&self, id: CellId) -> Option<&I>
        requires { IsSome (cell_of self.now.cells id) }
        ensures { option_copied result ≡ inv_of (memory_of self.now) (named self.now id) }
    {
        self.cells.shape();
        self.cells.inv(id)
    }

    /// Proposes the state and the response of a cell's call.
    pub(crate) fn decide_new(&mut self, id: CellId, new: (S, Option<R>))
        requires { IsSome (cell_of self.old.cells id) }
        ensures shape { HasShapeOf self.old self.new }
        ensures memory { memory_of self.new ≡ memory_with (memory_of self.old) (NewOf (named self.old id))
            (Settled (option_or (new_of (memory_of self.old) (named self.old id)) (Some new))) }
    {
        self.cells.shape();
        let _ = self.cells.decide_new(id, new);
    }

    /// The response that is settled in a cell, where one is.
    pub(crate) fn response(&self, id: CellId) -> R
        requires cell { IsSome (cell_of self.now.cells id) }
        requires settled { IsSome (response_in (memory_of self.now) (named self.now id)) }
        ensures { response_in (memory_of self.now) (named self.now id) ≡ Some result }
    {
        match self.new_of(id) {
            Some((_, Some(response))) => *response,
            _ => unreachable!(),
        }
    }
}
