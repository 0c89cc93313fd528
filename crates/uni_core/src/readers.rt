//! What can be read of a world.

ghost use Rattle.std.specs.Option.{option_copied};
ghost use Rattle.std.specs.Prelude.{length, ℕ, ◌≡◌, ◌+◌, ◌-◌, ◌*◌, ◌<◌, ◌≤◌, ◌^◌};
ghost use Rattle.std.specs.Prelude.{◌↔◌, IsSome, IsTrue, IfSome, None, option_map, option_and_then};
ghost use Rattle.cell_arena.specs.CellRecord.{index_of};
ghost use Rattle.cell_arena.specs.Arena.{made_of, cell_of};
ghost use Rattle.uni_model.specs.Places.{announce_of, head_of, seq_of, head_seq, inv_of, after_of, new_of, before_of};
ghost use Rattle.uni_model.specs.Places.Name.{Anchor, Of};
ghost use Rattle.uni_model.specs.Invariant.{Invariant};
ghost use Rattle.uni_model.specs.Frontier.{frontier};
ghost use Rattle.uni_model.specs.Bound.{IsBounded};
ghost use Rattle.uni_model.specs.Counting.{CountsSteps};
ghost use Rattle.uni_model.specs.Helping.{HelpingInvariant};
ghost use Rattle.uni_model.specs.OneList.{HasOneList, HasLegalLog};
ghost use Rattle.uni_model.specs.Worlds.{chain, calls_in_era, last_cell, IsQuiescent};
ghost use Rattle.uni_model.specs.Transition.{place_of};
ghost use Rattle.uni_core.specs.Stage.{pending_of};
ghost use Rattle.uni_core.specs.Readers.{call_of_name, kind_of, place_named, proposed_at, ChangesItsPlace, IsPlaceIn};
ghost use Rattle.uni_core.specs.World.{world_of, name_in, current_of, CountsNone};

use crate::shared::WorldCells;
use crate::stage::{Pending, Place, StepKind};
use crate::world::World;
use cell_arena::{CellId, Cells};
use seq_object::{CallId, SeqObject};

impl<O: SeqObject> World<O> {
    /// The pending call of process `p`, where it has one: the latest that it has begun.
    pub fn current(&self, p: u64) -> Option<CallId>
        requires { p < (world_of self.now).n }
        ensures { result ≡ current_of (world_of self.now) p }
    {
        let local = self.locals[p as usize];
        if local.call.is_none() {
            return None;
        }
        Some(CallId {
            process: p as u32,
            nth: local.begun - 1,
        })
    }

    /// The object that they share, to be read.
    pub fn object(&self) -> &O
        ensures { result.now ≡ self.now.object }
    {
        &self.machine.object
    }

    /// How many processes there are.
    pub fn processes(&self) -> u64
        ensures { result ≡ (world_of self.now).n }
    {
        self.machine.shared.processes()
    }

    /// How many calls a process can make in an era.
    pub fn row(&self) -> u64
        ensures { result ≡ self.now.row }
    {
        self.row
    }

    /// How many own steps the latest call of process `p` has taken, pending or returned; 0 where it
    /// has made none. A call that is pending has taken fewer than `10 n + 12`; one that has returned
    /// took `2 n + 4`, and eight for each turn, for the `n` processes among which it ran.
    pub fn steps(&self, p: u64) -> u64
        requires { p < (world_of self.now).n }
        ensures value { result ≡ (world_of self.now).steps p }
        ensures pending { IsSome ((world_of self.now).call p) → result < 10 * (world_of self.now).n + 12 }
        ensures returned { (world_of self.now).call p ≡ None → 1 ≤ (world_of self.now).begun p
            → result ≡ 2 * (world_of self.now).among p + 4 + 8 * (world_of self.now).turns p }
        ensures none { (world_of self.now).begun p ≡ 0 → result ≡ 0 }
    {
        self.shape();
        self.locals[p as usize].steps
    }

    /// How many turns the latest call of process `p` has taken, pending or returned; 0 where it has
    /// made none. They are at most `n + 1`, for the `n` processes among which it ran.
    pub fn turns(&self, p: u64) -> u64
        requires { p < (world_of self.now).n }
        ensures value { result ≡ (world_of self.now).turns p }
        ensures bound { result ≤ (world_of self.now).among p + 1 }
        ensures pending { IsSome ((world_of self.now).call p) → result ≤ (world_of self.now).n + 1 }
        ensures none { (world_of self.now).begun p ≡ 0 → result ≡ 0 }
    {
        self.shape();
        self.locals[p as usize].turns
    }

    /// Among how many processes the latest call of process `p` ran, pending or returned: as many as
    /// there were when it began. 0 where it has made none.
    pub fn among(&self, p: u64) -> u64
        requires { p < (world_of self.now).n }
        ensures value { result ≡ (world_of self.now).among p }
        ensures pending { IsSome ((world_of self.now).call p) → result ≡ (world_of self.now).n }
        ensures none { (world_of self.now).begun p ≡ 0 → result ≡ 0 }
    {
        self.shape();
        self.locals[p as usize].among
    }

    /// The pending call of process `p`, with where it stands.
    fn standing(&self, p: u64) -> Option<Pending>
        requires { p < (world_of self.now).n }
        ensures { option_map (pending_of (name_in (world_of self.now))) result ≡ (world_of self.now).call p }
    {
        self.locals[p as usize].pending()
    }

    /// The kind of the next step of process `p`; `None` where it has no call pending.
    pub fn next_kind(&self, p: u64) -> Option<StepKind>
        requires { p < (world_of self.now).n }
        ensures { result ≡ option_map (λ c. kind_of c.stage) ((world_of self.now).call p) }
    {
        let Some(call) = self.standing(p) else {
            return None;
        };
        Some(call.stage.kind())
    }

    /// The one shared place that the next step of process `p` touches; `None` where it has no call
    /// pending. It is an entry of a process that there is, or a field of a cell that there is.
    pub fn next_place(&self, p: u64) -> Option<Place>
        requires { p < (world_of self.now).n }
        ensures place { option_map (place_named (name_in (world_of self.now))) result
            ≡ option_map (λ c. place_of (world_of self.now).n p c.mine c.stage) ((world_of self.now).call p) }
        ensures there { IfSome result (IsPlaceIn (world_of self.now).n
            (λ cell. IsSome (cell_of self.now.shared.cells cell))) }
    {
        let _ = &self.machine;
        let Some(call) = self.standing(p) else {
            return None;
        };
        Some(call.stage.place(self.processes(), p, call.mine))
    }

    /// The cell that the next step of process `p` proposes after its head; `None` where it proposes none.
    pub fn next_proposal(&self, p: u64) -> Option<CellId>
        requires { p < (world_of self.now).n }
        ensures cell { option_map (name_in (world_of self.now)) result
            ≡ option_and_then (λ c. proposed_at c.stage) ((world_of self.now).call p) }
        ensures there { IfSome result (λ cell. IsSome (cell_of self.now.shared.cells cell)) }
    {
        let _ = &self.machine;
        match self.standing(p) {
            Some(call) => call.stage.proposed(),
            None => None,
        }
    }

    /// Whether the next step of process `p` changes what its place contains. A step that only reads changes
    /// nothing, nor does a proposal that loses. False where it has no call pending.
    pub fn next_changes(&self, p: u64) -> bool
        requires { p < (world_of self.now).n }
        ensures { IsTrue result ↔ ChangesItsPlace (O.sequential self.now.object) (world_of self.now) p }
    {
        match self.standing(p) {
            Some(call) => self.machine.changes(p, call.mine, call.stage),
            None => false,
        }
    }

    /// The cell that process `p` announces: that of its latest call that has taken its first step, or the
    /// anchor where the present era has none.
    pub fn announced(&self, p: u64) -> CellId
        requires { p < (world_of self.now).n }
        ensures name { name_in (world_of self.now) result ≡ announce_of (world_of self.now).memory p }
        ensures there { IsSome (cell_of self.now.shared.cells result) }
    {
        self.machine.shared.announced(p)
    }

    /// The cell that the head entry of process `p` names: the farthest that it knows.
    pub fn head(&self, p: u64) -> CellId
        requires { p < (world_of self.now).n }
        ensures name { name_in (world_of self.now) result ≡ head_of (world_of self.now).memory p }
        ensures there { IsSome (cell_of self.now.shared.cells result) }
    {
        self.machine.shared.head(p)
    }

    /// The number of the cell that the head of process `p` names.
    pub fn head_seq(&self, p: u64) -> u64
        requires { p < (world_of self.now).n }
        ensures { result ≡ head_seq (world_of self.now).memory p }
    {
        self.seq(self.head(p))
    }

    /// The frontier: the greatest number that the cell of a head has.
    pub fn frontier(&self) -> u64
        ensures { result ≡ frontier (world_of self.now) }
    {
        let mut greatest = 0;
        for p in 0..self.processes() {
            greatest = greatest.max(self.head_seq(p));
        }
        greatest
    }

    /// The least process that has a call pending; `None` where no process has one.
    pub fn pending(&self) -> Option<u64>
        ensures least { IfSome result (λ p. (p < (world_of self.now).n) × IsSome ((world_of self.now).call p)
            × ((q : ℕ) → q < p → (world_of self.now).call q ≡ None)) }
        ensures none { (result ≡ None) ↔ IsQuiescent (world_of self.now) }
    {
        for p in 0..self.processes() {
            if self.standing(p).is_some() {
                return Some(p);
            }
        }
        None
    }

    /// How many calls process `p` has begun since the opening.
    pub fn begun(&self, p: u64) -> u64
        requires { p < (world_of self.now).n }
        ensures { result ≡ (world_of self.now).begun p }
    {
        self.locals[p as usize].begun
    }

    /// How many calls process `p` has begun in this era.
    pub fn calls_in_era(&self, p: u64) -> u64
        requires { p < (world_of self.now).n }
        ensures { result ≡ calls_in_era (world_of self.now) p }
    {
        self.begun(p) - self.machine.shared.first(p)
    }

    /// The cell of a call of this era; `None` where no such call was begun in it.
    pub fn cell_of(&self, call: CallId) -> Option<CellId>
        ensures begun { IsSome result ↔ ((call.process < (world_of self.now).n)
            × ((world_of self.now).first call.process ≤ call.nth)
            × (call.nth < (world_of self.now).begun call.process)) }
        ensures index { IfSome result (λ cell. cell
            ≡ index_of (world_of self.now).n call.process (call.nth - (world_of self.now).first call.process)) }
        ensures name { IfSome result (λ cell. name_in (world_of self.now) cell ≡ Of call.process call.nth) }
        ensures there { IfSome result (λ cell. IsSome (cell_of self.now.shared.cells cell)) }
    {
        self.shape();
        self.cells().shape();
        let p = u64::from(call.process);
        if p >= self.processes() || call.nth >= self.begun(p) {
            return None;
        }
        let first = self.machine.shared.first(p);
        if call.nth < first {
            return None;
        }
        Some(CellId::of(self.processes(), p, call.nth - first))
    }

    /// The number of a cell of the arena; 0 while it isn't threaded.
    pub fn seq(&self, cell: CellId) -> u64
        requires { IsSome (cell_of self.now.shared.cells cell) }
        ensures { result ≡ seq_of (world_of self.now).memory (name_in (world_of self.now) cell) }
    {
        self.machine.shared.seq(cell)
    }

    /// What the call of a cell of the arena asks for; `None` of the anchor.
    pub fn inv(&self, cell: CellId) -> Option<&O::Inv>
        requires { IsSome (cell_of self.now.shared.cells cell) }
        ensures { option_copied result ≡ inv_of (world_of self.now).memory (name_in (world_of self.now) cell) }
    {
        self.machine.shared.inv(cell)
    }

    /// The state and the response that are settled in a cell of the arena, or `None`. The anchor's
    /// response is `None`.
    pub fn new_of(&self, cell: CellId) -> Option<&(O::State, Option<O::Resp>)>
        requires { IsSome (cell_of self.now.shared.cells cell) }
        ensures { option_copied result ≡ new_of (world_of self.now).memory (name_in (world_of self.now) cell) }
    {
        self.machine.shared.new_of(cell)
    }

    /// The cell before a cell of the arena; `None` where none was written.
    pub fn before(&self, cell: CellId) -> Option<CellId>
        requires { IsSome (cell_of self.now.shared.cells cell) }
        ensures link { option_map (name_in (world_of self.now)) result
            ≡ before_of (world_of self.now).memory (name_in (world_of self.now) cell) }
        ensures there { IfSome result (λ before. IsSome (cell_of self.now.shared.cells before)) }
    {
        self.shape();
        self.machine.shared.before(cell)
    }

    /// The cell that is linked after a cell of the arena; `None` where none is.
    pub fn after(&self, cell: CellId) -> Option<CellId>
        requires { IsSome (cell_of self.now.shared.cells cell) }
        ensures link { option_map (name_in (world_of self.now)) result
            ≡ after_of (world_of self.now).memory (name_in (world_of self.now) cell) }
        ensures there { IfSome result (λ next. IsSome (cell_of self.now.shared.cells next)) }
    {
        self.shape();
        self.machine.shared.after(cell)
    }

    /// The last linked cell, or the anchor. It goes along the whole list.
    pub fn last(&self) -> CellId
        ensures last { name_in (world_of self.now) result ≡ last_cell (world_of self.now) }
        ensures there { IsSome (cell_of self.now.shared.cells result) }
    {
        self.shape();
        let mut last = CellId::anchor();
        for _ in 0..self.processes() * self.row() {
            let Some(next) = self.after(last) else {
                return last;
            };
            last = next;
        }
        last
    }

    /// The cells of the present era, to be read.
    pub fn cells(&self) -> &WorldCells<O::State, O::Inv, O::Resp>
        ensures { result.now ≡ self.now.shared.cells }
    {
        self.machine.shared.cells()
    }

    /// The call that a cell of the arena was made for; `None` of the anchor.
    pub fn call_of(&self, cell: CellId) -> Option<CallId>
        requires { IsSome (cell_of self.now.shared.cells cell) }
        ensures { result ≡ call_of_name (name_in (world_of self.now) cell) }
    {
        self.shape();
        let n = self.machine.shared.processes();
        match u64::from(cell.index()) {
            0 => None,
            index => {
                let p = (index - 1) % n;
                Some(CallId {
                    process: p as u32,
                    nth: self.machine.shared.first(p) + (index - 1) / n,
                })
            }
        }
    }

    /// What every world keeps, for proofs: the call does nothing. What it shows has the invariant of
    /// the definitions, with the facts of helping and the counts of own steps; its cells are one
    /// list, and its log is a legal history. There are 1 to 64 processes. A row has at most 4096 cells, and no process
    /// has
    /// begun more calls in the era; the arena has as many cells of a process as it has begun calls in
    /// the era. A process had begun no more calls before it than the anchor's number. The anchor's
    /// number, and one more for each cell that there can be, stay below 2^48. The latest call of each
    /// process is within the bound of its own steps and turns; one that has made no call has none.
    pub fn shape(&self)
        ensures sound { Invariant (O.sequential self.now.object) (world_of self.now) }
        ensures helping { HelpingInvariant (O.sequential self.now.object) (world_of self.now) }
        ensures counts { CountsSteps (world_of self.now) }
        ensures none { CountsNone (world_of self.now) }
        ensures list { HasOneList (O.sequential self.now.object) (world_of self.now) }
        ensures log { HasLegalLog (O.sequential self.now.object) (world_of self.now) }
        ensures few { (1 ≤ (world_of self.now).n) × ((world_of self.now).n ≤ 64) }
        ensures row { (self.now.shared.cells.row ≡ self.now.row) × (self.now.row ≤ 4096) }
        ensures room { (p : ℕ) → calls_in_era (world_of self.now) p ≤ self.now.row }
        ensures anchor { IsSome (cell_of self.now.shared.cells 0) }
        ensures made { (p : ℕ) → p < (world_of self.now).n
            → made_of self.now.shared.cells p ≡ calls_in_era (world_of self.now) p }
        ensures early { (p : ℕ) → (world_of self.now).first p ≤ seq_of (world_of self.now).memory Anchor }
        ensures numbers { seq_of (world_of self.now).memory Anchor + (world_of self.now).n * self.now.row < 2 ^ 48 }
        ensures fits { seq_of (world_of self.now).memory Anchor + length (chain (world_of self.now)) < 2 ^ 48 }
        ensures bounded { IsBounded (world_of self.now) }
    {
        self.machine.shared.cells().shape();
    }
}
