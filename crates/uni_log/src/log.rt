//! The reader of the list.

ghost use Rattle.std.specs.Prelude.{◌≡◌, ◌+◌, ◌<◌, ◌≤◌, ℕ, ◌∷◌, ◌++◌, IfOk, IfSome};
ghost use Rattle.std.specs.Prelude.{IsSome, IsSomeAnd, Some, None, length, map, option_map, position, reverse};
ghost use Rattle.std.specs.Prelude.{slice_get, take};
ghost use Rattle.std.specs.Option.{option_copied};
ghost use Rattle.cell_arena.specs.Arena.{cell_of};
ghost use Rattle.seq_object.specs.History.{IsLegal, state_after};
ghost use Rattle.uni_model.specs.Places.{new_of, seq_of, name_eq};
ghost use Rattle.uni_model.specs.Places.Name.{Anchor, Of};
ghost use Rattle.uni_model.specs.Worlds.{chain};
ghost use Rattle.uni_model.specs.History.{log, invocations_of};
ghost use Rattle.uni_core.specs.World.{world_of, name_in};
ghost use Rattle.uni_log.specs.Entry.{entry_shown, call_shown};
ghost use Rattle.uni_log.specs.Log.{state_settled_at};

use crate::cursor::LogCursor;
use crate::entry::Entry;
use cell_arena::CellId;
use seq_object::{CallId, SeqObject};
use std::alloc::{AllocError, Global};
use std::marker::Model;
use uni_core::World;

/// The log of a world: what its list has, from the anchor on.
///
/// A contract sees the world.
#[derive(Drop)]
pub struct Log<'a, O: SeqObject> {
    world: &'a World<O>,
}

impl<'a, O: SeqObject> Model for Log<'a, O> {
    ghost use Rattle.uni_core.specs.World.{WorldParts};

    ghost Value = { WorldParts O O.State O.Inv O.Resp };

    ghost view = { λ l. l.world.now };
}

/// Whether a cell was made for a call.
fn is_cell_of<O: SeqObject>(world: &World<O>, id: CellId, call: CallId) -> bool
    requires { IsSome (cell_of world.now.shared.cells id) }
    ensures { result ≡ name_eq (Of call.process call.nth) (name_in (world_of world.now) id) }
{
    match world.call_of(id) {
        Some(made) => call.process == made.process && call.nth == made.nth,
        None => false,
    }
}

/// The state that is settled in a cell of the arena, or `None`.
fn state_in<'a, O: SeqObject>(world: &'a World<O>, id: CellId) -> Option<&'a O::State>
    requires { IsSome (cell_of world.now.shared.cells id) }
    ensures { option_copied result ≡ option_map (λ new. new.0)
        (new_of (world_of world.now).memory (name_in (world_of world.now) id)) }
{
    match world.new_of(id) {
        Some((state, _)) => Some(state),
        None => None,
    }
}

impl<'a, O: SeqObject> Log<'a, O> {
    /// The log of a world.
    pub fn of(world: &'a World<O>) -> Self
        ensures { result ≡ world.now }
    {
        Log { world }
    }

    /// A cursor before the first entry.
    pub fn cursor(&self) -> LogCursor<'a, O>
        ensures world { result.world ≡ self.now }
        ensures first { result.passed ≡ 0 }
    {
        LogCursor::of(self.world)
    }

    /// The entries of the present era: the calls in the list, in the order in which they took
    /// effect, from the one after the anchor on. Each has its number, what it asks for, and its
    /// response where that is settled, as it is in all but the last. Each response is the
    /// object's, after the calls before it, from the state of the anchor on.
    ///
    /// An `Err` says that memory was refused.
    pub fn entries(&self, alloc: Global) -> Result<Vec<Entry<O::Inv, O::Resp>>, AllocError>
        ensures log { IfOk result (λ entries. map entry_shown entries.items ≡ log (world_of self.now)) }
        ensures settled { IfOk result (λ entries. (i : ℕ) → i + 1 < length entries.items
            → IsSomeAnd (slice_get entries.items i) (λ e. IsSome e.reply)) }
        ensures legal { IfOk result (λ entries. (state : O.State)
            → new_of (world_of self.now).memory Anchor ≡ Some (state, None)
            → IsLegal (O.sequential self.now.object) state (map call_shown entries.items)) }
    {
        self.world.shape();
        self.entries_after(alloc, Vec::new(alloc))
    }

    /// These entries, and then those of the present era: where entries of ended eras are kept, the log of
    /// all eras, of which there is no second copy meanwhile.
    ///
    /// An `Err` says that memory was refused; the entries are dropped then.
    pub fn entries_after(
        &self,
        alloc: Global,
        earlier: Vec<Entry<O::Inv, O::Resp>>,
    ) -> Result<Vec<Entry<O::Inv, O::Resp>>, AllocError>
        ensures { IfOk result (λ entries. map entry_shown entries.items
            ≡ map entry_shown earlier.items ++ log (world_of self.now)) }
    {
        let mut entries = earlier;
        let mut cursor = self.cursor();
        while let Some(entry) = cursor.next_entry(alloc)? {
            entries.push(entry)?;
        }
        Ok(entries)
    }

    /// The cells of the list, in its order: the anchor first, and then those of the calls.
    ///
    /// An `Err` says that memory was refused.
    pub fn cells_forward(&self, alloc: Global) -> Result<Vec<CellId>, AllocError>
        ensures { IfOk result (λ cells. map (name_in (world_of self.now)) cells.items
            ≡ Anchor ∷ chain (world_of self.now)) }
    {
        let world = self.world;
        world.shape();
        let mut forward = Vec::new(alloc);
        let mut at = CellId::anchor();
        forward.push(at)?;
        while let Some(next) = world.after(at) {
            forward.push(next)?;
            at = next;
        }
        Ok(forward)
    }

    /// The place of a call in the order in which the calls of the present era took effect, from 0;
    /// `None` where the list doesn't have it.
    pub fn place_of(&self, call: CallId) -> Option<u64>
        ensures { result ≡ position (name_eq (Of call.process call.nth)) (chain (world_of self.now)) }
    {
        let world = self.world;
        world.shape();
        let mut place = 0;
        let mut at = CellId::anchor();
        while let Some(next) = world.after(at) {
            if is_cell_of(world, next, call) {
                return Some(place);
            }
            place += 1;
            at = next;
        }
        None
    }

    /// The state after so many entries of the present era: that of the anchor after none. `None`
    /// where it isn't settled yet, or the list has no such entry.
    pub fn state_at(&self, place: u64) -> Option<&O::State>
        ensures settled { option_copied result ≡ state_settled_at (world_of self.now) place }
        ensures folded { IfSome result (λ state. (start : O.State)
            → new_of (world_of self.now).memory Anchor ≡ Some (start, None)
            → state.now ≡ state_after (O.sequential self.now.object) start
            (take place (invocations_of (world_of self.now)))) }
    {
        let world = self.world;
        world.shape();
        let mut at = CellId::anchor();
        for _ in 0..place {
            let Some(next) = world.after(at) else {
                return None;
            };
            at = next;
        }
        state_in(world, at)
    }

    /// The cells of the list from a cell back to the anchor, each found as the one before: the
    /// reverse of the list from the anchor up to that cell. The cell has to be threaded, that is
    /// its number, which `World::seq` tells, isn't 0.
    ///
    /// An `Err` says that memory was refused.
    pub fn cells_back(&self, alloc: Global, from: CellId) -> Result<Vec<CellId>, AllocError>
        requires there { IsSome (cell_of self.now.shared.cells from) }
        requires threaded { 1 ≤ seq_of (world_of self.now).memory (name_in (world_of self.now) from) }
        ensures first { IfOk result (λ cells. slice_get cells.items 0 ≡ Some from) }
        ensures reversed { IfOk result (λ cells. reverse (map (name_in (world_of self.now)) cells.items)
            ≡ take (length cells.items) (Anchor ∷ chain (world_of self.now))) }
    {
        let world = self.world;
        world.shape();
        let mut back = Vec::new(alloc);
        back.push(from)?;
        let mut at = from;
        while let Some(before) = world.before(at) {
            back.push(before)?;
            at = before;
        }
        Ok(back)
    }
}
