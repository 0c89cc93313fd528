//! A cursor along the log.

ghost use Rattle.std.specs.Prelude.{◌≡◌, ◌+◌, IfOk, OnErr, IsSome, length, option_map, option_to_list};
ghost use Rattle.std.specs.Prelude.{slice_get};
ghost use Rattle.cell_arena.specs.Arena.{cell_of};
ghost use Rattle.uni_model.specs.Chain.{invoked_at, response_in};
ghost use Rattle.uni_model.specs.History.{log};
ghost use Rattle.uni_core.specs.World.{world_of, name_in};
ghost use Rattle.uni_log.specs.Entry.{entry_shown};

use crate::entry::Entry;
use cell_arena::CellId;
use seq_object::SeqObject;
use std::alloc::{AllocError, Global};
use std::marker::Model;
use uni_core::World;

/// A cursor along the log of a world. It stands before an entry, first before the first one, or at
/// the end, and makes one entry at a time.
///
/// A contract sees the world, and how many entries the cursor has passed.
#[derive(Drop)]
pub struct LogCursor<'a, O: SeqObject> {
    world: &'a World<O>,
    at: CellId,
    passed: u64,
}

impl<'a, O: SeqObject> Model for LogCursor<'a, O> {
    ghost use Rattle.std.specs.Prelude.{◌≡◌, ◌∷◌, IsSome, Some, slice_get};
    ghost use Rattle.cell_arena.specs.Arena.{cell_of};
    ghost use Rattle.uni_model.specs.Places.Name.{Anchor};
    ghost use Rattle.uni_model.specs.Worlds.{chain};
    ghost use Rattle.uni_core.specs.World.{world_of, name_in};
    ghost use Rattle.uni_log.specs.Log.{Along};

    ghost Value = { Along O O.State O.Inv O.Resp };

    ghost view = { λ c. record { world = c.world.now; passed = c.passed } };

    ghost invariant = { λ c. IsSome (cell_of c.world.now.shared.cells c.at)
        × (slice_get (Anchor ∷ chain (world_of c.world.now)) c.passed
        ≡ Some (name_in (world_of c.world.now) c.at)) };
}

/// The entry of a cell that was made for a call, with this number.
///
/// An `Err` says that memory was refused.
fn entry_at<O: SeqObject>(
    alloc: Global,
    world: &World<O>,
    id: CellId,
    seq: u64,
) -> Result<Entry<O::Inv, O::Resp>, AllocError>
    requires there { IsSome (cell_of world.now.shared.cells id) }
    requires call { IsSome (invoked_at (world_of world.now).memory (name_in (world_of world.now) id)) }
    ensures seq { IfOk result (λ e. (entry_shown e).number ≡ seq) }
    ensures call { IfOk result (λ e. invoked_at (world_of world.now).memory (name_in (world_of world.now) id)
        ≡ Some (entry_shown e).call) }
    ensures reply { IfOk result (λ e. (entry_shown e).response
        ≡ response_in (world_of world.now).memory (name_in (world_of world.now) id)) }
{
    let call = world.call_of(id).unwrap();
    let inv = O::copy_inv(alloc, world.inv(id).unwrap())?;
    let reply = match world.new_of(id) {
        Some((_, reply)) => *reply,
        None => None,
    };
    Ok(Entry {
        seq,
        call,
        inv,
        reply,
    })
}

impl<'a, O: SeqObject> LogCursor<'a, O> {
    /// A cursor before the first entry of a world's log.
    pub(crate) fn of(world: &'a World<O>) -> Self
        ensures world { result.world ≡ world.now }
        ensures first { result.passed ≡ 0 }
    {
        world.shape();
        LogCursor {
            world,
            at: CellId::anchor(),
            passed: 0,
        }
    }

    /// The entry before which the cursor stands, which it passes; `None` at the end of the log, where
    /// it stays.
    ///
    /// An `Err` says that memory was refused; the cursor stays.
    pub fn next_entry(
        &mut self,
        alloc: Global,
    ) -> Result<Option<Entry<O::Inv, O::Resp>>, AllocError>
        ensures entry { IfOk result (λ entry. option_map entry_shown entry
            ≡ slice_get (log (world_of self.old.world)) self.old.passed) }
        ensures passed { IfOk result (λ entry. self.new.passed
            ≡ self.old.passed + length (option_to_list entry)) }
        ensures world { self.new.world ≡ self.old.world }
        ensures unchanged { OnErr result (self.new ≡ self.old) }
    {
        let world = self.world;
        world.shape();
        let Some(next) = world.after(self.at) else {
            return Ok(None);
        };
        let seq = world.seq(CellId::anchor()) + self.passed + 1;
        let entry = entry_at(alloc, world, next, seq)?;
        self.at = next;
        self.passed += 1;
        Ok(Some(entry))
    }
}
