//! The room of a history.

ghost use Rattle.std.specs.Prelude.{◌≡◌, ◌+◌, ◌*◌, ◌≤◌, ◌↔◌, length, IsTrue, OnOk};
ghost use Rattle.std.specs.Prelude.{vec_capacity};
ghost use Rattle.uni_core.specs.World.{world_of};
ghost use Rattle.uni_record.specs.Recorded.{set_aside};
ghost use Rattle.uni_record.specs.Refusals.{IsHistoryLimit};

use crate::counts::Counts;
use seq_object::SeqObject;
use std::alloc::AllocError;
use uni_audit::Return;
use uni_core::World;

/// The most events that a history can have.
pub const MAX_HISTORY: u64 = 16_777_216;

/// Whether a history can have so many events: from 1 to 16,777,216.
pub(crate) fn is_history(h: u64) -> bool
    ensures { IsTrue result ↔ IsHistoryLimit h }
{
    h >= 1 && h <= MAX_HISTORY
}

/// The events that the pending calls of a world still have set aside.
pub(crate) fn set_aside<O: SeqObject>(world: &World<O>) -> u64
    ensures few { result ≤ 652 * 64 }
    ensures sum { result ≡ set_aside (world_of world.now) }
{
    world.shape();
    let n = world.processes();
    let mut sum = 0;
    for p in 0..n {
        if world.current(p).is_some() {
            sum += 10 * n + 12 - world.steps(p);
        }
    }
    sum
}

/// Makes room for so many returns more, with their counts. It grows by doubling, so that they aren't
/// copied at each call.
///
/// An `Err` says that memory was refused; what is stored stays as it is.
pub(crate) fn make_room<R>(
    returns: &mut Vec<Return<R>>,
    counts: &mut Vec<Counts>,
    more: u64,
) -> Result<(), AllocError>
    ensures returns { (returns.new.items ≡ returns.old.items)
        × (vec_capacity returns.old ≤ vec_capacity returns.new) }
    ensures counts { (counts.new.items ≡ counts.old.items) × (vec_capacity counts.old ≤ vec_capacity counts.new) }
    ensures returns_fit { OnOk result (length returns.old.items + more ≤ vec_capacity returns.new) }
    ensures counts_fit { OnOk result (length counts.old.items + more ≤ vec_capacity counts.new) }
{
    returns.try_reserve(more as usize)?;
    counts.try_reserve(more as usize)
}
