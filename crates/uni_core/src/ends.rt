//! The two ways to end an era.

ghost use Rattle.std.specs.Prelude.{◌≡◌, ◌↔◌, ◌≤◌, IfOk, IfErr, IfSome, IsSome, OnOk, OnErr};
ghost use Rattle.uni_model.specs.Worlds.{world_after};
ghost use Rattle.uni_model.specs.Worlds.Event.{Trim, Reshape};
ghost use Rattle.uni_core.specs.World.{world_of, KeepsFixed};
ghost use Rattle.uni_core.specs.Refusals.{IsCount};
ghost use Rattle.uni_core.specs.Ends.{last_number, NumbersFit, CanEnd, IsTrimRefused, IsReshapeRefused};

use crate::fault::{ReshapeFault, TrimFault};
use crate::world::World;
use seq_object::SeqObject;
use std::alloc::Global;
use uni_model::{MAX_PROCESSES, MAX_SEQ};

/// The number that the next anchor would have, which is the last cell's, where the numbers of an era
/// of `m` processes, at most 64, fit after it: `last + m * k` doesn't pass 2^48 - 1. `None` where they
/// don't.
pub fn next_number<O: SeqObject>(world: &World<O>, m: u64) -> Option<u64>
    requires { m ≤ 64 }
    ensures number { IfSome result (λ number. number ≡ last_number (world_of world.now)) }
    ensures fits { IsSome result ↔ NumbersFit (world_of world.now) m world.now.row }
{
    world.shape();
    let number = world.seq(world.last());
    if number > MAX_SEQ - m * world.row() {
        return None;
    }
    Some(number)
}

/// Ends the era: the list is replaced by one anchor with the state and the number of its last cell,
/// which all announce and head entries name. Numbers of calls go on. The answer is the number of
/// the new anchor. It takes no memory.
///
/// Errors, in this order: `Pending(p)` where a process has a call pending, with the least of such;
/// `SeqFull` where `last + n * k` passes 2^48 - 1, with the last number, `n` processes and rows of
/// `k` calls. After each nothing is changed.
pub fn trim<O: SeqObject>(world: &mut World<O>) -> Result<u64, TrimFault>
    ensures refused { IfErr result (IsTrimRefused (world_of world.old) world.old.row) }
    ensures allowed { OnOk result (CanEnd (world_of world.old) world.old.row (world_of world.old).n) }
    ensures number { IfOk result (λ number. number ≡ last_number (world_of world.old)) }
    ensures trimmed { OnOk result (world_of world.new
        ≡ world_after (O.sequential world.old.object) (world_of world.old) Trim) }
    ensures fixed { KeepsFixed world.old world.new }
    ensures unchanged { OnErr result (world.new ≡ world.old) }
{
    world.shape();
    if let Some(p) = world.pending() {
        return Err(TrimFault::Pending(p));
    }
    let Some(number) = next_number(world, world.processes()) else {
        return Err(TrimFault::SeqFull);
    };
    world.renew();
    Ok(number)
}

/// Ends the era as `trim` does, and makes the number of processes `m`. Numbers of calls go on, of
/// every process: one that isn't below `m` can't call until a later reshape takes it in again, and
/// goes on from its number then. The answer is the number of the new anchor.
///
/// Errors, in this order: `BadCount` where `m` isn't from 1 to 64; `Pending(p)` where a process has
/// a call pending, with the least of such; `SeqFull` where `last + m * k` passes 2^48 - 1, with the
/// last number and rows of `k` calls; `Memory`. After each nothing is changed.
pub fn reshape<O: SeqObject>(
    alloc: Global,
    world: &mut World<O>,
    m: u64,
) -> Result<u64, ReshapeFault>
    ensures refused { IfErr result (IsReshapeRefused (world_of world.old) world.old.row m) }
    ensures allowed { OnOk result (IsCount m × CanEnd (world_of world.old) world.old.row m) }
    ensures number { IfOk result (λ number. number ≡ last_number (world_of world.old)) }
    ensures reshaped { OnOk result (world_of world.new
        ≡ world_after (O.sequential world.old.object) (world_of world.old) (Reshape m)) }
    ensures fixed { KeepsFixed world.old world.new }
    ensures unchanged { OnErr result (world.new ≡ world.old) }
{
    world.shape();
    if m < 1 || m > MAX_PROCESSES {
        return Err(ReshapeFault::BadCount);
    }
    if let Some(p) = world.pending() {
        return Err(ReshapeFault::Pending(p));
    }
    let Some(number) = next_number(world, m) else {
        return Err(ReshapeFault::SeqFull);
    };
    match world.renew_for(alloc, m) {
        Ok(()) => Ok(number),
        Err(_) => Err(ReshapeFault::Memory),
    }
}
