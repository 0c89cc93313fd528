//! The world at the end of a path.

ghost use Rattle.std.specs.Prelude.{◌≡◌, None, Some, IfOk, IfSome, IsSome, false};
ghost use Rattle.std.specs.Prelude.{if◌then◌else◌, option_map, slice_get};
ghost use Rattle.uni_model.specs.Places.{new_of};
ghost use Rattle.uni_model.specs.Places.Name.{Anchor};
ghost use Rattle.uni_core.specs.World.{world_of, KeepsFixed};
ghost use Rattle.run_graph.specs.Schedule.{moved, plan_of, planned, world_at};

use crate::fault::ExploreFault;
use crate::plan::Plan;
use seq_object::SeqObject;
use std::alloc::Global;
use uni_core::World;

/// The event of process `p`: the next step of its pending call, or else its next call, where it has
/// one and room for it. The answer is whether it has one; where it has none, the world stays. An `Err`
/// says that memory was refused.
pub(crate) fn take_event<O: SeqObject>(
    world: &mut World<O>,
    alloc: Global,
    plan: &Plan<O>,
    p: u64,
) -> Result<bool, ExploreFault>
    ensures moved { IfOk result (λ taken. moved (plan_of (O.sequential world.old.object) (world_of world.old).n
        plan.now.row plan.now.calls.items) p (world_of world.old)
        ≡ (if taken then Some (world_of world.new) else None)) }
    ensures still { IfOk result (λ taken. taken ≡ false → world.new ≡ world.old) }
    ensures anchor { IfOk result (λ taken. new_of (world_of world.new).memory Anchor
        ≡ new_of (world_of world.old).memory Anchor) }
    ensures processes { (world_of world.new).n ≡ (world_of world.old).n }
    ensures fixed { KeepsFixed world.old world.new }
{
    world.shape();
    if p >= world.processes() {
        return Ok(false);
    }
    if world.current(p).is_some() {
        return match world.step(alloc, p) {
            Ok(_) => Ok(true),
            Err(_) => Err(ExploreFault::Memory),
        };
    }
    if world.calls_in_era(p) >= plan.row {
        return Ok(false);
    }
    let Some(inv) = plan.call(p, world.begun(p)) else {
        return Ok(false);
    };
    match world.begin(alloc, p, inv) {
        Ok(_) => Ok(true),
        Err(_) => Err(ExploreFault::Memory),
    }
}

/// The world at the end of a path; `None` where an event of it doesn't come.
///
/// Errors: `Opening` where no world can be opened, or `Memory`.
pub fn world_at<O: SeqObject + Copy>(
    alloc: Global,
    plan: &Plan<O>,
    path: &[u64],
) -> Result<Option<World<O>>, ExploreFault>
    ensures world { IfOk result (λ end. world_at (planned O.sequential plan.now) path.now
        ≡ option_map world_of end) }
    ensures object { IfOk result (λ end. IfSome end (λ world. world.object ≡ plan.now.object)) }
    ensures anchor { IfOk result (λ end. IfSome end (λ world. new_of (world_of world).memory Anchor
        ≡ Some ((O.sequential plan.now.object).initial, None))) }
{
    let mut world = match World::open(alloc, plan.object, plan.processes, plan.row) {
        Ok(world) => world,
        Err(fault) => return Err(ExploreFault::Opening(fault)),
    };
    for p in path {
        if !take_event(&mut world, alloc, plan, *p)? {
            return Ok(None);
        }
    }
    Ok(Some(world))
}
