//! Worlds at hand: those that other events led to, at the nodes where they came. Each saves a replay.

ghost use Rattle.std.specs.Prelude.{◌≡◌, ◌<◌, ◌++◌, ◌∷◌, ℕ, [], IfOk, OnOk, IsSome, length};
ghost use Rattle.run_graph.specs.AtHand.{AreAtHand, IsKept, IsTaken, IsTold, list_at};
ghost use Rattle.run_graph.specs.Graph.{shown_at};
ghost use Rattle.run_graph.specs.Schedule.{planned};

use crate::fault::ExploreFault;
use crate::plan::Plan;
use crate::replay::world_at;
use seq_object::SeqObject;
use std::alloc::Global;
use uni_core::World;

/// Adds one at the end of a list. An `Err` says that memory was refused.
pub(crate) fn push_one<T: Drop>(list: &mut Vec<T>, one: T) -> Result<(), ExploreFault>
    ensures { OnOk result (list.new.items ≡ list.old.items ++ one ∷ []) }
{
    match list.push(one) {
        Ok(()) => Ok(()),
        Err(_) => Err(ExploreFault::Memory),
    }
}

/// For each node no world. An `Err` says that memory was refused.
pub fn no_worlds<O: SeqObject>(
    alloc: Global,
    paths: &[Vec<u64>],
) -> Result<Vec<Vec<World<O>>>, ExploreFault>
    ensures count { IfOk result (λ worlds. length worlds.items ≡ length paths.now) }
    ensures none { IfOk result (λ worlds. (i : ℕ) → list_at worlds.items i ≡ []) }
{
    let mut worlds = Vec::new(alloc);
    for _ in paths {
        push_one(&mut worlds, Vec::new(alloc))?;
    }
    Ok(worlds)
}

/// Keeps one more at place `j` of the lists. An `Err` says that memory was refused.
pub fn keep_world<T: Drop>(lists: &mut Vec<Vec<T>>, j: usize, one: T) -> Result<(), ExploreFault>
    requires { j < length lists.old.items }
    ensures { OnOk result (IsKept j one lists.old.items lists.new.items) }
{
    push_one(&mut lists[j], one)
}

/// Takes the last at place `i` of the lists, if there is one.
fn taken<T: Drop>(lists: &mut Vec<Vec<T>>, i: usize) -> Option<T>
    ensures { IsTaken i result lists.old.items lists.new.items }
{
    match lists.get_mut(i) {
        Some(here) => here.pop(),
        None => None,
    }
}

/// A world of node `i`: one that is at hand, or else by a replay of its path.
///
/// Errors: `Opening` where no world can be opened, or `Memory`.
pub fn take_world<O: SeqObject + Copy>(
    alloc: Global,
    plan: &Plan<O>,
    paths: &[Vec<u64>],
    worlds: &mut Vec<Vec<World<O>>>,
    i: usize,
) -> Result<World<O>, ExploreFault>
    requires node { i < length paths.now }
    requires at_hand { AreAtHand plan.now.object (planned O.sequential plan.now) paths.now worlds.old.items }
    ensures at_hand { AreAtHand plan.now.object (planned O.sequential plan.now) paths.now worlds.new.items }
    ensures told { IfOk result (IsTold plan.now.object (O.sequential plan.now.object).initial
        (shown_at (planned O.sequential plan.now) paths.now i)) }
{
    if let Some(world) = taken(worlds, i) {
        return Ok(world);
    }
    match world_at(alloc, plan, &paths[i])? {
        Some(world) => Ok(world),
        None => Err(ExploreFault::Memory),
    }
}
