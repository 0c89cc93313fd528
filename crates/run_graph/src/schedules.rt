//! The exploration, breadth first.

ghost use Rattle.std.specs.Prelude.{◌≡◌, ◌+◌, ◌*◌, ◌<◌, ◌≤◌, ◌++◌, ◌∷◌, []};
ghost use Rattle.std.specs.Prelude.{ℕ, None, Some, IfOk, OnOk, IfSome, IsSome, IsTrue, length, unwrap_or};
ghost use Rattle.uni_core.specs.World.{world_of};
ghost use Rattle.uni_core.specs.Same.{without_counts};
ghost use Rattle.run_graph.specs.AtHand.{AreAtHand, IsTold};
ghost use Rattle.run_graph.specs.Schedule.{planned, shown};
ghost use Rattle.run_graph.specs.Graph.{IsPart, IsGraph, LeadsTo, IsMore, path_of, shown_at};

use crate::fault::ExploreFault;
use crate::graph::Graph;
use crate::index::{Index, key_of};
use crate::plan::Plan;
use crate::replay::{take_event, world_at};
use crate::worlds::{keep_world, no_worlds, push_one, take_world};
use seq_object::SeqObject;
use std::alloc::Global;
use uni_core::World;

/// A path with one process more.
fn longer(alloc: Global, path: &[u64], p: u64) -> Result<Vec<u64>, ExploreFault>
    ensures { IfOk result (λ next. next.items ≡ path.now ++ p ∷ []) }
{
    let Ok(mut next) = Vec::with_capacity(alloc, path.len() + 1) else {
        return Err(ExploreFault::Memory);
    };
    if next.extend_from_slice(path).is_err() {
        return Err(ExploreFault::Memory);
    }
    push_one(&mut next, p)?;
    Ok(next)
}

/// Whether the world of node `j` is the same.
fn is_at<O: SeqObject + Copy>(
    alloc: Global,
    plan: &Plan<O>,
    paths: &[Vec<u64>],
    worlds: &[Vec<World<O>>],
    j: usize,
    world: &World<O>,
) -> Result<bool, ExploreFault>
    requires node { j < length paths.now }
    requires at_hand { AreAtHand plan.now.object (planned O.sequential plan.now) paths.now worlds.now }
    requires told { IsTold plan.now.object (O.sequential plan.now.object).initial
        (Some (without_counts (world_of world.now))) world.now }
    ensures { IfOk result (λ same. IsTrue same → shown_at (planned O.sequential plan.now) paths.now j
        ≡ Some (without_counts (world_of world.now))) }
{
    if let Some(here) = worlds.get(j) {
        if let Some(there) = here.last() {
            return Ok(there.is_same(world));
        }
    }
    match world_at(alloc, plan, &paths[j])? {
        Some(there) => Ok(there.is_same(world)),
        None => Ok(false),
    }
}

/// The node whose world is the same, where there is one.
fn find<O: SeqObject + Copy>(
    alloc: Global,
    plan: &Plan<O>,
    paths: &[Vec<u64>],
    worlds: &[Vec<World<O>>],
    index: &Index,
    world: &World<O>,
    key: u64,
) -> Result<Option<usize>, ExploreFault>
    requires at_hand { AreAtHand plan.now.object (planned O.sequential plan.now) paths.now worlds.now }
    requires told { IsTold plan.now.object (O.sequential plan.now.object).initial
        (Some (without_counts (world_of world.now))) world.now }
    ensures node { IfOk result (λ found. IfSome found (λ j. j < length paths.now)) }
    ensures same { IfOk result (λ found. IfSome found (λ j. shown_at (planned O.sequential plan.now) paths.now j
        ≡ Some (without_counts (world_of world.now)))) }
{
    let mut node = index.first(key);
    for _ in 0..paths.len() {
        let Some(j) = node else {
            return Ok(None);
        };
        if index.has(j, key) {
            if j >= paths.len() {
                return Ok(None);
            }
            if is_at(alloc, plan, paths, worlds, j, world)? {
                return Ok(Some(j));
            }
        }
        node = index.next(j);
    }
    Ok(None)
}

/// The node of the world at the end of a path: the one that is there, or a new one.
fn node_at<O: SeqObject + Copy>(
    alloc: Global,
    plan: &Plan<O>,
    limit: usize,
    paths: &mut Vec<Vec<u64>>,
    worlds: &mut Vec<Vec<World<O>>>,
    index: &mut Index,
    path: Vec<u64>,
    world: &World<O>,
) -> Result<usize, ExploreFault>
    requires few { length paths.old.items ≤ limit }
    requires at_hand { AreAtHand plan.now.object (planned O.sequential plan.now) paths.old.items worlds.old.items }
    requires told { IsTold plan.now.object (O.sequential plan.now.object).initial
        (shown (planned O.sequential plan.now) path.items) world.now }
    ensures few { OnOk result (length paths.new.items ≤ limit) }
    ensures more { OnOk result (IsMore (planned O.sequential plan.now) paths.old.items paths.new.items) }
    ensures at_hand { OnOk result (AreAtHand plan.now.object (planned O.sequential plan.now)
        paths.new.items worlds.new.items) }
    ensures node { IfOk result (λ j. j < length paths.new.items) }
    ensures same { IfOk result (λ j. shown_at (planned O.sequential plan.now) paths.new.items j
        ≡ Some (without_counts (world_of world.now))) }
{
    let key = key_of(world);
    if let Some(j) = find(alloc, plan, paths, worlds, index, world, key)? {
        return Ok(j);
    }
    let j = paths.len();
    if j == limit {
        return Err(ExploreFault::Limit);
    }
    index.add(key)?;
    push_one(paths, path)?;
    push_one(worlds, Vec::new(alloc))?;
    Ok(j)
}

/// Takes the event of process `p` in the world of node `i`: the node that it leads to, where it comes.
fn target_of<O: SeqObject + Copy>(
    alloc: Global,
    plan: &Plan<O>,
    limit: usize,
    paths: &mut Vec<Vec<u64>>,
    worlds: &mut Vec<Vec<World<O>>>,
    index: &mut Index,
    i: usize,
    p: u64,
    world: &mut World<O>,
) -> Result<Option<usize>, ExploreFault>
    requires node { i < length paths.old.items }
    requires few { length paths.old.items ≤ limit }
    requires at_hand { AreAtHand plan.now.object (planned O.sequential plan.now) paths.old.items worlds.old.items }
    requires told { IsTold plan.now.object (O.sequential plan.now.object).initial
        (shown_at (planned O.sequential plan.now) paths.old.items i) world.old }
    ensures few { OnOk result (length paths.new.items ≤ limit) }
    ensures more { OnOk result (IsMore (planned O.sequential plan.now) paths.old.items paths.new.items) }
    ensures at_hand { OnOk result (AreAtHand plan.now.object (planned O.sequential plan.now)
        paths.new.items worlds.new.items) }
    ensures leads { IfOk result (λ target. LeadsTo (planned O.sequential plan.now) paths.new.items
        (path_of paths.old.items i ++ p ∷ []) target) }
    ensures told { IfOk result (λ target. IsTold plan.now.object (O.sequential plan.now.object).initial
        (shown_at (planned O.sequential plan.now) paths.new.items (unwrap_or target i)) world.new) }
{
    if !take_event(world, alloc, plan, p)? {
        return Ok(None);
    }
    let path = longer(alloc, &paths[i], p)?;
    let j = node_at(alloc, plan, limit, paths, worlds, index, path, world)?;
    Ok(Some(j))
}

/// Adds the target of process `p` in node `i`.
fn add_edge<O: SeqObject + Copy>(
    alloc: Global,
    plan: &Plan<O>,
    limit: usize,
    graph: &mut Graph,
    worlds: &mut Vec<Vec<World<O>>>,
    index: &mut Index,
    i: usize,
    p: u64,
) -> Result<(), ExploreFault>
    requires process { p < plan.now.processes }
    requires node { i < length graph.old.paths.items }
    requires next { length graph.old.targets.items ≡ i * plan.now.processes + p }
    requires few { length graph.old.paths.items ≤ limit }
    requires part { IsPart (planned O.sequential plan.now) graph.old.paths.items graph.old.targets.items }
    requires at_hand { AreAtHand plan.now.object (planned O.sequential plan.now)
        graph.old.paths.items worlds.old.items }
    ensures next { OnOk result (length graph.new.targets.items ≡ i * plan.now.processes + p + 1) }
    ensures node { OnOk result (i < length graph.new.paths.items) }
    ensures few { OnOk result (length graph.new.paths.items ≤ limit) }
    ensures part { OnOk result (IsPart (planned O.sequential plan.now) graph.new.paths.items graph.new.targets.items) }
    ensures at_hand { OnOk result (AreAtHand plan.now.object (planned O.sequential plan.now)
        graph.new.paths.items worlds.new.items) }
{
    let mut world = take_world(alloc, plan, &graph.paths, worlds, i)?;
    let paths = &mut graph.paths;
    let target = target_of(alloc, plan, limit, paths, worlds, index, i, p, &mut world)?;
    keep_world(worlds, target.unwrap_or(i), world)?;
    push_one(&mut graph.targets, target)?;
    Ok(())
}

/// The opening alone.
fn opening<O: SeqObject + Copy>(
    alloc: Global,
    plan: &Plan<O>,
    index: &mut Index,
) -> Result<Graph, ExploreFault>
    ensures part { IfOk result (λ graph. IsPart (planned O.sequential plan.now)
        graph.paths.items graph.targets.items) }
    ensures one { IfOk result (λ graph. (length graph.paths.items ≡ 1) × (length graph.targets.items ≡ 0)) }
{
    let start = Vec::new(alloc);
    let Some(world) = world_at(alloc, plan, &start)? else {
        return Err(ExploreFault::Memory);
    };
    index.add(key_of(&world))?;
    let mut paths = Vec::new(alloc);
    push_one(&mut paths, start)?;
    Ok(Graph {
        paths,
        targets: Vec::new(alloc),
    })
}

/// The graph of all schedules of a plan, from a world that is opened over the object's start state.
///
/// Errors, in this order: `Limit` where `limit` is 0; `Opening` where no world can be opened; `Limit` where there are
/// more than `limit` nodes. `Memory` can come at any place.
pub fn explore<O: SeqObject + Copy>(
    alloc: Global,
    plan: &Plan<O>,
    limit: usize,
) -> Result<Graph, ExploreFault>
    ensures graph { IfOk result (λ graph. IsGraph (planned O.sequential plan.now)
        graph.paths.items graph.targets.items) }
    ensures few { IfOk result (λ graph. length graph.paths.items ≤ limit) }
{
    if limit == 0 {
        return Err(ExploreFault::Limit);
    }
    let mut index = Index::new(alloc)?;
    let mut graph = opening(alloc, plan, &mut index)?;
    let mut worlds = no_worlds(alloc, &graph.paths)?;
    for i in 0..limit {
        if i == graph.paths.len() {
            return Ok(graph);
        }
        for p in 0..plan.processes {
            add_edge(
                alloc,
                plan,
                limit,
                &mut graph,
                &mut worlds,
                &mut index,
                i,
                p,
            )?;
        }
    }
    Ok(graph)
}
