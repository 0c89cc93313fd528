//! What the edges of a graph tell.

ghost use Rattle.std.specs.Prelude.{◌≡◌, ◌<◌, None, IfOk, OnOk, length};
ghost use Rattle.std.specs.Prelude.{option_and_then, option_map, slice_index_or};
ghost use Rattle.uni_model.specs.Places.{new_of};
ghost use Rattle.uni_model.specs.Places.Name.{Anchor};
ghost use Rattle.uni_core.specs.World.{world_of};
ghost use Rattle.run_graph.specs.AtHand.{AreAtHand};
ghost use Rattle.run_graph.specs.Graph.{IsGraph};
ghost use Rattle.run_graph.specs.Schedule.{event_of, moved, plan_of, planned};
ghost use Rattle.run_replay.specs.Scenes.{frame_of};
ghost use Rattle.run_replay.specs.Scenes.{begun_shown, frame_shown, step_shown};
ghost use Rattle.run_play.specs.Edges.{begun_text, beside, edge_text, frame_text, step_text, AreEdges};

use ready_objects::Spoken;
use run_graph::{Graph, Plan, keep_world, no_worlds, take_world};
use run_layout::letter_of;
use run_replay::{Begun, Frame, Step, begun_of, cell_text, step_of};
use run_tell::{Member, Value, object_of};
use std::alloc::{AllocError, Global};
use uni_core::World;

/// Takes the event of process `p` in a world, and tells what it does; `None` where it has none.
///
/// An `Err` says that memory was refused.
fn frame_after<O: Spoken>(
    alloc: Global,
    plan: &Plan<O>,
    world: &mut World<O>,
    p: u64,
) -> Result<Option<Frame>, AllocError>
    ensures object { world.new.object ≡ world.old.object }
    ensures anchor { OnOk result (new_of (world_of world.new).memory Anchor
        ≡ new_of (world_of world.old).memory Anchor) }
    ensures moved { IfOk result (λ frame. moved
        (plan_of (O.sequential world.old.object) (world_of world.old).n plan.now.row plan.now.calls.items)
        p (world_of world.old) ≡ option_map (λ _. world_of world.new) frame) }
    ensures frame { IfOk result (λ frame. option_map frame_shown frame ≡ option_and_then
        (frame_of (O.sequential world.old.object) O.language O.state_text (world_of world.old))
        (event_of (plan_of (O.sequential world.old.object) (world_of world.old).n plan.now.row plan.now.calls.items)
        (world_of world.old) p)) }
{
    world.shape();
    if p >= world.processes() {
        return Ok(None);
    }
    if world.current(p).is_some() {
        return Ok(Some(Frame::Step(step_of(alloc, p, world)?)));
    }
    if world.calls_in_era(p) >= plan.row {
        return Ok(None);
    }
    match plan.call(p, world.begun(p)) {
        Some(inv) => Ok(Some(Frame::Call(begun_of(alloc, p, inv, world)?))),
        None => Ok(None),
    }
}

/// What is told beside what the place of a step holds: the reply that is settled with a state, the cell that the
/// step proposed, or what the call returns; `None` where there is nothing.
///
/// An `Err` says that memory was refused.
fn beside(alloc: Global, step: &Step) -> Result<Option<Vec<u8>>, AllocError>
    ensures { IfOk result (λ text. option_map (λ t. t.items) text ≡ beside (step_shown step.now)) }
{
    match (&step.after.reply, &step.proposed, &step.reply) {
        (Some(settled), _, _) => Ok(Some(Vec::from_slice(alloc, &settled.text)?)),
        (None, Some(held), _) => Ok(Some(Vec::from_slice(alloc, &held.field.text)?)),
        (None, None, Some(reply)) => Ok(Some(Vec::from_slice(alloc, reply)?)),
        (None, None, None) => Ok(None),
    }
}

/// The text of a call that leads to a node.
///
/// An `Err` says that memory was refused.
fn begun_text(alloc: Global, to: usize, begun: &Begun) -> Result<Vec<u8>, AllocError>
    ensures { IfOk result (λ text. text.items ≡ begun_text to (begun_shown begun.now)) }
{
    let call = cell_text(alloc, Some(begun.call))?;
    let members = [
        Member("to", Value::Number(to as u64)),
        Member("call", Value::Text(&call)),
        Member("words", Value::Text(&begun.words)),
    ];
    object_of(alloc, &members)
}

/// The text of a step that leads to a node.
///
/// An `Err` says that memory was refused.
fn step_text(alloc: Global, to: usize, step: &Step) -> Result<Vec<u8>, AllocError>
    ensures { IfOk result (λ text. text.items ≡ step_text to (step_shown step.now)) }
{
    let beside = beside(alloc, step)?;
    let kind = [letter_of(step.kind)];
    let members = [
        Member("to", Value::Number(to as u64)),
        Member("kind", Value::Text(&kind)),
        Member("place", Value::Text(&step.after.field.name)),
        Member("text", Value::Text(&step.after.field.text)),
        Member("beside", Value::MaybeText(&beside)),
    ];
    object_of(alloc, &members)
}

/// The text of an event that leads to a node; `null` of the end of an era, of which a graph has none.
///
/// An `Err` says that memory was refused.
fn frame_text(alloc: Global, to: usize, frame: &Frame) -> Result<Vec<u8>, AllocError>
    ensures { IfOk result (λ text. text.items ≡ frame_text to (frame_shown frame.now)) }
{
    match frame {
        Frame::Call(begun) => begun_text(alloc, to, begun),
        Frame::Step(step) => step_text(alloc, to, step),
        Frame::End(_) => Vec::from_slice(alloc, b"null"),
    }
}

/// The text of the edge at place `k`: that of a process in a node to its target. The world after it is kept at hand.
///
/// An `Err` says that memory was refused.
fn edge_text<O: Spoken + Copy>(
    alloc: Global,
    plan: &Plan<O>,
    graph: &Graph,
    worlds: &mut Vec<Vec<World<O>>>,
    k: usize,
    target: Option<usize>,
) -> Result<Vec<u8>, AllocError>
    requires processes { 0 < plan.now.processes }
    requires place { k < length graph.now.targets.items }
    requires target { target ≡ slice_index_or graph.now.targets.items k None }
    requires graph { IsGraph (planned O.sequential plan.now) graph.now.paths.items graph.now.targets.items }
    requires at_hand { AreAtHand plan.now.object (planned O.sequential plan.now)
        graph.now.paths.items worlds.old.items }
    ensures at_hand { OnOk result (AreAtHand plan.now.object (planned O.sequential plan.now)
        graph.now.paths.items worlds.new.items) }
    ensures text { IfOk result (λ text. text.items ≡ edge_text
        (planned O.sequential plan.now) O.language O.state_text graph.now.paths.items k target) }
{
    let Some(to) = target else {
        return Vec::from_slice(alloc, b"null");
    };
    let (node, p) = (k as u64 / plan.processes, k as u64 % plan.processes);
    let Ok(mut world) = take_world(alloc, plan, &graph.paths, worlds, node as usize) else {
        return Err(AllocError);
    };
    let Some(frame) = frame_after(alloc, plan, &mut world, p)? else {
        return Vec::from_slice(alloc, b"null");
    };
    match keep_world(worlds, to, world) {
        Ok(()) => frame_text(alloc, to, &frame),
        Err(_) => Err(AllocError),
    }
}

/// The texts of all edges of a graph: of each node, and in it of each process.
///
/// An `Err` says that memory was refused.
pub(crate) fn edge_texts<O: Spoken + Copy>(
    alloc: Global,
    plan: &Plan<O>,
    graph: &Graph,
) -> Result<Vec<Vec<u8>>, AllocError>
    requires processes { 0 < plan.now.processes }
    requires graph { IsGraph (planned O.sequential plan.now) graph.now.paths.items graph.now.targets.items }
    ensures { IfOk result (λ texts. AreEdges (planned O.sequential plan.now) O.language O.state_text
        graph.now.paths.items graph.now.targets.items texts.items) }
{
    let Ok(mut worlds) = no_worlds(alloc, &graph.paths) else {
        return Err(AllocError);
    };
    let mut texts = Vec::new(alloc);
    for target in &graph.targets {
        let k = texts.len();
        let text = edge_text(alloc, plan, graph, &mut worlds, k, *target)?;
        texts.push(text)?;
    }
    Ok(texts)
}
