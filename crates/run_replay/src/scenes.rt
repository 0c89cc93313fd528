//! The scenes of a run, by the replay of its events.

ghost use Rattle.std.specs.Prelude.{◌≡◌, ◌∷◌, [], ℕ, None, Some, IfOk, IfNone, IfSome, IsSome, OnOk};
ghost use Rattle.std.specs.Prelude.{drop, length, option_map, take};
ghost use Rattle.run_replay.specs.Vocabulary.{IsPlaceIn, IsProgress, cell_of, event_lent, event_shown, events_shown};
ghost use Rattle.run_replay.specs.Vocabulary.{last_number, name_in, opened_world, option_map_or, place_named};
ghost use Rattle.run_replay.specs.Vocabulary.{world_after, world_after_all, world_of};
ghost use Rattle.uni_model.specs.Worlds.{Event as model};
ghost use Rattle.run_replay.specs.Held.{IsComing, held, proposal_told};
ghost use Rattle.run_replay.specs.Scenes.{begun, ended, frame_of, stepped, excerpt_of, start_of, begun_shown};
ghost use Rattle.run_replay.specs.Scenes.{end_shown, frame_shown, held_shown, scene_shown, start_shown, step_shown};

use crate::frame::{Begun, EndedEra, Frame, Held, Scene, Start, Step};
use crate::places::{alone, cell_text, field_held, read_place, settled_fields};
use crate::whole::whole_memory;
use cell_arena::{CellId, Cells};
use ready_objects::Spoken;
use seq_object::CallId;
use std::alloc::{AllocError, Global};
use std::marker::Model;
use uni_core::{Place, Progress, StepKind, World, reshape, trim};
use uni_record::{Event, Events, Recorded};

/// The scenes of events of a run that are still to come, found one by one by a replay of these events. A contract sees
/// them as their list.
#[derive(Drop)]
pub struct Scenes<'a, O: Spoken> {
    replay: World<O>,
    events: Events<'a, O::Inv>,
    left: u64,
    is_whole: bool,
}

impl<'a, O: Spoken> Model for Scenes<'a, O> {
    ghost use Rattle.std.specs.Prelude.{List, Option, take};
    ghost use Rattle.uni_core.specs.World.{world_of};
    ghost use Rattle.uni_record.specs.Event.{events_shown};
    ghost use Rattle.run_replay.specs.Scenes.{Scene, scenes_from};

    ghost Value = { List (Option Scene) };

    ghost view = { λ s. scenes_from (O.sequential s.replay.object) O.language O.state_text s.is_whole
        (world_of s.replay) (take s.left (events_shown s.events)) };
}

impl<'a, O: Spoken> Scenes<'a, O> {
    /// Takes the next event; the answer is its scene, or `None` where there is no further one. An `Err` says that
    /// memory was refused, or the event.
    pub fn next_scene(&mut self, alloc: Global) -> Result<Option<Scene>, AllocError>
        ensures next { IfOk result (λ next.
            IfSome next (λ scene. self.old ≡ Some (scene_shown scene) ∷ self.new)) }
        ensures end { IfOk result (λ next. IfNone next (self.old ≡ [])) }
    {
        if self.left == 0 {
            return Ok(None);
        }
        let Some(event) = self.events.next() else {
            return Ok(None);
        };
        self.left -= 1;
        let frame = frame_of(alloc, event, &mut self.replay)?;
        let memory = if self.is_whole {
            Some(whole_memory(alloc, &self.replay)?)
        } else {
            None
        };
        Ok(Some(Scene { frame, memory }))
    }
}

/// What some events of the run did that a record has stored: of those from number `from` on, which counts from 0, at
/// most so many; `object` is a further value of the record's object. The answer is where they begin, and the scenes of
/// these events, which tell the whole memory only where that is asked for. An `Err` says that memory was refused. It
/// would come too where the replay refused an event, here or at a scene, as it never does with the object of the
/// record; that isn't proved.
pub fn excerpt_of<O: Spoken>(
    alloc: Global,
    object: O,
    run: &Recorded<O>,
    from: u64,
    most: u64,
    is_whole: bool,
) -> Result<(Option<Start>, Scenes<'_, O>), AllocError>
    ensures { IfOk result (λ part. excerpt_of (O.sequential object) O.language O.state_text is_whole from most
        (opened_world run.now.processes (O.sequential object).initial run.now.first) (events_shown run.now.events) ≡
        record { start = option_map start_shown part.0; scenes = part.1 }) }
{
    let mut replay = reopened(alloc, object, run)?;
    let mut events = run.events();
    let passed = pass(alloc, from, &mut events, &mut replay)?;
    let start = start_of(alloc, passed, &replay)?;
    let scenes = Scenes {
        replay,
        events,
        left: most,
        is_whole,
    };
    Ok((start, scenes))
}

/// The world in which a record opened, over this object. An `Err` says that it couldn't be opened.
pub(crate) fn reopened<O: Spoken>(
    alloc: Global,
    object: O,
    run: &Recorded<O>,
) -> Result<World<O>, AllocError>
    ensures object { IfOk result (λ replay. replay.object ≡ object) }
    ensures world { IfOk result (λ replay. world_of replay
        ≡ opened_world run.now.processes (O.sequential object).initial run.now.first) }
{
    run.promise();
    let row = run.world().row();
    match World::open_from(alloc, object, run.processes(), row, run.first()) {
        Ok(replay) => Ok(replay),
        Err(_) => Err(AllocError),
    }
}

/// Takes so many of the events that come in a replay, or all where there are fewer; the answer is how many. An `Err`
/// says that memory was refused, or an event.
fn pass<O: Spoken>(
    alloc: Global,
    count: u64,
    events: &mut Events<'_, O::Inv>,
    replay: &mut World<O>,
) -> Result<u64, AllocError>
    ensures object { replay.new.object ≡ replay.old.object }
    ensures events { OnOk result (events.new ≡ drop count events.old) }
    ensures passed { IfOk result (λ passed. passed ≡ length (take count (events_shown events.old))) }
    ensures world { OnOk result (world_of replay.new ≡ world_after_all (O.sequential replay.old.object)
        (world_of replay.old) (take count (events_shown events.old))) }
{
    let mut left = count;
    while left > 0 {
        let Some(event) = events.next() else {
            break;
        };
        take_event(alloc, event, replay)?;
        left -= 1;
    }
    Ok(count - left)
}

/// Takes an event in a replay. An `Err` says that memory was refused, or the event.
fn take_event<O: Spoken>(
    alloc: Global,
    event: Event<&O::Inv>,
    replay: &mut World<O>,
) -> Result<(), AllocError>
    ensures object { replay.new.object ≡ replay.old.object }
    ensures world { OnOk result (world_of replay.new ≡
        world_after (O.sequential replay.old.object) (world_of replay.old) (event_shown (event_lent event.entry))) }
{
    match event {
        Event::Call(process, inv) => {
            let Ok(_) = replay.begin(alloc, process, inv) else {
                return Err(AllocError);
            };
        }
        Event::Step(process) => {
            take_step(alloc, process, replay)?;
        }
        Event::Trim => {
            end_era(alloc, None, replay)?;
        }
        Event::Reshape(processes) => {
            end_era(alloc, Some(processes), replay)?;
        }
    }
    Ok(())
}

/// Where the scenes of a replay begin that has taken so many events; `None` where it has taken none.
fn start_of<O: Spoken>(
    alloc: Global,
    events: u64,
    replay: &World<O>,
) -> Result<Option<Start>, AllocError>
    ensures { IfOk result (λ start. option_map start_shown start
        ≡ start_of O.language O.state_text events (world_of replay.now)) }
{
    if events == 0 {
        return Ok(None);
    }
    Ok(Some(Start {
        events,
        processes: replay.processes(),
        memory: whole_memory(alloc, replay)?,
    }))
}

/// Takes an event in a replay; the answer is its frame. An `Err` says that memory was refused, or the event.
fn frame_of<O: Spoken>(
    alloc: Global,
    event: Event<&O::Inv>,
    replay: &mut World<O>,
) -> Result<Frame, AllocError>
    ensures object { replay.new.object ≡ replay.old.object }
    ensures world { OnOk result (world_of replay.new ≡
        world_after (O.sequential replay.old.object) (world_of replay.old) (event_shown (event_lent event.entry))) }
    ensures frame { IfOk result (λ frame. Some (frame_shown frame) ≡ frame_of (O.sequential replay.old.object)
        O.language O.state_text (world_of replay.old) (event_shown (event_lent event.entry))) }
{
    match event {
        Event::Call(process, inv) => Ok(Frame::Call(begun_of(alloc, process, inv, replay)?)),
        Event::Step(process) => Ok(Frame::Step(step_of(alloc, process, replay)?)),
        Event::Trim => Ok(Frame::End(ended_of(alloc, None, replay)?)),
        Event::Reshape(processes) => Ok(Frame::End(ended_of(alloc, Some(processes), replay)?)),
    }
}

/// Ends the era in a replay, by a reshape to so many processes or else by a trim; the answer is the number of the new
/// anchor. An `Err` says that memory was refused, or the event.
pub(crate) fn end_era<O: Spoken>(
    alloc: Global,
    reshaped: Option<u64>,
    replay: &mut World<O>,
) -> Result<u64, AllocError>
    ensures object { replay.new.object ≡ replay.old.object }
    ensures number { IfOk result (λ number. number ≡ last_number (world_of replay.old)) }
    ensures world { OnOk result (world_of replay.new ≡ world_after (O.sequential replay.old.object)
        (world_of replay.old) (option_map_or model.Reshape reshaped model.Trim)) }
{
    match reshaped {
        Some(processes) => reshape(alloc, replay, processes).or(Err(AllocError)),
        None => trim(replay).or(Err(AllocError)),
    }
}

/// The same; the answer is what the end left. An `Err` says that memory was refused, or the event.
fn ended_of<O: Spoken>(
    alloc: Global,
    reshaped: Option<u64>,
    replay: &mut World<O>,
) -> Result<EndedEra, AllocError>
    ensures object { replay.new.object ≡ replay.old.object }
    ensures world { OnOk result (world_of replay.new ≡ world_after (O.sequential replay.old.object)
        (world_of replay.old) (option_map_or model.Reshape reshaped model.Trim)) }
    ensures end { IfOk result (λ end. end_shown end ≡
        ended O.language O.state_text reshaped (last_number (world_of replay.old)) (world_of replay.new).memory) }
{
    let number = end_era(alloc, reshaped, replay)?;
    replay.shape();
    Ok(EndedEra {
        reshaped,
        number,
        anchor: settled_fields(alloc, replay, CellId::anchor())?,
    })
}

/// A process begins a call in a replay; the answer is what that did. An `Err` says that memory was refused, or the
/// call.
pub fn begun_of<O: Spoken>(
    alloc: Global,
    process: u64,
    inv: &O::Inv,
    replay: &mut World<O>,
) -> Result<Begun, AllocError>
    ensures object { replay.new.object ≡ replay.old.object }
    ensures world { OnOk result (world_of replay.new ≡
        world_after (O.sequential replay.old.object) (world_of replay.old) (model.Call process inv.now)) }
    ensures begun { IfOk result (λ call. begun_shown call ≡
        begun (O.sequential replay.old.object) O.language O.state_text (world_of replay.old) process inv.now) }
{
    replay.shape();
    let Ok(call) = replay.begin(alloc, process, inv) else {
        return Err(AllocError);
    };
    let unmade = Vec::from_slice(alloc, b"?")?;
    let asked = O::inv_text(alloc, inv)?;
    let before = field_held(alloc, Some(call), "inv", unmade)?;
    let after = field_held(alloc, Some(call), "inv", asked)?;
    let words = O::inv_text(alloc, inv)?;
    Ok(Begun {
        call,
        words,
        before,
        after,
    })
}

/// What a step of this kind that was taken proposed for its place, by the call whose cell it proposed.
fn proposed_of<O: Spoken>(
    alloc: Global,
    kind: StepKind,
    place: Place,
    offered: Option<CallId>,
    replay: &World<O>,
) -> Result<Option<Held>, AllocError>
    requires { IsPlaceIn (world_of replay.now).n (λ cell. IsSome (cell_of replay.now.shared.cells cell)) place }
    ensures { IfOk result (λ proposed. option_map held_shown proposed ≡ proposal_told kind offered (held O.language
        O.state_text (world_of replay.now).memory (place_named (name_in (world_of replay.now)) place))) }
{
    match kind {
        StepKind::DecideAfter => {
            let after = read_place(alloc, replay, place)?;
            let text = cell_text(alloc, offered)?;
            Ok(Some(alone(after.field.name, text)))
        }
        StepKind::DecideNew => Ok(Some(read_place(alloc, replay, place)?)),
        _ => Ok(None),
    }
}

/// A step that a process is about to take.
#[derive(Clone, Copy)]
pub(crate) struct Coming {
    /// Its call.
    pub(crate) call: CallId,
    /// Its kind.
    pub(crate) kind: StepKind,
    /// Its place.
    pub(crate) place: Place,
    /// The call whose cell it proposes, if it proposes a cell.
    pub(crate) proposed: Option<CallId>,
}

/// The next step of a process; `None` where it has no call pending, or there is no such process.
pub(crate) fn coming_step<O: Spoken>(world: &World<O>, process: u64) -> Option<Coming>
    ensures coming { IfSome result (IsComing (world_of world.now) process) }
    ensures there { IfSome result (λ coming. IsPlaceIn (world_of world.now).n
        (λ cell. IsSome (cell_of world.now.shared.cells cell)) coming.place) }
{
    if process >= world.processes() {
        return None;
    }
    let call = world.current(process)?;
    let kind = world.next_kind(process)?;
    let place = world.next_place(process)?;
    let proposed = match world.next_proposal(process) {
        Some(cell) => world.call_of(cell),
        None => None,
    };
    Some(Coming {
        call,
        kind,
        place,
        proposed,
    })
}

/// A process takes a step in a replay; the answer is that of the step. The cells stay. An `Err` says that memory was
/// refused, or the step.
pub(crate) fn take_step<O: Spoken>(
    alloc: Global,
    process: u64,
    replay: &mut World<O>,
) -> Result<Progress<O::Resp>, AllocError>
    ensures object { replay.new.object ≡ replay.old.object }
    ensures world { OnOk result (world_of replay.new ≡
        world_after (O.sequential replay.old.object) (world_of replay.old) (model.Step process)) }
    ensures progress { IfOk result (IsProgress (world_of replay.old) process) }
    ensures cells { OnOk result ((cell : ℕ) → IsSome (cell_of replay.old.shared.cells cell)
        → IsSome (cell_of replay.new.shared.cells cell)) }
{
    replay.shape();
    replay.cells().shape();
    let Ok(progress) = replay.step(alloc, process) else {
        return Err(AllocError);
    };
    replay.shape();
    replay.cells().shape();
    Ok(progress)
}

/// A process takes a step in a replay; the answer is what it did. An `Err` says that memory was refused, or the step.
pub fn step_of<O: Spoken>(
    alloc: Global,
    process: u64,
    replay: &mut World<O>,
) -> Result<Step, AllocError>
    ensures object { replay.new.object ≡ replay.old.object }
    ensures world { OnOk result (world_of replay.new ≡
        world_after (O.sequential replay.old.object) (world_of replay.old) (model.Step process)) }
    ensures step { IfOk result (λ step. Some (step_shown step) ≡ option_map (stepped (O.sequential replay.old.object)
        O.language O.state_text (world_of replay.old) process) ((world_of replay.old).call process)) }
{
    replay.shape();
    let Some(coming) = coming_step(replay, process) else {
        return Err(AllocError);
    };
    let before = read_place(alloc, replay, coming.place)?;
    let progress = take_step(alloc, process, replay)?;
    let after = read_place(alloc, replay, coming.place)?;
    let proposed = proposed_of(alloc, coming.kind, coming.place, coming.proposed, replay)?;
    let reply = match progress {
        Progress::Done(reply) => Some(O::resp_text(alloc, reply)?),
        Progress::Going => None,
    };
    Ok(Step {
        call: coming.call,
        kind: coming.kind,
        before,
        after,
        proposed,
        next: replay.next_kind(process),
        steps: replay.steps(process),
        turns: replay.turns(process),
        reply,
    })
}
