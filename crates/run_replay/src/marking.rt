//! The marks of a run, by the replay of its events.

ghost use Rattle.std.specs.Prelude.{◌≡◌, ℕ, ◌<◌, ◌++◌, ◌∷◌, [], ◌^◌, IfOk, OnOk, IsSome, map};
ghost use Rattle.std.specs.Prelude.{option_map};
ghost use Rattle.run_replay.specs.Vocabulary.{Call, IsPlaceIn, Step, cell_of, entry_shown, event_lent, event_shown};
ghost use Rattle.run_replay.specs.Vocabulary.{events_shown, name_in, opened_world, option_copied, option_map_or};
ghost use Rattle.run_replay.specs.Vocabulary.{place_named, spoken, world_after, world_of};
ghost use Rattle.run_replay.specs.Marks.{marks_of_run, box_of, era_of, bar_shown, cell_shown, end_shown, era_shown};
ghost use Rattle.run_replay.specs.Marks.{marks_shown, marks_with, from_with, bar_ended, dot_linked};
ghost use Rattle.run_replay.specs.Held.{has_changed, presence, standing_at};

use crate::marks::{Bar, BarEnd, CellBox, Dot, Era, EraEnd, EraLine, Marks, StepMark};
use crate::scenes::{Coming, coming_step, end_era, reopened, take_step};
use cell_arena::CellId;
use ready_objects::Spoken;
use std::alloc::{AllocError, Global};
use uni_core::{Place, Progress, StepKind, World};
use uni_log::{Entry, Log};
use uni_record::{Event, Recorded};

/// The marks of the run that a record has stored, on an object of this name; `object` is a further value of that
/// object. They are found by a replay of the events. An `Err` says that memory was refused. It would come too where the
/// replay refused an event, as it never does with the object of the record; that isn't proved.
pub fn marks_of<O: Spoken>(
    alloc: Global,
    name: &str,
    object: O,
    run: &Recorded<O>,
) -> Result<Marks, AllocError>
    ensures marks { IfOk result (λ marks. marks_shown marks
        ≡ marks_of_run (spoken O.sequential O.language object) O.state_text name.now
        (opened_world run.now.processes (O.sequential object).initial run.now.first) (events_shown run.now.events)) }
{
    run.promise();
    let mut replay = reopened(alloc, object, run)?;
    let mut marks = Marks {
        object: name.as_bytes().to_vec(alloc)?,
        events: run.events().len() as u64,
        steps: Vec::new(alloc),
        bars: Vec::new(alloc),
        dots: Vec::new(alloc),
        lines: Vec::new(alloc),
        eras: Vec::new(alloc),
    };
    let mut from = 0;
    let mut place = 0;
    for event in run.events() {
        from = replay_event(alloc, event, from, place, &mut replay, &mut marks)?;
        place += 1;
    }
    push_era(alloc, &replay, from, None, &mut marks.eras)?;
    Ok(marks)
}

/// Takes an event in a replay, and adds its marks; the answer is how many events came before the present era. An `Err`
/// says that memory was refused, or the event.
fn replay_event<O: Spoken>(
    alloc: Global,
    event: Event<&O::Inv>,
    from: u64,
    place: u64,
    replay: &mut World<O>,
    marks: &mut Marks,
) -> Result<u64, AllocError>
    requires { place < 2 ^ 63 }
    ensures object { replay.new.object ≡ replay.old.object }
    ensures from { IfOk result (λ next. next ≡ from_with from place (event_shown (event_lent event.entry))) }
    ensures world { OnOk result (world_of replay.new
        ≡ world_after (O.sequential replay.old.object) (world_of replay.old) (event_shown (event_lent event.entry))) }
    ensures marks { OnOk result (marks_shown marks.new ≡ marks_with (spoken O.sequential O.language replay.old.object)
        O.state_text (marks_shown marks.old) (world_of replay.old) from place (event_shown (event_lent event.entry))) }
{
    match event {
        Event::Call(process, inv) => {
            let words = O::inv_text(alloc, inv)?;
            let Ok(call) = replay.begin(alloc, process, inv) else {
                return Err(AllocError);
            };
            marks.bars.push(Bar {
                call,
                from: place,
                words,
                end: None,
            })?;
            Ok(from)
        }
        Event::Step(process) => {
            replay_step(alloc, process, place, replay, marks)?;
            Ok(from)
        }
        Event::Trim => {
            push_era(alloc, replay, from, Some(place), &mut marks.eras)?;
            let number = end_era(alloc, None, replay)?;
            let end = EraEnd::Trim;
            let event = place;
            marks.lines.push(EraLine { event, end, number })?;
            Ok(place + 1)
        }
        Event::Reshape(processes) => {
            push_era(alloc, replay, from, Some(place), &mut marks.eras)?;
            let number = end_era(alloc, Some(processes), replay)?;
            let end = EraEnd::Reshape(processes);
            let event = place;
            marks.lines.push(EraLine { event, end, number })?;
            Ok(place + 1)
        }
    }
}

/// 1 where something is there.
fn presence<T: Copy>(found: Option<T>) -> u64
    ensures { result ≡ presence found }
{
    match found {
        Some(_) => 1,
        None => 0,
    }
}

/// What tells the contents of a place of a world apart: the number of a cell, or of the cell that a head names, and
/// whether a cell is linked or a state is settled.
fn standing_at<O: Spoken>(world: &World<O>, place: Place) -> u64
    requires { IsPlaceIn (world_of world.now).n (λ cell. IsSome (cell_of world.now.shared.cells cell)) place }
    ensures { result ≡ standing_at (world_of world.now).memory (place_named (name_in (world_of world.now)) place) }
{
    match place {
        Place::Announced(_) => 0,
        Place::HeadOf(process) => world.head_seq(process),
        Place::SeqOf(cell) => world.seq(cell),
        Place::AfterOf(cell) => presence(world.after(cell)),
        Place::NewOf(cell) => presence(world.new_of(cell)),
        Place::BeforeOf(cell) => presence(world.before(cell)),
    }
}

/// Whether a step of this kind has changed a place, which stood so before it and after it.
fn has_changed(kind: StepKind, before: u64, after: u64) -> bool
    ensures { result ≡ has_changed kind before after }
{
    match kind {
        StepKind::Announce => true,
        _ => before != after,
    }
}

/// A process takes a step in a replay: it is marked, with a dot where a cell was linked, and the bar of its call ends
/// where the call returns. An `Err` says that memory was refused, or the step.
fn replay_step<O: Spoken>(
    alloc: Global,
    process: u64,
    place: u64,
    replay: &mut World<O>,
    marks: &mut Marks,
) -> Result<(), AllocError>
    ensures object { replay.new.object ≡ replay.old.object }
    ensures world { OnOk result (world_of replay.new
        ≡ world_after (O.sequential replay.old.object) (world_of replay.old) (Step process)) }
    ensures marks { OnOk result ((from : ℕ) → marks_shown marks.new ≡ marks_with (spoken O.sequential O.language
        replay.old.object) O.state_text (marks_shown marks.old) (world_of replay.old) from place (Step process)) }
{
    let Some(coming) = coming_step(replay, process) else {
        return Err(AllocError);
    };
    replay.shape();
    let before = standing_at(replay, coming.place);
    let progress = take_step(alloc, process, replay)?;
    let after = standing_at(replay, coming.place);
    let changed = has_changed(coming.kind, before, after);
    marks.steps.push(StepMark {
        event: place,
        process,
        nth: coming.call.nth,
        number: replay.steps(process),
        kind: coming.kind,
        changed,
    })?;
    push_dot(coming, changed, place, process, &mut marks.dots)?;
    let end = match progress {
        Progress::Done(response) => Some(BarEnd {
            event: place,
            reply: O::resp_text(alloc, response)?,
            steps: replay.steps(process),
            turns: replay.turns(process),
        }),
        Progress::Going => None,
    };
    end_bars(alloc, process, &end, &mut marks.bars)?;
    Ok(())
}

/// Adds the dot of a step that a process has taken, where it changed its place by the cell of a call that it proposed.
fn push_dot(
    taken: Coming,
    changed: bool,
    event: u64,
    by: u64,
    dots: &mut Vec<Dot>,
) -> Result<(), AllocError>
    ensures { OnOk result (dots.new.items ≡ dots.old.items ++ dot_linked event by taken.proposed changed) }
{
    if let (Some(call), true) = (taken.proposed, changed) {
        dots.push(Dot { event, call, by })?;
    }
    Ok(())
}

/// Ends the bars of a process that haven't ended so, if its call has.
fn end_bars(
    alloc: Global,
    process: u64,
    end: &Option<BarEnd>,
    bars: &mut Vec<Bar>,
) -> Result<(), AllocError>
    ensures { OnOk result (map bar_shown bars.new.items
        ≡ option_map_or (λ end. map (bar_ended process end) (map bar_shown bars.old.items))
        (option_map end_shown end.now) (map bar_shown bars.old.items)) }
{
    let Some(end) = end else {
        return Ok(());
    };
    for bar in bars.iter_mut() {
        end_bar(alloc, process, end, bar)?;
    }
    Ok(())
}

/// Ends a bar so, if it is one of the process and hasn't ended.
fn end_bar(alloc: Global, process: u64, end: &BarEnd, bar: &mut Bar) -> Result<(), AllocError>
    ensures { OnOk result (bar_shown bar.new ≡ bar_ended process (end_shown end.now) (bar_shown bar.old)) }
{
    if bar.end.is_none() && process == u64::from(bar.call.process) {
        bar.end = Some(BarEnd {
            event: end.event,
            reply: Vec::from_slice(alloc, &end.reply)?,
            steps: end.steps,
            turns: end.turns,
        });
    }
    Ok(())
}

/// Adds the era of a world, which began after so many events and ends with an event, if it does, with its cells.
fn push_era<O: Spoken>(
    alloc: Global,
    world: &World<O>,
    from: u64,
    last: Option<u64>,
    eras: &mut Vec<Era>,
) -> Result<(), AllocError>
    ensures { OnOk result (map era_shown eras.new.items ≡ map era_shown eras.old.items ++ era_of (spoken O.sequential
        O.language world.now.object) O.state_text (world_of world.now) from last ∷ []) }
{
    world.shape();
    let log = Log::of(world);
    let entries = log.entries(alloc)?;
    let mut cells = Vec::new(alloc);
    for (place, entry) in entries.iter().enumerate() {
        let state = state_text::<O>(alloc, log.state_at(place as u64 + 1))?;
        cells.push(cell_of::<O>(alloc, entry, state)?)?;
    }
    eras.push(Era {
        from,
        last,
        processes: world.processes(),
        anchor: world.seq(CellId::anchor()),
        cells,
    })?;
    Ok(())
}

/// The text of a state, where one is settled.
fn state_text<O: Spoken>(
    alloc: Global,
    settled: Option<&O::State>,
) -> Result<Option<Vec<u8>>, AllocError>
    ensures { IfOk result (λ state. option_map (λ text. text.items) state
        ≡ option_map O.state_text (option_copied settled.entry)) }
{
    let Some(state) = settled else {
        return Ok(None);
    };
    let mut text = Vec::new(alloc);
    O::push_state(&mut text, state)?;
    Ok(Some(text))
}

/// The box of an entry of the log, with the text of the state after it, where that is settled.
fn cell_of<O: Spoken>(
    alloc: Global,
    entry: &Entry<O::Inv, O::Resp>,
    state: Option<Vec<u8>>,
) -> Result<CellBox, AllocError>
    ensures { IfOk result (λ cell. cell_shown cell
        ≡ box_of O.language (option_map (λ text. text.items) state) (entry_shown entry.now)) }
{
    let reply = match entry.reply {
        Some(response) => Some(O::resp_text(alloc, response)?),
        None => None,
    };
    Ok(CellBox {
        number: entry.seq,
        call: entry.call,
        words: O::inv_text(alloc, &entry.inv)?,
        reply,
        state,
    })
}
