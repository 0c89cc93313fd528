//! What is drawn of a history. Nothing is promised of that but its title, and that it has no more bars than the history
//! has calls.

ghost use Rattle.std.specs.Prelude.{◌≡◌, ◌≤◌, IfOk, length};
ghost use Rattle.unicheck_run.specs.Found.{status_of, verdict};
ghost use Rattle.unicheck_run.specs.Judged.{calls_of};

use crate::judging::Finding;
use crate::report::{first_bad_text, pending_call, verdict};
use history_picture::{Bar, Scene};
use history_text::History;
use judged_objects::Worded;
use lin_check::{Event, Verdict, by_return, check};
use ready_objects::push_number;
use std::alloc::{AllocError, Global};

/// When events and calls of a history happen: its events, and the points of calls between them.
#[derive(Drop)]
struct Moments {
    /// For each point the event after which it is, in rising order.
    after: Vec<usize>,
    /// For each event, if it is a call that takes effect, the moment of that.
    points: Vec<Option<u64>>,
}

impl Moments {
    /// Those of so many events, whose calls take effect in this order, each as early as it can.
    fn of(alloc: Global, events: usize, order: &[usize]) -> Result<Moments, AllocError> {
        let mut after = Vec::new(alloc);
        let mut points = vec![in alloc; None; events]?;
        let mut last = 0usize;
        for (place, call) in order.iter().enumerate() {
            last = last.max(*call);
            after.push(last)?;
            if let Some(point) = points.get_mut(*call) {
                *point = Some((last as u64).saturating_add(place as u64).saturating_add(1));
            }
        }
        Ok(Moments { after, points })
    }

    /// The moment of an event.
    fn of_event(&self, event: usize) -> u64 {
        let before = self.after.partition_point(|after| *after < event);
        (event as u64).saturating_add(before as u64)
    }
}

/// What is said of a call: its words and its reply.
fn text_of<O: Worded>(
    alloc: Global,
    inv: &O::Inv,
    end: Option<&Event<O::Inv, O::Resp>>,
) -> Result<Vec<u8>, AllocError> {
    let mut text = Vec::new(alloc);
    O::push_inv(&mut text, inv)?;
    text.extend_from_slice(b" -> ")?;
    match end {
        Some(Event::Return(_, resp)) => O::push_resp(&mut text, *resp)?,
        _ => text.push(b'?')?,
    }
    Ok(text)
}

/// The name of a process by a line that tells of it: the first word of one that tells a whole call, or its number.
fn name_of(alloc: Global, line: &[u8], process: usize) -> Result<Vec<u8>, AllocError> {
    if line.contains(&b'>') && !line.starts_with(b"{") {
        let name = line.split(|byte| *byte == b' ').next();
        return Vec::from_slice(alloc, name.unwrap_or(b""));
    }
    let mut name = Vec::new(alloc);
    push_number(&mut name, process as u64)?;
    Ok(name)
}

/// The lane of a process, with its name; it gets one where it has none.
fn lane_of(
    alloc: Global,
    lanes: &mut Vec<usize>,
    names: &mut Vec<Vec<u8>>,
    process: usize,
    line: &[u8],
) -> Result<u64, AllocError> {
    if let Some(lane) = lanes.iter().position(|other| *other == process) {
        return Ok(lane as u64);
    }
    lanes.push(process)?;
    names.push(name_of(alloc, line, process)?)?;
    Ok((lanes.len() as u64).saturating_sub(1))
}

/// The lines of a text, in which each byte that no picture has is a question mark.
fn notes_of(alloc: Global, text: &[u8]) -> Result<Vec<Vec<u8>>, AllocError> {
    let mut notes = Vec::new(alloc);
    for line in text.split(|byte| *byte == b'\n') {
        if !line.is_empty() {
            let plain = |byte: &u8| if *byte < 32 || *byte > 126 {
                b'?'
            } else {
                *byte
            };
            notes.push(line.iter().map(plain).collect(alloc)?)?;
        }
    }
    Ok(notes)
}

/// The bars of the calls of events, and the names of their lanes.
fn bars_of<O: Worded>(
    alloc: Global,
    lines: &[&[u8]],
    history: &History<O::Inv, O::Resp>,
    events: &[Event<O::Inv, O::Resp>],
    moments: &Moments,
) -> Result<(Vec<Bar>, Vec<Vec<u8>>), AllocError>
    ensures { IfOk result (λ drawn. length drawn.0.items ≡ calls_of events.now) }
{
    let returns = by_return(alloc, events)?;
    let mut bars = Vec::new(alloc);
    let mut lanes = Vec::new(alloc);
    let mut names = Vec::new(alloc);
    for place in 0..events.len() {
        if let Event::Call(process, inv) = &events[place] {
            let number = history.lines.get(place).copied().unwrap_or(0);
            let line = lines
                .get(number.saturating_sub(1) as usize)
                .copied()
                .unwrap_or(b"");
            let end = returns.get(place).copied().unwrap_or(u64::MAX) as usize;
            bars.push(Bar {
                lane: lane_of(alloc, &mut lanes, &mut names, *process, line)?,
                text: text_of::<O>(alloc, inv, events.get(end))?,
                begin: moments.of_event(place),
                end: events.get(end).map(|_| moments.of_event(end)),
                point: moments.points.get(place).copied().flatten(),
            })?;
        }
    }
    Ok((bars, names))
}

/// The place of a call among the calls of events.
fn number_of<O: Worded>(events: &[Event<O::Inv, O::Resp>], call: usize) -> u64 {
    let mut number = 0u64;
    for (place, event) in events.iter().enumerate() {
        if place < call && matches!(event, Event::Call(..)) {
            number = number.saturating_add(1);
        }
    }
    number
}

/// An order of the calls of events, where one is found.
fn order_of<O: Worded>(
    alloc: Global,
    object: &O,
    events: &[Event<O::Inv, O::Resp>],
    rounds: u64,
) -> Result<Vec<usize>, AllocError> {
    match check(alloc, object, events, rounds)? {
        Verdict::Linearizable(order) => Ok(order),
        _ => Ok(Vec::new(alloc)),
    }
}

/// The events up to a place, that one too.
#[tactic(auto, using(crate::proofs::Counting::calls_take))]
fn up_to<I: Drop, R: Drop>(events: &[Event<I, R>], place: usize) -> &[Event<I, R>]
    ensures { calls_of result.now ≤ calls_of events.now }
{
    if place < events.len() {
        &events[..place + 1]
    } else {
        events
    }
}

/// What is drawn of a history: all of it with the points of its order; or up to the event with which no order is left,
/// with the points of an order before it, and the call of that event in red; or without points.
pub(crate) fn scene_of<O: Worded>(
    alloc: Global,
    object: &O,
    lines: &[&[u8]],
    history: &History<O::Inv, O::Resp>,
    finding: &Finding,
    rounds: u64,
) -> Result<Scene, AllocError>
    ensures title { IfOk result (λ scene. scene.title.items ≡ verdict (status_of finding.now)) }
    ensures calls { IfOk result (λ scene. length scene.bars.items ≤ calls_of history.now.events.items) }
{
    let all = history.events.as_slice();
    let mut events = all;
    let mut bad = None;
    let mut notes = Vec::new(alloc);
    let order = match finding {
        Finding::Linearizable(order) => Vec::from_slice(alloc, order.as_slice())?,
        Finding::NotLinearizable(Some(place)) => {
            let before = all.get(..*place).unwrap_or(all);
            events = up_to(all, *place);
            let call = all
                .get(*place)
                .and_then(|event| pending_call::<O>(before, event.process()));
            bad = call.map(|call| number_of::<O>(events, call));
            notes = notes_of(
                alloc,
                &first_bad_text(alloc, object, lines, history, *place, rounds)?,
            )?;
            order_of(alloc, object, before, rounds)?
        }
        _ => Vec::new(alloc),
    };
    let moments = Moments::of(alloc, events.len(), &order)?;
    let (bars, names) = bars_of::<O>(alloc, lines, history, events, &moments)?;
    Ok(Scene {
        title: Vec::from_slice(alloc, verdict(finding).as_bytes())?,
        names,
        bars,
        bad,
        notes,
    })
}
