//! The text of a finding.

ghost use Rattle.std.specs.Prelude.{◌≡◌};
ghost use Rattle.unicheck_run.specs.Found.{status_of, verdict};

use crate::judging::Finding;
use history_text::History;
use judged_objects::Worded;
use lin_check::{Event, Verdict, check};
use ready_objects::push_number;
use std::alloc::{AllocError, Global};

/// Writes the text of a line of a history after a text, with its number before it.
fn push_line(text: &mut Vec<u8>, lines: &[&[u8]], number: u64) -> Result<(), AllocError> {
    text.extend_from_slice(b"line ")?;
    push_number(text, number)?;
    text.extend_from_slice(b": ")?;
    if let Some(line) = lines.get(number.saturating_sub(1) as usize) {
        text.extend_from_slice(line)?;
    }
    text.push(b'\n')?;
    Ok(())
}

/// Writes the number of the line of an event and its text after a text.
fn push_event<O: Worded>(
    text: &mut Vec<u8>,
    lines: &[&[u8]],
    history: &History<O::Inv, O::Resp>,
    place: usize,
) -> Result<(), AllocError> {
    match history.lines.get(place) {
        Some(number) => push_line(text, lines, *number),
        None => Ok(()),
    }
}

/// The lines of calls, in order.
pub(crate) fn order_text<O: Worded>(
    alloc: Global,
    lines: &[&[u8]],
    history: &History<O::Inv, O::Resp>,
    order: &[usize],
) -> Result<Vec<u8>, AllocError> {
    let mut text = Vec::new(alloc);
    for place in order {
        push_event::<O>(&mut text, lines, history, *place)?;
    }
    Ok(text)
}

/// The place of the pending call of a process, after these events.
pub(crate) fn pending_call<O: Worded>(
    events: &[Event<O::Inv, O::Resp>],
    process: usize,
) -> Option<usize> {
    for (place, event) in events.iter().enumerate().rev() {
        if event.process() == process {
            return match event {
                Event::Call(_, _) => Some(place),
                Event::Return(_, _) => None,
            };
        }
    }
    None
}

/// What a call is answered, where calls take effect in an order, and it last if it isn't among them.
fn answer_in<O: Worded>(
    alloc: Global,
    object: &O,
    events: &[Event<O::Inv, O::Resp>],
    order: &[usize],
    call: usize,
) -> Result<Option<O::Resp>, AllocError> {
    let mut state = object.start(alloc)?;
    for place in order.iter().chain([call].iter()) {
        if let Some(Event::Call(_, inv)) = events.get(*place) {
            let (next, answer) = object.apply(alloc, &state, inv)?;
            state = next;
            if *place == call {
                return Ok(Some(answer));
            }
        }
    }
    Ok(None)
}

/// What the call that returns at a place could have been answered, after the events before; `None` where that isn't
/// known. It is told, and nothing is promised of it.
fn other_reply<O: Worded>(
    alloc: Global,
    object: &O,
    events: &[Event<O::Inv, O::Resp>],
    place: usize,
    rounds: u64,
) -> Result<Option<O::Resp>, AllocError> {
    let (Some(before), Some(Event::Return(process, _))) = (events.get(..place), events.get(place))
    else {
        return Ok(None);
    };
    let Some(call) = pending_call::<O>(before, *process) else {
        return Ok(None);
    };
    match check(alloc, object, before, rounds)? {
        Verdict::Linearizable(order) => answer_in(alloc, object, before, order.as_slice(), call),
        _ => Ok(None),
    }
}

/// With which event no order is left, and what its call could have been answered.
pub(crate) fn first_bad_text<O: Worded>(
    alloc: Global,
    object: &O,
    lines: &[&[u8]],
    history: &History<O::Inv, O::Resp>,
    place: usize,
    rounds: u64,
) -> Result<Vec<u8>, AllocError> {
    let events = history.events.as_slice();
    let mut text = Vec::from_slice(alloc, b"no order is left with the event of ")?;
    push_event::<O>(&mut text, lines, history, place)?;
    if let Some(reply) = other_reply(alloc, object, events, place, rounds)? {
        text.extend_from_slice(b"it could have been: ")?;
        O::push_resp(&mut text, reply)?;
        text.push(b'\n')?;
    }
    Ok(text)
}

/// What is found, in words.
pub(crate) fn verdict(finding: &Finding) -> &'static str
    ensures { result.now ≡ verdict (status_of finding.now) }
{
    match finding {
        Finding::Linearizable(_) => "linearizable",
        Finding::NotLinearizable(_) => "not linearizable",
        Finding::GaveUp => "gave up",
    }
}
