//! A run in lines of JSON, each an object.

ghost use Rattle.std.specs.Prelude.{◌++◌, ◌<◌, ◌≡◌, OnOk, length, map};
ghost use Rattle.run_tell.specs.Vocabulary.{begun_shown, end_shown, frame_shown, step_shown};
ghost use Rattle.run_tell.specs.Json.{member_shown};
ghost use Rattle.run_tell.specs.TraceLines.{begun_members, end_members, end_word, frame_members, line_text};
ghost use Rattle.run_tell.specs.TraceLines.{note_members, refusal_members, step_members};

use crate::json::{push_members, push_more_members, push_object};
use crate::opened::Opened;
use crate::order::Telling;
use crate::sentences::access_of;
use crate::trace_members::{
    changes_json, is_any, memory_json, next_letter, proposed_text, start_json,
};
use crate::value::{Member, Value};
use run_layout::{lane_of, letter_of, meaning_of, refusal_of};
use run_replay::{Begun, EndedEra, Frame, Scene, Step, cell_text, changes_of};
use std::alloc::{AllocError, Global};
use uni_script::{PlacedRemark, Refusal, Remark};

/// Tells a run in lines of JSON, with the whole memory after each event where `IS_WHOLE`.
pub struct InLines<const IS_WHOLE: bool>;

/// Tells a run in lines of JSON.
pub type InJson = InLines<false>;

/// Tells a run in lines of JSON, with the whole memory after each event.
pub type InWholeJson = InLines<true>;

impl<const IS_WHOLE: bool> Telling for InLines<IS_WHOLE> {
    ghost use Rattle.run_tell.specs.TraceLines.{lines_wording};

    ghost wording = { lines_wording IS_WHOLE };

    fn is_whole() -> bool {
        IS_WHOLE
    }

    fn push_opening(
        alloc: Global,
        opened: &Opened<'_>,
        text: &mut Vec<u8>,
    ) -> Result<(), AllocError> {
        let members = [
            Member("what", Value::Text(b"run")),
            Member("trace", Value::Number(2)),
            Member("object", Value::Text(opened.object.as_bytes())),
            Member("processes", Value::Number(opened.processes)),
            Member("row", Value::Number(opened.row)),
            Member("number", Value::Number(opened.number)),
            Member("state", Value::Text(opened.state.as_slice())),
        ];
        match &opened.start {
            Some(start) => {
                let json = start_json(alloc, start)?;
                push_line_with(text, &members, &[Member("start", Value::Json(&json))])
            }
            None => push_line_with(text, &members, &[]),
        }
    }

    fn push_scene(
        alloc: Global,
        event: u64,
        line: Option<u64>,
        scene: &Scene,
        text: &mut Vec<u8>,
    ) -> Result<(), AllocError> {
        match &scene.memory {
            Some(memory) => {
                let json = memory_json(alloc, memory)?;
                let memory = [Member("memory", Value::Json(&json))];
                push_frame(alloc, event, line, &scene.frame, &memory, text)
            }
            None => push_frame(alloc, event, line, &scene.frame, &[], text),
        }
    }

    fn push_remark(
        alloc: Global,
        one: &PlacedRemark,
        text: &mut Vec<u8>,
    ) -> Result<(), AllocError> {
        match &one.remark {
            Remark::Heading(heading) => push_note("heading", one.line, one.before, heading, text),
            Remark::Note(note) => push_note("note", one.line, one.before, note, text),
            Remark::Refused { refusal, .. } => push_refusal(
                alloc, one.line, one.before, *refusal, text,
            ),
        }
    }
}

/// Adds an object with these members, on a line of its own. An `Err` says that memory was refused.
pub fn push_line(text: &mut Vec<u8>, members: &[Member<'_>]) -> Result<(), AllocError>
    ensures { OnOk result (text.new.items ≡ text.old.items ++ line_text (map member_shown members.now)) }
{
    push_object(text, members)?;
    text.extend_from_slice(b"\n")
}

/// Adds an object with these members, and further ones, on a line of its own.
fn push_line_with(
    text: &mut Vec<u8>,
    members: &[Member<'_>],
    more: &[Member<'_>],
) -> Result<(), AllocError>
    requires { 0 < length members.now }
    ensures { OnOk result (text.new.items
        ≡ text.old.items ++ line_text (map member_shown members.now ++ map member_shown more.now)) }
{
    text.push(b'{')?;
    push_members(text, members)?;
    push_more_members(text, more)?;
    text.push(b'}')?;
    text.push(b'\n')?;
    Ok(())
}

/// Adds the line of an event, with further members.
fn push_frame(
    alloc: Global,
    event: u64,
    line: Option<u64>,
    frame: &Frame,
    more: &[Member<'_>],
    text: &mut Vec<u8>,
) -> Result<(), AllocError>
    ensures { OnOk result (text.new.items ≡ text.old.items
        ++ line_text (frame_members event line (frame_shown frame.now) ++ map member_shown more.now)) }
{
    match frame {
        Frame::Call(begun) => push_begun(alloc, event, line, begun, more, text),
        Frame::Step(step) => push_step(alloc, event, line, step, more, text),
        Frame::End(end) => push_end(event, line, end, more, text),
    }
}

/// Adds the line of a call that begins, with further members.
fn push_begun(
    alloc: Global,
    event: u64,
    line: Option<u64>,
    begun: &Begun,
    more: &[Member<'_>],
    text: &mut Vec<u8>,
) -> Result<(), AllocError>
    ensures { OnOk result (text.new.items ≡ text.old.items
        ++ line_text (begun_members event line (begun_shown begun.now) ++ map member_shown more.now)) }
{
    let call = cell_text(alloc, Some(begun.call))?;
    let changes = changes_of(alloc, &begun.before, &begun.after)?;
    let json = changes_json(alloc, &changes)?;
    let members = [
        Member("what", Value::Text(b"call")),
        Member("line", Value::MaybeNumber(line)),
        Member("event", Value::Number(event)),
        Member("process", Value::Number(u64::from(begun.call.process))),
        Member("call", Value::Text(&call)),
        Member("words", Value::Text(&begun.words)),
        Member("place", Value::Text(&begun.after.field.name)),
        Member("before", Value::Text(&begun.before.field.text)),
        Member("after", Value::Text(&begun.after.field.text)),
        Member("changed", Value::Flag(is_any(&changes))),
        Member("changes", Value::Json(&json)),
    ];
    push_line_with(text, &members, more)
}

/// Adds the line of a step, with further members.
fn push_step(
    alloc: Global,
    event: u64,
    line: Option<u64>,
    step: &Step,
    more: &[Member<'_>],
    text: &mut Vec<u8>,
) -> Result<(), AllocError>
    ensures { OnOk result (text.new.items ≡ text.old.items
        ++ line_text (step_members event line (step_shown step.now) ++ map member_shown more.now)) }
{
    let call = cell_text(alloc, Some(step.call))?;
    let kind = [letter_of(step.kind)];
    let steps = Member("steps", Value::Number(step.steps));
    let turns = Member("turns", Value::Number(step.turns));
    let proposed = proposed_text(alloc, &step.proposed)?;
    let next = next_letter(alloc, step.next)?;
    let changes = changes_of(alloc, &step.before, &step.after)?;
    let json = changes_json(alloc, &changes)?;
    let members = [
        Member("what", Value::Text(b"step")),
        Member("line", Value::MaybeNumber(line)),
        Member("event", Value::Number(event)),
        Member("process", Value::Number(u64::from(step.call.process))),
        Member("call", Value::Text(&call)),
        Member("kind", Value::Text(&kind)),
        Member("meaning", Value::Text(meaning_of(step.kind).as_bytes())),
        Member("access", Value::Text(access_of(step.kind).as_bytes())),
        Member("place", Value::Text(&step.after.field.name)),
        Member("before", Value::Text(&step.before.field.text)),
        Member("after", Value::Text(&step.after.field.text)),
        Member("proposed", Value::MaybeText(&proposed)),
        Member("changed", Value::Flag(is_any(&changes))),
        Member("changes", Value::Json(&json)),
        Member("next", Value::MaybeText(&next)),
        steps,
        turns,
        Member("reply", Value::MaybeText(&step.reply)),
    ];
    push_line_with(text, &members, more)
}

/// How an era ends.
fn end_word(reshaped: Option<u64>) -> &'static str
    ensures { result.now ≡ end_word reshaped }
{
    match reshaped {
        None => "trim",
        Some(_) => "reshape",
    }
}

/// Adds the line of the end of an era, with further members.
fn push_end(
    event: u64,
    line: Option<u64>,
    end: &EndedEra,
    more: &[Member<'_>],
    text: &mut Vec<u8>,
) -> Result<(), AllocError>
    ensures { OnOk result (text.new.items ≡ text.old.items
        ++ line_text (end_members event line (end_shown end.now) ++ map member_shown more.now)) }
{
    let members = [
        Member("what", Value::Text(end_word(end.reshaped).as_bytes())),
        Member("line", Value::MaybeNumber(line)),
        Member("event", Value::Number(event)),
        Member("processes", Value::MaybeNumber(end.reshaped)),
        Member("number", Value::Number(end.number)),
        Member("state", Value::Text(&end.anchor.field.text)),
    ];
    push_line_with(text, &members, more)
}

/// Adds the line of a note that stands on this line of the script, after so many events.
fn push_note<'a>(
    what: &'a str,
    line: u64,
    events: u64,
    note: &'a [u8],
    text: &mut Vec<u8>,
) -> Result<(), AllocError>
    ensures { OnOk result (text.new.items
        ≡ text.old.items ++ line_text (note_members what.now line events note.now)) }
{
    let members = [
        Member("what", Value::Text(what.as_bytes())),
        Member("line", Value::Number(line)),
        Member("events", Value::Number(events)),
        Member("text", Value::Text(note)),
    ];
    push_line(text, &members)
}

/// Adds the line of a refusal to this line of the script, after so many events.
fn push_refusal(
    alloc: Global,
    line: u64,
    events: u64,
    refusal: Refusal,
    text: &mut Vec<u8>,
) -> Result<(), AllocError>
    ensures { OnOk result (text.new.items ≡ text.old.items ++ line_text (refusal_members line events refusal)) }
{
    let reason = refusal_of(alloc, refusal)?;
    let members = [
        Member("what", Value::Text(b"refusal")),
        Member("line", Value::Number(line)),
        Member("events", Value::Number(events)),
        Member("process", Value::MaybeNumber(lane_of(refusal))),
        Member("reason", Value::Text(&reason)),
    ];
    push_line(text, &members)
}
