//! The lines of a history, each an object of JSON.

ghost use Rattle.std.specs.Prelude.{◌++◌, ◌≡◌, OnOk, [], option_map};
ghost use Rattle.run_tell.specs.Vocabulary.{frame_shown, option_map_or};
ghost use Rattle.run_tell.specs.History.{call_members, observed_line, opening_line, replied_line};
ghost use Rattle.run_tell.specs.Json.{member_shown};
ghost use Rattle.run_tell.specs.Told.{opening_shown};
ghost use Rattle.run_tell.specs.TraceLines.{line_text};

use crate::opened::Opened;
use crate::trace::push_line;
use crate::value::{Member, Value};
use run_replay::{Frame, cell_text};
use seq_object::CallId;
use std::alloc::{AllocError, Global};

/// Adds the line of a run: the word of its object, how many processes there were first, and its first state.
pub(crate) fn push_opening_line(text: &mut Vec<u8>, opened: &Opened<'_>) -> Result<(), AllocError>
    ensures { OnOk result (text.new.items ≡ text.old.items ++ opening_line (opening_shown opened.now)) }
{
    let members = [
        Member("type", Value::Text(b"run")),
        Member("history", Value::Number(1)),
        Member("object", Value::Text(opened.object.as_bytes())),
        Member("processes", Value::Number(opened.processes)),
        Member("state", Value::Text(opened.state.as_slice())),
    ];
    push_line(text, &members)
}

/// Adds the line of a call, of a type, that tells this.
fn push_call<'a>(
    alloc: Global,
    kind: &'a str,
    call: CallId,
    told: Member<'a>,
    text: &mut Vec<u8>,
) -> Result<(), AllocError>
    ensures { OnOk result (text.new.items
        ≡ text.old.items ++ line_text (call_members kind.now call (member_shown told.entry))) }
{
    let name = cell_text(alloc, Some(call))?;
    let members = [
        Member("process", Value::Number(u64::from(call.process))),
        Member("type", Value::Text(kind.as_bytes())),
        Member("call", Value::Text(&name)),
        told,
    ];
    push_line(text, &members)
}

/// Adds the line of what is observed of an event: a call that begins, or a reply.
pub(crate) fn push_observed(
    alloc: Global,
    frame: &Frame,
    text: &mut Vec<u8>,
) -> Result<(), AllocError>
    ensures { OnOk result (text.new.items ≡ text.old.items ++ observed_line (frame_shown frame.now)) }
{
    match frame {
        Frame::Call(begun) => {
            let words = Member("words", Value::Text(&begun.words));
            push_call(alloc, "invoke", begun.call, words, text)
        }
        Frame::Step(step) => push_reply(alloc, step.call, &step.reply, text),
        Frame::End(_) => Ok(()),
    }
}

/// Adds the line of the reply to a call, where there is one.
fn push_reply(
    alloc: Global,
    call: CallId,
    reply: &Option<Vec<u8>>,
    text: &mut Vec<u8>,
) -> Result<(), AllocError>
    ensures { OnOk result (text.new.items
        ≡ text.old.items ++ option_map_or (replied_line call) (option_map (λ r. r.items) reply.now) []) }
{
    match reply {
        Some(reply) => push_call(alloc, "ok", call, Member("reply", Value::Text(reply)), text),
        None => Ok(()),
    }
}
