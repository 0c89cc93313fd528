//! The sentences of a run.

ghost use Rattle.std.specs.Prelude.{◌++◌, ◌≡◌, IfOk, OnOk, codes, decimal, flat_map, map, option_map};
ghost use Rattle.run_tell.specs.Vocabulary.{begun_shown, change_shown, changes_between, end_shown, frame_shown};
ghost use Rattle.run_tell.specs.Vocabulary.{held_shown, start_shown, step_shown};
ghost use Rattle.run_tell.specs.Sentences.{access_of, begun_sentence, changes_in, end_sentence, end_word};
ghost use Rattle.run_tell.specs.Sentences.{frame_sentence, frame_start, frame_words, left_out_words, number_words};
ghost use Rattle.run_tell.specs.Sentences.{opening_words, outcome_words, plain_words, proposed_words, remark_words};
ghost use Rattle.run_tell.specs.Sentences.{return_words, role_of, run_words, sentence};
ghost use Rattle.run_tell.specs.Told.{opening_shown};

use crate::opened::Opened;
use run_layout::{letter_of, push_counted, refused_text};
use run_replay::{Begun, Change, EndedEra, Field, Frame, Held, Start, Step, cell_text, changes_of};
use std::alloc::{AllocError, Global};
use std::io::Write;
use uni_core::StepKind;
use uni_script::{Refusal, Remark};

/// What a kind of step does to its place.
pub fn access_of(kind: StepKind) -> &'static str
    ensures { result.now ≡ access_of kind }
{
    match kind {
        StepKind::ScanHead
        | StepKind::ScanSeq
        | StepKind::Test
        | StepKind::ReadAnnounce
        | StepKind::ReadHelpSeq => "reads",
        StepKind::DecideAfter | StepKind::DecideNew => "proposes",
        StepKind::Announce
        | StepKind::WriteScan
        | StepKind::WriteBefore
        | StepKind::WriteSeq
        | StepKind::WriteHead
        | StepKind::Finish => "writes",
    }
}

/// Adds texts, one after another.
pub(crate) fn push_all(words: &mut Vec<u8>, pieces: &[&[u8]]) -> Result<(), AllocError>
    ensures { OnOk result (words.new.items ≡ words.old.items ++ flat_map (λ piece. piece.now) pieces.now) }
{
    for piece in pieces {
        words.extend_from_slice(piece)?;
    }
    Ok(())
}

/// Adds the sentence of a call that begins.
fn push_begun_sentence(alloc: Global, begun: &Begun, words: &mut Vec<u8>) -> Result<(), AllocError>
    ensures { OnOk result (words.new.items ≡ words.old.items ++ begun_sentence (begun_shown begun.now)) }
{
    let cell = cell_text(alloc, Some(begun.call))?;
    push_all(
        words,
        &[b"calls ", &begun.words, b": its cell is ", &cell, b"."],
    )
}

/// What the place of a step that reads or writes is to its process, as the end of a sentence.
fn role_of(kind: StepKind) -> &'static str
    ensures { result.now ≡ role_of kind }
{
    match kind {
        StepKind::Announce => ", its own cell.",
        StepKind::ScanHead => ", in its scan.",
        StepKind::ScanSeq => ", the number of that head.",
        StepKind::WriteScan => ", the greatest of the heads.",
        StepKind::Test => ", the number of its own cell.",
        StepKind::ReadAnnounce => ", whose turn it is.",
        StepKind::ReadHelpSeq | StepKind::WriteSeq => ", the number of that cell.",
        StepKind::WriteBefore => ", the way back.",
        StepKind::WriteHead => ", and moves on.",
        StepKind::DecideAfter | StepKind::DecideNew | StepKind::Finish => ".",
    }
}

/// Adds the sentence of a step that reads or writes.
fn push_plain(words: &mut Vec<u8>, step: &Step) -> Result<(), AllocError>
    ensures { OnOk result (words.new.items ≡ words.old.items ++ plain_words (step_shown step.now)) }
{
    let field = &step.after.field;
    words.extend_from_slice(access_of(step.kind).as_bytes())?;
    push_all(words, &[b" ", &field.name, b": ", &field.text])?;
    words.extend_from_slice(role_of(step.kind).as_bytes())
}

/// Adds the sentence of the last step of a call, which has this reply.
fn push_return(words: &mut Vec<u8>, reply: &[u8], step: &Step) -> Result<(), AllocError>
    ensures { OnOk result (words.new.items ≡ words.old.items ++ return_words reply.now (step_shown step.now)) }
{
    let field = &step.after.field;
    push_all(words, &[b"returns ", reply, b" after "])?;
    push_counted(words, step.steps, "step", "steps")?;
    words.extend_from_slice(b" and ")?;
    push_counted(words, step.turns, "turn", "turns")?;
    push_all(words, &[b"; ", &field.name, b" is ", &field.text, b"."])
}

/// Adds what is proposed, and for which place: beside a state the reply.
fn push_proposed(words: &mut Vec<u8>, proposed: &Held) -> Result<(), AllocError>
    ensures { OnOk result (words.new.items ≡ words.old.items ++ proposed_words (held_shown proposed.now)) }
{
    let field = &proposed.field;
    push_all(words, &[b"proposes ", &field.text, b" for ", &field.name])?;
    match &proposed.reply {
        Some(reply) => push_all(words, &[b" and ", &reply.text, b" for ", &reply.name]),
        None => Ok(()),
    }
}

/// Adds what became of a proposal, by what has changed and by what the place holds after it.
fn push_outcome(words: &mut Vec<u8>, changes: &[Change], after: &Held) -> Result<(), AllocError>
    ensures { OnOk result (words.new.items
        ≡ words.old.items ++ outcome_words (map change_shown changes.now) (held_shown after.now)) }
{
    match changes {
        [] => push_all(
            words,
            &[b"; ", &after.field.text, b" is there already: lost."],
        ),
        _ => words.extend_from_slice(b": won."),
    }
}

/// Adds the sentence of a step, which made these changes.
fn push_step_sentence(
    words: &mut Vec<u8>,
    step: &Step,
    changes: &[Change],
) -> Result<(), AllocError>
    requires { map change_shown changes.now
        ≡ changes_between (held_shown step.now.before) (held_shown step.now.after) }
    ensures { OnOk result (words.new.items ≡ words.old.items ++ sentence (step_shown step.now)) }
{
    match (&step.proposed, &step.reply) {
        (Some(proposed), _) => {
            push_proposed(words, proposed)?;
            push_outcome(words, changes, &step.after)
        }
        (None, Some(reply)) => push_return(words, reply, step),
        (None, None) => push_plain(words, step),
    }
}

/// Adds how an era ended.
fn push_end_word(words: &mut Vec<u8>, reshaped: Option<u64>) -> Result<(), AllocError>
    ensures { OnOk result (words.new.items ≡ words.old.items ++ end_word reshaped) }
{
    match reshaped {
        None => words.extend_from_slice(b"trim"),
        Some(processes) => {
            words.extend_from_slice(b"reshape to ")?;
            push_counted(words, processes, "process", "processes")
        }
    }
}

/// Adds that the end of an era leaves an anchor with this number.
#[tactic(auto, unfolding(crate::specs::Sentences::number_words))]
fn push_number(words: &mut Vec<u8>, number: u64) -> Result<(), AllocError>
    ensures { OnOk result (words.new.items ≡ words.old.items ++ number_words number) }
{
    write!(
        words,
        ": the anchor alone is left, with number {number} and state "
    )
    .map_err(|_| AllocError)
}

/// Adds the sentence of the end of an era.
fn push_end_sentence(words: &mut Vec<u8>, end: &EndedEra) -> Result<(), AllocError>
    ensures { OnOk result (words.new.items ≡ words.old.items ++ end_sentence (end_shown end.now)) }
{
    push_end_word(words, end.reshaped)?;
    push_number(words, end.number)?;
    push_all(words, &[&end.anchor.field.text, b"."])
}

/// Adds what an event did, which made these changes, in a sentence. An `Err` says that memory was refused.
pub fn push_sentence(
    alloc: Global,
    frame: &Frame,
    changes: &[Change],
    words: &mut Vec<u8>,
) -> Result<(), AllocError>
    requires { map change_shown changes.now ≡ changes_in (frame_shown frame.now) }
    ensures { OnOk result (words.new.items ≡ words.old.items ++ frame_sentence (frame_shown frame.now)) }
{
    match frame {
        Frame::Call(begun) => push_begun_sentence(alloc, begun, words),
        Frame::Step(step) => push_step_sentence(words, step, changes),
        Frame::End(end) => push_end_sentence(words, end),
    }
}

/// Adds the number of a process.
fn push_process(words: &mut Vec<u8>, process: u32) -> Result<(), AllocError>
    ensures { OnOk result (words.new.items ≡ words.old.items ++ (codes "P" ++ decimal process ++ codes "  ")) }
{
    write!(words, "P{process}  ").map_err(|_| AllocError)
}

/// Adds whose event it is, with the letter of its kind.
fn push_frame_start(words: &mut Vec<u8>, frame: &Frame) -> Result<(), AllocError>
    ensures { OnOk result (words.new.items ≡ words.old.items ++ frame_start (frame_shown frame.now)) }
{
    match frame {
        Frame::Call(begun) => push_process(words, begun.call.process),
        Frame::Step(step) => {
            push_process(words, step.call.process)?;
            words.push(letter_of(step.kind))?;
            words.extend_from_slice(b"  ")
        }
        Frame::End(_) => Ok(()),
    }
}

/// The words of an event, which made these changes. An `Err` says that memory was refused.
pub fn frame_words(
    alloc: Global,
    event: u64,
    frame: &Frame,
    changes: &[Change],
) -> Result<Vec<u8>, AllocError>
    requires { map change_shown changes.now ≡ changes_in (frame_shown frame.now) }
    ensures { IfOk result (λ words. words.items ≡ frame_words event (frame_shown frame.now)) }
{
    let mut words = Vec::new(alloc);
    write!(words, "{event}  ").map_err(|_| AllocError)?;
    push_frame_start(&mut words, frame)?;
    push_sentence(alloc, frame, changes, &mut words)?;
    Ok(words)
}

/// The places that an event changed. An `Err` says that memory was refused.
pub fn changes_in(alloc: Global, frame: &Frame) -> Result<Vec<Change>, AllocError>
    ensures { IfOk result (λ changes. map change_shown changes.items ≡ changes_in (frame_shown frame.now)) }
{
    match frame {
        Frame::Call(begun) => changes_of(alloc, &begun.before, &begun.after),
        Frame::Step(step) => changes_of(alloc, &step.before, &step.after),
        Frame::End(_) => Ok(Vec::new(alloc)),
    }
}

/// The line of what is told beside the events. An `Err` says that memory was refused.
pub fn remark_words(alloc: Global, remark: &Remark) -> Result<Vec<u8>, AllocError>
    ensures { IfOk result (λ words. words.items ≡ remark_words remark.now) }
{
    let mut words = Vec::new(alloc);
    match remark {
        Remark::Heading(note) | Remark::Note(note) => push_all(&mut words, &[b"# ", note])?,
        Remark::Refused { command, refusal } => {
            let refused = refused_text(alloc, command, *refusal)?;
            push_all(&mut words, &[&refused, b"."])?;
        }
    }
    Ok(words)
}

/// The sentence of how a run opened.
fn run_words(alloc: Global, opened: &Opened<'_>) -> Result<Vec<u8>, AllocError>
    ensures { IfOk result (λ words. words.items ≡ run_words (opening_shown opened.now)) }
{
    let number = opened.number;
    let mut words = Vec::new(alloc);
    words.extend_from_slice(opened.object.as_bytes())?;
    words.extend_from_slice(b": ")?;
    push_counted(&mut words, opened.processes, "process", "processes")?;
    words.extend_from_slice(b", at most ")?;
    push_counted(&mut words, opened.row, "call", "calls")?;
    write!(
        words,
        " each in an era; the anchor has number {number} and state "
    )
    .map_err(|_| AllocError)?;
    words.extend_from_slice(&opened.state)?;
    words.push(b'.')?;
    Ok(words)
}

/// The sentence of how a run opened, and how many of its events are left out before those that are told. An `Err` says
/// that memory was refused.
pub fn opening_words(alloc: Global, opened: &Opened<'_>) -> Result<Vec<u8>, AllocError>
    ensures { IfOk result (λ words. words.items ≡ opening_words (opening_shown opened.now)) }
{
    let mut words = run_words(alloc, opened)?;
    push_left_out(&mut words, &opened.start)?;
    Ok(words)
}

/// Adds how many events are left out first, if some are.
fn push_left_out(words: &mut Vec<u8>, start: &Option<Start>) -> Result<(), AllocError>
    ensures { OnOk result (words.new.items
        ≡ words.old.items ++ left_out_words (option_map start_shown start.now)) }
{
    match start {
        Some(start) => {
            words.extend_from_slice(b" Left out first: ")?;
            push_counted(words, start.events, "event", "events")?;
            words.extend_from_slice(b".")
        }
        None => Ok(()),
    }
}
