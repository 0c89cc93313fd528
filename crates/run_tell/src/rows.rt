//! The rows of the table that a page shows where no script runs.

ghost use Rattle.std.specs.Prelude.{◌++◌, ◌≡◌, IfOk, OnOk, [], decimal, map, option_map};
ghost use Rattle.run_tell.specs.Vocabulary.{change_shown, option_map_or, step_shown};
ghost use Rattle.run_tell.specs.Page.{cell, changed_words, reply_words, row_text, stage_words, told_cells};

use crate::opened::Opened;
use crate::order::Telling;
use crate::sentences::{changes_in, opening_words, push_all, push_sentence, remark_words};
use crate::steps::push_change_words;
use run_layout::{letter_of, name_of, push_counted};
use run_replay::{Change, Frame, Scene, Step, cell_text};
use std::alloc::{AllocError, Global};
use std::io::Write;
use svg_text::push_escaped;
use uni_script::PlacedRemark;

/// Adds a cell with this text.
fn push_cell(rows: &mut Vec<u8>, text: &[u8]) -> Result<(), AllocError>
    ensures { OnOk result (rows.new.items ≡ rows.old.items ++ cell text.now) }
{
    rows.extend_from_slice(b"<td>")?;
    push_escaped(rows, text)
}

/// Adds a row of cells with these texts.
#[tactic(auto, unfolding(crate::specs::Page::row_text))]
fn push_row(rows: &mut Vec<u8>, cells: &[&[u8]]) -> Result<(), AllocError>
    ensures { OnOk result (rows.new.items ≡ rows.old.items ++ row_text (map (λ text. text.now) cells.now)) }
{
    rows.extend_from_slice(b"<tr>")?;
    for text in cells {
        push_cell(rows, text)?;
    }
    rows.extend_from_slice(b"\n")
}

/// Adds the row of words without an event.
fn push_told_row(rows: &mut Vec<u8>, words: &[u8]) -> Result<(), AllocError>
    ensures { OnOk result (rows.new.items ≡ rows.old.items ++ row_text (told_cells words.now)) }
{
    push_row(rows, &[b"", b"", b"", b"", words, b"", b""])
}

/// The text of a number.
fn number_text(alloc: Global, number: u64) -> Result<Vec<u8>, AllocError>
    ensures { IfOk result (λ text. text.items ≡ decimal number) }
{
    let mut text = Vec::new(alloc);
    write!(text, "{number}").map_err(|_| AllocError)?;
    Ok(text)
}

/// What has changed, a line for each place.
fn changed_words(alloc: Global, changes: &[Change]) -> Result<Vec<u8>, AllocError>
    ensures { IfOk result (λ words. words.items ≡ changed_words (map change_shown changes.now)) }
{
    let mut words = Vec::new(alloc);
    for change in changes {
        push_change_words(&mut words, change)?;
        words.push(b'\n')?;
    }
    Ok(words)
}

/// Adds the reply of a call that has returned.
fn push_reply(words: &mut Vec<u8>, reply: &Option<Vec<u8>>) -> Result<(), AllocError>
    ensures { OnOk result (words.new.items
        ≡ words.old.items ++ option_map_or reply_words (option_map (λ r. r.items) reply.now) []) }
{
    match reply {
        Some(reply) => push_all(words, &[b", reply ", reply]),
        None => Ok(()),
    }
}

/// What a call has come to with a step.
fn stage_words(alloc: Global, step: &Step) -> Result<Vec<u8>, AllocError>
    ensures { IfOk result (λ words. words.items ≡ stage_words (step_shown step.now)) }
{
    let mut words = Vec::new(alloc);
    push_counted(&mut words, step.steps, "step", "steps")?;
    words.extend_from_slice(b", ")?;
    push_counted(&mut words, step.turns, "turn", "turns")?;
    push_reply(&mut words, &step.reply)?;
    Ok(words)
}

/// Tells a run in rows of a table.
pub struct InRows;

impl Telling for InRows {
    ghost use Rattle.run_tell.specs.Page.{rows_wording};

    ghost wording = { rows_wording };

    fn is_whole() -> bool {
        false
    }

    fn push_opening(
        alloc: Global,
        opened: &Opened<'_>,
        text: &mut Vec<u8>,
    ) -> Result<(), AllocError> {
        let words = opening_words(alloc, opened)?;
        push_told_row(text, &words)
    }

    fn push_scene(
        alloc: Global,
        event: u64,
        _: Option<u64>,
        scene: &Scene,
        text: &mut Vec<u8>,
    ) -> Result<(), AllocError> {
        let number = number_text(alloc, event)?;
        let changes = changes_in(alloc, &scene.frame)?;
        let changed = changed_words(alloc, &changes)?;
        let mut happened = Vec::new(alloc);
        push_sentence(alloc, &scene.frame, &changes, &mut happened)?;
        match &scene.frame {
            Frame::Call(begun) => {
                let process = name_of(alloc, u64::from(begun.call.process))?;
                let call = cell_text(alloc, Some(begun.call))?;
                push_row(
                    text,
                    &[&number, &process, &call, b"", &happened, &changed, b""],
                )
            }
            Frame::Step(step) => {
                let process = name_of(alloc, u64::from(step.call.process))?;
                let call = cell_text(alloc, Some(step.call))?;
                let kind = [letter_of(step.kind)];
                let stage = stage_words(alloc, step)?;
                push_row(
                    text,
                    &[&number, &process, &call, &kind, &happened, &changed, &stage],
                )
            }
            Frame::End(_) => push_row(text, &[&number, b"", b"", b"", &happened, b"", b""]),
        }
    }

    fn push_remark(
        alloc: Global,
        one: &PlacedRemark,
        text: &mut Vec<u8>,
    ) -> Result<(), AllocError> {
        let words = remark_words(alloc, &one.remark)?;
        push_told_row(text, &words)
    }
}
