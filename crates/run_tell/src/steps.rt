//! The way to tell a run in words: a line for how it opened, one for each event, note and refusal, in the script's
//! order, and under an event one for each place of the memory that it changed.

ghost use Rattle.std.specs.Prelude.{◌++◌, ◌≡◌, OnOk, codes, flat_map, map};
ghost use Rattle.run_tell.specs.Vocabulary.{change_shown};
ghost use Rattle.run_tell.specs.Sentences.{broken, change_words, changes_text, indented, line_text};

use crate::opened::Opened;
use crate::order::Telling;
use crate::sentences::{changes_in, frame_words, opening_words, push_all, remark_words};
use run_layout::push_lines;
use run_replay::{Change, Scene};
use std::alloc::{AllocError, Global};
use uni_script::PlacedRemark;

/// How many columns a line has at most.
const COLUMNS: usize = 100;

/// What a line begins with that goes on from the one above.
const INDENT: &str = "        ";

/// Adds lines that go on from the one above.
fn push_indented(text: &mut Vec<u8>, lines: &[Vec<u8>]) -> Result<(), AllocError>
    ensures { OnOk result (text.new.items
        ≡ text.old.items ++ flat_map indented (map (λ line. line.items) lines.now)) }
{
    for line in lines {
        push_all(text, &[INDENT.as_bytes(), line, b"\n"])?;
    }
    Ok(())
}

/// Adds lines of which each but the first goes on from the one above.
fn push_broken(text: &mut Vec<u8>, lines: &[Vec<u8>]) -> Result<(), AllocError>
    ensures { OnOk result (text.new.items ≡ text.old.items ++ broken (map (λ line. line.items) lines.now)) }
{
    match lines {
        [] => Ok(()),
        [first, rest @ ..] => {
            push_all(text, &[first, b"\n"])?;
            push_indented(text, rest)
        }
    }
}

/// Adds words in a line, or in several where one hasn't room for them.
fn push_line(alloc: Global, text: &mut Vec<u8>, words: &[u8]) -> Result<(), AllocError>
    ensures { OnOk result (text.new.items ≡ text.old.items ++ line_text words.now) }
{
    if words.len() <= COLUMNS {
        return push_all(text, &[words, b"\n"]);
    }
    let mut lines = Vec::new(alloc);
    push_lines(alloc, words, COLUMNS - INDENT.len(), &mut lines)?;
    push_broken(text, &lines)
}

/// Adds the words of a place that has changed. An `Err` says that memory was refused.
pub fn push_change_words(words: &mut Vec<u8>, change: &Change) -> Result<(), AllocError>
    ensures { OnOk result (words.new.items ≡ words.old.items ++ change_words (change_shown change.now)) }
{
    push_all(
        words,
        &[&change.name, b": ", &change.before, b" -> ", &change.after],
    )
}

/// Adds a line for a place that has changed.
fn push_change(alloc: Global, change: &Change, text: &mut Vec<u8>) -> Result<(), AllocError>
    ensures { OnOk result (text.new.items
        ≡ text.old.items ++ line_text (codes "    " ++ change_words (change_shown change.now))) }
{
    let mut words = Vec::new(alloc);
    words.extend_from_slice(b"    ")?;
    push_change_words(&mut words, change)?;
    push_line(alloc, text, &words)
}

/// Adds a line for each place that has changed.
fn push_changes(alloc: Global, changes: &[Change], text: &mut Vec<u8>) -> Result<(), AllocError>
    ensures { OnOk result (text.new.items ≡ text.old.items ++ changes_text (map change_shown changes.now)) }
{
    for change in changes {
        push_change(alloc, change, text)?;
    }
    Ok(())
}

/// Tells a run in words.
pub struct InWords;

impl Telling for InWords {
    ghost use Rattle.run_tell.specs.Sentences.{steps_wording};

    ghost wording = { steps_wording };

    fn is_whole() -> bool {
        false
    }

    fn push_opening(
        alloc: Global,
        opened: &Opened<'_>,
        text: &mut Vec<u8>,
    ) -> Result<(), AllocError> {
        let words = opening_words(alloc, opened)?;
        push_line(alloc, text, &words)
    }

    fn push_scene(
        alloc: Global,
        event: u64,
        _: Option<u64>,
        scene: &Scene,
        text: &mut Vec<u8>,
    ) -> Result<(), AllocError> {
        let changes = changes_in(alloc, &scene.frame)?;
        let words = frame_words(alloc, event, &scene.frame, &changes)?;
        push_line(alloc, text, &words)?;
        push_changes(alloc, &changes, text)
    }

    fn push_remark(
        alloc: Global,
        one: &PlacedRemark,
        text: &mut Vec<u8>,
    ) -> Result<(), AllocError> {
        let words = remark_words(alloc, &one.remark)?;
        push_line(alloc, text, &words)
    }
}
