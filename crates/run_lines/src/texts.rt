//! What stands above and below the rows: headings, notes, eras and the legend.

ghost use Rattle.std.specs.Prelude.{◌≡◌, ◌++◌, ◌+◌, ◌<◌, ◌^◌, IfOk, OnOk, map, option_map};
ghost use Rattle.run_lines.specs.Vocabulary.{cell_shown, era_shown};
ghost use Rattle.run_lines.specs.Parts.{no_notes};
ghost use Rattle.run_lines.specs.Lines.{ended, wrapped, padded, headings_text, numbered_note, notes_from, state_text};
ghost use Rattle.run_lines.specs.Lines.{cell_line, era_text, eras_from};

use crate::parts::Numbering;
use run_layout::{cell_name, cell_state, cell_words, letter_of, meaning_of, push_lines};
use run_replay::{CellBox, Dot, Era};
use std::alloc::{AllocError, Global};
use std::io::Write;
use uni_core::StepKind;
use uni_script::{PlacedRemark, Remark};

/// How many columns a terminal has where none are asked for.
pub const COLUMNS: u64 = 100;

/// How wide an entry of the legend is that others follow in its line.
const ENTRY: usize = 30;

/// The last line of the legend.
const SIGNS: &str = "[ a call begins; * it takes effect; | another process links it; x refused";

/// Adds a line and its end.
pub fn push_line(line: &[u8], text: &mut Vec<u8>) -> Result<(), AllocError>
    ensures { OnOk result (text.new.items ≡ text.old.items ++ ended line.now) }
{
    text.extend_from_slice(line)?;
    text.push(b'\n')?;
    Ok(())
}

/// Adds a text in lines of at most so many columns.
pub fn push_wrapped(
    alloc: Global,
    columns: u64,
    whole: &[u8],
    text: &mut Vec<u8>,
) -> Result<(), AllocError>
    ensures { OnOk result (text.new.items ≡ text.old.items ++ wrapped columns whole.now) }
{
    let mut lines = Vec::new(alloc);
    push_lines(alloc, whole, columns as usize, &mut lines)?;
    for line in &lines {
        push_line(line, text)?;
    }
    Ok(())
}

/// Adds a part, and blanks after it up to a width.
pub fn push_padded(
    alloc: Global,
    part: &[u8],
    width: usize,
    text: &mut Vec<u8>,
) -> Result<(), AllocError>
    ensures { OnOk result (text.new.items ≡ text.old.items ++ padded width part.now) }
{
    text.extend_from_slice(part)?;
    let blanks = vec![in alloc; b' '; width.saturating_sub(part.len())]?;
    text.extend_from_slice(&blanks)
}

/// Adds the notes that come before the header.
pub fn push_headings(
    alloc: Global,
    columns: u64,
    remarks: &[PlacedRemark],
    text: &mut Vec<u8>,
) -> Result<(), AllocError>
    ensures { OnOk result (text.new.items ≡ text.old.items ++ headings_text columns remarks.now) }
{
    for one in remarks {
        if let Remark::Heading(heading) = &one.remark {
            push_wrapped(alloc, columns, heading, text)?;
        }
    }
    Ok(())
}

/// Adds a note with its number, in lines; nothing of one that is empty.
fn push_note(
    alloc: Global,
    columns: u64,
    number: u64,
    note: &[u8],
    text: &mut Vec<u8>,
) -> Result<(), AllocError>
    ensures { OnOk result (text.new.items ≡ text.old.items ++ numbered_note columns number note.now) }
{
    if note.is_empty() {
        return Ok(());
    }
    let mut line = format!(in alloc; "note {number}: ")?.into_bytes();
    line.extend_from_slice(note)?;
    push_wrapped(alloc, columns, &line, text)
}

/// Adds the notes that come after the header, with the numbers that they have above the lanes.
pub fn push_notes(
    alloc: Global,
    columns: u64,
    remarks: &[PlacedRemark],
    text: &mut Vec<u8>,
) -> Result<(), AllocError>
    ensures { OnOk result (text.new.items ≡ text.old.items ++ notes_from columns no_notes remarks.now) }
{
    let mut numbering = Numbering::none();
    for (_, one) in remarks.iter().enumerate() {
        numbering = numbering.after(one);
        if let Remark::Note(note) = &one.remark {
            push_note(alloc, columns, numbering.number, note, text)?;
        }
    }
    Ok(())
}

/// Adds the state after a cell, if it is told.
fn push_state(state: Option<Vec<u8>>, text: &mut Vec<u8>) -> Result<(), AllocError>
    ensures { OnOk result (text.new.items
        ≡ text.old.items ++ state_text (option_map (λ told. told.items) state)) }
{
    match state {
        Some(state) => {
            text.extend_from_slice(b", ")?;
            text.extend_from_slice(&state)
        }
        None => Ok(()),
    }
}

/// A cell, with the state after it where it is short.
fn cell_line(alloc: Global, dots: &[Dot], cell: &CellBox) -> Result<Vec<u8>, AllocError>
    ensures { IfOk result (λ line. line.items ≡ cell_line dots.now (cell_shown cell.now)) }
{
    let mut line = Vec::new(alloc);
    line.extend_from_slice(b"  ")?;
    line.extend_from_slice(&cell_name(alloc, dots, cell)?)?;
    line.push(b' ')?;
    line.extend_from_slice(&cell_words(alloc, cell)?)?;
    push_state(cell_state(alloc, cell)?, &mut line)?;
    Ok(line)
}

/// Adds an era, with its place among the eras from 0: its anchor, and its cells in the order of the list.
fn push_era(
    alloc: Global,
    columns: u64,
    dots: &[Dot],
    place: u64,
    era: &Era,
    text: &mut Vec<u8>,
) -> Result<(), AllocError>
    requires { place + 1 < 2 ^ 64 }
    ensures { OnOk result (text.new.items ≡ text.old.items ++ era_text columns dots.now place (era_shown era.now)) }
{
    let number = place + 1;
    let anchor = era.anchor;
    writeln!(text, "era {number}, after the anchor {anchor}:").map_err(|_| AllocError)?;
    for cell in &era.cells {
        push_wrapped(alloc, columns, &cell_line(alloc, dots, cell)?, text)?;
    }
    Ok(())
}

/// Adds all eras of a run with these dots.
pub fn push_eras(
    alloc: Global,
    columns: u64,
    dots: &[Dot],
    eras: &[Era],
    text: &mut Vec<u8>,
) -> Result<(), AllocError>
    ensures { OnOk result (text.new.items ≡ text.old.items ++ eras_from columns dots.now 0 (map era_shown eras.now)) }
{
    for (place, era) in eras.iter().enumerate() {
        push_era(alloc, columns, dots, place as u64, era, text)?;
    }
    Ok(())
}

/// The legend of some kinds of step, as many in a line as fit, but three at most, with what a small letter means
/// where a step changed nothing.
pub fn legend_of(
    alloc: Global,
    columns: u64,
    kinds: &[StepKind],
    unchanged: bool,
) -> Result<Vec<u8>, AllocError> {
    let mut legend = b"\n".to_vec(alloc)?;
    let in_line = (columns as usize / ENTRY).max(1).min(3);
    for (place, kind) in kinds.iter().enumerate() {
        let mut entry = [letter_of(*kind), b' '].to_vec(alloc)?;
        entry.extend_from_slice(meaning_of(*kind).as_bytes())?;
        if (place + 1) % in_line == 0 || place + 1 == kinds.len() {
            push_line(&entry, &mut legend)?;
        } else {
            push_padded(alloc, &entry, ENTRY, &mut legend)?;
        }
    }
    if unchanged {
        let meaning = b"a small letter: that step changed nothing";
        push_wrapped(alloc, columns, meaning, &mut legend)?;
    }
    push_wrapped(alloc, columns, SIGNS.as_bytes(), &mut legend)?;
    Ok(legend)
}
