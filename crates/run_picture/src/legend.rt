//! The legend.

use crate::figures::{Sheet, Toward, mark_paint};
use crate::lanes::MARGIN;
use run_layout::meaning_of;
use std::alloc::AllocError;
use svg_text::{Colour, Paint, Shape, Spot};
use uni_core::StepKind;

/// How wide an entry is.
const ENTRY: u64 = 236;

/// How many entries stand side by side.
const IN_A_LINE: u64 = 4;

/// How high a line of entries is.
const ENTRY_HEIGHT: u64 = 22;

/// How wide the mark of a step is.
const MARK: u64 = 14;

/// How high it is.
const MARK_HEIGHT: u64 = 18;

/// How high so many entries are.
fn height_of(entries: u64) -> u64 {
    (entries.saturating_add(IN_A_LINE - 1) / IN_A_LINE).saturating_mul(ENTRY_HEIGHT)
}

/// Where the next entry stands, below a line that has so many: one more then.
fn next(line: Spot, entries: &mut u64) -> Spot {
    let right = *entries % IN_A_LINE * ENTRY;
    *entries = entries.saturating_add(1);
    line.by(right, MARGIN)
        .by(0, height_of(*entries))
        .back(0, ENTRY_HEIGHT)
}

/// Adds what an entry says.
fn push_meaning(sheet: &mut Sheet, at: Spot, meaning: &str) -> Result<(), AllocError> {
    let text = meaning.as_bytes().to_vec(sheet.alloc)?;
    sheet.push_text(at.by(22, 14), text)
}

/// Adds the entry of a kind of step.
fn push_kind(sheet: &mut Sheet, at: Spot, kind: StepKind) -> Result<(), AllocError> {
    sheet.push(Shape::Rect(at, MARK, MARK_HEIGHT, mark_paint(kind, true)))?;
    sheet.push_letter(at.by(7, 15), kind, true)?;
    push_meaning(sheet, at, meaning_of(kind))
}

/// Adds the legend of some kinds of step, of what else is drawn, and of a pale mark where a step changed nothing, with
/// a line above it and room below it.
pub fn push_legend(
    sheet: &mut Sheet,
    kinds: &[StepKind],
    unchanged: bool,
) -> Result<(), AllocError> {
    let line = sheet.below(MARGIN, MARGIN);
    let end = line.by(sheet.width.saturating_sub(2 * MARGIN), 0);
    sheet.push(Shape::Line(line, end, Paint::Faint))?;
    let mut entries = 0;
    for kind in kinds {
        push_kind(sheet, next(line, &mut entries), *kind)?;
    }
    let at = next(line, &mut entries);
    sheet.push(Shape::Dot(at.by(7, 9)))?;
    push_meaning(sheet, at, "the call takes effect")?;
    let at = next(line, &mut entries);
    sheet.push(Shape::Line(at.by(7, 0), at.by(7, 16), Paint::Thick))?;
    sheet.push_tip(at.by(7, 18), Toward::Down)?;
    push_meaning(sheet, at, "help: another links it")?;
    let at = next(line, &mut entries);
    sheet.push_cross(at.by(2, 4), at.by(12, 14))?;
    push_meaning(sheet, at, "refused, for this reason")?;
    let at = next(line, &mut entries);
    sheet.push_open(at.by(0, 2), at.by(16, 16))?;
    push_meaning(sheet, at, "has not returned")?;
    if unchanged {
        let at = next(line, &mut entries);
        sheet.push(Shape::Rect(at, MARK, MARK_HEIGHT, Paint::Pale(Colour::Blue)))?;
        push_meaning(sheet, at, "pale: it changed nothing")?;
    }
    sheet.move_down(height_of(entries).saturating_add(3 * MARGIN));
    Ok(())
}
