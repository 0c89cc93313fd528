//! What is told beside the events: headings, captions and refusals.

use crate::figures::{LETTER, Sheet, Toward};
use crate::lanes::{MARGIN, START};
use run_layout::{Axis, push_lines};
use signs::Span;
use std::alloc::{AllocError, Global};
use svg_text::{Paint, Shape, Spot};
use uni_script::{PlacedRemark, Remark};

/// How high a line of text is.
const LINE: u64 = 20;

/// How far the stem of a caption stands from the left of the column of what follows it.
const STEM: u64 = 7;

/// How far the lines of a caption stand from its stem.
const STEM_GAP: u64 = 5;

/// How many letters of a note have room in a line at least.
const LEAST_LETTERS: usize = 30;

/// Adds the notes that come before the header, in lines.
pub fn push_headings(sheet: &mut Sheet, remarks: &[PlacedRemark]) -> Result<(), AllocError> {
    let most = (sheet.width.saturating_sub(48) / LETTER) as usize;
    let mut lines = Vec::new(sheet.alloc);
    for one in remarks {
        if let Remark::Heading(text) = &one.remark {
            push_lines(sheet.alloc, text, most, &mut lines)?;
        }
    }
    for line in lines {
        let at = sheet.below(MARGIN, 16);
        sheet.push_text(at, line)?;
        sheet.move_down(LINE);
    }
    Ok(())
}

/// Where the stem of a caption stands in the strip, by its place among what is told: at the column of what follows it.
fn stem_of(axis: &Axis, place: usize) -> u64 {
    axis.remark(place).saturating_add(STEM)
}

/// The text of a note that comes after the header; nothing of anything else.
fn note_text(remark: &Remark) -> &[u8] {
    match remark {
        Remark::Note(text) => text,
        Remark::Heading(_) | Remark::Refused { .. } => &[],
    }
}

/// What is told in a row, with its place among all that is told: the stem of each stands in the row.
fn told_in<'a>(axis: &Axis, row: Span, remarks: &'a [PlacedRemark]) -> (usize, &'a [PlacedRemark]) {
    let (from, to) = (row.from.saturating_sub(STEM), row.to.saturating_sub(STEM));
    let first = axis.remarks.partition_point(|column| column.from < from);
    let end = axis.remarks.partition_point(|column| column.from < to);
    match remarks.get(first..end) {
        Some(told) => (first, told),
        None => (0, &[]),
    }
}

/// How wide 30 letters of a text are, or all of a shorter one.
fn room_of(text: &[u8]) -> u64 {
    text.len().min(LEAST_LETTERS) as u64 * LETTER
}

/// Where the lines of a text begin beside a stem, in a picture of this width, and how many letters each takes: right of
/// the stem where 30 letters have room there, and else left of it.
fn beside(width: u64, stem: Spot, text: &[u8]) -> (Spot, usize) {
    let room = room_of(text);
    let right = stem.by(STEM_GAP + MARGIN, 0).x;
    if right.saturating_add(room) <= width {
        let most = (width.saturating_sub(right) / LETTER) as usize;
        (stem.by(STEM_GAP, 0), most)
    } else {
        (stem.back(room, 0).back(STEM_GAP, 0), LEAST_LETTERS)
    }
}

/// A caption in a row.
#[derive(Drop)]
struct Caption {
    /// Where its stem stands.
    stem: Spot,
    /// Where its lines begin.
    left: Spot,
    /// Its lines; none of a remark without one.
    lines: Vec<Vec<u8>>,
}

/// The captions of what is told in a row: each note after the header stands beside its stem, below the captions before.
/// The answer is their foot, too.
fn captions_in(
    sheet: &Sheet,
    remarks: &[PlacedRemark],
    axis: &Axis,
    row: Span,
) -> Result<(Vec<Caption>, u64), AllocError> {
    let mut captions = Vec::new(sheet.alloc);
    let mut at = sheet.below(START, MARGIN);
    let (first, told) = told_in(axis, row, remarks);
    for (i, one) in told.iter().enumerate() {
        let stem = stem_of(axis, first.saturating_add(i)).saturating_sub(row.from);
        let stem = at.by(stem, 0);
        let text = note_text(&one.remark);
        let (left, most) = beside(sheet.width, stem, text);
        let mut lines = Vec::new(sheet.alloc);
        push_lines(sheet.alloc, text, most, &mut lines)?;
        at = at.by(0, (lines.len() as u64).saturating_mul(LINE));
        captions.push(Caption { stem, left, lines })?;
    }
    Ok((captions, at.by(0, 10).y))
}

/// Adds a caption, with its stem from beside its first line down to the foot of all captions of its row.
fn push_caption(sheet: &mut Sheet, caption: Caption, foot: u64) -> Result<(), AllocError> {
    if caption.lines.is_empty() {
        return Ok(());
    }
    let tip = caption.stem.level(foot);
    sheet.push(Shape::Line(caption.stem.by(0, 4), tip, Paint::Edge))?;
    sheet.push_tip(tip, Toward::Down)?;
    let mut at = caption.left.by(0, 16);
    for line in caption.lines {
        sheet.push_label(at, line)?;
        at = at.by(0, LINE);
    }
    Ok(())
}

/// Adds the captions of a row. The stem of each points at the event or the refusal that follows.
pub fn push_captions(
    sheet: &mut Sheet,
    remarks: &[PlacedRemark],
    axis: &Axis,
    row: Span,
) -> Result<(), AllocError> {
    let (captions, foot) = captions_in(sheet, remarks, axis, row)?;
    for caption in captions {
        push_caption(sheet, caption, foot)?;
    }
    sheet.bottom = foot;
    Ok(())
}

/// Adds the room of each note right of its stem in the strip.
pub fn push_rooms(
    remarks: &[PlacedRemark],
    axis: &Axis,
    rooms: &mut Vec<Span>,
) -> Result<(), AllocError> {
    for (place, one) in remarks.iter().enumerate() {
        if let Remark::Note(text) = &one.remark {
            let from = stem_of(axis, place).saturating_add(STEM_GAP);
            let to = from.saturating_add(room_of(text));
            rooms.push(Span { from, to })?;
        }
    }
    Ok(())
}

/// The description of a picture, for who can't see it: the notes before the header, with a space between them.
pub fn description_of(alloc: Global, remarks: &[PlacedRemark]) -> Result<Vec<u8>, AllocError> {
    let mut text = Vec::new(alloc);
    for one in remarks {
        if let Remark::Heading(heading) = &one.remark {
            if !text.is_empty() {
                text.push(b' ')?;
            }
            text.extend_from_slice(heading)?;
        }
    }
    Ok(text)
}
