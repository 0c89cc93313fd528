//! The list of cells, era by era, below the lanes.

ghost use Rattle.std.specs.Prelude.{◌<◌, ◌^◌, ◌+◌};

use crate::figures::{Sheet, Toward, width_of};
use crate::lanes::MARGIN;
use crate::parts::{anchor_lines, cell_lines, era_name, is_next};
use run_replay::{CellBox, Dot, Era};
use std::alloc::AllocError;
use svg_text::{Paint, Shape};

/// How high a line of a box is.
const LINE: u64 = 18;

/// How high a box of three lines is, the highest one.
const BOX: u64 = 62;

/// How far a text stands from the edge of its box.
const INSIDE: u64 = 8;

/// How far a box stands from the next one.
const GAP: u64 = 28;

/// Where the first box of a line stands.
const FIRST: u64 = 84;

/// Adds the cells of all eras of a run with these dots.
pub fn push_cells(sheet: &mut Sheet, dots: &[Dot], eras: &[Era]) -> Result<(), AllocError> {
    for (place, era) in eras.iter().enumerate() {
        push_era(sheet, dots, place as u64, era)?;
    }
    Ok(())
}

/// Adds the cells of an era, with its place among the eras from 0: its anchor, and then its cells in
/// the order of the list.
fn push_era(sheet: &mut Sheet, dots: &[Dot], place: u64, era: &Era) -> Result<(), AllocError>
    requires { place + 1 < 2 ^ 64 }
{
    sheet.move_down(MARGIN);
    let at = sheet.below(MARGIN, 27);
    sheet.push_text(at, era_name(sheet.alloc, place)?)?;
    let mut end = push_box(sheet, FIRST, anchor_lines(sheet.alloc, era.anchor)?)?;
    let mut before = era.anchor;
    for cell in &era.cells {
        end = push_cell(sheet, dots, before, cell, end)?;
        before = cell.number;
    }
    sheet.move_down(BOX);
    Ok(())
}

/// Adds a cell after the box of this number, which ends at a place: in its line, or at the start of the next line where
/// this one has no room. The answer is where its own box ends.
fn push_cell(
    sheet: &mut Sheet,
    dots: &[Dot],
    before: u64,
    cell: &CellBox,
    end: u64,
) -> Result<u64, AllocError> {
    let lines = cell_lines(sheet.alloc, dots, cell)?;
    let room = GAP.saturating_add(box_width(&lines)).saturating_add(MARGIN);
    let mut left = end.saturating_add(GAP);
    if end.saturating_add(room) > sheet.width {
        sheet.move_down(BOX + MARGIN);
        left = FIRST;
    }
    push_link(sheet, left)?;
    if !is_next(before, cell.number) {
        let at = sheet.below(left, 13).back(21, 0);
        sheet.push_text(at, b"..".to_vec(sheet.alloc)?)?;
    }
    push_box(sheet, left, lines)
}

/// Adds the arrow to the box at a place.
fn push_link(sheet: &mut Sheet, left: u64) -> Result<(), AllocError> {
    let at = sheet.below(left, 22);
    sheet.push(Shape::Line(at.back(24, 0), at.back(3, 0), Paint::Thick))?;
    sheet.push_tip(at.back(2, 0), Toward::Right)
}

/// How wide the box of some lines is.
fn box_width(lines: &[Vec<u8>]) -> u64 {
    let widest = lines.iter().map(|line| width_of(line)).max();
    widest.unwrap_or(0).saturating_add(2 * INSIDE)
}

/// Adds a box with lines of text; the answer is where it ends.
fn push_box(sheet: &mut Sheet, left: u64, lines: Vec<Vec<u8>>) -> Result<u64, AllocError> {
    let width = box_width(&lines);
    let height = (lines.len() as u64).min(3) * LINE + INSIDE;
    let mut at = sheet.below(left, 0);
    sheet.push(Shape::Rect(at, width, height, Paint::Frame))?;
    for line in lines {
        at = at.by(0, LINE);
        sheet.push_text(at.by(INSIDE, 0), line)?;
    }
    Ok(left.saturating_add(width))
}
