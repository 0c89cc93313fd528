//! The whole picture, drawn and not yet tried.

use crate::cells::push_cells;
use crate::figures::Sheet;
use crate::lanes::{LANE, MARGIN, START, TOP, push_eras};
use crate::legend::push_legend;
use crate::notes::{description_of, push_headings, push_rooms};
use crate::rows::{push_row, rows_of};
use crate::strip::{label_span, push_signs};
use run_layout::{Axis, Scale, Side, Sign, any_unchanged, axis_of, kinds_of, signs_of, title_of};
use run_replay::Marks;
use signs::{Layout, Span};
use std::alloc::{AllocError, Global};
use svg_text::{Anchor, Drawing, Paint, Shape};
use uni_script::PlacedRemark;

/// How wide a picture is at least.
const LEAST_WIDTH: u64 = 960;

/// How wide a picture is at most: as wide as a row with its margins.
const MOST_WIDTH: u64 = 1_400;

/// How wide the things of a picture are.
const SCALE: Scale = Scale {
    start: 44,
    step: 20,
    letter: 8,
    mark: 16,
    margin: MARGIN,
    top: TOP,
    lane: LANE,
};

/// A drawing, with what tells where its marks stand.
#[derive(Drop)]
pub struct Drawn {
    /// The drawing.
    pub drawing: Drawing,
    /// Where the events and the processes stand in its strip.
    pub layout: Layout,
    /// Where the strip begins that its views show.
    pub start: u64,
    /// From which of its shapes on, and before which one, the boxes of cells stand.
    pub boxes: (usize, usize),
}

/// How wide a picture is: as wide as its strip.
fn width_of(axis: &Axis) -> u64 {
    let width = axis.layout.width.saturating_add(MARGIN);
    width.min(MOST_WIDTH).max(LEAST_WIDTH)
}

/// Where no row is to end: within a label, or the room of a note.
fn labels_of(
    alloc: Global,
    signs: &[Sign],
    remarks: &[PlacedRemark],
    axis: &Axis,
) -> Result<Vec<Span>, AllocError> {
    let mut labels = signs
        .iter()
        .filter_map(|sign| label_span(&axis.layout, sign))
        .collect(alloc)?;
    push_rooms(remarks, axis, &mut labels)?;
    Ok(labels)
}

/// Draws the marks of a run, with what was told beside its events. An `Err` says that memory was refused.
pub fn draw(alloc: Global, marks: &Marks, remarks: &[PlacedRemark]) -> Result<Drawn, AllocError> {
    let axis = axis_of(alloc, marks, remarks, SCALE)?;
    let stretches = axis.stretches(alloc, &marks.eras, START, Side::Middle)?;
    let signs = signs_of(alloc, marks, remarks)?;
    let rows = rows_of(alloc, &labels_of(alloc, &signs, remarks, &axis)?, &axis)?;
    let mut strip = Sheet::of_width(alloc, axis.layout.width);
    push_eras(&mut strip, &stretches)?;
    push_signs(&mut strip, &axis.layout, &stretches, signs, SCALE.start)?;
    let mut sheet = Sheet::of_width(alloc, width_of(&axis));
    let at = sheet.below(MARGIN, 28);
    let title = title_of(alloc, marks)?;
    sheet.push(Shape::Text(at, Anchor::Start, Paint::Title, title))?;
    sheet.move_down(32);
    push_headings(&mut sheet, remarks)?;
    for row in rows {
        push_row(&mut sheet, &stretches, remarks, &axis, row)?;
    }
    let first = sheet.shapes.len();
    push_cells(&mut sheet, &marks.dots, &marks.eras)?;
    let boxes = (first, sheet.shapes.len());
    let unchanged = any_unchanged(&marks.steps);
    push_legend(&mut sheet, &kinds_of(alloc, &marks.steps)?, unchanged)?;
    let drawing = Drawing {
        width: sheet.width,
        height: sheet.bottom,
        title: title_of(alloc, marks)?,
        description: description_of(alloc, remarks)?,
        strip: strip.shapes,
        shapes: sheet.shapes,
    };
    Ok(Drawn {
        drawing,
        layout: axis.layout,
        start: START,
        boxes,
    })
}
