//! The rows of a picture: parts of the strip, one below the other.

use crate::figures::Sheet;
use crate::lanes::{MARGIN, START, lane_middle, lane_top};
use crate::notes::push_captions;
use run_layout::{Axis, Stretch, lanes_between, name_of};
use signs::Span;
use std::alloc::{AllocError, Global};
use svg_text::Shape;
use uni_script::PlacedRemark;

/// How wide a row is at most.
const WIDEST: u64 = 1_348;

/// Labels in the order of where they begin, each up to the furthest end of those so far.
fn reaching(alloc: Global, labels: &[Span]) -> Result<Vec<Span>, AllocError> {
    let mut spans = labels.to_vec(alloc)?;
    spans.sort_unstable_by_key(|span| span.from);
    let mut furthest = 0;
    for span in &mut spans {
        furthest = span.to.max(furthest);
        span.to = furthest;
    }
    Ok(spans)
}

/// Whether an edge goes through one of the labels that these reach over.
fn is_cut(edge: u64, labels: &[Span]) -> bool {
    let begun = labels.partition_point(|label| label.from < edge);
    labels[..begun].last().is_some_and(|label| edge < label.to)
}

/// Where a row may end, in order: at the left edge of an event or of what is told that goes through none of these
/// labels, and with the strip.
fn edges_of(alloc: Global, labels: &[Span], axis: &Axis) -> Result<Vec<u64>, AllocError> {
    let labels = reaching(alloc, labels)?;
    let columns = axis.layout.columns.as_slice();
    let events = &columns[..columns.len().saturating_sub(1)];
    let mut edges: Vec<u64> = events
        .iter()
        .chain(axis.remarks.iter())
        .map(|column| column.from)
        .filter(|edge| !is_cut(*edge, &labels))
        .collect(alloc)?;
    edges.push(axis.layout.width)?;
    edges.sort_unstable();
    Ok(edges)
}

/// Where a row ends that begins at a place: at the furthest of some edges in order that it can reach, if there is one.
fn row_end(edges: &[u64], from: u64) -> u64 {
    let limit = from.saturating_add(WIDEST);
    let near = edges.partition_point(|edge| *edge <= limit);
    match edges[..near].last() {
        Some(edge) if *edge > from => *edge,
        _ => limit,
    }
}

/// The rows of a strip, of which none ends within one of these labels.
pub fn rows_of(alloc: Global, labels: &[Span], axis: &Axis) -> Result<Vec<Span>, AllocError> {
    let edges = edges_of(alloc, labels, axis)?;
    let end = axis.layout.width;
    let mut rows = Vec::new(alloc);
    let mut from = START;
    for _ in START..end {
        if from >= end {
            return Ok(rows);
        }
        let to = row_end(&edges, from);
        rows.push(Span { from, to })?;
        from = to;
    }
    Ok(rows)
}

/// Adds a row: its captions, the names of the lanes that there are where it begins, and its part of the strip.
pub fn push_row(
    sheet: &mut Sheet,
    stretches: &[Stretch],
    remarks: &[PlacedRemark],
    axis: &Axis,
    row: Span,
) -> Result<(), AllocError> {
    push_captions(sheet, remarks, axis, row)?;
    for process in 0..lanes_between(stretches, row.from, row.from.saturating_add(1)) {
        let at = sheet.below(MARGIN, lane_middle(process)).by(0, 5);
        sheet.push_text(at, name_of(sheet.alloc, process)?)?;
    }
    let width = row.to.saturating_sub(row.from);
    let (before, after) = (row.from.saturating_sub(1), row.to.saturating_add(1));
    let height = lane_top(lanes_between(stretches, before, after));
    sheet.push(Shape::View(sheet.below(START, 0), width, height, row.from))?;
    sheet.move_down(height);
    Ok(())
}
