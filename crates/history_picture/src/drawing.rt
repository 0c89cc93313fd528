//! A scene is drawn. Nothing is promised of it: the drawing is looked at.

use crate::scene::{Bar, Scene};
use signs::{Layout, Span};
use std::alloc::{AllocError, Global};
use svg_text::{Anchor, Colour, Drawing, Paint, Shape, Spot};

/// How wide a letter is.
const LETTER: u64 = 8;

/// How wide the column of a moment is at least.
const COLUMN: u64 = 24;

/// How far things stand from the edges.
const MARGIN: u64 = 12;

/// Where the first lane begins.
const TOP: u64 = 44;

/// How high a lane is.
const LANE: u64 = 48;

/// How high a line of text is.
const LINE: u64 = 20;

/// The most moments that have a column.
const MOMENTS: u64 = 1_200;

/// How wide a text is, with room on both sides.
fn width_of(text: &[u8]) -> u64 {
    (text.len() as u64)
        .saturating_mul(LETTER)
        .saturating_add(2 * MARGIN)
}

/// How wide the widest of these texts is.
fn widest(texts: &[Vec<u8>]) -> u64 {
    let mut width = 0u64;
    for text in texts {
        width = width.max(width_of(text));
    }
    width
}

/// How many moments calls have.
fn moments_of(bars: &[Bar]) -> u64 {
    let mut last = 0u64;
    for bar in bars {
        let end = bar.end.unwrap_or(0).max(bar.point.unwrap_or(0));
        last = last.max(bar.begin).max(end);
    }
    last.saturating_add(1).min(MOMENTS)
}

/// How wide the column of each moment is: that of the begin of a call has room for what is said of it.
fn widths_of(alloc: Global, bars: &[Bar]) -> Result<Vec<u64>, AllocError> {
    let mut widths = vec![in alloc; COLUMN; moments_of(bars) as usize]?;
    for bar in bars {
        if let Some(width) = widths.get_mut(bar.begin as usize) {
            *width = width_of(&bar.text);
        }
    }
    Ok(widths)
}

/// Spans one after the other, from a place on.
fn spans_of(alloc: Global, from: u64, widths: &[u64]) -> Result<Vec<Span>, AllocError> {
    let mut spans = Vec::new(alloc);
    let mut from = from;
    for width in widths {
        let to = from.saturating_add(*width);
        spans.push(Span { from, to })?;
        from = to;
    }
    Ok(spans)
}

/// Where moments and processes stand.
fn layout_of(alloc: Global, scene: &Scene) -> Result<Layout, AllocError> {
    let columns = spans_of(alloc, widest(&scene.names), &widths_of(alloc, &scene.bars)?)?;
    let lanes = spans_of(alloc, TOP, &vec![in alloc; LANE; scene.names.len()]?)?;
    let right = columns.last().map_or(0, |column| column.to);
    let below = (scene.notes.len() as u64).saturating_mul(LINE);
    Ok(Layout {
        width: right
            .saturating_add(MARGIN)
            .max(width_of(&scene.title))
            .max(widest(&scene.notes)),
        height: lanes
            .last()
            .map_or(TOP, |lane| lane.to)
            .saturating_add(below)
            .saturating_add(2 * MARGIN),
        columns,
        lanes,
    })
}

/// One of some spans.
fn span_at(spans: &[Span], place: u64) -> Span {
    match spans.get(place as usize) {
        Some(span) => *span,
        None => Span { from: 0, to: 0 },
    }
}

/// Adds a text that begins at a place.
fn push_text(
    alloc: Global,
    at: Spot,
    paint: Paint,
    text: &[u8],
    shapes: &mut Vec<Shape>,
) -> Result<(), AllocError> {
    let text = Vec::from_slice(alloc, text)?;
    Ok(shapes.push(Shape::Text(at, Anchor::Start, paint, text))?)
}

/// Adds the bar of a call, from its left upper corner on; one that doesn't return is open at the right.
fn push_box(
    layout: &Layout,
    bar: &Bar,
    from: Spot,
    paint: Paint,
    shapes: &mut Vec<Shape>,
) -> Result<(), AllocError> {
    let height = LANE - 16;
    match bar.end {
        Some(end) => {
            let right = span_at(&layout.columns, end).to.saturating_sub(4);
            let width = right.saturating_sub(from.x);
            shapes.push(Shape::Rect(from, width, height, paint))?;
        }
        None => {
            let foot = from.by(0, height);
            let width = layout.width.saturating_sub(from.x);
            let (upper, lower) = (from.by(width, 0), foot.by(width, 0));
            shapes.push(Shape::Rect(from, width, height, Paint::Paper))?;
            shapes.push(Shape::Line(from, upper, Paint::Edge))?;
            shapes.push(Shape::Line(from, foot, Paint::Edge))?;
            shapes.push(Shape::Line(foot, lower, Paint::Edge))?;
        }
    }
    Ok(())
}

/// Adds a call.
fn push_bar(
    alloc: Global,
    layout: &Layout,
    bar: &Bar,
    paint: Paint,
    shapes: &mut Vec<Shape>,
) -> Result<(), AllocError> {
    let corner = Spot {
        x: span_at(&layout.columns, bar.begin).from,
        y: span_at(&layout.lanes, bar.lane).from,
    };
    push_box(layout, bar, corner.by(4, 8), paint, shapes)?;
    push_text(alloc, corner.by(MARGIN, 29), Paint::Ink, &bar.text, shapes)?;
    if let Some(point) = bar.point {
        let x = span_at(&layout.columns, point)
            .from
            .saturating_add(COLUMN / 2);
        shapes.push(Shape::Dot(Spot { x, y: corner.y }.by(0, LANE / 2)))?;
    }
    Ok(())
}

/// Adds the lanes, with their names.
fn push_lanes(
    alloc: Global,
    layout: &Layout,
    names: &[Vec<u8>],
    shapes: &mut Vec<Shape>,
) -> Result<(), AllocError> {
    for (lane, name) in layout.lanes.iter().zip(names.iter()) {
        let from = Spot {
            x: MARGIN,
            y: lane.from.saturating_add(LANE / 2),
        };
        let first = span_at(&layout.columns, 0).from;
        let (start, end) = (
            Spot {
                x: first,
                y: from.y,
            },
            Spot {
                x: layout.width,
                y: from.y,
            },
        );
        shapes.push(Shape::Line(start, end, Paint::Faint))?;
        push_text(alloc, from.by(0, 5), Paint::Ink, name, shapes)?;
    }
    Ok(())
}

/// The drawing of a scene, and where its moments and processes stand.
pub(crate) fn draw(alloc: Global, scene: &Scene) -> Result<(Drawing, Layout), AllocError> {
    let layout = layout_of(alloc, scene)?;
    let mut shapes = Vec::new(alloc);
    let at = Spot { x: MARGIN, y: 28 };
    push_text(alloc, at, Paint::Title, &scene.title, &mut shapes)?;
    push_lanes(alloc, &layout, &scene.names, &mut shapes)?;
    for (place, bar) in scene.bars.iter().enumerate() {
        let paint = match scene.bad {
            Some(bad) if bad == place as u64 => Paint::Mark(Colour::Vermilion),
            _ => Paint::Frame,
        };
        push_bar(alloc, &layout, bar, paint, &mut shapes)?;
    }
    let mut at = Spot {
        x: MARGIN,
        y: layout.lanes.last().map_or(TOP, |lane| lane.to),
    };
    for note in &scene.notes {
        at = at.by(0, LINE);
        push_text(alloc, at, Paint::Ink, note, &mut shapes)?;
    }
    let drawing = Drawing {
        width: layout.width,
        height: layout.height,
        title: Vec::from_slice(alloc, &scene.title)?,
        description: Vec::new(alloc),
        strip: Vec::new(alloc),
        shapes,
    };
    Ok((drawing, layout))
}
