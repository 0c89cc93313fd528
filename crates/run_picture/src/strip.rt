//! The shapes of signs, from the lowest on.

use crate::figures::{Sheet, Toward, mark_paint, width_of};
use crate::lanes::{LANE, TOP, lane_top};
use run_layout::{Mark, Sign, Stretch, lanes_between};
use signs::{Layout, Span};
use std::alloc::AllocError;
use svg_text::{Anchor, Paint, Shape, Spot};
use uni_core::StepKind;

/// The top of the marks of steps, from the top of a lane.
const STEP: u64 = 28;

/// How high they are.
const STEP_HEIGHT: u64 = 22;

/// The middle of dots.
const DOT: u64 = 60;

/// How wide a dot is from its middle.
const RADIUS: u64 = 6;

/// The top of bars.
const BAR: u64 = 25;

/// How high they are.
const BAR_HEIGHT: u64 = 46;

/// The base line of labels.
const LABEL: u64 = 18;

/// The base line of counts.
const COUNTS: u64 = 86;

/// Where the paper of a label stands, from left to right; `None` of a sign that is none.
pub fn label_span(layout: &Layout, sign: &Sign) -> Option<Span> {
    let wide = layout.wide(sign.columns);
    let width = width_of(&sign.text);
    let from = match sign.mark {
        Mark::Label => wide.from,
        Mark::Counts => wide.to.saturating_sub(width),
        _ => return None,
    };
    let to = from.saturating_add(width);
    Some(Span { from, to })
}

/// Adds the mark of a step, which begins at a place, with its title and its letter.
fn push_step(
    strip: &mut Sheet,
    at: Spot,
    width: u64,
    kind: StepKind,
    changed: bool,
    title: Vec<u8>,
) -> Result<(), AllocError> {
    let (from, inner) = (at.by(1, STEP), width.saturating_sub(2));
    strip.push(Shape::Titled(from, inner, STEP_HEIGHT, mark_paint(kind, changed), title))?;
    strip.push_letter(at.by(width / 2, STEP + 17), kind, changed)
}

/// Adds the arrow of help between two lanes, by the middle of its column at the top of each.
fn push_arrow(
    strip: &mut Sheet,
    upper: Spot,
    lower: Spot,
    toward: Toward,
) -> Result<(), AllocError> {
    let (from, to) = match toward {
        Toward::Down | Toward::Right => {
            (upper.by(0, STEP + STEP_HEIGHT), lower.by(0, DOT - RADIUS))
        }
        Toward::Up => (lower.by(0, STEP), upper.by(0, DOT + RADIUS)),
    };
    strip.push(Shape::Line(from, to, Paint::Thick))?;
    strip.push_tip(to, toward)
}

/// Adds the bar of a call that hasn't returned: it stays open at its right.
fn push_open_bar(strip: &mut Sheet, at: Spot, width: u64) -> Result<(), AllocError> {
    let (from, width) = (at.by(1, BAR), width.saturating_sub(1));
    strip.push(Shape::Rect(from, width, BAR_HEIGHT, Paint::Paper))?;
    strip.push_open(from, from.by(width, BAR_HEIGHT))
}

/// Adds the mark of a refusal, above the lanes: a cross and its label. The answer is where its room ends.
fn push_refusal(strip: &mut Sheet, x: u64, label: Vec<u8>) -> Result<u64, AllocError> {
    let width = width_of(&label).saturating_add(20);
    let at = Spot { x, y: 0 };
    strip.push(Shape::Rect(at.by(2, 1), width, 18, Paint::Paper))?;
    strip.push_cross(at.by(4, 5), at.by(14, 15))?;
    strip.push_text(at.by(18, 14), label)?;
    Ok(at.by(4, 0).by(width, 0).x)
}

/// Adds the end of an era, by its place at the top of the lanes: a line through the lanes of that era and of the next
/// one, and its label.
fn push_end(
    strip: &mut Sheet,
    stretches: &[Stretch],
    top: Spot,
    label: Vec<u8>,
) -> Result<(), AllocError> {
    let lanes = lanes_between(stretches, top.back(1, 0).x, top.by(1, 0).x);
    strip.push(Shape::Line(top, top.level(lane_top(lanes)), Paint::Broken))?;
    strip.push(Shape::Text(top.back(0, 6), Anchor::Middle, Paint::Ink, label))
}

/// Adds a sign; the name of a lane is drawn with its lane, and a refusal no further left than `free`, which
/// is moved on.
fn push_sign(
    strip: &mut Sheet,
    layout: &Layout,
    stretches: &[Stretch],
    sign: Sign,
    free: &mut u64,
) -> Result<(), AllocError> {
    let (wide, high) = (layout.wide(sign.columns), layout.high(sign.lanes));
    let width = wide.to.saturating_sub(wide.from);
    let (x, y) = (wide.from, high.from);
    let at = Spot { x, y };
    let middle = at.by(width / 2, 0);
    let lower = middle.level(high.to).back(0, LANE);
    let text = sign.text;
    match sign.mark {
        Mark::Name => Ok(()),
        Mark::End => push_end(strip, stretches, middle.level(TOP), text),
        Mark::Bar => {
            let inner = width.saturating_sub(2);
            strip.push(Shape::Rect(at.by(1, BAR), inner, BAR_HEIGHT, Paint::Frame))
        }
        Mark::Open => push_open_bar(strip, at, width),
        Mark::Down => push_arrow(strip, middle, lower, Toward::Down),
        Mark::Up => push_arrow(strip, middle, lower, Toward::Up),
        Mark::Step(kind, changed) => push_step(strip, at, width, kind, changed, text),
        Mark::Dot => strip.push(Shape::Dot(middle.by(0, DOT))),
        Mark::Label => strip.push_label(at.by(0, LABEL), text),
        Mark::Counts => {
            let end = Spot { x: wide.to, y };
            strip.push_label(end.back(width_of(&text), 0).by(0, COUNTS), text)
        }
        Mark::Refusal => {
            *free = push_refusal(strip, wide.from.max(*free), text)?;
            Ok(())
        }
    }
}

/// Adds signs, with refusals from a place on.
pub fn push_signs(
    strip: &mut Sheet,
    layout: &Layout,
    stretches: &[Stretch],
    signs: Vec<Sign>,
    start: u64,
) -> Result<(), AllocError> {
    let mut free = start;
    for sign in signs {
        push_sign(strip, layout, stretches, sign, &mut free)?;
    }
    Ok(())
}
