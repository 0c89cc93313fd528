//! The strokes of signs, from the lowest on.

use crate::canvas::{Ink, Stroke};
use crate::parts::{Numbering, refusal_text, step_letter};
use run_layout::{Axis, Mark, Sign, letters};
use signs::Layout;
use std::alloc::{AllocError, Global};
use uni_script::{PlacedRemark, Remark};

/// How many rows are above the lanes: the numbers of notes, and what has no lane.
pub const ABOVE: u64 = 2;

/// How many rows a lane has: labels, bars with the letters of steps, dots, and counts.
pub const LANE: u64 = 4;

/// Adds a stroke, in the rows from one to before another.
fn push_stroke(
    strokes: &mut Vec<Stroke>,
    rows: (u64, u64),
    column: u64,
    ink: Ink,
) -> Result<(), AllocError> {
    let (top, bottom) = rows;
    Ok(strokes.push(Stroke {
        top,
        bottom,
        column,
        ink,
    })?)
}

/// Adds a stroke in one row, so far below another.
fn push_ink(
    strokes: &mut Vec<Stroke>,
    top: u64,
    down: u64,
    column: u64,
    ink: Ink,
) -> Result<(), AllocError> {
    let row = top.saturating_add(down);
    push_stroke(strokes, (row, row.saturating_add(1)), column, ink)
}

/// Adds a sign, with a refusal no further left than `free`, which is moved on.
fn push_sign(
    alloc: Global,
    layout: &Layout,
    sign: Sign,
    free: &mut u64,
    strokes: &mut Vec<Stroke>,
) -> Result<(), AllocError> {
    let (wide, high) = (layout.wide(sign.columns), layout.high(sign.lanes));
    let (left, row) = (wide.from, high.from);
    let lower = high.to.saturating_sub(LANE);
    let text = sign.text;
    match sign.mark {
        Mark::Name => push_ink(strokes, row, 1, left.saturating_add(1), Ink::Text(text)),
        Mark::End => {
            push_stroke(strokes, (ABOVE, high.to), left, Ink::Line)?;
            push_ink(strokes, ABOVE - 1, 0, left, Ink::Text(text))
        }
        Mark::Bar | Mark::Open => {
            let ink = Ink::Bar(wide.to.saturating_sub(left));
            push_ink(strokes, row, 1, left, ink)
        }
        Mark::Down => {
            let rows = (row.saturating_add(2), lower.saturating_add(2));
            push_stroke(strokes, rows, left, Ink::Arrow)
        }
        Mark::Up => {
            let rows = (row.saturating_add(3), lower.saturating_add(1));
            push_stroke(strokes, rows, left, Ink::Arrow)
        }
        Mark::Step(kind, changed) => {
            let letter = [step_letter(kind, changed)].to_vec(alloc)?;
            push_ink(strokes, row, 1, left, Ink::Text(letter))
        }
        Mark::Dot => push_ink(strokes, row, 2, left, Ink::Text(b"*".to_vec(alloc)?)),
        Mark::Label => push_ink(strokes, row, 0, left, Ink::Text(text)),
        Mark::Counts => {
            let column = wide.to.saturating_sub(text.len() as u64);
            push_ink(strokes, row, 3, column, Ink::Text(text))
        }
        Mark::Refusal => {
            let column = left.max(*free);
            *free = column.saturating_add(letters(&text)).saturating_add(3);
            let ink = Ink::Text(refusal_text(alloc, &text)?);
            push_ink(strokes, ABOVE - 1, 0, column, ink)
        }
    }
}

/// Adds signs.
pub fn push_signs(
    alloc: Global,
    layout: &Layout,
    signs: Vec<Sign>,
    strokes: &mut Vec<Stroke>,
) -> Result<(), AllocError> {
    let mut free = 0;
    for sign in signs {
        push_sign(alloc, layout, sign, &mut free, strokes)?;
    }
    Ok(())
}

/// Adds the numbers of the notes among what is told.
pub fn push_numbers(
    alloc: Global,
    remarks: &[PlacedRemark],
    axis: &Axis,
    strokes: &mut Vec<Stroke>,
) -> Result<(), AllocError> {
    let mut numbering = Numbering::none();
    for (place, one) in remarks.iter().enumerate() {
        numbering = numbering.after(one);
        if let Remark::Note(_) = &one.remark {
            let text = format!(in alloc; "{}", numbering.number)?.into_bytes();
            push_ink(strokes, 0, 0, axis.remark(place), Ink::Text(text))?;
        }
    }
    Ok(())
}
