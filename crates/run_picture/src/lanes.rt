//! Lanes.

use crate::figures::Sheet;
use run_layout::{MOST_LANES, Stretch, name_of};
use std::alloc::AllocError;
use svg_text::{Paint, Shape, Spot};

/// How far things stand from the left and the right.
pub const MARGIN: u64 = 12;

/// Where lanes begin, and rows.
pub const START: u64 = 40;

/// The top of the first lane, below refusals and the labels of ends of eras.
pub const TOP: u64 = 20;

/// How high a lane is.
pub const LANE: u64 = 96;

/// The top of the lane of a process, and the end of the lanes of so many.
pub fn lane_top(process: u64) -> u64 {
    TOP + process.min(MOST_LANES) * LANE
}

/// The middle of the bars of a process.
pub fn lane_middle(process: u64) -> u64 {
    lane_top(process).saturating_add(48)
}

/// Adds the lanes of all eras, each with its name where the era before has none of that number.
pub fn push_eras(strip: &mut Sheet, stretches: &[Stretch]) -> Result<(), AllocError> {
    let mut named = MOST_LANES;
    for stretch in stretches {
        for process in 0..stretch.lanes {
            let y = lane_middle(process);
            let (from, to) = (Spot { x: stretch.from, y }, Spot { x: stretch.to, y });
            strip.push(Shape::Line(from, to, Paint::Faint))?;
            if named <= process {
                strip.push_text(from.by(4, 0).back(0, 5), name_of(strip.alloc, process)?)?;
            }
        }
        named = stretch.lanes;
    }
    Ok(())
}
