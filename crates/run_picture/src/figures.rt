//! A sheet, and the shapes of which a picture is made.

use run_layout::{letter_of, letters};
use std::alloc::{AllocError, Global};
use svg_text::{Anchor, Colour, Paint, Shape, Spot};
use uni_core::StepKind;

/// How wide a letter is.
pub const LETTER: u64 = 8;

/// How wide a text is, where each letter is so wide.
pub fn width_of(text: &[u8]) -> u64 {
    letters(text).saturating_mul(LETTER)
}

/// The colour of the mark of a step: one for each phase of a call.
fn colour_of(kind: StepKind) -> Colour {
    match kind {
        StepKind::Announce => Colour::Orange,
        StepKind::ScanHead | StepKind::ScanSeq | StepKind::WriteScan => Colour::SkyBlue,
        StepKind::Test => Colour::Yellow,
        StepKind::ReadAnnounce | StepKind::ReadHelpSeq => Colour::Green,
        StepKind::DecideAfter => Colour::Vermilion,
        StepKind::DecideNew | StepKind::WriteBefore | StepKind::WriteSeq | StepKind::WriteHead =>
            Colour::Purple,
        StepKind::Finish => Colour::Blue,
    }
}

/// How the mark of a step is painted: it is pale where the step changed nothing.
pub fn mark_paint(kind: StepKind, changed: bool) -> Paint {
    if changed {
        Paint::Mark(colour_of(kind))
    } else {
        Paint::Pale(colour_of(kind))
    }
}

/// How the letter of a step is painted upon its mark.
fn letter_paint(kind: StepKind, changed: bool) -> Paint {
    match (kind, changed) {
        (StepKind::Finish | StepKind::DecideAfter, true) => Paint::LightLetter,
        _ => Paint::DarkLetter,
    }
}

/// Where the tip of an arrow points.
#[derive(Clone, Copy)]
pub enum Toward {
    /// Up.
    Up,
    /// Down.
    Down,
    /// To the right.
    Right,
}

/// What is drawn upon.
#[derive(Drop)]
pub struct Sheet {
    /// Where its shapes lie in memory.
    pub alloc: Global,
    /// How wide it is.
    pub width: u64,
    /// How far down it is drawn upon.
    pub bottom: u64,
    /// Its shapes, from the lowest on.
    pub shapes: Vec<Shape>,
}

impl Sheet {
    /// One without shapes.
    pub fn of_width(alloc: Global, width: u64) -> Sheet {
        let shapes = Vec::new(alloc);
        Sheet {
            alloc,
            width,
            bottom: 0,
            shapes,
        }
    }

    /// A place so far from the left, and so far below what is drawn.
    pub fn below(&self, x: u64, down: u64) -> Spot {
        Spot { x, y: self.bottom }.by(0, down)
    }

    /// What follows is drawn so far below.
    pub fn move_down(&mut self, by: u64) {
        self.bottom = self.bottom.saturating_add(by);
    }

    /// Adds a shape.
    pub fn push(&mut self, shape: Shape) -> Result<(), AllocError> {
        Ok(self.shapes.push(shape)?)
    }

    /// Adds a text that begins at a place.
    pub fn push_text(&mut self, at: Spot, text: Vec<u8>) -> Result<(), AllocError> {
        self.push(Shape::Text(at, Anchor::Start, Paint::Ink, text))
    }

    /// Adds a text that begins at a place, upon paper that hides what is below it.
    pub fn push_label(&mut self, at: Spot, text: Vec<u8>) -> Result<(), AllocError> {
        self.push(Shape::Rect(at.back(0, 13), width_of(&text), 17, Paint::Paper))?;
        self.push_text(at, text)
    }

    /// Adds the letter of a step, with its middle at a place.
    pub fn push_letter(
        &mut self,
        at: Spot,
        kind: StepKind,
        changed: bool,
    ) -> Result<(), AllocError> {
        let letter = [letter_of(kind)].to_vec(self.alloc)?;
        self.push(Shape::Text(at, Anchor::Middle, letter_paint(kind, changed), letter))
    }

    /// Adds the two lines of a cross between two corners.
    pub fn push_cross(&mut self, from: Spot, to: Spot) -> Result<(), AllocError> {
        self.push(Shape::Line(from, to, Paint::Cross))?;
        self.push(Shape::Line(from.level(to.y), to.level(from.y), Paint::Cross))
    }

    /// Adds three edges of a rectangle that is open at its right.
    pub fn push_open(&mut self, from: Spot, to: Spot) -> Result<(), AllocError> {
        let foot = from.level(to.y);
        self.push(Shape::Line(from, to.level(from.y), Paint::Edge))?;
        self.push(Shape::Line(from, foot, Paint::Edge))?;
        self.push(Shape::Line(foot, to, Paint::Edge))
    }

    /// Adds the tip of an arrow.
    pub fn push_tip(&mut self, at: Spot, toward: Toward) -> Result<(), AllocError> {
        let (one, other) = match toward {
            Toward::Up => (at.by(0, 9).back(5, 0), at.by(5, 9)),
            Toward::Down => (at.back(5, 9), at.by(5, 0).back(0, 9)),
            Toward::Right => (at.back(9, 5), at.by(0, 5).back(9, 0)),
        };
        self.push(Shape::Tip(at, one, other))
    }
}
