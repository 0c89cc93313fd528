//! Shapes, with places in whole numbers.

use crate::paint::Paint;
use std::fmt;

/// Which part of a text stands at its place.
#[derive(Clone, Copy)]
pub enum Anchor {
    /// Its start.
    Start,
    /// Its middle.
    Middle,
    /// Its end.
    End,
}

impl fmt::Display for Anchor {
    ghost use Rattle.std.specs.Prelude.{Some};
    ghost use Rattle.svg_text.specs.Svg.{anchor_name};

    ghost output = { λ anchor. Some (anchor_name anchor) };

    fn fmt<W: fmt::Write>(&self, f: &mut fmt::Formatter<W>) -> fmt::Result {
        match self {
            Anchor::Start => write!(f, "start"),
            Anchor::Middle => write!(f, "middle"),
            Anchor::End => write!(f, "end"),
        }
    }
}

/// A place in a picture. It moves as far as numbers go.
#[derive(Clone, Copy)]
pub struct Spot {
    /// How far from the left it is.
    pub x: u64,
    /// How far from the top it is.
    pub y: u64,
}

impl Spot {
    /// So far right of it and below it.
    pub fn by(self, right: u64, down: u64) -> Spot {
        let (x, y) = (self.x.saturating_add(right), self.y.saturating_add(down));
        Spot { x, y }
    }

    /// What stands at this height above or below it.
    pub fn level(self, y: u64) -> Spot {
        Spot { x: self.x, y }
    }

    /// So far left of it and above it.
    pub fn back(self, left: u64, up: u64) -> Spot {
        let (x, y) = (self.x.saturating_sub(left), self.y.saturating_sub(up));
        Spot { x, y }
    }
}

/// A shape.
#[derive(Drop)]
pub enum Shape {
    /// A rectangle: its left upper corner, its width, its height, and how it is painted.
    Rect(Spot, u64, u64, Paint),
    /// The same with a title, not escaped, which a browser shows at the pointer.
    Titled(Spot, u64, u64, Paint, Vec<u8>),
    /// A line from one point to another.
    Line(Spot, Spot, Paint),
    /// A dot, by its middle.
    Dot(Spot),
    /// The tip of an arrow, a triangle: the tip, and the two corners behind it.
    Tip(Spot, Spot, Spot),
    /// A text, not escaped, whose base line is at a place, and which part of it stands there.
    Text(Spot, Anchor, Paint, Vec<u8>),
    /// A part of the strip, from its top: its left upper corner, its width, its height, and where it begins in the
    /// strip, from the left.
    View(Spot, u64, u64, u64),
}

/// A picture.
#[derive(Drop)]
pub struct Drawing {
    /// How wide it is.
    pub width: u64,
    /// How high it is.
    pub height: u64,
    /// Its title.
    pub title: Vec<u8>,
    /// Its description.
    pub description: Vec<u8>,
    /// What its views show parts of, from the lowest shape on.
    pub strip: Vec<Shape>,
    /// Its shapes, from the lowest on.
    pub shapes: Vec<Shape>,
}
