//! What is looked at of the shapes of an SVG.

ghost use Rattle.std.specs.Prelude.{◌≡◌, ◌∷◌, ◌↔◌, [], All, IsTrue, false};
ghost use Rattle.signs.specs.Signs.{Hides, Holds, IsWithin, ends_of, line_look, outline_of, point};

use crate::check::Seen;
use crate::sign::{Look, Span};
use svg_text::{Paint, Shape, Spot};

/// Whether a point is in a span from left to right, and in one from the top down.
pub fn holds(wide: Span, high: Span, x: u64, y: u64) -> bool
    ensures { IsTrue result ↔ Holds wide high (x, y) }
{
    wide.from <= x && x <= wide.to && high.from <= y && y <= high.to
}

/// Whether this point is.
#[tactic(auto, using(crate::proofs::Corners::to_one, crate::proofs::Corners::from_one))]
fn hold_one(wide: Span, high: Span, at: Spot) -> bool
    ensures within { IsTrue result → All (Holds wide high) (point at ∷ []) }
    ensures off { result ≡ false → ¬ (All (Holds wide high) (point at ∷ [])) }
{
    holds(wide, high, at.x, at.y)
}

/// Whether two points are.
#[tactic(auto, using(crate::proofs::Corners::to_two, crate::proofs::Corners::from_two))]
fn hold_two(wide: Span, high: Span, one: Spot, other: Spot) -> bool
    ensures within { IsTrue result → All (Holds wide high) (point one ∷ point other ∷ []) }
    ensures off { result ≡ false → ¬ (All (Holds wide high) (point one ∷ point other ∷ [])) }
{
    holds(wide, high, one.x, one.y) && holds(wide, high, other.x, other.y)
}

/// Whether three points are.
#[tactic(auto, using(crate::proofs::Corners::to_more, crate::proofs::Corners::from_more))]
fn hold_three(wide: Span, high: Span, one: Spot, other: Spot, third: Spot) -> bool
    ensures within { IsTrue result → All (Holds wide high) (point one ∷ point other ∷ point third ∷ []) }
    ensures off { result ≡ false → ¬ (All (Holds wide high) (point one ∷ point other ∷ point third ∷ [])) }
{
    holds(wide, high, one.x, one.y) && hold_two(wide, high, other, third)
}

/// Whether both ends of a rectangle are.
#[tactic(auto, using(crate::proofs::Corners::to_two, crate::proofs::Corners::from_two))]
fn holds_box(wide: Span, high: Span, at: Spot, width: u64, height: u64) -> bool
    ensures within { IsTrue result → All (Holds wide high) (ends_of at width height) }
    ensures off { result ≡ false → ¬ (All (Holds wide high) (ends_of at width height)) }
{
    holds(wide, high, at.x, at.y) && width <= wide.to - at.x && height <= high.to - at.y
}

/// Whether all corners of a shape are in a span from left to right, and in one from the top down.
pub fn lies_within(shape: &Shape, wide: Span, high: Span) -> bool
    ensures within { IsTrue result → IsWithin wide high (outline_of shape.now) }
    ensures off { result ≡ false → ¬ (IsWithin wide high (outline_of shape.now)) }
{
    match shape {
        Shape::Rect(at, width, height, _)
        | Shape::Titled(at, width, height, _, _)
        | Shape::View(at, width, height, _) => holds_box(wide, high, *at, *width, *height),
        Shape::Line(one, other, _) => hold_two(wide, high, *one, *other),
        Shape::Dot(at) | Shape::Text(at, _, _, _) => hold_one(wide, high, *at),
        Shape::Tip(at, one, other) => hold_three(wide, high, *at, *one, *other),
    }
}

/// Whether paper lies over all of a shape.
pub fn hides(paper: &Shape, shape: &Shape) -> bool
    ensures { result ≡ false → ¬ (Hides paper.now shape.now) }
{
    let Shape::Rect(at, width, height, Paint::Paper) = paper else {
        return false;
    };
    let (Some(right), Some(bottom)) = (at.x.checked_add(*width), at.y.checked_add(*height)) else {
        return true;
    };
    let wide = Span {
        from: at.x,
        to: right,
    };
    let high = Span {
        from: at.y,
        to: bottom,
    };
    lies_within(shape, wide, high)
}

/// What a line tells.
fn look_of_line(paint: Paint) -> Option<Look>
    ensures { result ≡ line_look paint }
{
    match paint {
        Paint::Faint => None,
        Paint::Edge => Some(Look::Edge),
        Paint::Broken => Some(Look::End),
        Paint::Thick => Some(Look::Arrow),
        _ => Some(Look::Cross),
    }
}

impl Seen for Shape {
    ghost use Rattle.signs.specs.Signs.{outline_of};

    ghost seen = { λ shape. outline_of shape };

    fn look(&self) -> Option<Look> {
        match self {
            Shape::Rect(_, _, _, Paint::Paper) | Shape::View(..) => None,
            Shape::Rect(..) => Some(Look::Bar),
            Shape::Titled(_, _, _, Paint::Pale(_), _) => Some(Look::Pale),
            Shape::Titled(..) => Some(Look::Step),
            Shape::Line(_, _, paint) => look_of_line(*paint),
            Shape::Dot(_) => Some(Look::Dot),
            Shape::Tip(..) => Some(Look::Tip),
            Shape::Text(..) => Some(Look::Text),
        }
    }

    fn says(&self, text: &[u8]) -> bool {
        match self {
            Shape::Titled(_, _, _, _, said) | Shape::Text(_, _, _, said) => said.as_slice() == text,
            _ => text.is_empty(),
        }
    }

    fn reach(&self) -> Option<(u64, u64)> {
        match self {
            Shape::Rect(at, width, _, _)
            | Shape::Titled(at, width, _, _, _)
            | Shape::View(at, width, _, _) => Some((at.x, at.x.checked_add(*width)?)),
            Shape::Line(one, other, _) | Shape::Tip(one, other, _) => Some((one.x, other.x)),
            Shape::Dot(_) | Shape::Text(..) => None,
        }
    }

    fn is_within(&self, wide: Span, high: Span) -> bool {
        lies_within(self, wide, high)
    }
}
