//! Whether the views of a strip show the whole height of it, and nothing lies over them.

ghost use Rattle.std.specs.Prelude.{◌≡◌, All, IsTrue};
ghost use Rattle.signs.specs.Signs.{AreClear, AreFrom, AreHighEnough, IsAbove, IsBelow, IsClear, IsFrom};
ghost use Rattle.signs.specs.Signs.{IsHighEnough, IsInView, IsLeftOf, IsRightOf, outline_of};

use crate::shape::lies_within;
use crate::sign::Span;
use svg_text::Shape;

/// Up to a place.
fn up_to(to: u64) -> Span
    ensures { result.to ≡ to }
{
    Span { from: 0, to }
}

/// From a place on.
fn from(from: u64) -> Span
    ensures { result.from ≡ from }
{
    Span { from, to: u64::MAX }
}

/// Whether a shape is left of a place.
#[tactic(auto, using(crate::proofs::Sides::left_of))]
fn is_left_of(shape: &Shape, place: u64) -> bool
    ensures { IsTrue result → IsLeftOf place (outline_of shape.now) }
{
    place > 0 && lies_within(shape, up_to(place - 1), from(0))
}

/// Whether a shape is not left of a place.
#[tactic(auto, using(crate::proofs::Sides::is_from))]
fn is_from(shape: &Shape, place: u64) -> bool
    ensures { IsTrue result → IsFrom place (outline_of shape.now) }
{
    lies_within(shape, from(place), from(0))
}

/// Whether a shape is right of a place.
#[tactic(auto, using(crate::proofs::Sides::right_of))]
fn is_right_of(shape: &Shape, place: u64) -> bool
    ensures { IsTrue result → IsRightOf place (outline_of shape.now) }
{
    place < u64::MAX && lies_within(shape, from(place + 1), from(0))
}

/// Whether no part of a shape is below a height.
#[tactic(auto, using(crate::proofs::Sides::above))]
fn is_above(shape: &Shape, height: u64) -> bool
    ensures { IsTrue result → IsAbove height (outline_of shape.now) }
{
    lies_within(shape, from(0), up_to(height))
}

/// Whether no part of a shape is above a height.
#[tactic(auto, using(crate::proofs::Sides::below))]
fn is_below(shape: &Shape, height: u64) -> bool
    ensures { IsTrue result → IsBelow height (outline_of shape.now) }
{
    lies_within(shape, from(0), from(height))
}

/// Whether no shape of a strip begins before a place.
pub fn are_from(place: u64, strip: &[Shape]) -> bool
    ensures { IsTrue result → AreFrom place strip.now }
{
    strip.iter().all(|shape| is_from(shape, place))
}

/// Whether a view that begins here in a strip, of this width and height, does not cut a shape off.
#[tactic(auto, using(crate::proofs::Sides::in_before, crate::proofs::Sides::in_after, crate::proofs::Sides::in_high))]
fn is_in_view(shape: &Shape, left: u64, width: u64, height: u64) -> bool
    ensures { IsTrue result → IsInView left width height shape.now }
{
    let Some(right) = left.checked_add(width) else {
        return false;
    };
    is_left_of(shape, left) || is_right_of(shape, right) || is_above(shape, height)
}

/// Whether such a view cuts no shape of a strip off.
fn cuts_none(strip: &[Shape], left: u64, width: u64, height: u64) -> bool
    ensures { IsTrue result → All (IsInView left width height) strip.now }
{
    for shape in strip {
        if !is_in_view(shape, left, width, height) {
            return false;
        }
    }
    true
}

/// Whether a shape, where it is a view, is as high as the shapes of a strip that it shows.
fn is_high_enough(view: &Shape, strip: &[Shape]) -> bool
    ensures { IsTrue result → IsHighEnough strip.now view.now }
{
    match view {
        Shape::View(_, width, height, left) => cuts_none(strip, *left, *width, *height),
        _ => true,
    }
}

/// Whether each view of a strip is as high as the shapes that it shows.
pub fn are_high_enough(strip: &[Shape], shapes: &[Shape]) -> bool
    ensures { IsTrue result → AreHighEnough strip.now shapes.now }
{
    shapes.iter().all(|view| is_high_enough(view, strip))
}

/// Whether no part of some shapes is above a height.
fn are_below(shapes: &[Shape], height: u64) -> bool
    ensures { IsTrue result → All (λ shape. IsBelow height (outline_of shape)) shapes.now }
{
    shapes.iter().all(|shape| is_below(shape, height))
}

/// Whether what is drawn after a shape lies below it where it is a view.
fn is_clear(view: &Shape, later: &[Shape]) -> bool
    ensures { IsTrue result → IsClear view.now later.now }
{
    match view {
        Shape::View(at, _, height, _) => match at.y.checked_add(*height) {
            Some(foot) => are_below(later, foot),
            None => false,
        },
        _ => true,
    }
}

/// Whether what is drawn after each view lies below it.
pub fn are_clear(shapes: &[Shape]) -> bool
    ensures { IsTrue result → AreClear shapes.now }
{
    for i in 0..shapes.len() {
        if !is_clear(&shapes[i], &shapes[i + 1..]) {
            return false;
        }
    }
    true
}
