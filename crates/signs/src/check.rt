//! Whether a drawing shows what it is to show.

ghost use Rattle.std.specs.Prelude.{◌≡◌, ◌∷◌, ℕ, All, IsTrue, IfSome, Some, List, drop, false, map};
ghost use Rattle.svg_text.specs.declared.shape.Shape.{Shape};
ghost use Rattle.signs.specs.Signs.{AreApart, AreApartFrom, AreInSight, AreShown, AreWithin, Fills, Hides, IsWithin};
ghost use Rattle.signs.specs.Signs.{Outline, Reaches, Shows, meaning, places_shown};

use crate::shape::hides;
use crate::sign::{Edge, Layout, Look, Part, Span};
use svg_text::Shape;

/// A shape that can be looked at.
pub trait Seen {
    ghost use Rattle.std.specs.Prelude.{◌≡◌, IfSome, IsTrue, Some};
    ghost use Rattle.signs.specs.Signs.{IsWithin, Outline, reach_of};

    /// What is looked at of it.
    ghost seen: { Self → Outline };

    /// What it tells by its looks; `None` where it tells nothing.
    fn look(&self) -> Option<Look>
        ensures { result ≡ (seen self.now).look };

    /// Whether it says this.
    fn says(&self, text: &[u8]) -> bool
        ensures { IsTrue result → (seen self.now).text ≡ text.now };

    /// From where to where it reaches, from left to right; `None` where that isn't known.
    fn reach(&self) -> Option<(u64, u64)>
        ensures { IfSome result (λ reach. reach_of (seen self.now).corners ≡ Some reach) };

    /// Whether it is in a span from left to right, and in one from the top down.
    fn is_within(&self, wide: Span, high: Span) -> bool
        ensures { IsTrue result → IsWithin wide high (seen self.now) };
}

/// Whether spans stand one after the other.
fn are_apart(spans: &[Span]) -> bool
    ensures { IsTrue result → AreApartFrom 0 spans.now }
{
    let mut end = 0;
    for span in spans {
        if span.from < end || span.to <= span.from {
            return false;
        }
        end = span.to;
    }
    true
}

impl Layout {
    /// Whether the columns stand one after the other, and so do the lanes.
    pub fn is_apart(&self) -> bool
        ensures { IsTrue result → AreApart (places_shown self.now) }
    {
        are_apart(&self.columns) && are_apart(&self.lanes)
    }
}

/// Whether all shapes are within a width and a height.
pub fn are_within(width: u64, height: u64, shapes: &[Shape]) -> bool
    ensures { IsTrue result → AreWithin width height shapes.now }
{
    let wide = Span { from: 0, to: width };
    let high = Span {
        from: 0,
        to: height,
    };
    shapes.iter().all(|shape| shape.is_within(wide, high))
}

/// Whether a shape is hidden by one of those that are drawn after it.
fn is_hidden(shape: &Shape, later: &[Shape]) -> bool
    ensures { result ≡ false → All (λ paper. ¬ (Hides paper shape.now)) later.now }
{
    later.iter().any(|paper| hides(paper, shape))
}

/// Whether no shape that tells something is hidden by one that is drawn after it.
pub fn are_in_sight(shapes: &[Shape]) -> bool
    ensures { IsTrue result → AreInSight shapes.now }
{
    for i in 0..shapes.len() {
        if shapes[i].look().is_some() && is_hidden(&shapes[i], &shapes[i + 1..]) {
            return false;
        }
    }
    true
}

/// Whether a shape isn't empty, and reaches from the one column to the other.
fn reaches<S: Seen>(layout: &Layout, columns: (Edge, Edge), shape: &S) -> bool
    ensures { IsTrue result → Reaches (places_shown layout.now) columns (S.seen shape.now) }
{
    match shape.reach() {
        Some((from, to)) => {
            from <= layout.latest_start(columns.0)
                && layout.earliest_end(columns.1) <= to
                && from < to
        }
        None => false,
    }
}

/// Whether a shape of these looks is one that a mark is to have.
fn shows<S: Seen>(layout: &Layout, part: &Part, shape: &S, look: Look) -> bool
    requires { (S.seen shape.now).look ≡ Some look }
    ensures { IsTrue result → Shows (places_shown layout.now) (meaning part.now) (S.seen shape.now) }
{
    if look != part.look || !shape.says(&part.text) {
        return false;
    }
    if look == Look::Bar && !reaches(layout, part.columns, shape) {
        return false;
    }
    shape.is_within(layout.wide(part.columns), layout.high(part.lanes))
}

/// Up to which part a shape and those before it tell, where they told so many before it; `None` where it tells
/// another.
fn told<S: Seen>(layout: &Layout, parts: &[Part], next: usize, shape: &S) -> Option<usize>
    ensures { IfSome result (λ after. (rest : List Outline)
        → AreShown (places_shown layout.now) (map meaning (drop after parts.now)) rest
        → AreShown (places_shown layout.now) (map meaning (drop next parts.now)) (S.seen shape.now ∷ rest)) }
{
    match shape.look() {
        Some(look) if next < parts.len() => {
            if shows(layout, &parts[next], shape, look) {
                Some(next + 1)
            } else {
                None
            }
        }
        Some(_) => None,
        None => Some(next),
    }
}

/// Whether the shapes that tell something are these, in order.
pub fn are_shown<S: Seen>(layout: &Layout, parts: &[Part], shapes: &[S]) -> bool
    ensures { IsTrue result → AreShown (places_shown layout.now) (map meaning parts.now) (map S.seen shapes.now) }
{
    let mut next = 0;
    for shape in shapes {
        match told(layout, parts, next, shape) {
            Some(after) => next = after,
            None => return false,
        }
    }
    next >= parts.len()
}

/// Up to where a strip is shown, from left to right, by a shape and those before it, which show it up to a place.
/// `None` where it leaves a gap.
fn filled(end: u64, shape: &Shape) -> Option<u64>
    ensures { IfSome result (λ after. (to : ℕ) (rest : List Shape)
        → Fills after to rest → Fills end to (shape.now ∷ rest)) }
{
    match shape {
        Shape::View(_, width, _, left) if *left == end => end.checked_add(*width),
        Shape::View(..) => None,
        _ => Some(end),
    }
}

/// Whether the views of a strip show all of it, from a place to another.
pub fn fill(from: u64, to: u64, shapes: &[Shape]) -> bool
    ensures { IsTrue result → Fills from to shapes.now }
{
    let mut end = from;
    for shape in shapes {
        match filled(end, shape) {
            Some(after) => end = after,
            None => return false,
        }
    }
    end == to
}
