//! A drawing is looked at before it becomes a picture.

ghost use Rattle.std.specs.Prelude.{◌≡◌, ◌<◌, ◌≤◌, IfOk, IsErrOf, IsTrue, length, map};
ghost use Rattle.signs.specs.Signs.{AreShown, outline_of, places_shown};
ghost use Rattle.history_picture.specs.Parts.{red_parts, scene_parts};
ghost use Rattle.history_picture.specs.Picture.{IsDrawingOf, IsInOrder, IsPageOf, IsPictureOf, red_outline};

use crate::drawing::draw;
use crate::orderly::is_orderly;
use crate::parts::{parts_of, red_parts};
use crate::scene::{PictureError, Scene};
use signs::{Layout, Look, Seen, Span, are_in_sight, are_shown, are_within};
use std::alloc::{AllocError, Global};
use svg_text::{Colour, Drawing, Paint, Shape, svg_of};

/// The most calls of a picture.
const MOST: usize = 400;

/// What stands before the picture in a page.
const HEAD: &str = "<!DOCTYPE html>\n<html lang=\"en\">\n<head>\n<meta charset=\"utf-8\">\n\
    <meta name=\"viewport\" content=\"width=device-width\">\n<meta name=\"color-scheme\" content=\"light dark\">\n\
    <title>A recorded history</title>\n\
    <style>@media (prefers-color-scheme: dark) { svg { filter: invert(1) hue-rotate(180deg); } }</style>\n\
    </head>\n<body>\n";

/// What stands behind it.
const FOOT: &str = "</body>\n</html>\n";

/// What is seen of a shape in red.
#[derive(Clone, Copy)]
struct Red<'a> {
    shape: &'a Shape,
}

impl<'a> Seen for Red<'a> {
    ghost use Rattle.history_picture.specs.Picture.{red_outline};

    ghost seen = { λ red. red_outline red.shape.now };

    fn look(&self) -> Option<Look> {
        match self.shape {
            Shape::Rect(_, _, _, Paint::Mark(Colour::Vermilion)) => Some(Look::Bar),
            _ => None,
        }
    }

    fn says(&self, text: &[u8]) -> bool {
        self.shape.says(text)
    }

    fn reach(&self) -> Option<(u64, u64)> {
        self.shape.reach()
    }

    fn is_within(&self, wide: Span, high: Span) -> bool {
        self.shape.is_within(wide, high)
    }
}

/// What is seen of shapes in red.
fn reds_of(alloc: Global, shapes: &[Shape]) -> Result<Vec<Red<'_>>, AllocError>
    ensures { IfOk result (λ reds. map (λ red. red_outline red.shape.now) reds.items ≡ map red_outline shapes.now) }
{
    let mut reds = Vec::new(alloc);
    for shape in shapes {
        reds.push(Red { shape })?;
    }
    Ok(reds)
}

/// Whether the shapes of a drawing are those of a scene, each once and in order, and those in red too.
fn shows(
    alloc: Global,
    scene: &Scene,
    layout: &Layout,
    shapes: &[Shape],
) -> Result<bool, AllocError>
    ensures shown { IfOk result (λ yes. IsTrue yes
        → AreShown (places_shown layout.now) (scene_parts scene.now) (map outline_of shapes.now)) }
    ensures red { IfOk result (λ yes. IsTrue yes
        → AreShown (places_shown layout.now) (red_parts scene.now) (map red_outline shapes.now)) }
{
    let parts = parts_of(alloc, scene)?;
    let red = red_parts(alloc, scene)?;
    let reds = reds_of(alloc, shapes)?;
    Ok(are_shown(layout, &parts, shapes) && are_shown(layout, &red, &reds))
}

/// The drawing of a scene, where it shows that.
///
/// An `Err` is `Misdrawn` where it doesn't, or says that memory was refused.
fn drawn(alloc: Global, scene: &Scene) -> Result<Drawing, PictureError>
    ensures drawing { IfOk result (λ drawing. IsDrawingOf scene.now drawing) }
    ensures many { IsErrOf result PictureError.TooManyCalls → ⊥ }
    ensures disorder { IsErrOf result PictureError.Disorderly → ⊥ }
{
    let (drawing, layout) = draw(alloc, scene)?;
    if drawing.title.as_slice() != scene.title.as_slice()
        || !layout.is_apart()
        || !shows(alloc, scene, &layout, &drawing.shapes)?
        || !are_in_sight(&drawing.shapes)
        || !are_within(drawing.width, drawing.height, &drawing.shapes)
    {
        return Err(PictureError::Misdrawn);
    }
    Ok(drawing)
}

/// The picture of a scene, as the text of an SVG.
///
/// An `Err` is `TooManyCalls` of more than 400 calls, `Disorderly` where a call has no lane or where moments are out of
/// order, `Misdrawn` where the drawing doesn't show the scene, of which no scene is known, or `Memory`.
pub fn svg_of_scene(alloc: Global, scene: &Scene) -> Result<Vec<u8>, PictureError>
    ensures picture { IfOk result (λ svg. IsPictureOf scene.now svg.items) }
    ensures in_order { IfOk result (λ _. IsInOrder scene.now) }
    ensures disorder { IsErrOf result PictureError.Disorderly → ¬ (IsInOrder scene.now) }
    ensures many { IsErrOf result PictureError.TooManyCalls → 400 < length scene.now.bars.items }
    ensures few { IfOk result (λ _. length scene.now.bars.items ≤ 400) }
{
    if scene.bars.len() > MOST {
        return Err(PictureError::TooManyCalls);
    }
    if !is_orderly(scene) {
        return Err(PictureError::Disorderly);
    }
    let drawing = drawn(alloc, scene)?;
    Ok(svg_of(alloc, &drawing)?)
}

/// A page that shows the picture of a scene, light or dark as the reader's screen is. The errors are those of
/// `svg_of_scene`.
pub fn page_of_scene(alloc: Global, scene: &Scene) -> Result<Vec<u8>, PictureError>
    ensures page { IfOk result (λ page. IsPageOf scene.now page.items) }
    ensures in_order { IfOk result (λ _. IsInOrder scene.now) }
    ensures disorder { IsErrOf result PictureError.Disorderly → ¬ (IsInOrder scene.now) }
    ensures many { IsErrOf result PictureError.TooManyCalls → 400 < length scene.now.bars.items }
    ensures few { IfOk result (λ _. length scene.now.bars.items ≤ 400) }
{
    let svg = svg_of_scene(alloc, scene)?;
    let mut page = Vec::from_slice(alloc, HEAD.as_bytes())?;
    page.extend_from_slice(&svg)?;
    page.extend_from_slice(FOOT.as_bytes())?;
    Ok(page)
}
