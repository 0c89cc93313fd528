//! The shapes that a drawing is to have.

ghost use Rattle.std.specs.Prelude.{◌≡◌, ◌++◌, ◌∷◌, [], IfOk, OnOk, map};
ghost use Rattle.std.specs.List.{flat_map};
ghost use Rattle.signs.specs.Signs.{meaning};
ghost use Rattle.history_picture.specs.Parts.{bar_parts, box_parts, dot_parts, line_part};
ghost use Rattle.history_picture.specs.Parts.{names_from, part, red_parts, scene_parts};

use crate::scene::{Bar, Scene};
use signs::{Edge, Look, Part};
use std::alloc::{AllocError, Global};

/// A shape in a lane.
fn part(look: Look, columns: (Edge, Edge), lane: u64, text: Vec<u8>) -> Part
    ensures { meaning result ≡ part look columns lane text.items }
{
    Part {
        look,
        columns,
        lanes: Some((lane, lane)),
        text,
    }
}

/// Adds a text above or below all lanes.
fn push_line(alloc: Global, text: &[u8], parts: &mut Vec<Part>) -> Result<(), AllocError>
    ensures { OnOk result (map meaning parts.new.items ≡ map meaning parts.old.items ++ line_part text.now ∷ []) }
{
    parts.push(Part {
        look: Look::Text,
        columns: (Edge::Start, Edge::End),
        lanes: None,
        text: Vec::from_slice(alloc, text)?,
    })?;
    Ok(())
}

/// Adds the bar of a call, or the edges of one that doesn't return.
fn push_box(
    alloc: Global,
    lane: u64,
    begin: u64,
    end: Option<u64>,
    parts: &mut Vec<Part>,
) -> Result<(), AllocError>
    ensures { OnOk result (map meaning parts.new.items ≡ map meaning parts.old.items ++ box_parts lane begin end) }
{
    match end {
        Some(end) => {
            let columns = (Edge::Before(begin), Edge::After(end));
            parts.push(part(Look::Bar, columns, lane, Vec::new(alloc)))?;
        }
        None => {
            let columns = (Edge::Before(begin), Edge::End);
            parts.push(part(Look::Edge, columns, lane, Vec::new(alloc)))?;
            parts.push(part(Look::Edge, columns, lane, Vec::new(alloc)))?;
            parts.push(part(Look::Edge, columns, lane, Vec::new(alloc)))?;
        }
    }
    Ok(())
}

/// Adds a dot where a call takes effect.
fn push_dot(
    alloc: Global,
    lane: u64,
    point: Option<u64>,
    parts: &mut Vec<Part>,
) -> Result<(), AllocError>
    ensures { OnOk result (map meaning parts.new.items ≡ map meaning parts.old.items ++ dot_parts lane point) }
{
    if let Some(point) = point {
        let columns = (Edge::Before(point), Edge::After(point));
        parts.push(part(Look::Dot, columns, lane, Vec::new(alloc)))?;
    }
    Ok(())
}

/// Adds what is drawn of a call.
fn push_bar(alloc: Global, bar: &Bar, parts: &mut Vec<Part>) -> Result<(), AllocError>
    ensures { OnOk result (map meaning parts.new.items ≡ map meaning parts.old.items ++ bar_parts bar.now) }
{
    push_box(alloc, bar.lane, bar.begin, bar.end, parts)?;
    let columns = (Edge::Before(bar.begin), Edge::After(bar.begin));
    let text = Vec::from_slice(alloc, &bar.text)?;
    parts.push(part(Look::Text, columns, bar.lane, text))?;
    push_dot(alloc, bar.lane, bar.point, parts)
}

/// Adds what is drawn of calls.
fn push_bars(alloc: Global, bars: &[Bar], parts: &mut Vec<Part>) -> Result<(), AllocError>
    ensures { OnOk result (map meaning parts.new.items ≡ map meaning parts.old.items ++ flat_map bar_parts bars.now) }
{
    for bar in bars {
        push_bar(alloc, bar, parts)?;
    }
    Ok(())
}

/// Adds the names of processes.
fn push_names(alloc: Global, names: &[Vec<u8>], parts: &mut Vec<Part>) -> Result<(), AllocError>
    ensures { OnOk result (map meaning parts.new.items ≡ map meaning parts.old.items ++ names_from 0 names.now) }
{
    let mut lane = 0u64;
    for name in names {
        let columns = (Edge::Start, Edge::Before(0));
        parts.push(part(Look::Text, columns, lane, Vec::from_slice(alloc, name)?))?;
        lane += 1;
    }
    Ok(())
}

/// Adds texts below all lanes.
fn push_notes(alloc: Global, notes: &[Vec<u8>], parts: &mut Vec<Part>) -> Result<(), AllocError>
    ensures { OnOk result (map meaning parts.new.items
        ≡ map meaning parts.old.items ++ map (λ note. line_part note.items) notes.now) }
{
    for note in notes {
        push_line(alloc, note, parts)?;
    }
    Ok(())
}

/// The shapes that the drawing of a scene is to have.
pub(crate) fn parts_of(alloc: Global, scene: &Scene) -> Result<Vec<Part>, AllocError>
    ensures { IfOk result (λ parts. map meaning parts.items ≡ scene_parts scene.now) }
{
    let mut parts = Vec::new(alloc);
    push_line(alloc, &scene.title, &mut parts)?;
    push_names(alloc, &scene.names, &mut parts)?;
    push_bars(alloc, &scene.bars, &mut parts)?;
    push_notes(alloc, &scene.notes, &mut parts)?;
    Ok(parts)
}

/// The shapes that it is to have in red.
pub(crate) fn red_parts(alloc: Global, scene: &Scene) -> Result<Vec<Part>, AllocError>
    ensures { IfOk result (λ parts. map meaning parts.items ≡ red_parts scene.now) }
{
    let mut parts = Vec::new(alloc);
    if let Some(place) = scene.bad {
        if let Some(bar) = scene.bars.get(place as usize) {
            push_box(alloc, bar.lane, bar.begin, bar.end, &mut parts)?;
        }
    }
    Ok(parts)
}
