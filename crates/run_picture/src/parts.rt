//! The shapes that a drawing is to have, from the lowest on.

ghost use Rattle.std.specs.Prelude.{◌≡◌, ◌∷◌, [], ◌+◌, ◌<◌, ◌^◌, IfOk, OnOk, map};
ghost use Rattle.run_picture.specs.Vocabulary.{Adds, flat_map, meaning, cell_shown, era_shown, sign_shown};
ghost use Rattle.run_picture.specs.Parts.{anchor_lines, box_parts, cell_lines, cell_parts, era_parts, eras_from};
ghost use Rattle.run_picture.specs.Parts.{anywhere, era_name, is_next, parts_of, step_look};

use run_layout::{
    Mark, Sign, cell_name, cell_state, cell_words, letter_of, push_part, push_part_in,
};
use run_replay::{CellBox, Dot, Era};
use signs::{Edge, Look, Part};
use std::alloc::{AllocError, Global};

/// How the mark of a step looks.
fn step_look(changed: bool) -> Look
    ensures { result ≡ step_look changed }
{
    if changed { Look::Step } else { Look::Pale }
}

/// Adds the shapes that a sign is to have.
fn push_parts(alloc: Global, sign: &Sign, parts: &mut Vec<Part>) -> Result<(), AllocError>
    ensures { OnOk result (Adds meaning parts.old parts.new (parts_of (sign_shown sign.now))) }
{
    match sign.mark {
        Mark::Name | Mark::Label | Mark::Counts => {
            push_part(alloc, sign, Look::Text, &sign.text, parts)
        }
        Mark::End => {
            push_part(alloc, sign, Look::End, &[], parts)?;
            push_part(alloc, sign, Look::Text, &sign.text, parts)
        }
        Mark::Bar => push_part(alloc, sign, Look::Bar, &[], parts),
        Mark::Open => {
            push_part(alloc, sign, Look::Edge, &[], parts)?;
            push_part(alloc, sign, Look::Edge, &[], parts)?;
            push_part(alloc, sign, Look::Edge, &[], parts)
        }
        Mark::Down => {
            push_part(alloc, sign, Look::Arrow, &[], parts)?;
            let lower = sign.lanes.map(|ends| (ends.1, ends.1));
            push_part_in(alloc, sign, lower, Look::Tip, &[], parts)
        }
        Mark::Up => {
            push_part(alloc, sign, Look::Arrow, &[], parts)?;
            let upper = sign.lanes.map(|ends| (ends.0, ends.0));
            push_part_in(alloc, sign, upper, Look::Tip, &[], parts)
        }
        Mark::Step(kind, changed) => {
            push_part(alloc, sign, step_look(changed), &sign.text, parts)?;
            push_part(alloc, sign, Look::Text, &[letter_of(kind)], parts)
        }
        Mark::Dot => push_part(alloc, sign, Look::Dot, &[], parts),
        Mark::Refusal => {
            push_part(alloc, sign, Look::Cross, &[], parts)?;
            push_part(alloc, sign, Look::Cross, &[], parts)?;
            push_part(alloc, sign, Look::Text, &sign.text, parts)
        }
    }
}

/// The shapes that signs are to have.
pub fn parts_of(alloc: Global, signs: &[Sign]) -> Result<Vec<Part>, AllocError>
    ensures { IfOk result (λ parts. map meaning parts.items ≡ flat_map parts_of (map sign_shown signs.now)) }
{
    let mut parts = Vec::new(alloc);
    for sign in signs {
        push_parts(alloc, sign, &mut parts)?;
    }
    Ok(parts)
}

/// Adds a shape that stands in no column.
fn push_anywhere(look: Look, text: Vec<u8>, parts: &mut Vec<Part>) -> Result<(), AllocError>
    ensures { OnOk result (Adds meaning parts.old parts.new (anywhere look text.items ∷ [])) }
{
    parts.push(Part {
        look,
        columns: (Edge::Start, Edge::End),
        lanes: None,
        text,
    })?;
    Ok(())
}

/// Adds a box with lines of text.
fn push_box(alloc: Global, lines: Vec<Vec<u8>>, parts: &mut Vec<Part>) -> Result<(), AllocError>
    ensures { OnOk result (Adds meaning parts.old parts.new (box_parts (map (λ line. line.items) lines.items))) }
{
    push_anywhere(Look::Bar, Vec::new(alloc), parts)?;
    for line in lines {
        push_anywhere(Look::Text, line, parts)?;
    }
    Ok(())
}

/// The lines in the box of a cell, by the dots of the run.
pub fn cell_lines(alloc: Global, dots: &[Dot], cell: &CellBox) -> Result<Vec<Vec<u8>>, AllocError>
    ensures { IfOk result (λ lines. map (λ line. line.items) lines.items
        ≡ cell_lines dots.now (cell_shown cell.now)) }
{
    let mut lines = Vec::new(alloc);
    lines.push(cell_name(alloc, dots, cell)?)?;
    lines.push(cell_words(alloc, cell)?)?;
    if let Some(state) = cell_state(alloc, cell)? {
        lines.push(state)?;
    }
    Ok(lines)
}

/// The lines in the box of an anchor.
pub fn anchor_lines(alloc: Global, anchor: u64) -> Result<Vec<Vec<u8>>, AllocError>
    ensures { IfOk result (λ lines. map (λ line. line.items) lines.items ≡ anchor_lines anchor) }
{
    let mut lines = Vec::new(alloc);
    lines.push(format!(in alloc; "{anchor}:")?.into_bytes())?;
    lines.push(b"anchor".to_vec(alloc)?)?;
    Ok(lines)
}

/// The name of an era, by its place from 0.
pub fn era_name(alloc: Global, place: u64) -> Result<Vec<u8>, AllocError>
    requires { place + 1 < 2 ^ 64 }
    ensures { IfOk result (λ name. name.items ≡ era_name place) }
{
    Ok(format!(in alloc; "era {}", place + 1)?.into_bytes())
}

/// Whether a cell of this number is the next one in the list after that of another.
pub fn is_next(before: u64, number: u64) -> bool
    ensures { result ≡ is_next before number }
{
    number > before && number - before == 1
}

/// Adds a cell, after the box of this number.
fn push_cell(
    alloc: Global,
    dots: &[Dot],
    before: u64,
    cell: &CellBox,
    parts: &mut Vec<Part>,
) -> Result<(), AllocError>
    ensures { OnOk result (Adds meaning parts.old parts.new (cell_parts dots.now before (cell_shown cell.now))) }
{
    push_anywhere(Look::Arrow, Vec::new(alloc), parts)?;
    push_anywhere(Look::Tip, Vec::new(alloc), parts)?;
    if !is_next(before, cell.number) {
        push_anywhere(Look::Text, b"..".to_vec(alloc)?, parts)?;
    }
    push_box(alloc, cell_lines(alloc, dots, cell)?, parts)
}

/// Adds an era, by its place from 0.
fn push_era(
    alloc: Global,
    dots: &[Dot],
    place: u64,
    era: &Era,
    parts: &mut Vec<Part>,
) -> Result<(), AllocError>
    requires { place + 1 < 2 ^ 64 }
    ensures { OnOk result (Adds meaning parts.old parts.new (era_parts dots.now place (era_shown era.now))) }
{
    push_anywhere(Look::Text, era_name(alloc, place)?, parts)?;
    push_box(alloc, anchor_lines(alloc, era.anchor)?, parts)?;
    let mut before = era.anchor;
    for cell in &era.cells {
        push_cell(alloc, dots, before, cell, parts)?;
        before = cell.number;
    }
    Ok(())
}

/// The shapes that the boxes of cells are to have.
pub fn boxes_of(alloc: Global, dots: &[Dot], eras: &[Era]) -> Result<Vec<Part>, AllocError>
    ensures { IfOk result (λ parts. map meaning parts.items ≡ eras_from dots.now 0 (map era_shown eras.now)) }
{
    let mut parts = Vec::new(alloc);
    for (place, era) in eras.iter().enumerate() {
        push_era(alloc, dots, place as u64, era, &mut parts)?;
    }
    Ok(parts)
}
