//! The whole text.

ghost use Rattle.std.specs.Prelude.{◌≡◌, ◌++◌, IfOk, IsErrOf, IsTrue, OnOk, map, take};
ghost use Rattle.run_lines.specs.Vocabulary.{flat_map, meaning, places_shown, Fault, RangeFault, marks_shown};
ghost use Rattle.run_lines.specs.Lines.{AreSide, HasText, IsTextOf, ShowsRows, block_text, bottom_row, part_of};
ghost use Rattle.run_lines.specs.Lines.{row_name, row_text, rows_text_of, trimmed};

use crate::canvas::{Stroke, rows_of};
use crate::parts::{layered, parts_of_run};
use crate::strokes::{ABOVE, LANE, push_numbers, push_signs};
use crate::texts::{
    legend_of, push_eras, push_headings, push_line, push_notes, push_padded, push_wrapped,
};
use run_layout::{
    PictureFault, Scale, Side, Stretch, any_unchanged, axis_of, kinds_of, lanes_between, name_of,
    signs_of, title_of,
};
use run_replay::Marks;
use signs::{Layout, Part, are_shown};
use std::alloc::{AllocError, Global};
use uni_script::PlacedRemark;

/// How wide the names of lanes at the left are.
const NAMES: usize = 4;

/// How many columns a block has at most, however wide the terminal is.
const MOST_COLUMNS: u64 = 1_000;

/// Each letter is one column wide, and the mark of a refusal takes two.
const NARROW: Scale = Scale {
    start: 0,
    step: 1,
    letter: 1,
    mark: 2,
    margin: 1,
    top: ABOVE,
    lane: LANE,
};

/// A block of columns.
#[derive(Clone, Copy)]
pub struct Block {
    /// Its first column.
    pub from: usize,
    /// The column after its last one.
    pub to: usize,
    /// How many lanes have their names before the rows.
    pub named: u64,
    /// How many lanes are drawn.
    pub lanes: u8,
}

/// What is drawn of a run in rows, and not yet tried, with what tells where its marks stand.
#[derive(Drop)]
pub struct Sketch {
    /// The strokes, one upon the other.
    pub strokes: Vec<Stroke>,
    /// Where the events and the processes stand.
    pub layout: Layout,
    /// The blocks in which the rows are told.
    pub blocks: Vec<Block>,
}

/// What stands before a row: the name of its process, before the row of its bars, where so many lanes have names there.
fn row_name(alloc: Global, named: u64, row: u64) -> Result<Vec<u8>, AllocError>
    ensures { IfOk result (λ name. name.items ≡ row_name named row) }
{
    if row >= ABOVE && (row - ABOVE) % LANE == 1 && (row - ABOVE) / LANE < named {
        return name_of(alloc, (row - ABOVE) / LANE);
    }
    Ok(Vec::new(alloc))
}

/// A text without the blanks at its end.
fn trimmed(text: &[u8]) -> &[u8]
    ensures { result.now ≡ trimmed text.now }
{
    let mut end = text.len();
    while end > 0 && text[end - 1] == b' ' {
        end -= 1;
    }
    &text[..end]
}

/// Adds a row behind the name of its lane, without the blanks at its end; above the lanes a blank one is left out.
#[tactic(auto, unfolding(crate::specs::Lines::row_text))]
fn push_row(
    alloc: Global,
    named: u64,
    row: u64,
    letters: &[u8],
    text: &mut Vec<u8>,
) -> Result<(), AllocError>
    ensures { OnOk result (text.new.items ≡ text.old.items ++ row_text named row letters.now) }
{
    let mut line = Vec::new(alloc);
    push_padded(alloc, &row_name(alloc, named, row)?, NAMES, &mut line)?;
    line.extend_from_slice(letters)?;
    let line = trimmed(&line);
    if row < ABOVE && line.is_empty() {
        return Ok(());
    }
    push_line(line, text)
}

/// Of the left edges of so many columns, which a text goes across.
fn edges_crossed(alloc: Global, strokes: &[Stroke], count: usize) -> Result<Vec<bool>, AllocError> {
    let mut crossed = vec![in alloc; false; count]?;
    for stroke in strokes {
        stroke.mark_across(&mut crossed);
    }
    Ok(crossed)
}

/// How wide a block is that begins at a column: as wide as it can be behind the names, so that its end cuts no label.
fn block_width(columns: u64, crossed: &[bool], from: usize) -> usize {
    let most = (columns.min(MOST_COLUMNS) as usize)
        .saturating_sub(NAMES)
        .max(1);
    let whole = |width: &usize| crossed.get(from.saturating_add(*width)) != Some(&true);
    (1..=most).rev().find(whole).unwrap_or(most)
}

/// The blocks of the rows.
fn blocks_of(
    alloc: Global,
    columns: u64,
    width: u64,
    stretches: &[Stretch],
    strokes: &[Stroke],
) -> Result<Vec<Block>, AllocError> {
    let width = width as usize;
    let crossed = edges_crossed(alloc, strokes, width.saturating_add(MOST_COLUMNS as usize))?;
    let mut blocks = Vec::new(alloc);
    let mut from = 0;
    for _ in 0..width {
        if from >= width {
            return Ok(blocks);
        }
        let to = from.saturating_add(block_width(columns, &crossed, from));
        let start = from as u64;
        let named = lanes_between(stretches, start, start.saturating_add(1));
        let lanes = lanes_between(stretches, start, to as u64) as u8;
        blocks.push(Block {
            from,
            to,
            named,
            lanes,
        })?;
        from = to;
    }
    Ok(blocks)
}

/// Draws the marks of a run in rows, told in blocks of at most so many columns, with what was told beside its events.
/// An `Err` says that memory was refused.
pub fn sketch_of(
    alloc: Global,
    columns: u64,
    marks: &Marks,
    remarks: &[PlacedRemark],
) -> Result<Sketch, AllocError> {
    let axis = axis_of(alloc, marks, remarks, NARROW)?;
    let signs = layered(alloc, signs_of(alloc, marks, remarks)?)?;
    let mut strokes = Vec::new(alloc);
    push_signs(alloc, &axis.layout, signs, &mut strokes)?;
    push_numbers(alloc, remarks, &axis, &mut strokes)?;
    let stretches = axis.stretches(alloc, &marks.eras, 0, Side::Left)?;
    let layout = axis.layout;
    let blocks = blocks_of(alloc, columns, layout.width, &stretches, &strokes)?;
    Ok(Sketch {
        strokes,
        layout,
        blocks,
    })
}

/// Whether blocks stand side by side, from a column to another.
fn are_side(from: u64, to: u64, blocks: &[Block]) -> bool
    ensures { IsTrue result → AreSide from to blocks.now }
{
    let mut end = from;
    for block in blocks {
        if block.from as u64 != end {
            return false;
        }
        end = block.to as u64;
    }
    to <= end
}

/// Whether strokes are these, and blocks show all columns.
fn shows(parts: &[Part], sketch: &Sketch) -> bool
    ensures { IsTrue result → ShowsRows (places_shown sketch.now.layout) (map meaning parts.now)
        sketch.now.strokes.items sketch.now.blocks.items }
{
    sketch.layout.is_apart()
        && are_shown(&sketch.layout, parts, &sketch.strokes)
        && are_side(0, sketch.layout.width, &sketch.blocks)
}

/// The letters of a row in a block.
#[tactic(auto, using(std::proofs::lemmas::List::drop_min, std::proofs::lemmas::List::take_min))]
fn part_of(letters: &[u8], block: Block) -> &[u8]
    ensures { result.now ≡ part_of block letters.now }
{
    let rest = &letters[block.from.min(letters.len())..];
    let width = block.to.saturating_sub(block.from).min(rest.len());
    &rest[..width]
}

/// The rows above the lanes and those of so many lanes.
#[tactic(auto, using(std::proofs::lemmas::List::take_min))]
fn rows_drawn(rows: &[Vec<u8>], lanes: u8) -> &[Vec<u8>]
    ensures { result.now ≡ take (bottom_row lanes) rows.now }
{
    let count = ((ABOVE + u64::from(lanes) * LANE) as usize).min(rows.len());
    &rows[..count]
}

/// Adds the rows of a block, with a blank line before them.
fn push_block(
    alloc: Global,
    rows: &[Vec<u8>],
    block: Block,
    text: &mut Vec<u8>,
) -> Result<(), AllocError>
    ensures { OnOk result (text.new.items ≡ text.old.items ++ block_text (map (λ row. row.items) rows.now) block) }
{
    text.push(b'\n')?;
    let drawn = rows_drawn(rows, block.lanes);
    for (row, letters) in drawn.iter().enumerate() {
        let part = part_of(letters, block);
        push_row(alloc, block.named, row as u64, part, text)?;
    }
    Ok(())
}

/// Adds the rows of blocks.
fn push_blocks(
    alloc: Global,
    rows: &[Vec<u8>],
    blocks: &[Block],
    text: &mut Vec<u8>,
) -> Result<(), AllocError>
    ensures { OnOk result (text.new.items
        ≡ text.old.items ++ flat_map (block_text (map (λ row. row.items) rows.now)) blocks.now) }
{
    for block in blocks {
        push_block(alloc, rows, *block, text)?;
    }
    Ok(())
}

/// The text of a sketch: the title and the headings, its rows and a blank line, the notes, the eras and the legend.
fn text_of(
    alloc: Global,
    columns: u64,
    marks: &Marks,
    remarks: &[PlacedRemark],
    sketch: &Sketch,
) -> Result<Vec<u8>, AllocError>
    ensures { IfOk result (λ text. HasText columns (marks_shown marks.now) remarks.now
        (rows_text_of (places_shown sketch.now.layout) sketch.now.strokes.items
        sketch.now.blocks.items) text.items) }
{
    let mut text = Vec::new(alloc);
    push_wrapped(alloc, columns, &title_of(alloc, marks)?, &mut text)?;
    push_headings(alloc, columns, remarks, &mut text)?;
    let width = sketch.layout.width as usize;
    let rows = rows_of(alloc, &sketch.strokes, width, sketch.layout.height)?;
    push_blocks(alloc, &rows, &sketch.blocks, &mut text)?;
    text.push(b'\n')?;
    push_notes(alloc, columns, remarks, &mut text)?;
    push_eras(alloc, columns, &marks.dots, &marks.eras, &mut text)?;
    let kinds = kinds_of(alloc, &marks.steps)?;
    let legend = legend_of(alloc, columns, &kinds, any_unchanged(&marks.steps))?;
    text.extend_from_slice(&legend)?;
    Ok(text)
}

/// The text of a sketch for a terminal of so many columns, where it shows the marks of a run with what was told beside
/// its events. An `Err` is `Misdrawn` where it does not, or says that memory was refused.
pub fn tried(
    alloc: Global,
    columns: u64,
    marks: &Marks,
    remarks: &[PlacedRemark],
    sketch: &Sketch,
) -> Result<Vec<u8>, PictureFault>
    ensures text { IfOk result (λ text. IsTextOf columns (marks_shown marks.now) remarks.now text.items) }
    ensures range { (e : RangeFault) → IsErrOf result (PictureFault.Range e) → ⊥ }
    ensures memory { (e : Fault) → IsErrOf result (PictureFault.Script e) → e ≡ Fault.Memory }
{
    let parts = parts_of_run(alloc, marks, remarks)?;
    if !shows(&parts, sketch) {
        return Err(PictureFault::Misdrawn);
    }
    Ok(text_of(alloc, columns, marks, remarks, sketch)?)
}
