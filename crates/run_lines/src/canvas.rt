//! Rows of letters, upon which strokes are put one after the other.

ghost use Rattle.std.specs.Prelude.{◌≡◌, ◌<◌, ℕ, IfOk, IfSome, length, map, slice_index};
ghost use Rattle.run_lines.specs.Canvas.{is_in_row, letter_in, letter_over, letter_seen, outline_of, right_of, row_of};
ghost use Rattle.run_lines.specs.Canvas.{rows_of, width_of};

use signs::{Look, Seen, Span, holds};
use std::alloc::{AllocError, Global};

/// What a stroke has.
#[derive(Drop)]
pub enum Ink {
    /// A text.
    Text(Vec<u8>),
    /// A bar that is so wide: a `[`, and then `-`.
    Bar(u64),
    /// A `|`.
    Line,
    /// A `|` behind what stands there: it shows only through blanks and through the `-` of bars.
    Arrow,
}

impl Ink {
    /// How wide it is.
    fn width(&self) -> u64
        ensures { result ≡ width_of self.now }
    {
        match self {
            Ink::Text(text) => text.len() as u64,
            Ink::Bar(width) => *width,
            Ink::Line | Ink::Arrow => 1,
        }
    }

    /// A letter, by its place from 0.
    fn letter(&self, place: usize) -> u8
        requires { place < width_of self.now }
        ensures { result ≡ letter_in self.now place }
    {
        match self {
            Ink::Text(text) => text[place],
            Ink::Bar(_) => { if place == 0 { b'[' } else { b'-' } }
            Ink::Line | Ink::Arrow => b'|',
        }
    }

    /// The letter that is seen where one meets one that stands there.
    fn seen(&self, under: u8, letter: u8) -> u8
        ensures { result ≡ letter_seen self.now under letter }
    {
        match self {
            Ink::Arrow if under != b' ' && under != b'-' => under,
            _ => letter,
        }
    }
}

/// What stands in some rows from a column on.
#[derive(Drop)]
pub struct Stroke {
    /// The first row.
    pub top: u64,
    /// The row after the last one.
    pub bottom: u64,
    /// The column of its first letter.
    pub column: u64,
    /// What it has.
    pub ink: Ink,
}

impl Stroke {
    /// Whether it stands in a row.
    fn is_in_row(&self, row: u64) -> bool
        ensures { result ≡ is_in_row row self.now }
    {
        self.top <= row && row < self.bottom
    }

    /// Marks the left edge of each column that a text goes across, with letters on both sides.
    pub fn mark_across(&self, crossed: &mut [bool]) {
        if let Ink::Text(text) = &self.ink {
            let from = (self.column as usize).min(crossed.len());
            let count = text.len().min(crossed.len() - from);
            for place in 1..count {
                crossed[from + place] = true;
            }
        }
    }

    /// Puts its letters upon those of a row, as far as they go.
    fn put(&self, letters: &mut [u8])
        ensures { (column : ℕ) → column < length letters.old
            → slice_index letters.new column ≡ letter_over self.now column (slice_index letters.old column) }
    {
        let from = (self.column as usize).min(letters.len());
        let count = (self.ink.width() as usize).min(letters.len() - from);
        for place in 0..count {
            let letter = self.ink.letter(place);
            letters[from + place] = self.ink.seen(letters[from + place], letter);
        }
    }

    /// The column after it; after its first letter for a text.
    fn right(&self) -> Option<u64>
        ensures { IfSome result (λ right. right ≡ right_of self.now) }
    {
        match &self.ink {
            Ink::Bar(width) => self.column.checked_add(*width),
            Ink::Text(_) | Ink::Line | Ink::Arrow => self.column.checked_add(1),
        }
    }
}

impl Seen for Stroke {
    ghost use Rattle.run_lines.specs.Canvas.{outline_of};

    ghost seen = { λ stroke. outline_of stroke };

    fn look(&self) -> Option<Look> {
        match &self.ink {
            Ink::Text(_) => Some(Look::Text),
            Ink::Bar(_) => Some(Look::Bar),
            Ink::Line => Some(Look::End),
            Ink::Arrow => Some(Look::Arrow),
        }
    }

    fn says(&self, text: &[u8]) -> bool {
        match &self.ink {
            Ink::Text(said) => said.as_slice() == text,
            Ink::Bar(_) | Ink::Line | Ink::Arrow => text.is_empty(),
        }
    }

    fn reach(&self) -> Option<(u64, u64)> {
        Some((self.column, self.right()?))
    }

    fn is_within(&self, wide: Span, high: Span) -> bool {
        match self.right() {
            Some(right) => {
                holds(wide, high, self.column, self.top) && holds(wide, high, right, self.bottom)
            }
            None => false,
        }
    }
}

/// A row of so many letters, painted by strokes one after the other.
fn row_of(alloc: Global, strokes: &[Stroke], width: usize, row: u64) -> Result<Vec<u8>, AllocError>
    ensures { IfOk result (λ letters. letters.items ≡ row_of strokes.now width row) }
{
    let mut letters = vec![in alloc; b' '; width]?;
    for stroke in strokes {
        if stroke.is_in_row(row) {
            stroke.put(&mut letters);
        }
    }
    Ok(letters)
}

/// So many rows of so many letters, painted by strokes one after the other.
pub fn rows_of(
    alloc: Global,
    strokes: &[Stroke],
    width: usize,
    count: u64,
) -> Result<Vec<Vec<u8>>, AllocError>
    ensures { IfOk result (λ rows. map (λ row. row.items) rows.items
        ≡ rows_of strokes.now width count) }
{
    let mut rows = Vec::new(alloc);
    for row in 0..count {
        rows.push(row_of(alloc, strokes, width, row)?)?;
    }
    Ok(rows)
}
