//! The lines of a text, and the words of a line.

ghost use Rattle.std.specs.Prelude.{◌≡◌, ◌==◌, IfOk};
ghost use Rattle.std.specs.List.{slice_split};
ghost use Rattle.ready_objects.specs.Words.{bytes_of, words_of_text};
ghost use Rattle.history_text.specs.Own.{is_note, lines_of};

use crate::fault::{Reason, Spot};
use std::alloc::{AllocError, Global};

/// The parts of a text between bytes like this one.
///
/// An `Err` says that memory was refused.
fn parts_of(alloc: Global, text: &[u8], cut: u8) -> Result<Vec<&[u8]>, AllocError>
    ensures { IfOk result (λ parts. bytes_of parts.items ≡ slice_split (λ b. b == cut) text.now) }
{
    text.split(|byte| *byte == cut).collect(alloc)
}

/// The lines of a text, cut at each byte 10.
///
/// An `Err` says that memory was refused.
pub(crate) fn lines_of(alloc: Global, text: &[u8]) -> Result<Vec<&[u8]>, AllocError>
    ensures { IfOk result (λ lines. bytes_of lines.items ≡ lines_of text.now) }
{
    parts_of(alloc, text, b'\n')
}

/// Whether a line is a note: it is empty or begins with `#`.
pub(crate) fn is_note(line: &[u8]) -> bool
    ensures { result ≡ is_note line.now }
{
    match line {
        [] => true,
        [first, ..] => *first == b'#',
    }
}

/// The words of a line, cut at each space.
///
/// An `Err` says that memory was refused.
pub(crate) fn words_of(alloc: Global, line: &[u8]) -> Result<Vec<&[u8]>, AllocError>
    ensures { IfOk result (λ words. bytes_of words.items ≡ words_of_text line.now) }
{
    parts_of(alloc, line, b' ')
}

/// Where a word of a line begins, by the words before it; the end of the line, where it has no such word.
pub(crate) fn start_of(words: &[&[u8]], place: usize) -> usize {
    let mut start = 0usize;
    for (i, word) in words.iter().enumerate() {
        if i == place {
            return start;
        }
        start = start.saturating_add(word.len()).saturating_add(1);
    }
    start.saturating_sub(1)
}

/// What is wrong at a word of a line.
pub(crate) fn spot_at(words: &[&[u8]], place: usize, reason: Reason) -> Spot {
    Spot {
        start: start_of(words, place),
        reason,
    }
}

/// What is wrong with the bytes of a line; `None` where they are from 32 to 126.
pub(crate) fn bad_byte(line: &[u8]) -> Option<Spot> {
    for (start, byte) in line.iter().enumerate() {
        if *byte < 32 || *byte > 126 {
            let reason = match *byte {
                9 => Reason::Tab,
                13 => Reason::CarriageReturn,
                byte => Reason::BadByte(byte),
            };
            return Some(Spot { start, reason });
        }
    }
    None
}

/// What is wrong with the spaces between the words of a line; `None` where there is one between two.
pub(crate) fn bad_space(words: &[&[u8]]) -> Option<Spot> {
    let place = words.iter().position(|word| word.is_empty())?;
    let reason = if place == 0 {
        Reason::SpaceFirst
    } else if place.saturating_add(1) == words.len() {
        Reason::SpaceLast
    } else {
        Reason::TwoSpaces
    };
    Some(spot_at(words, place, reason))
}
