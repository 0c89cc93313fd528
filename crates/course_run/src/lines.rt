//! The lines of a text, and the calls that the lines of a log name.

ghost use Rattle.std.specs.Prelude.{◌≡◌, IfOk};
ghost use Rattle.ready_objects.specs.Words.{bytes_of, words_of_text};
ghost use Rattle.uni_script.specs.Grammar.{is_note};
ghost use Rattle.course_run.specs.Goals.{comes_before, is_less, is_second, lines_in, names_call, place_from, said_in};
ghost use Rattle.course_run.specs.Goals.{patterns_in, without_end};

use std::alloc::{AllocError, Global};
use uni_script::{is_note, words_of};

/// The lines of a text, cut at each byte 10.
///
/// An `Err` says that memory was refused.
pub(crate) fn lines_in(alloc: Global, text: &[u8]) -> Result<Vec<&[u8]>, AllocError>
    ensures { IfOk result (λ lines. bytes_of lines.items ≡ lines_in text.now) }
{
    text.split(|byte| *byte == b'\n').collect(alloc)
}

/// The patterns in a text, cut at each bar.
///
/// An `Err` says that memory was refused.
pub(crate) fn patterns_in(alloc: Global, text: &[u8]) -> Result<Vec<&[u8]>, AllocError>
    ensures { IfOk result (λ patterns. bytes_of patterns.items ≡ patterns_in text.now) }
{
    text.split(|byte| *byte == b'|').collect(alloc)
}

/// A line of a goal without the blanks at its end.
pub(crate) fn without_end(line: &[u8]) -> &[u8]
    ensures { result.now ≡ without_end line.now }
{
    line.trim_ascii_end()
}

/// How many of some lines are no notes.
pub(crate) fn said_in(lines: &[&[u8]]) -> u64
    ensures { result ≡ said_in (bytes_of lines.now) }
{
    let mut said = 0;
    for line in lines {
        if !is_note(line) {
            said += 1;
        }
    }
    said
}

/// Tells whether the second of some words is this one.
fn is_second(word: &[u8], words: &[&[u8]]) -> bool
    ensures { result ≡ is_second word.now (bytes_of words.now) }
{
    match words {
        [_, second, ..] => *second == word,
        _ => false,
    }
}

/// Tells whether a line is one of a log, and names this call.
///
/// An `Err` says that memory was refused.
fn names_call(alloc: Global, call: &[u8], line: &[u8]) -> Result<bool, AllocError>
    ensures { IfOk result (λ names. names ≡ names_call call.now line.now) }
{
    match line {
        [first, ..] if first.is_ascii_digit() => Ok(is_second(
            call,
            words_of(alloc, line)?.as_slice(),
        )),
        _ => Ok(false),
    }
}

/// The place, from 0, of the first line of a log that names this call.
///
/// An `Err` says that memory was refused.
fn place_of(alloc: Global, call: &[u8], lines: &[&[u8]]) -> Result<Option<u64>, AllocError>
    ensures { IfOk result (λ place. place ≡ place_from 0 call.now (bytes_of lines.now)) }
{
    let mut place = 0;
    for line in lines {
        if names_call(alloc, call, line)? {
            return Ok(Some(place));
        }
        place += 1;
    }
    Ok(None)
}

/// Tells whether the lines of logs name the first of two calls, and the second one, which they name later.
///
/// An `Err` says that memory was refused.
pub(crate) fn comes_before(
    alloc: Global,
    first: &[u8],
    second: &[u8],
    lines: &[&[u8]],
) -> Result<bool, AllocError>
    ensures { IfOk result (λ before. before ≡ comes_before first.now second.now (bytes_of lines.now)) }
{
    let earlier = place_of(alloc, first, lines)?;
    let later = place_of(alloc, second, lines)?;
    Ok(is_less(earlier, later))
}

/// Tells whether both places are there, and the first is less.
fn is_less(first: Option<u64>, second: Option<u64>) -> bool
    ensures { result ≡ is_less first second }
{
    match (first, second) {
        (Some(first), Some(second)) => first < second,
        _ => false,
    }
}
