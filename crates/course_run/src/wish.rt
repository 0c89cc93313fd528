//! What a line of a goal asks for.

ghost use Rattle.std.specs.Prelude.{◌≡◌, IfOk};
ghost use Rattle.std.specs.Str.{bytes_eq};
ghost use Rattle.ready_objects.specs.Words.{bytes_of};
ghost use Rattle.course_run.specs.Goals.{asks_at_most, asks_no_refusals, asks_order, first_missing, is_at_most, is_met};
ghost use Rattle.course_run.specs.Goals.{is_met_by, is_note_or_met};

use crate::lines::{comes_before, patterns_in, said_in, without_end};
use crate::pattern::{come_in_order, has_like, has_step};
use ready_objects::Amount;
use std::alloc::{AllocError, Global};
use uni_script::{is_note, words_of};

/// Tells whether a word is this text.
fn is_text(word: &[u8], text: &str) -> bool
    ensures { result ≡ bytes_eq word.now text.now }
{
    word == text.as_bytes()
}

/// Tells whether some lines of a script, notes aside, are at most as many as a word says. No word but a number does.
fn is_at_most(script: &[&[u8]], word: &[u8]) -> bool
    ensures { result ≡ is_at_most (bytes_of script.now) word.now }
{
    match Amount::read(word) {
        Some(most) => said_in(script) <= most.number(),
        None => false,
    }
}

/// Tells whether two words are `no refusals`.
fn asks_no_refusals(a: &[u8], b: &[u8]) -> bool
    ensures { result ≡ asks_no_refusals a.now b.now }
{
    is_text(a, "no") && is_text(b, "refusals")
}

/// Tells whether four words are `at most N lines`: the first, the second and the last.
fn asks_at_most(a: &[u8], b: &[u8], d: &[u8]) -> bool
    ensures { result ≡ asks_at_most a.now b.now d.now }
{
    is_text(a, "at") && is_text(b, "most") && is_text(d, "lines")
}

/// Tells whether four words are `log P.M before Q.L`: the first and the third.
fn asks_order(a: &[u8], c: &[u8]) -> bool
    ensures { result ≡ asks_order a.now c.now }
{
    is_text(a, "log") && is_text(c, "before")
}

/// Tells whether the words of a line of a goal are met by the lines of a script and of its answers.
///
/// An `Err` says that memory was refused.
fn is_met_by(
    alloc: Global,
    script: &[&[u8]],
    answers: &[&[u8]],
    line: &[u8],
    words: &[&[u8]],
) -> Result<bool, AllocError>
    ensures { IfOk result (λ met. met
        ≡ is_met_by (bytes_of script.now) (bytes_of answers.now) line.now (bytes_of words.now)) }
{
    match words {
        [a, b] => {
            if asks_no_refusals(a, b) {
                Ok(!has_like(b"refused ..", answers))
            } else {
                Ok(has_like(line, answers))
            }
        }
        [a, b, c, d] => {
            if asks_at_most(a, b, d) {
                Ok(is_at_most(script, c))
            } else if asks_order(a, c) {
                comes_before(alloc, b, d, answers)
            } else {
                Ok(has_like(line, answers))
            }
        }
        _ => Ok(has_like(line, answers)),
    }
}

/// Tells whether a line of a goal is met by the lines of a script, of its answers, and of its steps.
///
/// An `Err` says that memory was refused.
fn is_met(
    alloc: Global,
    script: &[&[u8]],
    answers: &[&[u8]],
    steps: &[&[u8]],
    line: &[u8],
) -> Result<bool, AllocError>
    ensures { IfOk result (λ met. met ≡ is_met
        (record { script = bytes_of script.now; answers = bytes_of answers.now; steps = bytes_of steps.now })
        line.now) }
{
    if line.starts_with(b"script ") {
        return Ok(has_like(&line[7..], script));
    }
    if line.starts_with(b"order ") {
        let patterns = patterns_in(alloc, &line[6..])?;
        return Ok(come_in_order(patterns.as_slice(), answers));
    }
    if line.starts_with(b"P") {
        return Ok(has_step(line, steps));
    }
    if line.starts_with(b"no P") {
        return Ok(!has_step(&line[3..], steps));
    }
    is_met_by(
        alloc,
        script,
        answers,
        line,
        words_of(alloc, line)?.as_slice(),
    )
}

/// Tells whether a line of a goal is a note, or met by the lines of a script, of its answers, and of its steps.
///
/// An `Err` says that memory was refused.
fn is_note_or_met(
    alloc: Global,
    script: &[&[u8]],
    answers: &[&[u8]],
    steps: &[&[u8]],
    line: &[u8],
) -> Result<bool, AllocError>
    ensures { IfOk result (λ met. met ≡ is_note_or_met
        (record { script = bytes_of script.now; answers = bytes_of answers.now; steps = bytes_of steps.now })
        line.now) }
{
    if is_note(line) {
        return Ok(true);
    }
    is_met(alloc, script, answers, steps, line)
}

/// The number, from 1, of the first line of a goal that is no note and isn't met by the lines of a script, of its
/// answers, and of its steps; `None` where each is met. Blanks at a line's end don't count.
///
/// An `Err` says that memory was refused.
pub(crate) fn first_missing(
    alloc: Global,
    script: &[&[u8]],
    answers: &[&[u8]],
    steps: &[&[u8]],
    goal: &[&[u8]],
) -> Result<Option<u64>, AllocError>
    ensures { IfOk result (λ missing. missing
        ≡ first_missing
        (record { script = bytes_of script.now; answers = bytes_of answers.now; steps = bytes_of steps.now }) 1
        (bytes_of goal.now)) }
{
    let mut number = 1;
    for line in goal {
        if !is_note_or_met(alloc, script, answers, steps, without_end(line))? {
            return Ok(Some(number));
        }
        number += 1;
    }
    Ok(None)
}
