//! The lines `call P CALL`, `return P REPLY` and `lost P`.

ghost use Rattle.std.specs.Prelude.{◌≡◌, IfErr, IfOk, OnOk, Some, map};
ghost use Rattle.ready_objects.specs.Number.{number_below};
ghost use Rattle.ready_objects.specs.Words.{bytes_of, words_of_text};
ghost use Rattle.history_text.specs.Own.{AddsLine, RefusesFirst, RefusesLine, told_by, told_of_words, tolds_of};

use crate::fault::{ReadError, Reason, Spot};
use crate::history::{Placed, Told};
use crate::lines::{bad_byte, bad_space, is_note, spot_at, start_of, words_of};
use judged_objects::Worded;
use ready_objects::{Amount, is_text};
use std::alloc::Global;

/// What a process does in its form.
const CALL: &str = "call P CALL";

/// The form of a return.
const RETURN: &str = "return P REPLY";

/// The form of a loss.
const LOST: &str = "lost P";

/// The process that a word names: a number from 0 to 65,535.
#[tactic(auto, unfolding(ready_objects::specs::Number::number_below))]
pub(crate) fn process_of(word: &[u8]) -> Option<usize>
    ensures { result ≡ number_below 65536 word.now }
{
    let number = Amount::read(word)?.number();
    if number < 65_536 {
        Some(number as usize)
    } else {
        None
    }
}

/// What is told of a process by a verb and the words after the process.
fn told_by<O: Worded>(verb: &[u8], process: usize, rest: &[&[u8]]) -> Option<Told<O::Inv, O::Resp>>
    ensures { result ≡ told_by O.wording verb.now process (bytes_of rest.now) }
{
    if is_text(verb, "call") {
        Some(Told::Begins(process, O::read_inv(rest)?))
    } else if is_text(verb, "return") {
        Some(Told::Ends(process, O::read_resp(rest)?))
    } else if is_text(verb, "lost") && rest.is_empty() {
        Some(Told::Ceases(process))
    } else {
        None
    }
}

/// What the words of a line tell; `None` where they are no such line.
fn told_of<O: Worded>(words: &[&[u8]]) -> Option<Told<O::Inv, O::Resp>>
    ensures { result ≡ told_of_words O.wording (bytes_of words.now) }
{
    match words {
        [verb, process, rest @ ..] => told_by::<O>(verb, process_of(process)?, rest),
        _ => None,
    }
}

/// What is wrong with the words after a verb of this form.
fn after_verb<O: Worded>(words: &[&[u8]], form: &'static str) -> Spot {
    match words {
        [_, process, ..] if process_of(process).is_none() => spot_at(words, 1, Reason::NoProcess),
        [_, _, _, ..] if is_text(form.as_bytes(), LOST) => spot_at(words, 2, Reason::Extra(form)),
        [_, _, _, ..] if is_text(form.as_bytes(), CALL) => spot_at(
            words,
            2,
            Reason::NoCall(O::CALLS),
        ),
        [_, _, _, ..] => spot_at(words, 2, Reason::NoReply(O::REPLIES)),
        _ => spot_at(words, words.len(), Reason::Missing(form)),
    }
}

/// What is wrong with a line that tells nothing.
fn fault_of<O: Worded>(line: &[u8], words: &[&[u8]]) -> Spot {
    if let Some(spot) = bad_byte(line) {
        return spot;
    }
    if let Some(spot) = bad_space(words) {
        return spot;
    }
    match words {
        [verb, ..] if is_text(verb, "call") => after_verb::<O>(words, CALL),
        [verb, ..] if is_text(verb, "return") => after_verb::<O>(words, RETURN),
        [verb, ..] if is_text(verb, "lost") => after_verb::<O>(words, LOST),
        _ => Spot {
            start: 0,
            reason: Reason::NoEvent,
        },
    }
}

/// Adds what a line tells, unless it is a note.
///
/// An `Err` says that it tells nothing, or that memory was refused.
fn add_line<O: Worded>(
    alloc: Global,
    tolds: &mut Vec<Placed<O::Inv, O::Resp>>,
    line: &[u8],
    number: u64,
) -> Result<(), ReadError>
    ensures refused { IfErr result (RefusesLine O.wording line.now number) }
    ensures added { OnOk result (AddsLine O.wording line.now (map (λ placed. placed.told) tolds.old.items)
        (map (λ placed. placed.told) tolds.new.items)) }
{
    if is_note(line) {
        return Ok(());
    }
    let words = words_of(alloc, line)?;
    let words = words.as_slice();
    let Some(told) = told_of::<O>(words) else {
        return Err(fault_of::<O>(line, words).on(number));
    };
    let start = start_of(words, 1);
    match tolds.push(Placed {
        line: number,
        start,
        told,
    }) {
        Ok(()) => Ok(()),
        Err(_) => Err(ReadError::Memory),
    }
}

/// What lines tell, each that isn't a note.
///
/// An `Err` is the first line that tells nothing, or says that memory was refused.
pub(crate) fn tolds_of<O: Worded>(
    alloc: Global,
    lines: &[&[u8]],
) -> Result<Vec<Placed<O::Inv, O::Resp>>, ReadError>
    ensures refused { IfErr result (RefusesFirst O.wording (bytes_of lines.now)) }
    ensures told { IfOk result (λ tolds.
        tolds_of O.wording (bytes_of lines.now) ≡ Some (map (λ placed. placed.told) tolds.items)) }
{
    let mut tolds = Vec::new(alloc);
    let mut number = 0u64;
    for line in lines {
        number += 1;
        add_line::<O>(alloc, &mut tolds, line, number)?;
    }
    Ok(tolds)
}
