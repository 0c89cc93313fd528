//! The history of a text.

ghost use Rattle.std.specs.Prelude.{◌≡◌, IfErr, IfOk, Some, map, true};
ghost use Rattle.ready_objects.specs.Words.{bytes_of};
ghost use Rattle.history_text.specs.Own.{NamesFirstBad, RefusesFirst, begins_own, is_own, lines_of};
ghost use Rattle.history_text.specs.Own.{own_events, tolds_of};
ghost use Rattle.history_text.specs.Refused.{IsRefusal};
ghost use Rattle.history_text.specs.Turns.{IsReadable};

use crate::fault::{ReadError, Reason, Spot};
use crate::history::{History, Placed, history_of};
use crate::lines::{is_note, lines_of, words_of};
use crate::{maps, own, stamped};
use judged_objects::Worded;
use ready_objects::is_text;
use std::alloc::Global;

/// How a history is written.
#[derive(Clone, Copy)]
enum Format {
    /// Lines `call P CALL`, `return P REPLY` and `lost P`.
    Own,
    /// Lines of maps.
    Maps,
    /// Lines of whole calls with time stamps.
    Stamped,
}

/// The format of a line that says something; `None` where it is of none.
fn format_of(words: &[&[u8]]) -> Option<Format>
    ensures { begins_own (bytes_of words.now) ≡ true → result ≡ Some Format.Own }
{
    match words {
        [word, ..] if is_text(word, "call") || is_text(word, "return") || is_text(word, "lost") => {
            Some(Format::Own)
        }
        [[b'{', ..], ..] => Some(Format::Maps),
        _ if words.iter().any(|word| is_text(word, "->")) => Some(Format::Stamped),
        _ => None,
    }
}

/// The format of lines, by the first of them that isn't a note; their own where each one is.
///
/// An `Err` has that line where it is of no format, or says that memory was refused.
fn format_in(alloc: Global, lines: &[&[u8]]) -> Result<Format, ReadError>
    ensures format { IfOk result (λ format. is_own (bytes_of lines.now) ≡ true → format ≡ Format.Own) }
    ensures refused { IfErr result (λ error. is_own (bytes_of lines.now) ≡ true → error ≡ ReadError.Memory) }
{
    let mut number = 0u64;
    for line in lines {
        number = number.saturating_add(1);
        if !is_note(line) {
            return match format_of(words_of(alloc, line)?.as_slice()) {
                Some(format) => Ok(format),
                None => Err(Spot {
                    start: 0,
                    reason: Reason::NoFormat,
                }
                .on(number)),
            };
        }
    }
    Ok(Format::Own)
}

/// What the lines of a text tell.
///
/// An `Err` is the first line that is refused, or says that memory was refused.
fn tolds_in<O: Worded>(
    alloc: Global,
    text: &[u8],
) -> Result<Vec<Placed<O::Inv, O::Resp>>, ReadError>
    ensures told { IfOk result (λ tolds. is_own (lines_of text.now) ≡ true
        → tolds_of O.wording (lines_of text.now) ≡ Some (map (λ placed. placed.told) tolds.items)) }
    ensures refused { IfErr result (λ error. is_own (lines_of text.now) ≡ true
        → RefusesFirst O.wording (lines_of text.now) error) }
{
    let lines = lines_of(alloc, text)?;
    let lines = lines.as_slice();
    match format_in(alloc, lines)? {
        Format::Own => own::tolds_of::<O>(alloc, lines),
        Format::Maps => maps::tolds_of::<O>(alloc, lines),
        Format::Stamped => stamped::tolds_of::<O>(alloc, lines),
    }
}

/// Reads the recorded history of an object.
///
/// An `Err` is the first line that can't be read; or where each can be, the first one that tells what a process can't
/// do; or it says that memory was refused.
pub fn read_history<O: Worded>(
    alloc: Global,
    text: &[u8],
) -> Result<History<O::Inv, O::Resp>, ReadError>
    ensures refused { IfErr result (λ error. is_own (lines_of text.now) ≡ true
        → NamesFirstBad O.wording (lines_of text.now) error) }
    ensures own { IfOk result (λ history. is_own (lines_of text.now) ≡ true
        → own_events O.wording (lines_of text.now) ≡ Some history.events.items) }
    ensures readable { IfOk result (λ _. is_own (lines_of text.now) ≡ true
        → IsReadable O.wording (lines_of text.now)) }
    ensures unreadable { IfErr result (λ error. is_own (lines_of text.now) ≡ true → IsRefusal error
        → ¬ (IsReadable O.wording (lines_of text.now))) }
{
    match tolds_in::<O>(alloc, text) {
        Ok(tolds) => history_of(alloc, tolds),
        Err(error) => Err(error),
    }
}
