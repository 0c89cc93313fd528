//! The program over its ends, and its statuses.

ghost use Rattle.std.specs.Prelude.{◌≡◌, ◌≢◌, ◌<◌, ◌≤◌, ◌⊎◌, IfErr, IfOk, IfSome};
ghost use Rattle.unicheck_run.specs.Judged.{RefusesBy, RefusesText, SaysBy, SaysOfText, Writes};
ghost use Rattle.unicheck_run.specs.Stopped.{status_of_stop};

use crate::answer::answer_of;
use crate::stop::{Stop, tell_stop};
use crate::watch::{Stage, Watch};
use crate::words::{Form, ObjectName, Request, matches_of, request_in};
use history_text::{ReadError, read_history};
use judged_objects::{Counter, Map, Queue, Register, Set, Stack, Worded};
use std::alloc::Global;
use std::convert::AsStr;
use std::fs::{File, Files};
use std::io::{ErrorKind, Read, Write};

/// Judges the history that a text is by an object, and writes what is found; the answer is the status.
fn judge_by<O: Worded, W: Write, F: Write, P: Watch>(
    alloc: Global,
    object: &O,
    request: Request,
    text: &[u8],
    output: &mut W,
    faults: &mut F,
    watch: &P,
) -> u8
    ensures status { result ≤ 5 }
    ensures said { SaysOfText (O.sequential object.now) O.wording text.now result }
    ensures refused { RefusesText O.wording request.form text.now result }
    ensures written { Writes request.form result (W.contents output.old) (W.contents output.new) }
    ensures silent { (result < 2) ⊎ (result ≡ 5) → faults.new ≡ faults.old }
{
    let history = match read_history::<O>(alloc, text) {
        Ok(history) => history,
        Err(ReadError::Refused(fault)) => return tell_stop(Stop::Refused(fault), faults),
        Err(ReadError::Memory) => return tell_stop(Stop::Memory, faults),
    };
    let answer = answer_of(alloc, object, request, text, &history, watch);
    watch.comes_to(Stage::End);
    match answer {
        Ok(answer) => match output.write_all(answer.text.as_slice()) {
            Ok(()) => answer.status,
            Err(_) => tell_stop(Stop::Output, faults),
        },
        Err(why) => tell_stop(why, faults),
    }
}

/// Judges the history that a text is, and writes what is found; the answer is the status.
///
/// It is 0 where the history is linearizable, 1 where it isn't, 2 where a line is refused or where there are too many
/// calls for a picture, 3 where the output failed, 4 where memory was refused, and 5 where a search gave up. Why the
/// status is 2, 3 or 4 goes to `faults`, as far as that takes it. `watch` is told how far it is.
pub fn judge_text<W: Write, F: Write, P: Watch>(
    alloc: Global,
    request: Request,
    text: &[u8],
    output: &mut W,
    faults: &mut F,
    watch: &P,
) -> u8
    ensures status { result ≤ 5 }
    ensures said { SaysBy request.object text.now result }
    ensures refused { RefusesBy request.object request.form text.now result }
    ensures written { Writes request.form result (W.contents output.old) (W.contents output.new) }
    ensures silent { (result < 2) ⊎ (result ≡ 5) → faults.new ≡ faults.old }
{
    match request.object {
        ObjectName::Queue => judge_by(alloc, &Queue, request, text, output, faults, watch),
        ObjectName::Stack => judge_by(alloc, &Stack, request, text, output, faults, watch),
        ObjectName::Register => judge_by(alloc, &Register, request, text, output, faults, watch),
        ObjectName::Counter => judge_by(alloc, &Counter, request, text, output, faults, watch),
        ObjectName::Map => judge_by(alloc, &Map, request, text, output, faults, watch),
        ObjectName::Set => judge_by(alloc, &Set, request, text, output, faults, watch),
    }
}

/// The bytes that a reader has.
///
/// An `Err` says that it failed, or that memory was refused.
fn text_in<I: Read>(alloc: Global, input: &mut I) -> Result<Vec<u8>, Stop>
    ensures read { IfOk result (λ text. IfSome (I.remaining input.old) (λ bytes. text.items ≡ bytes)) }
    ensures statuses { IfErr result (λ why. 2 < status_of_stop why) }
{
    let mut text = Vec::new(alloc);
    match input.read_to_end(&mut text) {
        Ok(_) => Ok(text),
        Err(error) if error.kind() == ErrorKind::OutOfMemory => Err(Stop::Memory),
        Err(_) => Err(Stop::Input),
    }
}

/// Judges the history that a reader has; else it does what `judge_text` does. The status is 3 too where the reader
/// failed.
pub fn judge_input<I: Read, W: Write, F: Write, P: Watch>(
    alloc: Global,
    request: Request,
    input: &mut I,
    output: &mut W,
    faults: &mut F,
    watch: &P,
) -> u8
    ensures status { result ≤ 5 }
    ensures said { IfSome (I.remaining input.old) (λ text. result ≢ 3 → SaysBy request.object text result) }
    ensures refused { IfSome (I.remaining input.old) (λ text. RefusesBy request.object request.form text result) }
    ensures written { Writes request.form result (W.contents output.old) (W.contents output.new) }
    ensures silent { (result < 2) ⊎ (result ≡ 5) → faults.new ≡ faults.old }
{
    match text_in(alloc, input) {
        Ok(text) => judge_text(alloc, request, text.as_slice(), output, faults, watch),
        Err(why) => tell_stop(why, faults),
    }
}

/// Says what `clap` has to say of words that ask for no history; the answer is the status.
fn answer_words<W: Write, F: Write>(error: &clap::Error, output: &mut W, faults: &mut F) -> u8
    ensures statuses { (result ≡ 0) ⊎ (((result ≡ 2) ⊎ (result ≡ 3)) ⊎ (result ≡ 4)) }
    ensures silent { result ≡ 0 → faults.new ≡ faults.old }
{
    if error.kind() == clap::error::ErrorKind::OutOfMemory {
        return tell_stop(Stop::Memory, faults);
    }
    if error.use_stderr() {
        let _ = write!(faults, "{error}");
        return 2;
    }
    match write!(output, "{error}") {
        Ok(()) => 0,
        Err(_) => tell_stop(Stop::Output, faults),
    }
}

/// Judges the history that the argument texts name, the program's name first; the answer is the status that the program
/// ends with.
///
/// The statuses are those of `judge_input`, and 0 for help or the version, and 2 for words that ask for nothing that
/// there is.
pub fn run<R: Files + Alloc<A = Global>, S: AsStr, I: Read, W: Write, F: Write, P: Watch>(
    rt: &R,
    words: &[S],
    input: &mut I,
    output: &mut W,
    faults: &mut F,
    watch: &P,
) -> u8
    ensures status { result ≤ 5 }
    ensures silent { (result < 2) ⊎ (result ≡ 5) → faults.new ≡ faults.old }
    ensures told { result ≢ 0 → (form : Form) × Writes form result (W.contents output.old) (W.contents output.new) }
{
    let matches = match matches_of(rt.alloc(), words) {
        Ok(matches) => matches,
        Err(error) => return answer_words(&error, output, faults),
    };
    let request = match request_in(rt.alloc(), &matches) {
        Ok(request) => request,
        Err(error) => return answer_words(&error, output, faults),
    };
    match matches.get_str("FILE") {
        Some(path) if path != "-" => match File::open(rt, path) {
            Ok(mut file) => judge_input(rt.alloc(), request, &mut file, output, faults, watch),
            Err(_) => tell_stop(Stop::Input, faults),
        },
        _ => judge_input(rt.alloc(), request, input, output, faults, watch),
    }
}
