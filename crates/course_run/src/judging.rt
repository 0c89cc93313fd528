//! Whether a script meets a goal, and what a program tells of it.

ghost use Rattle.std.specs.Prelude.{◌≡◌, ◌≤◌, ◌++◌, [], false, None, Some, IfOk, IfErr, IsSome, OnOk};
ghost use Rattle.std.specs.Prelude.{slice_index_or};
ghost use Rattle.std.specs.Char.Escape.{escape_ascii};
ghost use Rattle.std.specs.Io.KnownBytes.{Appends};
ghost use Rattle.uni_script.specs.Scripts.{scripts_of};
ghost use Rattle.uni_script.specs.Replay.{IsFaultOfScript, fault_of_script, text_of_script};
ghost use Rattle.ready_objects.specs.Words.{bytes_of};
ghost use Rattle.course_run.specs.Goals.{AreStepsOf, judgement_text, missing_in, missing_of, told_byte, told_line};

use crate::lines::{lines_in, without_end};
use crate::wish::first_missing;
use ready_objects::push_number;
use run_layout::{PictureFault, Range};
use run_tell::{InWords, tell_script};
use std::alloc::{AllocError, Global};
use uni_script::{
    BenchFault, Checked, Echo, Failed, Options, TextOut, bench, report_fault, write_all,
};

/// Whether a script meets a goal.
#[derive(Clone, Copy, Debug, PartialEq, Eq)]
pub enum Judgement {
    /// It meets each line.
    Met,
    /// It doesn't meet the line of this number, from 1, and meets each line before.
    Missing(u64),
}

/// The answers to a script.
///
/// An `Err` is its first fault, or `Memory`.
pub fn answers_to(alloc: Global, script: &[u8]) -> Result<Vec<u8>, BenchFault>
    ensures good { OnOk result (fault_of_script (scripts_of 1048576) script.now ≡ None) }
    ensures text { IfOk result (λ text. text.items ≡ text_of_script (scripts_of 1048576) script.now) }
    ensures fault { IfErr result (λ e. IsFaultOfScript e
        → fault_of_script (scripts_of 1048576) script.now ≡ Some e) }
{
    let mut answers = Checked::new(Vec::new(alloc));
    let options = Options {
        history: 1_048_576,
        echo: Echo::Off,
    };
    match bench(alloc, &mut Checked::new(script), &mut answers, &options) {
        Ok(_) => Ok(Vec::from_slice(alloc, answers.end().as_slice())?),
        // The writer keeps what it is given: it fails where memory is refused.
        Err(BenchFault::Write) => Err(BenchFault::Memory),
        Err(fault) => Err(fault),
    }
}

/// The run of a script, told in steps, as `unidraw --steps` tells it; nothing of one with more than 2,000 events.
///
/// An `Err` is its first fault, or `Memory`.
pub fn steps_of(alloc: Global, script: &[u8]) -> Result<Vec<u8>, BenchFault>
    ensures { IfOk result (λ steps. AreStepsOf script.now steps.items) }
{
    let mut steps = Checked::new(Vec::new(alloc));
    match tell_script::<InWords, _, _>(alloc, Range::all(), &mut Checked::new(script), &mut steps) {
        Ok(()) => Ok(Vec::from_slice(alloc, steps.end().as_slice())?),
        // Of all events only too many are refused.
        Err(PictureFault::Range(_)) => Ok(Vec::new(alloc)),
        // The writer keeps what it is given: it fails where memory is refused.
        Err(PictureFault::Script(BenchFault::Write) | PictureFault::Misdrawn) => {
            Err(BenchFault::Memory)
        }
        Err(PictureFault::Script(fault)) => Err(fault),
    }
}

/// Judges a script by a goal; `steps` is its run, told in steps.
///
/// An `Err` is the first fault of the script, or `Memory`.
pub fn judge(
    alloc: Global,
    goal: &[u8],
    script: &[u8],
    steps: &[u8],
) -> Result<Judgement, BenchFault>
    ensures good { OnOk result (fault_of_script (scripts_of 1048576) script.now ≡ None) }
    ensures judged { IfOk result (λ judgement. missing_in judgement ≡ missing_of goal.now script.now steps.now) }
    ensures fault { IfErr result (λ e. IsFaultOfScript e
        → fault_of_script (scripts_of 1048576) script.now ≡ Some e) }
{
    let text = answers_to(alloc, script)?;
    let script = lines_in(alloc, script)?;
    let answers = lines_in(alloc, text.as_slice())?;
    let steps = lines_in(alloc, steps)?;
    let goal = lines_in(alloc, goal)?;
    match first_missing(
        alloc,
        script.as_slice(),
        answers.as_slice(),
        steps.as_slice(),
        goal.as_slice(),
    )? {
        None => Ok(Judgement::Met),
        Some(number) => Ok(Judgement::Missing(number)),
    }
}

/// The text that tells a judgement by a goal, with the end of its line.
///
/// An `Err` says that memory was refused.
pub fn judgement_text(
    alloc: Global,
    goal: &[u8],
    judgement: Judgement,
) -> Result<Vec<u8>, AllocError>
    ensures { IfOk result (λ text. text.items ≡ judgement_text goal.now (missing_in judgement)) }
{
    match judgement {
        Judgement::Met => Vec::from_slice(alloc, b"met\n"),
        Judgement::Missing(number) => missing_text(alloc, goal, number),
    }
}

/// The line that tells which line of a goal isn't met.
///
/// An `Err` says that memory was refused.
fn missing_text(alloc: Global, goal: &[u8], number: u64) -> Result<Vec<u8>, AllocError>
    ensures { IfOk result (λ text. text.items ≡ judgement_text goal.now (Some number)) }
{
    let lines = lines_in(alloc, goal)?;
    let mut text = Vec::new(alloc);
    text.extend_from_slice(b"line ")?;
    push_number(&mut text, number)?;
    text.extend_from_slice(b" is not met: ")?;
    let line = line_at(lines.as_slice(), number.saturating_sub(1));
    push_told_line(without_end(line), &mut text)?;
    text.extend_from_slice(b"\n")?;
    Ok(text)
}

/// Adds a line as it is told: each byte that isn't from 32 to 126 by its escape.
///
/// An `Err` says that memory was refused.
fn push_told_line(line: &[u8], text: &mut Vec<u8>) -> Result<(), AllocError>
    ensures { OnOk result (text.new.items ≡ text.old.items ++ told_line line.now) }
{
    for byte in line {
        push_told_byte(*byte, text)?;
    }
    Ok(())
}

/// Adds a byte, by its escape where it isn't from 32 to 126.
///
/// An `Err` says that memory was refused.
fn push_told_byte(byte: u8, text: &mut Vec<u8>) -> Result<(), AllocError>
    ensures { OnOk result (text.new.items ≡ text.old.items ++ told_byte byte) }
{
    if b' ' <= byte && byte <= b'~' {
        Ok(text.push(byte)?)
    } else {
        push_escape(byte, text)
    }
}

/// Adds the escape of a byte.
///
/// An `Err` says that memory was refused.
fn push_escape(byte: u8, text: &mut Vec<u8>) -> Result<(), AllocError>
    ensures { OnOk result (text.new.items ≡ text.old.items ++ escape_ascii byte) }
{
    let mut rest = byte.escape_ascii();
    'escape: while let Some(escaped) = rest.next() {
        text.push(escaped)?;
    }
    Ok(())
}

/// The line at a place, from 0; an empty one where there is none.
fn line_at<'a>(lines: &[&'a [u8]], place: u64) -> &'a [u8]
    ensures { result.now ≡ slice_index_or (bytes_of lines.now) place [] }
{
    match lines.get(place as usize) {
        Some(line) => line,
        None => &[],
    }
}

/// A judgement, and the text that tells it.
///
/// An `Err` is the first fault of the script, or `Memory`.
fn told(
    alloc: Global,
    goal: &[u8],
    script: &[u8],
    steps: &[u8],
) -> Result<(Judgement, Vec<u8>), BenchFault>
    ensures good { OnOk result (fault_of_script (scripts_of 1048576) script.now ≡ None) }
    ensures judged { IfOk result (λ told. missing_in told.0 ≡ missing_of goal.now script.now steps.now) }
    ensures text { IfOk result (λ told. told.1.items
        ≡ judgement_text goal.now (missing_of goal.now script.now steps.now)) }
    ensures fault { IfErr result (λ e. IsFaultOfScript e
        → fault_of_script (scripts_of 1048576) script.now ≡ Some e) }
{
    let judgement = judge(alloc, goal, script, steps)?;
    let text = judgement_text(alloc, goal, judgement)?;
    Ok((judgement, text))
}

/// The status of a judgement.
fn status_of(judgement: Judgement) -> u8
    ensures met { result ≡ 0 → missing_in judgement ≡ None }
    ensures missing { result ≡ 1 → IsSome (missing_in judgement) }
    ensures few { result ≤ 1 }
{
    match judgement {
        Judgement::Met => 0,
        Judgement::Missing(_) => 1,
    }
}

/// Judges a script by a goal, and tells it on `output`; `steps` is its run, told in steps. The answer is the status
/// that a program ends with.
///
/// The status is 0 where the goal is met, and 1 where a line of it isn't; 2 where the script has a fault; 3 where
/// `output` failed; and 4 where memory was refused. The text that says so of the last three goes to `faults`, as far as
/// that takes it.
pub fn run_goal<O: TextOut, F: TextOut>(
    alloc: Global,
    goal: &[u8],
    script: &[u8],
    steps: &[u8],
    output: &mut O,
    faults: &mut F,
) -> u8
    requires output { O.has_failed output.old ≡ false }
    ensures met { result ≡ 0 → missing_of goal.now script.now steps.now ≡ None }
    ensures missing { result ≡ 1 → IsSome (missing_of goal.now script.now steps.now) }
    ensures told { result ≤ 1 → Appends (O.contents output.old) (O.contents output.new)
        (judgement_text goal.now (missing_of goal.now script.now steps.now)) }
    ensures good { result ≤ 1 → fault_of_script (scripts_of 1048576) script.now ≡ None }
    ensures fault { result ≡ 2 → IsSome (fault_of_script (scripts_of 1048576) script.now)
        × (output.new ≡ output.old) }
{
    match told(alloc, goal, script, steps) {
        Ok((judgement, text)) => match write_all(output, text.as_slice()) {
            Ok(()) => status_of(judgement),
            Err(Failed) => report_fault(alloc, BenchFault::Write, faults),
        },
        Err(fault) => report_fault(alloc, fault, faults),
    }
}
