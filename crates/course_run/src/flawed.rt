//! A script on a world with a flaw, and how a program over that ends.

ghost use Rattle.std.specs.Prelude.{◌≡◌, ◌≢◌, ◌⊎◌, ◌↔◌, ◌++◌, IfOk, IfErr, false, true};
ghost use Rattle.std.specs.Io.KnownBytes.{Appends};
ghost use Rattle.uni_script.specs.Statuses.{TellsFault, status_of};
ghost use Rattle.course_run.specs.Flaws.{AppendsBanner, AppendsBannerPrefix, BeginsWithBanner, banner};

use crate::flaw::Flaw;
use crate::world::World;
use ready_objects::{BookObject, DirectoryObject, QueueObject, Spoken, StickyObject};
use std::alloc::{AllocError, Global};
use uni_script::{
    BenchFault, Failed, Header, ObjectName, TextOut, Words, command_of, header_of, is_note,
    is_plain, report_fault, words_of, write_all,
};

/// The header of a script, and the number of its line, from 1.
#[derive(Clone, Copy)]
struct Start {
    header: Header<ObjectName>,
    number: u64,
}

/// The words of a line of this number, from 1, which may have its end; `None` where it is a note.
///
/// An `Err` is the fault of the line, or `Memory`.
fn said(alloc: Global, number: u64, line: &[u8]) -> Result<Option<Words<'_>>, BenchFault>
    ensures { IfErr result (λ e. (status_of e ≡ 2) ⊎ (status_of e ≡ 4)) }
{
    let line = match line {
        [text @ .., b'\n'] => text,
        _ => line,
    };
    if number > 100_000 {
        return Err(BenchFault::TooMany);
    }
    if line.len() > 200 {
        return Err(BenchFault::TooLong(number));
    }
    if !is_plain(line) {
        return Err(BenchFault::BadByte(number));
    }
    if is_note(line) {
        return Ok(None);
    }
    Ok(Some(words_of(alloc, line)?))
}

/// The header of a script, the first line that isn't a note.
///
/// An `Err` is the first fault of a line up to it, or `Memory`.
fn start_of(alloc: Global, lines: &[&[u8]]) -> Result<Start, BenchFault>
    ensures { IfErr result (λ e. (status_of e ≡ 2) ⊎ (status_of e ≡ 4)) }
{
    let mut number = 1u64;
    for line in lines {
        if let Some(words) = said(alloc, number, line)? {
            return match header_of(words.as_slice()) {
                Some(header) => Ok(Start { header, number }),
                None => Err(BenchFault::BadHeader(number)),
            };
        }
        number = number.saturating_add(1);
    }
    Err(BenchFault::NoHeader(number))
}

/// Makes the commands of the lines after a header in a world, writes their answers after a text, and last what broke.
///
/// An `Err` is the first fault of these lines, or `Memory`.
fn answer<O: Spoken>(
    alloc: Global,
    world: &mut World<O>,
    start: Start,
    lines: &[&[u8]],
    text: &mut Vec<u8>,
) -> Result<(), BenchFault>
    ensures { IfErr result (λ e. (status_of e ≡ 2) ⊎ (status_of e ≡ 4)) }
{
    let mut number = 0u64;
    for line in lines {
        number = number.saturating_add(1);
        if number > start.number
            && let Some(words) = said(alloc, number, line)?
        {
            let Some(command) = command_of::<O>(start.header.version, words.as_slice()) else {
                return Err(BenchFault::BadLine(number));
            };
            world.make(alloc, command, text)?;
        }
    }
    world.close(alloc)?;
    text.extend_from_slice(world.broken.as_slice())?;
    Ok(())
}

/// The answers to the lines after a header, with what broke, on an object.
///
/// An `Err` is the first fault of these lines, or `Memory`.
fn answers_on<O: Spoken>(
    alloc: Global,
    object: O,
    flaw: Flaw,
    start: Start,
    lines: &[&[u8]],
) -> Result<Vec<u8>, BenchFault>
    ensures { IfErr result (λ e. (status_of e ≡ 2) ⊎ (status_of e ≡ 4)) }
{
    let mut world = World::new(alloc, object, flaw, start.header)?;
    let mut text = Vec::new(alloc);
    match answer(alloc, &mut world, start, lines, &mut text) {
        Ok(()) => Ok(text),
        Err(fault) => Err(fault),
    }
}

/// The answers to a script, with what broke.
///
/// An `Err` is the first fault of the script, or `Memory`.
fn answers_to(alloc: Global, flaw: Flaw, script: &[u8]) -> Result<Vec<u8>, BenchFault>
    ensures { IfErr result (λ e. (status_of e ≡ 2) ⊎ (status_of e ≡ 4)) }
{
    let lines: Vec<&[u8]> = script
        .split_inclusive(|byte| *byte == b'\n')
        .collect(alloc)?;
    let lines = lines.as_slice();
    let start = start_of(alloc, lines)?;
    match start.header.object {
        ObjectName::Queue => answers_on(alloc, QueueObject, flaw, start, lines),
        ObjectName::Sticky => answers_on(alloc, StickyObject, flaw, start, lines),
        ObjectName::Directory => answers_on(alloc, DirectoryObject, flaw, start, lines),
        ObjectName::Book => answers_on(alloc, BookObject, flaw, start, lines),
    }
}

/// The line that says that this is not the proved construction, and what is wrong with it.
///
/// An `Err` says that memory was refused.
fn banner_of(alloc: Global, flaw: Flaw) -> Result<Vec<u8>, AllocError>
    ensures { IfOk result (λ text. text.items ≡ banner flaw) }
{
    let mut text = Vec::from_slice(alloc, b"not the proved construction: ")?;
    text.extend_from_slice(flaw.text().as_bytes())?;
    text.extend_from_slice(b"\n")?;
    Ok(text)
}

/// What is written of a script on a world with a flaw: first that this is not the proved construction, then the answers
/// as the script language has them, and last what broke, or `end`.
///
/// An `Err` is the first fault of the script, or `Memory`.
pub fn flawed_text(alloc: Global, flaw: Flaw, script: &[u8]) -> Result<Vec<u8>, BenchFault>
    ensures banner { IfOk result (λ text. BeginsWithBanner flaw text.items) }
    ensures fault { IfErr result (λ e. (status_of e ≡ 2) ⊎ (status_of e ≡ 4)) }
{
    let answers = answers_to(alloc, flaw, script)?;
    let mut text = banner_of(alloc, flaw)?;
    text.extend_from_slice(answers.as_slice())?;
    Ok(text)
}

/// Writes what comes of a script on a world with a flaw to `output`; the answer is the status that a program ends with.
///
/// The status is 0 where all went well; 2 where the script has a fault; 3 where `output` failed; and 4 where memory
/// was refused. The text that says so of the last three goes to `faults`, as far as that takes it. Nothing is
/// promised of the answers.
pub fn run_flawed<O: TextOut, F: TextOut>(
    alloc: Global,
    flaw: Flaw,
    script: &[u8],
    output: &mut O,
    faults: &mut F,
) -> u8
    requires output { O.has_failed output.old ≡ false }
    ensures statuses { ((result ≡ 0) ⊎ (result ≡ 2)) ⊎ ((result ≡ 3) ⊎ (result ≡ 4)) }
    ensures banner { result ≡ 0 → AppendsBanner flaw (O.contents output.old) (O.contents output.new) }
    ensures prefix { result ≡ 3 → AppendsBannerPrefix flaw (O.contents output.old) (O.contents output.new) }
    ensures kept { (result ≡ 2) ⊎ (result ≡ 4) → output.new ≡ output.old }
    ensures failed { O.has_failed output.new ≡ true ↔ result ≡ 3 }
    ensures silent { result ≡ 0 → faults.new ≡ faults.old }
    ensures told { result ≢ 0 → TellsFault (F.contents faults.old) (F.contents faults.new)
        (F.has_failed faults.new) result }
{
    match flawed_text(alloc, flaw, script) {
        Ok(text) => match write_all(output, text.as_slice()) {
            Ok(()) => 0,
            Err(Failed) => report_fault(alloc, BenchFault::Write, faults),
        },
        Err(fault) => report_fault(alloc, fault, faults),
    }
}
