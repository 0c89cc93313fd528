//! Schedules: scripts that are drawn from words.

ghost use Rattle.std.specs.Prelude.{◌≡◌, ◌+◌, ◌<◌, ◌++◌, ◌⊎◌, ◌↔◌, ℕ, true, false};
ghost use Rattle.std.specs.Prelude.{IfErr, IsErrOf, OnOk};
ghost use Rattle.std.specs.Io.KnownBytes.{Appends};
ghost use Rattle.uni_script.specs.Ends.{AppendsPrefix};
ghost use Rattle.uni_script.specs.Objects.{spoken_of};
ghost use Rattle.uni_script.specs.Schedules.{IsPlan, header_line, call_line, event_line, words_of_event, event_lines};
ghost use Rattle.uni_script.specs.Schedules.{words_of_events, finish_lines, schedule_text};

use crate::ends::{TextOut, write_all};
use crate::fault::BenchFault;
use crate::grammar::ObjectName;
use rand_xoshiro::Xoshiro256PlusPlus;
use rand_xoshiro::rand_core::utils::NextWord;
use ready_objects::{BookObject, DirectoryObject, QueueObject, Spoken, StickyObject};
use std::alloc::{AllocError, Global};
use std::io::Write;

/// Where the words of a schedule are drawn from.
pub trait Drawn {
    /// The words that it will give, from number 0 on.
    ghost word: { Self → ℕ → ℕ };

    /// Gives the next word.
    fn draw(&mut self) -> u64
        ensures next { result ≡ word self.old 0 }
        ensures rest { (i : ℕ) → word self.new i ≡ word self.old (1 + i) };
}

impl Drawn for Xoshiro256PlusPlus {
    ghost use Rattle.uni_script.specs.Schedules.{xoshiro_word};

    ghost word = { xoshiro_word };

    fn draw(&mut self) -> u64 {
        self.next_word()
    }
}

/// What a schedule is to be.
#[derive(Clone, Copy, Debug, PartialEq, Eq)]
pub struct Plan {
    /// What the processes share.
    pub object: ObjectName,
    /// How many processes there are, from 1 to 64.
    pub processes: u64,
    /// How many calls each process can make, from 1 to 4096.
    pub row: u64,
    /// How many events are drawn, from 1 to 99000.
    pub events: u64,
}

/// Writes the schedule that the words of a source stand for, by a plan.
///
/// An `Err` is `Write` where the text couldn't be written, and then a prefix of it is; or `Memory`, and
/// then nothing is written.
pub fn schedule<D: Drawn, W: TextOut>(
    alloc: Global,
    source: &mut D,
    writer: &mut W,
    plan: &Plan,
) -> Result<(), BenchFault>
    requires plan { IsPlan plan.now }
    requires writer { W.has_failed writer.old ≡ false }
    ensures text { OnOk result (Appends (W.contents writer.old) (W.contents writer.new)
        (schedule_text plan.now (D.word source.old))) }
    ensures drawn { OnOk result ((i : ℕ) → D.word source.new i
        ≡ D.word source.old (words_of_events (D.word source.old) 0 plan.now.events + i)) }
    ensures prefix { AppendsPrefix (W.contents writer.old) (W.contents writer.new)
        (schedule_text plan.now (D.word source.old)) }
    ensures faults { IfErr result (λ e. (e ≡ BenchFault.Write) ⊎ (e ≡ BenchFault.Memory)) }
    ensures writer { IsErrOf result BenchFault.Write ↔ (W.has_failed writer.new ≡ true) }
    ensures kept { IsErrOf result BenchFault.Memory → writer.new ≡ writer.old }
{
    let mut text = Vec::new(alloc);
    let Ok(()) = push_schedule(source, plan, &mut text) else {
        return Err(BenchFault::Memory);
    };
    match write_all(writer, text.as_slice()) {
        Ok(()) => Ok(()),
        Err(_) => Err(BenchFault::Write),
    }
}

/// Writes a schedule after a text.
///
/// An `Err` says that memory was refused.
fn push_schedule<D: Drawn>(
    source: &mut D,
    plan: &Plan,
    text: &mut Vec<u8>,
) -> Result<(), AllocError>
    requires { IsPlan plan.now }
    ensures text { OnOk result (text.new.items ≡ text.old.items ++ schedule_text plan.now (D.word source.old)) }
    ensures drawn { OnOk result ((i : ℕ) → D.word source.new i
        ≡ D.word source.old (words_of_events (D.word source.old) 0 plan.now.events + i)) }
{
    push_header(plan, text)?;
    push_drawn(source, plan, text)?;
    push_finishes(plan.processes, text)?;
    writeln!(text, "log").map_err(|_| AllocError)
}

/// Writes the header of a schedule after a text.
///
/// An `Err` says that memory was refused.
fn push_header(plan: &Plan, text: &mut Vec<u8>) -> Result<(), AllocError>
    ensures { OnOk result (text.new.items ≡ text.old.items ++ header_line plan.now) }
{
    let version = if plan.processes <= 16 { 1 } else { 2 };
    writeln!(
        text,
        "universal {version} {} {} {}",
        plan.object, plan.processes, plan.row
    )
    .map_err(|_| AllocError)
}

/// Writes the lines of the events of a schedule after a text.
///
/// An `Err` says that memory was refused.
fn push_drawn<D: Drawn>(source: &mut D, plan: &Plan, text: &mut Vec<u8>) -> Result<(), AllocError>
    requires { IsPlan plan.now }
    ensures text { OnOk result (text.new.items
        ≡ text.old.items ++ event_lines (spoken_of plan.now.object).language plan.now.processes
        (D.word source.old) 0 plan.now.events) }
    ensures drawn { OnOk result ((i : ℕ) → D.word source.new i
        ≡ D.word source.old (words_of_events (D.word source.old) 0 plan.now.events + i)) }
{
    let processes = plan.processes;
    let events = plan.events;
    match plan.object {
        ObjectName::Queue => push_events::<QueueObject, D>(source, processes, events, text),
        ObjectName::Directory => {
            push_events::<DirectoryObject, D>(source, processes, events, text)
        }
        ObjectName::Book => push_events::<BookObject, D>(source, processes, events, text),
        ObjectName::Sticky => { push_events::<StickyObject, D>(source, processes, events, text) }
    }
}

/// Writes the lines of so many events after a text.
///
/// An `Err` says that memory was refused.
fn push_events<O: Spoken, D: Drawn>(
    source: &mut D,
    processes: u64,
    events: u64,
    text: &mut Vec<u8>,
) -> Result<(), AllocError>
    requires { 0 < processes }
    ensures text { OnOk result (text.new.items
        ≡ text.old.items ++ event_lines O.language processes (D.word source.old) 0 events) }
    ensures drawn { OnOk result ((i : ℕ) → D.word source.new i
        ≡ D.word source.old (words_of_events (D.word source.old) 0 events + i)) }
{
    for _ in 0..events {
        push_event::<O, D>(source, processes, text)?;
    }
    Ok(())
}

/// Writes the line of an event after a text.
///
/// An `Err` says that memory was refused.
fn push_event<O: Spoken, D: Drawn>(
    source: &mut D,
    processes: u64,
    text: &mut Vec<u8>,
) -> Result<(), AllocError>
    requires { 0 < processes }
    ensures text { OnOk result (text.new.items
        ≡ text.old.items ++ event_line O.language processes (D.word source.old 0) (D.word source.old 1)) }
    ensures drawn { OnOk result ((i : ℕ) → D.word source.new i
        ≡ D.word source.old (words_of_event (D.word source.old 0) + i)) }
{
    let word = source.draw();
    let kind = word % 16;
    let process = word / 16 % processes;
    if kind == 0 {
        writeln!(text, "trim").map_err(|_| AllocError)
    } else if kind <= 3 {
        push_call::<O>(process, source.draw(), text)
    } else {
        writeln!(text, "step {process}").map_err(|_| AllocError)
    }
}

/// Writes the line of the call of a process that a drawn word stands for after a text.
///
/// An `Err` says that memory was refused.
fn push_call<O: Spoken>(process: u64, word: u64, text: &mut Vec<u8>) -> Result<(), AllocError>
    ensures { OnOk result (text.new.items ≡ text.old.items ++ call_line O.language process word) }
{
    write!(text, "call {process} ").map_err(|_| AllocError)?;
    O::push_inv(text, &O::drawn(word))?;
    text.extend_from_slice(b"\n")
}

/// Writes a line that ends the call of each process after a text.
///
/// An `Err` says that memory was refused.
fn push_finishes(processes: u64, text: &mut Vec<u8>) -> Result<(), AllocError>
    ensures { OnOk result (text.new.items ≡ text.old.items ++ finish_lines processes) }
{
    for process in 0..processes {
        writeln!(text, "finish {process}").map_err(|_| AllocError)?;
    }
    Ok(())
}
