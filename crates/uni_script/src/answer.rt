//! What is written in answer to a line of a script.

ghost use Rattle.std.specs.Prelude.{◌≡◌, ◌++◌, ◌+◌, ◌%◌, OnOk, Some, decimal};
ghost use Rattle.uni_script.specs.Answer.{call_text, called_text, progress_text, refusal_text};

use ready_objects::push_number;
use seq_object::CallId;
use std::alloc::AllocError;
use std::fmt;

/// A command that the construction refused, with the number as the script gave it.
#[derive(Clone, Copy)]
pub enum Refusal {
    /// There is no such process.
    Process(u64),
    /// The process has a call that hasn't returned.
    Busy(u64),
    /// The process has made as many calls as its row has cells.
    Row(u64),
    /// The process has no call.
    Idle(u64),
    /// A call of this process, the least of such, hasn't returned.
    Pending(u64),
    /// The numbers of a further era don't fit.
    Sequence,
    /// The history has no room.
    History,
    /// There can't be so many processes.
    Count(u64),
}

impl fmt::Display for Refusal {
    ghost output = { λ refusal. Some (refusal_text refusal) };

    fn fmt<W: fmt::Write>(&self, f: &mut fmt::Formatter<W>) -> fmt::Result {
        match self {
            Refusal::Process(process) => write!(f, "refused process {process}"),
            Refusal::Busy(process) => write!(f, "refused busy {process}"),
            Refusal::Row(process) => write!(f, "refused row {process}"),
            Refusal::Idle(process) => write!(f, "refused idle {process}"),
            Refusal::Pending(process) => write!(f, "refused pending {process}"),
            Refusal::Sequence => write!(f, "refused sequence"),
            Refusal::History => write!(f, "refused history"),
            Refusal::Count(count) => write!(f, "refused count {count}"),
        }
    }
}

/// The answer to a command.
#[derive(Clone, Copy)]
pub enum Answer<R> {
    /// A call began.
    Called(CallId),
    /// The command was refused.
    Refused(Refusal),
    /// The call returned.
    Returned {
        /// The call.
        call: CallId,
        /// Its response.
        response: R,
        /// How many steps it took.
        steps: u64,
        /// How many turns it took.
        turns: u64,
    },
    /// The call goes on.
    Going {
        /// The call.
        call: CallId,
        /// How many steps it has taken.
        steps: u64,
        /// How many turns it has taken.
        turns: u64,
    },
    /// The era ended; the number is that of the new anchor.
    Trimmed(u64),
    /// The era ended, and there is another number of processes.
    Reshaped {
        /// How many there are.
        count: u64,
        /// The number of the new anchor.
        number: u64,
    },
    /// The heads are told.
    Heads,
    /// The log is told.
    Log,
}

/// Writes the line of a call that began after a text.
///
/// An `Err` says that memory was refused.
pub(crate) fn push_called(text: &mut Vec<u8>, call: CallId) -> Result<(), AllocError>
    ensures { OnOk result (text.new.items ≡ text.old.items ++ called_text call) }
{
    text.extend_from_slice(b"called ")?;
    push_call(text, call)?;
    text.extend_from_slice(b"\n")
}

/// Writes how far a call has come, and the end of the line, after a text.
///
/// An `Err` says that memory was refused.
pub(crate) fn push_progress(text: &mut Vec<u8>, steps: u64, turns: u64) -> Result<(), AllocError>
    ensures { OnOk result (text.new.items ≡ text.old.items ++ progress_text steps turns) }
{
    text.extend_from_slice(b" steps ")?;
    push_count(text, steps)?;
    text.extend_from_slice(b" turns ")?;
    push_count(text, turns)?;
    text.extend_from_slice(b"\n")
}

/// Writes the name of a call after a text.
///
/// An `Err` says that memory was refused.
pub(crate) fn push_call(text: &mut Vec<u8>, call: CallId) -> Result<(), AllocError>
    ensures { OnOk result (text.new.items ≡ text.old.items ++ call_text call) }
{
    push_count(text, u64::from(call.process))?;
    text.extend_from_slice(b".")?;
    push_count(text, call.nth)
}

/// Writes a number after a text, in decimal. One of up to three digits is written at once.
///
/// An `Err` says that memory was refused.
fn push_count(text: &mut Vec<u8>, number: u64) -> Result<(), AllocError>
    ensures { OnOk result (text.new.items ≡ text.old.items ++ decimal number) }
{
    let tens = number / 10;
    if number < 10 {
        text.extend_from_slice(&[digit(number)])
    } else if number < 100 {
        text.extend_from_slice(&[digit(tens), digit(number)])
    } else if number < 1000 {
        text.extend_from_slice(&[digit(tens / 10), digit(tens), digit(number)])
    } else {
        push_number(text, number)
    }
}

/// The last digit of a number.
fn digit(number: u64) -> u8
    ensures { result ≡ 48 + number % 10 }
{
    b'0' + (number % 10) as u8
}
