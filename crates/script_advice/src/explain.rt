//! A fault of a script, told with why its line is bad.

ghost use Rattle.std.specs.Prelude.{◌≡◌, ◌++◌, ℕ, List, None, IfOk, IsSome};
ghost use Rattle.uni_script.specs.Fault.{fault_line};
ghost use Rattle.uni_script.specs.Statuses.{IsStatusOf, TellsFault, status_of};
ghost use Rattle.script_advice.specs.Told.{TellsMore};

use crate::reasons::explanation;
use std::alloc::{AllocError, Global};
use uni_script::{BenchFault, Failed, TextIn, TextOut, push_fault, report_fault, tell};

/// A reader that can keep what is read from it.
pub trait KeepsText: TextIn {
    ghost use Rattle.std.specs.Prelude.{◌≡◌};

    /// Keeps what is read from now on, as long as it isn't refused memory.
    fn keep(&mut self, alloc: Global)
        ensures remaining { Self.remaining self.new ≡ Self.remaining self.old }
        ensures failed { Self.has_failed self.new ≡ Self.has_failed self.old };

    /// What was read since then; `None` where it isn't kept, or memory was refused to it.
    fn kept(&self) -> Option<&[u8]>;
}

/// A reader, and what is kept of what is read from it.
#[derive(Drop)]
pub struct Kept<I: Drop> {
    /// The reader.
    pub end: I,
    /// What was read; `None` where it isn't kept.
    pub text: Option<Vec<u8>>,
}

impl<I: Drop> Kept<I> {
    /// A reader of which nothing is kept yet.
    pub fn new(end: I) -> Kept<I>
        ensures { result.end ≡ end }
    {
        Kept { end, text: None }
    }
}

impl<I: TextIn + Drop> TextIn for Kept<I> {
    ghost remaining = { λ kept. I.remaining kept.end };

    ghost has_failed = { λ kept. I.has_failed kept.end };

    fn read(&mut self, buffer: &mut [u8]) -> Result<usize, Failed> {
        let count = self.end.read(&mut *buffer)?;
        if let Some(text) = &mut self.text {
            if text.extend_from_slice(&buffer[..count]).is_err() {
                self.text = None;
            }
        }
        Ok(count)
    }

    fn failed(&self) -> bool {
        self.end.failed()
    }
}

impl<I: TextIn + Drop> KeepsText for Kept<I> {
    fn keep(&mut self, alloc: Global) {
        self.text = Some(Vec::new(alloc));
    }

    fn kept(&self) -> Option<&[u8]> {
        match &self.text {
            Some(text) => Some(text.as_slice()),
            None => None,
        }
    }
}

/// The number of the line that a fault of a script names; `None` where it names none.
fn line_of(fault: BenchFault) -> Option<u64>
    ensures { IsSome result → status_of fault ≡ 2 }
{
    match fault {
        BenchFault::NoHeader(line)
        | BenchFault::BadHeader(line)
        | BenchFault::TooLong(line)
        | BenchFault::BadByte(line)
        | BenchFault::BadLine(line) => Some(line),
        BenchFault::TooMany => Some(100_001),
        BenchFault::Read | BenchFault::Write | BenchFault::Memory | BenchFault::Audit(_) => None,
    }
}

/// The line of a fault, and after it why this line of a script is bad.
///
/// An `Err` says that memory was refused.
fn explained(
    alloc: Global,
    fault: BenchFault,
    line: u64,
    script: &[u8],
) -> Result<Vec<u8>, AllocError>
    ensures { IfOk result (λ text. (more : List ℕ) × (text.items ≡ fault_line fault ++ more)) }
{
    let more = explanation(alloc, script, line)?;
    let mut text = Vec::new(alloc);
    push_fault(&mut text, fault)?;
    text.extend_from_slice(more.as_slice())?;
    Ok(text)
}

/// Says what went wrong with a script and, of a line of it, why, as far as the end takes it; the answer is the
/// status. Where the script isn't known, or memory is refused to the explanation, the fault alone is told.
pub fn report_explained<F: TextOut>(
    alloc: Global,
    fault: BenchFault,
    script: Option<&[u8]>,
    faults: &mut F,
) -> u8
    ensures status { IsStatusOf fault result }
    ensures told { TellsMore (F.contents faults.old) (F.contents faults.new) (F.has_failed faults.new) result }
    ensures alone { script.entry ≡ None → TellsFault (F.contents faults.old) (F.contents faults.new)
        (F.has_failed faults.new) result }
{
    let Some(script) = script else {
        return report_fault(alloc, fault, faults);
    };
    let Some(line) = line_of(fault) else {
        return report_fault(alloc, fault, faults);
    };
    match explained(alloc, fault, line, script) {
        Ok(text) => {
            tell(faults, text.as_slice());
            2
        }
        Err(AllocError) => report_fault(alloc, fault, faults),
    }
}
