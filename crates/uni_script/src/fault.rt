//! What can go wrong with a script.

ghost use Rattle.std.specs.Prelude.{◌≡◌, ◌++◌, OnOk, Some};
ghost use Rattle.uni_script.specs.Fault.{fault_text, fault_line};

use std::alloc::AllocError;
use std::error::Error;
use std::fmt;
use std::io::Write;
use uni_record::Verdict;

/// Why the run of a script ended early. Lines are counted from 1.
#[derive(Clone, Copy, Debug, PartialEq, Eq)]
pub enum BenchFault {
    /// The script ended without a header; the number is that of its lines plus 1.
    NoHeader(u64),
    /// The first line that isn't a note is no header.
    BadHeader(u64),
    /// A line has more than 200 bytes.
    TooLong(u64),
    /// A line has a byte that isn't from 32 to 126.
    BadByte(u64),
    /// A line after the header is no command.
    BadLine(u64),
    /// There are more than 100,000 lines.
    TooMany,
    /// The reader answered an error.
    Read,
    /// The writer answered an error, or took no byte of some.
    Write,
    /// Memory was refused.
    Memory,
    /// The audit of the entries of all eras and of the returns found this. It never does.
    Audit(Verdict),
}

impl fmt::Display for BenchFault {
    ghost output = { λ fault. Some (fault_text fault) };

    fn fmt<W: fmt::Write>(&self, f: &mut fmt::Formatter<W>) -> fmt::Result {
        match self {
            BenchFault::NoHeader(line) => write!(f, "line {line}: no header"),
            BenchFault::BadHeader(line) => write!(f, "line {line}: bad header"),
            BenchFault::TooLong(line) => write!(f, "line {line}: too long"),
            BenchFault::BadByte(line) => write!(f, "line {line}: bad byte"),
            BenchFault::BadLine(line) => write!(f, "line {line}: bad line"),
            BenchFault::TooMany => write!(f, "line 100001: too many lines"),
            BenchFault::Read => write!(f, "cannot read"),
            BenchFault::Write => write!(f, "cannot write"),
            BenchFault::Memory => write!(f, "out of memory"),
            BenchFault::Audit(Verdict::Agrees) => write!(f, "audit: agrees"),
            BenchFault::Audit(Verdict::BadCall(place)) => write!(f, "audit: entry {place} call"),
            BenchFault::Audit(Verdict::BadReply(place)) => write!(f, "audit: entry {place} reply"),
            BenchFault::Audit(Verdict::Missing(call)) => write!(f, "audit: return {call} missing"),
            BenchFault::Audit(Verdict::BadReturn(call)) => write!(f, "audit: return {call} reply"),
            BenchFault::Audit(Verdict::Twice(call)) => write!(f, "audit: return {call} twice"),
        }
    }
}

impl Error for BenchFault {}

impl From<AllocError> for BenchFault {
    ghost use Rattle.std.specs.Prelude.{◌≡◌};
    ghost use Rattle.uni_script.specs.declared.fault.BenchFault.TheVariants.{Memory};

    ghost from_gives = { λ _ fault. fault ≡ Memory };

    fn from(_: AllocError) -> BenchFault {
        BenchFault::Memory
    }
}

/// Writes the text of a fault and the end of its line after a text.
///
/// An `Err` says that memory was refused.
pub fn push_fault(text: &mut Vec<u8>, fault: BenchFault) -> Result<(), AllocError>
    ensures { OnOk result (text.new.items ≡ text.old.items ++ fault_line fault) }
{
    writeln!(text, "{fault}").map_err(|_| AllocError)
}
