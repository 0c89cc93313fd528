//! How a program over scripts ends: the status of each fault, and the line that tells it.

ghost use Rattle.std.specs.Prelude.{◌≡◌, ◌≢◌, ◌⊎◌, false};
ghost use Rattle.std.specs.Io.KnownBytes.{Appends};
ghost use Rattle.std.specs.IoError.{error_kind};
ghost use Rattle.uni_script.specs.Ends.{AppendsPrefix};
ghost use Rattle.uni_script.specs.Statuses.{IsStatusOf, TellsFault, line_of_words, status_of};

use crate::ends::{TextOut, write_all};
use crate::fault::{BenchFault, push_fault};
use std::alloc::{AllocError, Global};
use std::io;
use std::io::ErrorKind;

/// Says what went wrong with a script, as far as the end takes it; the answer is the status that a program
/// ends with.
///
/// It is 2 for a bad script, 3 where the reader or the writer failed, 4 where memory was refused, and 5 where
/// the audit found a fault, which it never does. Where the text of a fault of a line is refused memory, that
/// is what is told, with its status.
pub fn report_fault<F: TextOut>(alloc: Global, fault: BenchFault, faults: &mut F) -> u8
    ensures status { IsStatusOf fault result }
    ensures told { TellsFault (F.contents faults.old) (F.contents faults.new) (F.has_failed faults.new) result }
{
    match fault {
        BenchFault::NoHeader(_)
        | BenchFault::BadHeader(_)
        | BenchFault::TooLong(_)
        | BenchFault::BadByte(_)
        | BenchFault::BadLine(_)
        | BenchFault::TooMany => report_line(alloc, fault, 2, faults),
        BenchFault::Audit(_) => report_line(alloc, fault, 5, faults),
        BenchFault::Read => {
            tell(faults, b"cannot read\n");
            3
        }
        BenchFault::Write => {
            tell(faults, b"cannot write\n");
            3
        }
        BenchFault::Memory => {
            tell(faults, b"out of memory\n");
            4
        }
    }
}

/// Says which fault a script or its audit has, whose status this is, or that memory was refused to its
/// text.
fn report_line<F: TextOut>(alloc: Global, fault: BenchFault, status: u8, faults: &mut F) -> u8
    requires { status ≡ status_of fault }
    ensures status { (result ≡ status) ⊎ (result ≡ 4) }
    ensures told { TellsFault (F.contents faults.old) (F.contents faults.new) (F.has_failed faults.new) result }
{
    let mut text = Vec::new(alloc);
    match push_fault(&mut text, fault) {
        Ok(()) => {
            tell(faults, text.as_slice());
            status
        }
        Err(AllocError) => {
            tell(faults, b"out of memory\n");
            4
        }
    }
}

/// Writes a line, as far as the end takes it.
pub fn tell<F: TextOut>(faults: &mut F, line: &[u8])
    ensures prefix { AppendsPrefix (F.contents faults.old) (F.contents faults.new) line.now }
    ensures whole { F.has_failed faults.new ≡ false
        → Appends (F.contents faults.old) (F.contents faults.new) line.now }
{
    let _ = write_all(faults, line);
}

/// Says why the words of a command line can't be had, as far as the end takes it; the answer is the status
/// that a program ends with: 4 where memory was refused, and 2 where a word isn't UTF-8.
pub fn refuse_words<F: TextOut>(error: &io::Error, faults: &mut F) -> u8
    ensures memory { error_kind error.now ≡ ErrorKind.OutOfMemory → result ≡ 4 }
    ensures other { error_kind error.now ≢ ErrorKind.OutOfMemory → result ≡ 2 }
    ensures prefix { AppendsPrefix (F.contents faults.old) (F.contents faults.new) (line_of_words result) }
    ensures whole { F.has_failed faults.new ≡ false
        → Appends (F.contents faults.old) (F.contents faults.new) (line_of_words result) }
{
    if error.kind() == ErrorKind::OutOfMemory {
        tell(faults, b"out of memory\n");
        return 4;
    }
    tell(faults, b"an argument is not UTF-8\n");
    2
}
