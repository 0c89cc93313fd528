//! The answer to words that ask for no run.

ghost use Rattle.std.specs.Prelude.{◌≡◌, ◌≢◌, ◌⊎◌, ◌↔◌, false, true, OnOk, OnErr};
ghost use Rattle.std.specs.Io.KnownBytes.{Appends};
ghost use Rattle.clap.specs.Values.{kind_of};
ghost use Rattle.uni_script.specs.Statuses.{TellsFault};

use clap::error::ErrorKind;
use std::alloc::Global;
use std::fmt;
use std::fmt::{Display, Write};
use uni_script::{BenchFault, Failed, TextOut, report_fault, tell, write_all};

/// Writes what `clap` has to say of words that ask for no run; the answer is the status that the program ends with.
///
/// Help and the version go to `output`, with status 0, or 3 where that fails. Any other text goes to `faults`, as far
/// as that takes it, with the tip after it where there is one, and the status is 2, or 4 where memory was refused.
pub fn answer_words<O: TextOut, F: TextOut>(
    alloc: Global,
    error: &clap::Error,
    tip: Option<&str>,
    output: &mut O,
    faults: &mut F,
) -> u8
    requires output { O.has_failed output.old ≡ false }
    ensures statuses { ((result ≡ 0) ⊎ (result ≡ 2)) ⊎ ((result ≡ 3) ⊎ (result ≡ 4)) }
    ensures memory { kind_of error.now ≡ ErrorKind.OutOfMemory ↔ result ≡ 4 }
    ensures kept { result ≡ 4 → output.new ≡ output.old }
    ensures told { result ≡ 4 → TellsFault (F.contents faults.old) (F.contents faults.new)
        (F.has_failed faults.new) result }
    ensures refused { kind_of error.now ≢ ErrorKind.DisplayHelp → kind_of error.now ≢ ErrorKind.DisplayVersion
        → ((result ≡ 2) ⊎ (result ≡ 4)) × (output.new ≡ output.old) }
    ensures written { O.has_failed output.new ≡ true ↔ result ≡ 3 }
    ensures good { result ≡ 0 → O.has_failed output.new ≡ false }
    ensures silent { result ≡ 0 → faults.new ≡ faults.old }
{
    if error.kind() == ErrorKind::OutOfMemory {
        return report_fault(alloc, BenchFault::Memory, faults);
    }
    if error.use_stderr() {
        let _ = print(faults, error);
        if let Some(tip) = tip {
            tell(faults, tip.as_bytes());
        }
        return 2;
    }
    match print(output, error) {
        Ok(()) => 0,
        Err(Failed) => report_fault(alloc, BenchFault::Write, faults),
    }
}

/// An end as a writer of text.
#[derive(Drop)]
struct Printer<'a, T> {
    end: &'a mut T,
}

impl<T: TextOut> fmt::Write for Printer<'_, T> {
    ghost write_str_gives = { λ old text new. Appends (T.contents old.end.now) (T.contents new.end.now) text };

    fn write_str(&mut self, text: &str) -> fmt::Result {
        write_all(&mut *self.end, text.as_bytes()).map_err(|_| fmt::Error)
    }
}

/// Writes the text of a value. An `Err` says that the end has failed.
fn print<T: TextOut, D: Display + Drop>(end: &mut T, value: D) -> Result<(), Failed>
    ensures ok { OnOk result (T.has_failed end.new ≡ false) }
    ensures err { OnErr result (T.has_failed end.new ≡ true) }
{
    let mut printer = Printer { end: &mut *end };
    let _ = printer.write(value);
    if end.failed() { Err(Failed) } else { Ok(()) }
}
