//! The language of scripts, as the program prints it.

ghost use Rattle.std.specs.Prelude.{◌≡◌, ◌≢◌, ◌⊎◌, false};
ghost use Rattle.unibench_run.specs.Runs.{IsLanguageRun};
ghost use Rattle.unibench_run.specs.Language.{language_text};
ghost use Rattle.uni_script.specs.Statuses.{TellsFault};

use std::alloc::Global;
use uni_script::{BenchFault, Failed, ObjectName, TextOut, report_fault, write_all};

/// The lines of a script, the calls of each object and the refusals.
pub(crate) const LANGUAGE: &str = "\
A script is lines of at most 200 bytes, each from 32 to 126, and at most 100000
of them. A line that is empty or begins with # is a note. All other lines are
words, with one space between two. P, M, V, A, B and I are numbers of 1 to 12
digits without a leading zero, and a NAME is 1 to 16 of a to z and 0 to 9.

The first line that is no note is the header. N processes share the object, and
each can make K calls in an era, 1 to 4096:

  universal 1 OBJECT N K    N is from 1 to 16
  universal 2 OBJECT N K    N is from 1 to 64

Each further line is a command, of process P from 0 to N - 1. C counts the calls
of a process from 0, and S and T are the steps and turns of the call so far:

  call P WORDS    called P.C
  step P M        returned P.C REPLY steps S turns T
                  or, where M steps, 1 to 1000, weren't enough:
                  going P.C steps S turns T
  step P          as step P 1
  finish P        as step P M with M of 10 N + 12, which is always enough
  trim            trimmed S: the era ends, and S is the number of its last cell
  reshape M       reshaped M at S: as trim, and N is M; in version 2 only
  log             NUMBER P.C WORDS -> REPLY for each call of the list
  heads           heads, and the number of each process's head

The WORDS of each object, and the REPLY:

  queue       enq V           ok, or full at 1000 numbers
              deq             the first number, or empty
  directory   put NAME V      new, or was and the old number, or full at 256
              get NAME        its number, or none
              del NAME        its number, or none
              size            how many names there are
              at I            the number at place I, 0 to 255, or none
  book        deposit A V     the balance of account A, 0 to 15, or over
              withdraw A V    the balance, or short
              move A B V      moved, or short, or over
              total           the sum of the balances
  sticky      stick V         the number that is settled
              read            the number that is settled, or unset

A command that can't be done is answered and changes nothing:

  refused process P    there is no process P
  refused busy P       P has a call pending
  refused row P        P has made K calls in this era
  refused idle P       P has no call pending
  refused pending P    trim and reshape: P has a call pending
  refused sequence     trim and reshape: the numbers would pass 2^48 - 1
  refused history      the history has no room for its events (--history)
  refused count M      reshape: M isn't from 1 to 64

The last line of the answers is end.
";

/// The calls of a queue.
pub(crate) const QUEUE: &str = "\
A queue starts empty, and has at most 1000 numbers. V is a number from 0 to
999999999999, without a leading zero.

  call P enq V           V goes last: ok, or full
  call P deq             the first number is taken out: V, or empty
";

/// The calls of a directory.
pub(crate) const DIRECTORY: &str = "\
A directory starts empty, and has a number for each of at most 256 names, in the
order in which they came. A NAME is 1 to 16 of a to z and 0 to 9, and V is a
number from 0 to 999999999999, without a leading zero.

  call P put NAME V      NAME has V: new, or was and the old number, or full
  call P get NAME        the number of NAME, or none
  call P del NAME        NAME is taken out: its number, or none
  call P size            how many names there are
  call P at I            the number at place I, 0 to 255, or none
";

/// The calls of a book of accounts.
pub(crate) const BOOK: &str = "\
A book has sixteen accounts, A and B from 0 to 15. Each balance starts as 0, and
none is above 999999999999. V is a number from 0 to 999999999999, without a
leading zero.

  call P deposit A V     the new balance of A, or over
  call P withdraw A V    the new balance of A, or short
  call P move A B V      V goes from A to B: moved, or short, or over
  call P total           the sum of the balances
";

/// The calls of a sticky register.
pub(crate) const STICKY: &str = "\
A sticky register starts unset, and the first number settles it for good. V is a
number from 0 to 999999999999, without a leading zero.

  call P stick V         the number that is settled: V, where none was
  call P read            the number that is settled, or unset
";

/// The calls of an object or, where none is named, the whole language.
fn language_text(object: Option<ObjectName>) -> &'static str
    ensures { result.now ≡ language_text object }
{
    match object {
        None => LANGUAGE,
        Some(ObjectName::Queue) => QUEUE,
        Some(ObjectName::Directory) => DIRECTORY,
        Some(ObjectName::Book) => BOOK,
        Some(ObjectName::Sticky) => STICKY,
    }
}

/// Writes the calls of an object or, where none is named, the whole language to `output`; the answer is the status.
///
/// The status is 0 where all went well, and 3 where `output` failed; the text that says so goes to `faults`, as far as
/// that takes it.
pub(crate) fn write_language<O: TextOut, F: TextOut>(
    alloc: Global,
    object: Option<ObjectName>,
    output: &mut O,
    faults: &mut F,
) -> u8
    requires output { O.has_failed output.old ≡ false }
    ensures run { IsLanguageRun object (O.contents output.old) (O.contents output.new)
        (O.has_failed output.new) result }
    ensures silent { result ≡ 0 → faults.new ≡ faults.old }
    ensures told { result ≢ 0 → TellsFault (F.contents faults.old) (F.contents faults.new)
        (F.has_failed faults.new) result }
{
    match write_all(output, language_text(object).as_bytes()) {
        Ok(()) => 0,
        Err(Failed) => report_fault(alloc, BenchFault::Write, faults),
    }
}
