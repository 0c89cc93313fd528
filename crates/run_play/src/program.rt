//! The program over its ends, and its statuses.

ghost use Rattle.std.specs.Prelude.{◌≡◌, ◌≢◌, ◌⊎◌, ℕ, List, true, false};
ghost use Rattle.std.specs.Io.KnownBytes.{Appends};
ghost use Rattle.run_play.specs.Fault.{IsStatusOfPlay, TellsPlayFault};
ghost use Rattle.run_play.specs.Play.{IsPlayed};

use crate::fault::PlayFault;
use crate::page::page_of;
use std::alloc::Global;
use uni_script::{BenchFault, Failed, TextIn, TextOut, report_fault, tell, write_all};

/// Writes the page of all schedules of the calls of the script on `input` to `output`, with the text of a goal, which
/// is empty where there is none; the answer is the status that the program ends with.
///
/// The status is 0 where all went well; 2 for a bad script, or one that has no page; 3 where `input` or `output`
/// failed; 4 where memory was refused. The text that says so goes to `faults`, as far as that takes it.
pub fn run<I: TextIn, O: TextOut, F: TextOut>(
    alloc: Global,
    goal: &[u8],
    input: &mut I,
    output: &mut O,
    faults: &mut F,
) -> u8
    requires input { I.has_failed input.old ≡ false }
    requires output { O.has_failed output.old ≡ false }
    ensures played { result ≡ 0 → (page : List ℕ) × IsPlayed goal.now (I.remaining input.old) page
        × Appends (O.contents output.old) (O.contents output.new) page }
    ensures refused { (result ≡ 2) ⊎ (result ≡ 4) → output.new ≡ output.old }
    ensures written { O.has_failed output.new ≡ true → result ≡ 3 }
    ensures silent { result ≡ 0 → faults.new ≡ faults.old }
    ensures told { result ≢ 0 → TellsPlayFault (F.contents faults.old) (F.contents faults.new)
        (F.has_failed faults.new) result }
{
    match page_of(alloc, goal, input) {
        Ok(page) => match write_all(output, page.as_slice()) {
            Ok(()) => 0,
            Err(Failed) => report(alloc, PlayFault::Script(BenchFault::Write), faults),
        },
        Err(fault) => report(alloc, fault, faults),
    }
}

/// Says why there is no page, as far as the end takes it; the answer is the status. Where the text of a fault of the
/// script is refused memory, that is what is told, with its status.
fn report<F: TextOut>(alloc: Global, fault: PlayFault, faults: &mut F) -> u8
    ensures status { IsStatusOfPlay fault result }
    ensures told { TellsPlayFault (F.contents faults.old) (F.contents faults.new) (F.has_failed faults.new) result }
{
    match fault {
        PlayFault::Script(fault) => report_fault(alloc, fault, faults),
        PlayFault::Refused => {
            tell(faults, b"a command of the script is refused\n");
            2
        }
        PlayFault::Eras => {
            tell(faults, b"the script has more than one era\n");
            2
        }
        PlayFault::TooManyWorlds => {
            tell(faults, b"there are more than 20,000 worlds\n");
            2
        }
    }
}
