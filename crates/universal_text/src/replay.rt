//! The answers of a script.

ghost use Rattle.std.specs.Prelude.{◌≡◌, ◌⊎◌, ◌↔◌, ◌<◌, ◌≤◌, IsSome};
ghost use Rattle.std.specs.declared.option.Option.TheVariants.{None};
ghost use Rattle.uni_record.specs.Refusals.{IsHistoryLimit};
ghost use Rattle.uni_script.specs.Scripts.{scripts_of};
ghost use Rattle.uni_script.specs.Replay.{fault_of_script};
ghost use Rattle.universal_text.specs.Told.{IsTooLong, IsWritten, answer_to};

use crate::status::{BAD_HISTORY, DONE};
use crate::tell::{refuse, tell};
use run_layout::PictureFault;
use std::alloc::Global;
use uni_record::MAX_HISTORY;
use uni_script::{Checked, Echo, Options, bench};

/// Runs a script whose history can have so many events.
fn replay(alloc: Global, script: &[u8], history: u64, out: &mut [u8], written: &mut usize) -> u32
    requires { IsHistoryLimit history }
    ensures status { result ≤ 3 }
    ensures good { result ≡ 0 → fault_of_script (scripts_of history) script.now ≡ None }
    ensures bad { result ≡ 1 → IsSome (fault_of_script (scripts_of history) script.now) }
    ensures written { (result ≡ 0) ⊎ (result ≡ 1) →
        IsWritten (answer_to history script.now) out.old out.new written.new }
    ensures small { result ≡ 2 → IsTooLong (answer_to history script.now) out.old out.new written.new }
    ensures unchanged { result ≡ 3 → (out.new ≡ out.old) × (written.new ≡ written.old) }
{
    let mut answers = Checked::new(Vec::new(alloc));
    match bench(
        alloc,
        &mut Checked::new(script),
        &mut answers,
        &Options {
            history,
            echo: Echo::Off,
        },
    ) {
        Ok(_) => tell(DONE, answers.end().as_slice(), out, written),
        Err(fault) => refuse(alloc, PictureFault::Script(fault), out, written),
    }
}

/// Runs a script, whose history can have so many events, and writes its answers; or the line of its
/// first fault. How many bytes the text has is told.
///
/// 0: the answers are written. 1: the script has a fault, and its line is written. 2: there is less room
/// than the text takes, and nothing is written but its length. 3: memory was refused. 4: `history` isn't
/// from 1 to 16,777,216. After 3 and 4 nothing is written.
#[unsafe(no_mangle)]
pub extern "C" fn universal_replay(
    alloc: Global,
    script: &[u8],
    history: u64,
    out: &mut [u8],
    written: &mut usize,
) -> u32
    ensures history { (result ≡ 4) ↔ ((history ≡ 0) ⊎ (16777216 < history)) }
    ensures status { result ≤ 4 }
    ensures good { result ≡ 0 → fault_of_script (scripts_of history) script.now ≡ None }
    ensures bad { result ≡ 1 → IsSome (fault_of_script (scripts_of history) script.now) }
    ensures written { (result ≡ 0) ⊎ (result ≡ 1) →
        IsWritten (answer_to history script.now) out.old out.new written.new }
    ensures small { result ≡ 2 → IsTooLong (answer_to history script.now) out.old out.new written.new }
    ensures unchanged { 3 ≤ result → (out.new ≡ out.old) × (written.new ≡ written.old) }
{
    if history < 1 || history > MAX_HISTORY {
        return BAD_HISTORY;
    }
    replay(alloc, script, history, out, written)
}
