//! A script over a stack, replayed, drawn and told: what `unibench replay --echo`, `unidraw --text` and
//! `unidraw --steps` do over the objects that have names. Process 1 announces a push and stops; process 0 makes a call
//! of its own, and does the other one's on the way.
#![tactic(auto)]

ghost use Rattle.std.specs.Prelude.{◌≡◌, false};

use run_layout::Range;
use run_lines::{COLUMNS, lines_of_object};
use run_tell::{InWords, tell_record};
use stack::Stack;
use std::alloc::Global;
use std::process::ExitCode;
use uni_script::{Checked, Echo, Options, TextOut, bench_object, run_of_object, write_all};

/// The script. Its header names the object by a word that this program chooses.
const SCRIPT: &[u8] = b"\
# process 0 helps process 1
universal 2 stack 2 8
call 1 push 5
step 1
call 0 pop
finish 0
log
";

/// Writes what the script answers, each line of it before its answers, then its run as lines, and then each step of it,
/// with what that changed in the memory.
///
/// `None` where the script has a fault, the output failed or memory was refused.
fn show<W: TextOut>(alloc: Global, output: &mut W) -> Option<()>
    requires { W.has_failed output.old ≡ false }
{
    let options = Options {
        history: 1000,
        echo: Echo::On,
    };
    let mut script = Checked::new(SCRIPT);
    bench_object(alloc, Stack, "stack", &mut script, output, &options).ok()?;
    let lines = lines_of_object(
        alloc,
        Stack,
        "stack",
        Range::all(),
        COLUMNS,
        &mut Checked::new(SCRIPT),
    )
    .ok()?;
    write_all(output, lines.as_slice()).ok()?;
    let run = run_of_object(alloc, Stack, "stack", &mut Checked::new(SCRIPT), &options).ok()?;
    tell_record::<InWords, _, _>(
        alloc,
        Range::all(),
        "stack",
        &run.record,
        &run.lines,
        &run.remarks,
        output,
    )
    .ok()
}

fn main(rt: HostRuntime) -> ExitCode {
    let alloc = rt.alloc();
    let mut output = Checked::new(rt.stdout());
    match show(alloc, &mut output) {
        Some(()) => ExitCode::from(0),
        None => ExitCode::from(1),
    }
}
