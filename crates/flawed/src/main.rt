//! The script on standard input, on a world with the flaw that the argument names: the answers are written, and what
//! broke. The first line says that this is not the proved construction.
#![tactic(auto)]

use course_run::{Flaw, flawed_text, read_text, run_flawed};
use script_advice::report_explained;
use std::alloc::Global;
use std::env::Env;
use std::process::ExitCode;
use std::{env, io};
use uni_script::{Checked, refuse_words, report_fault, tell};

/// What the program does, which flaws there are, and how it ends.
const HELP: &[u8] = b"\
Runs the script on standard input on a construction that is wrong

Usage: flawed FLAW < SCRIPT

Flaws:
  nothing        a plain world that has no flaw
  never-helps    it never helps
  helps-blindly  it helps without looking at the helped number
  number-first   it writes the number before the state is settled
  last-wins      it lets the last proposal win
  newest-reply   it takes the reply from the newest state
  trims-pending  it trims with a call pending

Status:
  0 where all went well, 2 for a bad command line or script, 3 where the input or
  the output failed, 4 where memory was refused.
";

/// What is told of words that name no flaw.
const NO_FLAW: &[u8] = b"\
error: one flaw is wanted
  [flaws: nothing, never-helps, helps-blindly, number-first, last-wins, newest-reply, trims-pending]

Usage: flawed FLAW < SCRIPT

For more information, try '--help'.
";

/// What the words ask for.
#[derive(Clone, Copy)]
enum Request {
    /// The help.
    Help,
    /// A run with this flaw.
    Flaw(Flaw),
}

/// What the words ask for; `None` where they name no flaw.
///
/// An `Err` says that memory was refused, or that a word isn't UTF-8.
fn request_of<R: Env + Alloc<A = Global>>(rt: &R) -> io::Result<Option<Request>> {
    let words: Vec<String> = env::args(rt)?.collect(rt.alloc())?;
    match words.as_slice() {
        [_, word] if matches!(word.as_str(), "--help" | "-h" | "help") => Ok(Some(Request::Help)),
        [_, word] => Ok(Flaw::named(word.as_str()).map(Request::Flaw)),
        _ => Ok(None),
    }
}

/// Runs the script on standard input on a world with a flaw; the answer is the status.
fn run(rt: &HostRuntime, flaw: Flaw) -> u8 {
    let mut output = Checked::new(rt.stdout());
    let mut faults = Checked::new(rt.stderr());
    let script = match read_text(rt.alloc(), rt.stdin()) {
        Ok(script) => script,
        Err(fault) => return report_fault(rt.alloc(), fault, &mut faults),
    };
    let script = script.as_slice();
    match flawed_text(rt.alloc(), flaw, script) {
        Ok(_) => run_flawed(rt.alloc(), flaw, script, &mut output, &mut faults),
        // The script's first fault, and the reason.
        Err(fault) => report_explained(rt.alloc(), fault, Some(script), &mut faults),
    }
}

fn main(rt: HostRuntime) -> ExitCode {
    match request_of(&rt) {
        Ok(Some(Request::Flaw(flaw))) => ExitCode::from(run(&rt, flaw)),
        Ok(Some(Request::Help)) => {
            tell(&mut Checked::new(rt.stdout()), HELP);
            ExitCode::SUCCESS
        }
        Ok(None) => {
            tell(&mut Checked::new(rt.stderr()), NO_FLAW);
            ExitCode::from(2)
        }
        Err(error) => ExitCode::from(refuse_words(&error, &mut Checked::new(rt.stderr()))),
    }
}
