//! Whether the script on standard input meets the goal whose file the argument names: `met` is written, with status 0,
//! or the first line of the goal that isn't met, with status 1.
#![tactic(auto)]

use course_run::{goal_in, read_text, run_goal, steps_of};
use script_advice::report_explained;
use std::alloc::Global;
use std::env::Env;
use std::process::ExitCode;
use std::{env, io};
use uni_script::{Checked, refuse_words, report_fault, tell};

/// What the program does, and how it ends.
const HELP: &[u8] = b"\
Judges the script on standard input by a goal

Usage: goal GOAL < SCRIPT

GOAL is a file. An empty line of it, and one that begins with `#`, is a note. Each
other line asks for one thing:

  no refusals          no command is refused
  at most N lines      the script has at most N lines, notes aside
  log P.M before Q.L   a log that was answered has call P.M, and Q.L after it
  order TEXT|TEXT|..   lines of the answers are these, in this order
  script TEXT          a line of the script is TEXT
  PTEXT                a step of the run is PTEXT, as `unidraw --steps` tells it, without
                       its number: P1  L  proposes 1.0 for anchor.after: won.
  no PTEXT             no step is
  TEXT                 a line of the answers is TEXT

The first `..` in a TEXT stands for any text, or none. Blanks at a line's end don't
count. A run of more than 2,000 events has no steps here.

Status:
  0 where the goal is met, 1 where a line of it isn't, 2 for a bad command line or a
  fault of the script, 3 where an input or the output failed, 4 where memory was
  refused.
";

/// What is told of words that name no goal.
const NO_GOAL: &[u8] = b"\
error: the file of one goal is wanted

Usage: goal GOAL < SCRIPT

For more information, try '--help'.
";

/// What the words ask for.
#[derive(Drop)]
enum Request {
    /// The help.
    Help,
    /// A judgement by the goal of the file of this path.
    Goal(String),
}

/// What the words ask for; `None` where they are none or several.
///
/// An `Err` says that memory was refused, or that a word isn't UTF-8.
fn request_of<R: Env + Alloc<A = Global>>(rt: &R) -> io::Result<Option<Request>> {
    let words: Vec<String> = env::args(rt)?.collect(rt.alloc())?;
    match words.as_slice() {
        [_, word] if matches!(word.as_str(), "--help" | "-h" | "help") => Ok(Some(Request::Help)),
        [_, path] => Ok(Some(Request::Goal(path.clone()?))),
        _ => Ok(None),
    }
}

/// Judges the script on standard input by the goal of the file of this path; the answer is the status.
fn judge(rt: &HostRuntime, path: &str) -> u8 {
    let mut output = Checked::new(rt.stdout());
    let mut faults = Checked::new(rt.stderr());
    let goal = match goal_in(rt, path, &mut faults) {
        Ok(goal) => goal,
        Err(status) => return status,
    };
    let script = match read_text(rt.alloc(), rt.stdin()) {
        Ok(script) => script,
        Err(fault) => return report_fault(rt.alloc(), fault, &mut faults),
    };
    match steps_of(rt.alloc(), script.as_slice()) {
        Ok(steps) => run_goal(
            rt.alloc(),
            goal.as_slice(),
            script.as_slice(),
            steps.as_slice(),
            &mut output,
            &mut faults,
        ),
        // The script's first fault, and the reason.
        Err(fault) => report_explained(rt.alloc(), fault, Some(script.as_slice()), &mut faults),
    }
}

fn main(rt: HostRuntime) -> ExitCode {
    match request_of(&rt) {
        Ok(Some(Request::Goal(path))) => ExitCode::from(judge(&rt, path.as_str())),
        Ok(Some(Request::Help)) => {
            tell(&mut Checked::new(rt.stdout()), HELP);
            ExitCode::SUCCESS
        }
        Ok(None) => {
            tell(&mut Checked::new(rt.stderr()), NO_GOAL);
            ExitCode::from(2)
        }
        Err(error) => ExitCode::from(refuse_words(&error, &mut Checked::new(rt.stderr()))),
    }
}
