//! The program: writes a page on which one plays all schedules of the calls of the script on standard input. Where the
//! words name a goal, its lines stand beside the run.
#![tactic(auto)]

use course_run::goal_in;
use run_play::run;
use std::alloc::Global;
use std::env::Env;
use std::process::ExitCode;
use std::{env, io};
use uni_script::{Checked, refuse_words, tell};

/// What the program does, and how it ends.
const HELP: &[u8] = b"\
Writes a page on which you choose which process goes next

Usage: uniplay [--goal GOAL] < SCRIPT > PAGE

PAGE is one file for a browser, without network. It has all schedules of the calls of
the script, of which no command may be refused, and which has one era. At most 20,000
worlds have room: those of two processes with two calls each, or of more where two call,
but not where three make a call. To find more may take two minutes. GOAL is the file of
an exercise's goal, as the program goal takes it: its lines stand beside the run, each
met or not; an order and a step only goal tells.

Status:
  0 where all went well, 2 for a bad command line, or a script that has no page, 3
  where an input or the output failed, 4 where memory was refused.
";

/// What is told of words that aren't those.
const BAD_WORDS: &[u8] = b"\
error: no words, or --goal and one file, are wanted

Usage: uniplay [--goal GOAL] < SCRIPT > PAGE

For more information, try '--help'.
";

/// What the words ask for.
#[derive(Drop)]
enum Request {
    /// The help.
    Help,
    /// A page without a goal.
    Page,
    /// A page with the goal of the file of this path.
    Goal(String),
}

/// What the words ask for; `None` where they are others.
///
/// An `Err` says that memory was refused, or that a word isn't UTF-8.
fn request_of<R: Env + Alloc<A = Global>>(rt: &R) -> io::Result<Option<Request>> {
    let words: Vec<String> = env::args(rt)?.collect(rt.alloc())?;
    match words.as_slice() {
        [] | [_] => Ok(Some(Request::Page)),
        [_, word] if matches!(word.as_str(), "--help" | "-h" | "help") => Ok(Some(Request::Help)),
        [_, word, path] if word.as_str() == "--goal" => Ok(Some(Request::Goal(path.clone()?))),
        _ => Ok(None),
    }
}

/// Writes the page with a goal; the answer is the status.
fn page(rt: &HostRuntime, goal: &[u8]) -> u8 {
    let mut input = Checked::new(rt.stdin());
    let mut output = Checked::new(rt.stdout());
    let mut faults = Checked::new(rt.stderr());
    run(rt.alloc(), goal, &mut input, &mut output, &mut faults)
}

/// Writes the page with the goal of the file of this path; the answer is the status.
fn page_with(rt: &HostRuntime, path: &str) -> u8 {
    match goal_in(rt, path, &mut Checked::new(rt.stderr())) {
        Ok(goal) => page(rt, goal.as_slice()),
        Err(status) => status,
    }
}

fn main(rt: HostRuntime) -> ExitCode {
    match request_of(&rt) {
        Ok(Some(Request::Page)) => ExitCode::from(page(&rt, &[])),
        Ok(Some(Request::Goal(path))) => ExitCode::from(page_with(&rt, path.as_str())),
        Ok(Some(Request::Help)) => {
            tell(&mut Checked::new(rt.stdout()), HELP);
            ExitCode::SUCCESS
        }
        Ok(None) => {
            tell(&mut Checked::new(rt.stderr()), BAD_WORDS);
            ExitCode::from(2)
        }
        Err(error) => ExitCode::from(refuse_words(&error, &mut Checked::new(rt.stderr()))),
    }
}
