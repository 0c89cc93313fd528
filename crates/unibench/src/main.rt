//! The program: hands its words and its standard streams to `run` of `unibench_run`, and ends with the status
//! that it answers. On a terminal it shows how far a long run is, and tells at once why a typed line is bad.
#![tactic(auto)]

mod progress;

use progress::{Cleared, Counted, Progress};
use script_advice::Kept;
use std::alloc::Global;
use std::env::Env;
use std::io::IsTerminal;
use std::process::ExitCode;
use std::{env, io};
use uni_script::{Checked, refuse_words};
use unibench_run::{Typed, run};

/// The argument texts, the program's name first.
fn words<R: Env + Alloc<A = Global>>(rt: &R) -> io::Result<Vec<String>> {
    Ok(env::args(rt)?.collect(rt.alloc())?)
}

fn main(rt: HostRuntime) -> ExitCode {
    let progress = Progress::new(&rt, rt.stderr());
    let is_typed = rt.stdin().is_terminal() && rt.stderr().is_terminal();
    let lines = Counted::new(rt.stdin(), &progress);
    let typed = Typed::new(rt.alloc(), lines, rt.stderr(), is_typed);
    let mut input = Kept::new(Checked::new(typed));
    let mut output = Checked::new(Cleared::new(rt.stdout(), &progress));
    let mut faults = Checked::new(Cleared::new(rt.stderr(), &progress));
    let status = match words(&rt) {
        Ok(words) => run(
            &progress,
            rt.alloc(),
            words.as_slice(),
            &mut input,
            &mut output,
            &mut faults,
        ),
        Err(error) => refuse_words(&error, &mut faults),
    };
    progress.clear();
    ExitCode::from(status)
}
