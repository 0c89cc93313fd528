//! The program: hands its words and its standard streams to `run` of `unidraw_run`, and ends with the status that it
//! answers.
#![tactic(auto)]

use script_advice::Kept;
use std::alloc::Global;
use std::env::Env;
use std::process::ExitCode;
use std::{env, io};
use uni_script::{Checked, refuse_words};
use unidraw_run::run;

/// The argument texts, the program's name first.
fn words<R: Env + Alloc<A = Global>>(rt: &R) -> io::Result<Vec<String>> {
    Ok(env::args(rt)?.collect(rt.alloc())?)
}

fn main(rt: HostRuntime) -> ExitCode {
    let mut input = Kept::new(Checked::new(rt.stdin()));
    let mut output = Checked::new(rt.stdout());
    let mut faults = Checked::new(rt.stderr());
    let status = match words(&rt) {
        Ok(words) => run(
            rt.alloc(),
            words.as_slice(),
            &mut input,
            &mut output,
            &mut faults,
        ),
        Err(error) => refuse_words(&error, &mut faults),
    };
    ExitCode::from(status)
}
