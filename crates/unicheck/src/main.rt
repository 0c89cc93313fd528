//! The program: hands its words and its standard streams to `run` of `unicheck_run`, tells on a terminal how far it is,
//! and ends with the status that `run` answers.
#![tactic(auto)]

mod terminal;

use std::alloc::Global;
use std::env::Env;
use std::io::{ErrorKind, Write};
use std::process::ExitCode;
use std::{env, io};
use terminal::Terminal;
use unicheck_run::run;

/// The argument texts, the program's name first.
fn words<R: Env + Alloc<A = Global>>(rt: &R) -> io::Result<Vec<String>> {
    Ok(env::args(rt)?.collect(rt.alloc())?)
}

fn main(rt: HostRuntime) -> ExitCode {
    let mut input = rt.stdin();
    let mut output = rt.stdout();
    let mut faults = rt.stderr();
    match words(&rt) {
        Ok(words) => ExitCode::from(run(
            &rt,
            words.as_slice(),
            &mut input,
            &mut output,
            &mut faults,
            &Terminal::new(rt.stderr()),
        )),
        Err(error) if error.kind() == ErrorKind::OutOfMemory => {
            let _ = writeln!(faults, "out of memory");
            ExitCode::from(4)
        }
        Err(_) => {
            let _ = writeln!(faults, "an argument is not UTF-8");
            ExitCode::from(2)
        }
    }
}
