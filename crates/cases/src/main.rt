//! Whether the programs write what the files of cases say. The arguments name folders; in each of them what the
//! names of files have before their first dot are the cases.
//!
//! Of a case, `NAME.script` is the standard input, and each line of `NAME.words` a command line: its words, the
//! program's name first, with one space between two. `NAME.answers` is what is to be written, `NAME.fault` what is
//! to be told on the third stream, `NAME.status` the status, and `NAME.svg` the picture of the script's run. Where
//! there is a file `NAME.lines`, the script is run once for each of its lines, which is its last line, with its end
//! and without.
//!
//! Without a file the script, the answers and the fault are empty, the words are `unibench replay`, and the status
//! is 2 where there is a fault and 0 where there is none.
//!
//! Where there is `NAME.goal`, the script meets that goal, and of the script `NAME.beside`, which misses the point,
//! `NAME.missing` is told. Where there is `NAME.flaw`, that names a flaw, and `NAME.flawed` is written of the script on
//! a world with it. In both a plain world of the same steps gives the answers too.
#![tactic(auto)]

mod case;
mod compare;
mod files;
mod lesson;
mod pieces;

use crate::case::{Case, case_of, picture_case_of, words_of};
use crate::compare::{Wanted, is_drawn, is_run};
use crate::files::names_in;
use crate::lesson::{Lesson, is_about, lesson_of};
use crate::pieces::Pieces;
use script_advice::Kept;
use std::alloc::Global;
use std::env::Env;
use std::fs::Files;
use std::sync::Wait;
use std::thread::Threads;
use std::{env, io};
use unibench_run::Watch;

/// How many bytes of a script are read at a time: it is run once with each of these.
const AT_A_TIME: [usize; 4] = [1, 2, 7, 5_000];

/// Whether each run over these words and this script, in whatever pieces it is read, does what it should.
///
/// An `Err` is the status of a run that was refused memory, of which an end failed, or whose threads didn't agree.
fn agrees_in_pieces<R: Threads + Wait + Watch + Sync>(
    rt: &R,
    alloc: Global,
    words: &[&str],
    script: &[u8],
    wanted: &Wanted,
) -> Result<bool, u8> {
    let is_picture = words.first() == Some(&"unidraw");
    for most in AT_A_TIME {
        let mut input = Kept::new(Pieces::of(script, most));
        let is_same = if is_picture {
            is_drawn(alloc, words, &mut input, wanted)?
        } else {
            is_run(rt, alloc, words, &mut input, wanted)?
        };
        if !is_same {
            return Ok(false);
        }
    }
    Ok(true)
}

/// Whether each run over this command line does what the case says.
///
/// An `Err` is a status, as that of `agrees_in_pieces`, or 4 where memory was refused to the words.
fn agrees_on_line<R: Threads + Wait + Watch + Sync>(
    rt: &R,
    alloc: Global,
    line: &str,
    case: &Case,
) -> Result<bool, u8> {
    let words = words_of(alloc, line).map_err(|_| 4)?;
    for script in case.scripts.iter() {
        if !agrees_in_pieces(rt, alloc, words.as_slice(), script.as_slice(), &case.wanted)? {
            return Ok(false);
        }
    }
    Ok(true)
}

/// Whether a case has a run, and each of its runs does what the case says.
///
/// An `Err` is a status, as that of `agrees_on_line`.
fn agrees<R: Threads + Wait + Watch + Sync>(
    rt: &R,
    alloc: Global,
    case: &Case,
) -> Result<bool, u8> {
    if case.scripts.is_empty() || case.commands.is_empty() {
        return Ok(false);
    }
    for line in case.commands.lines() {
        if !agrees_on_line(rt, alloc, line, case)? {
            return Ok(false);
        }
    }
    Ok(true)
}

/// How many cases agree, and how many don't.
#[derive(Drop)]
struct Tally {
    agree: u64,
    differ: u64,
}

impl Tally {
    /// Counts a case, and prints its name with whether it agrees; `None` says that it was not run.
    fn tell<R: Print>(&mut self, rt: &R, name: &str, agreed: Option<bool>) -> io::Result<()> {
        match agreed {
            Some(true) => self.agree = self.agree.saturating_add(1),
            _ => self.differ = self.differ.saturating_add(1),
        }
        let verdict = match agreed {
            Some(true) => "agrees",
            Some(false) => "differs",
            None => "was not run",
        };
        println!(rt; "{name} {verdict}")
    }
}

/// Whether a case is about this lesson; `None` where a script has a fault, or memory was refused.
fn agrees_on_lesson(alloc: Global, case: &Case, lesson: &Lesson) -> Option<bool> {
    let script = case.scripts.first()?.as_slice();
    is_about(alloc, script, case.wanted.answers.as_slice(), lesson).ok()
}

/// Runs the case of this name, with its picture and its lesson, if it has them.
fn tell_case<R: Files + Threads + Wait + Watch + Sync + Print + Alloc<A = Global>>(
    rt: &R,
    path: &str,
    tally: &mut Tally,
) -> io::Result<()> {
    let case = case_of(rt, path)?;
    tally.tell(rt, path, agrees(rt, rt.alloc(), &case).ok())?;
    if let Some(picture) = picture_case_of(rt, path)? {
        let name = format!(in rt.alloc(); "{path}.svg")?;
        tally.tell(rt, name.as_str(), agrees(rt, rt.alloc(), &picture).ok())?;
    }
    if let Some(lesson) = lesson_of(rt, path)? {
        let name = format!(in rt.alloc(); "{path}.lesson")?;
        tally.tell(
            rt,
            name.as_str(),
            agrees_on_lesson(rt.alloc(), &case, &lesson),
        )?;
    }
    Ok(())
}

fn main(rt: HostRuntime) -> io::Result<()> {
    let mut tally = Tally {
        agree: 0,
        differ: 0,
    };
    for folder in env::args(&rt)?.skip(1) {
        for name in names_in(&rt, folder.as_str())?.iter() {
            let path = format!(in rt.alloc(); "{folder}/{name}")?;
            tell_case(&rt, path.as_str(), &mut tally)?;
        }
    }
    println!(rt; "{} agree, {} differ", tally.agree, tally.differ)
}
