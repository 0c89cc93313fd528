//! What a case has beside its answers: a goal, or a flaw.

ghost use Rattle.std.specs.Prelude.{◌≡◌, ◌↔◌, true, IfOk};
ghost use Rattle.course_run.specs.Goals.{judgement_text, missing_of};
ghost use Rattle.course_run.specs.Flaws.{BeginsWithBanner};

use crate::files::{file, file_if_any};
use course_run::{Flaw, flawed_text, judge, judgement_text, steps_of};
use std::alloc::Global;
use std::fs::Files;
use std::io;
use std::io::ErrorKind;
use uni_script::BenchFault;

/// A goal that the case's script meets, and a script that misses the point.
#[derive(Drop)]
pub struct Goal {
    /// The lines of the goal.
    pub text: Vec<u8>,
    /// The script that misses the point.
    pub beside: Vec<u8>,
    /// What is told of that.
    pub missing: Vec<u8>,
}

/// A flaw, and what is written of the case's script on a world with it.
#[derive(Drop)]
pub struct Flawed {
    /// The flaw.
    pub flaw: Flaw,
    /// What is written.
    pub text: Vec<u8>,
}

/// What a case is about.
#[derive(Drop)]
pub enum Lesson {
    /// A goal.
    Goal(Goal),
    /// A flaw.
    Flaw(Flawed),
}

/// The flaw that a file names.
fn flaw_in(bytes: &[u8]) -> io::Result<Flaw> {
    str::from_utf8(bytes)
        .ok()
        .and_then(|text| Flaw::named(text.trim()))
        .ok_or(io::Error::from(ErrorKind::InvalidData))
}

/// What the case of this name is about, if it has a file of a goal or of a flaw.
pub fn lesson_of<R: Files + Alloc<A = Global>>(rt: &R, case: &str) -> io::Result<Option<Lesson>> {
    if let Some(text) = file_if_any(rt, case, "goal")? {
        return Ok(Some(Lesson::Goal(Goal {
            text,
            beside: file(rt, case, "beside")?,
            missing: file(rt, case, "missing")?,
        })));
    }
    match file_if_any(rt, case, "flaw")? {
        None => Ok(None),
        Some(bytes) => Ok(Some(Lesson::Flaw(Flawed {
            flaw: flaw_in(bytes.as_slice())?,
            text: file(rt, case, "flawed")?,
        }))),
    }
}

/// Whether this is told of a goal and a script, whose steps are these.
///
/// An `Err` is the first fault of the script, or `Memory`.
fn has_goal(
    alloc: Global,
    goal: &[u8],
    script: &[u8],
    steps: &[u8],
    wanted: &[u8],
) -> Result<bool, BenchFault>
    ensures { IfOk result (λ same. (same ≡ true)
        ↔ (wanted.now ≡ judgement_text goal.now (missing_of goal.now script.now steps.now))) }
{
    let judgement = judge(alloc, goal, script, steps)?;
    Ok(judgement_text(alloc, goal, judgement)?.as_slice() == wanted)
}

/// Whether this is written of a script on a world with a flaw.
///
/// An `Err` is the first fault of the script, or `Memory`.
fn has_flawed(alloc: Global, flaw: Flaw, script: &[u8], wanted: &[u8]) -> Result<bool, BenchFault>
    ensures { IfOk result (λ same. same ≡ true → BeginsWithBanner flaw wanted.now) }
{
    Ok(flawed_text(alloc, flaw, script)?.as_slice() == wanted)
}

/// Whether a world without a flaw answers so, after the line that says which world it is.
///
/// An `Err` is the first fault of the script, or `Memory`.
fn has_plain(alloc: Global, script: &[u8], answers: &[u8]) -> Result<bool, BenchFault> {
    let mut wanted = Vec::new(alloc);
    wanted.extend_from_slice(b"not the proved construction: a plain world that has no flaw\n")?;
    wanted.extend_from_slice(answers)?;
    has_flawed(alloc, Flaw::Nothing, script, wanted.as_slice())
}

/// Whether a world without a flaw gives a script these answers, and the script is about this: it meets the goal, and of
/// the one that misses the point it is told so; or this is written of it with the flaw.
///
/// An `Err` is the first fault of a script, or `Memory`.
pub fn is_about(
    alloc: Global,
    script: &[u8],
    answers: &[u8],
    lesson: &Lesson,
) -> Result<bool, BenchFault> {
    if !has_plain(alloc, script, answers)? {
        return Ok(false);
    }
    match lesson {
        Lesson::Goal(goal) => {
            let text = goal.text.as_slice();
            let beside = goal.beside.as_slice();
            let (steps, others) = (steps_of(alloc, script)?, steps_of(alloc, beside)?);
            Ok(
                has_goal(alloc, text, script, steps.as_slice(), b"met\n")?
                    && has_goal(
                        alloc,
                        text,
                        beside,
                        others.as_slice(),
                        goal.missing.as_slice(),
                    )?,
            )
        }
        Lesson::Flaw(flawed) => has_flawed(alloc, flawed.flaw, script, flawed.text.as_slice()),
    }
}
