//! The files of a case.

use crate::compare::Wanted;
use crate::files::file_if_any;
use std::alloc::{AllocError, Global};
use std::fs::Files;
use std::io;
use std::io::ErrorKind;

/// Command lines and scripts, and what is to come of each of the first with each of the second.
#[derive(Drop)]
pub struct Case {
    /// The command lines, one a line.
    pub commands: String,
    /// The scripts.
    pub scripts: Vec<Vec<u8>>,
    /// What each run is to write, and how it is to end.
    pub wanted: Wanted,
}

/// The words of a command line: none of an empty line, and else what stands between its spaces.
pub fn words_of(alloc: Global, line: &str) -> Result<Vec<&str>, AllocError> {
    if line.is_empty() {
        return Ok(Vec::new(alloc));
    }
    line.split(' ').collect(alloc)
}

/// The bytes of the file of this kind of a case, or none.
fn bytes<R: Files + Alloc<A = Global>>(rt: &R, case: &str, kind: &str) -> io::Result<Vec<u8>> {
    Ok(file_if_any(rt, case, kind)?.unwrap_or(Vec::new(rt.alloc())))
}

/// A script with one line more, with its end and without.
fn with_line(alloc: Global, script: &[u8], line: &[u8]) -> io::Result<[Vec<u8>; 2]> {
    let mut open = Vec::from_slice(alloc, script)?;
    open.extend_from_slice(line)?;
    let mut ended = open.clone()?;
    ended.push(b'\n')?;
    Ok([open, ended])
}

/// The scripts of a case: one, or two for each line of its file of lines.
fn scripts_of<R: Files + Alloc<A = Global>>(rt: &R, case: &str) -> io::Result<Vec<Vec<u8>>> {
    let script = bytes(rt, case, "script")?;
    let mut scripts = Vec::new(rt.alloc());
    match file_if_any(rt, case, "lines")? {
        None => scripts.push(script)?,
        Some(lines) => {
            for line in lines.split_inclusive(|byte| *byte == b'\n') {
                let line = line.strip_suffix(b"\n".as_slice()).unwrap_or(line);
                let [open, ended] = with_line(rt.alloc(), &script, line)?;
                scripts.push(open)?;
                scripts.push(ended)?;
            }
        }
    }
    Ok(scripts)
}

/// The number that a file of a status has.
fn status_in(bytes: &[u8]) -> io::Result<u8> {
    str::from_utf8(bytes)
        .ok()
        .and_then(|text| text.trim().parse().ok())
        .ok_or(io::Error::from(ErrorKind::InvalidData))
}

/// What the files of a case say that its runs are to write, and how they are to end.
fn wanted_of<R: Files + Alloc<A = Global>>(rt: &R, case: &str) -> io::Result<Wanted> {
    let answers = bytes(rt, case, "answers")?;
    let fault = bytes(rt, case, "fault")?;
    let status = match file_if_any(rt, case, "status")? {
        Some(status) => status_in(&status)?,
        None if fault.is_empty() => 0,
        None => 2,
    };
    Ok(Wanted {
        answers,
        fault,
        status,
    })
}

/// The case of this name.
pub fn case_of<R: Files + Alloc<A = Global>>(rt: &R, case: &str) -> io::Result<Case> {
    let commands = match file_if_any(rt, case, "words")? {
        Some(words) => String::from_utf8(words).map_err(|_| io::Error::from(
            ErrorKind::InvalidData,
        ))?,
        None => String::from_str(rt.alloc(), "unibench replay")?,
    };
    Ok(Case {
        commands,
        scripts: scripts_of(rt, case)?,
        wanted: wanted_of(rt, case)?,
    })
}

/// The case of the picture beside a script, if there is one.
pub fn picture_case_of<R: Files + Alloc<A = Global>>(
    rt: &R,
    case: &str,
) -> io::Result<Option<Case>> {
    match file_if_any(rt, case, "svg")? {
        None => Ok(None),
        Some(answers) => Ok(Some(Case {
            commands: String::from_str(rt.alloc(), "unidraw")?,
            scripts: scripts_of(rt, case)?,
            wanted: Wanted {
                answers,
                fault: Vec::new(rt.alloc()),
                status: 0,
            },
        })),
    }
}
