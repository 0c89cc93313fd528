//! The text of an explanation.

use crate::advice::{Advice, Cause, Place, advice_on};
use crate::forms::{Field, Form, calls_of};
use std::alloc::{AllocError, Global};
use std::fmt;
use std::io::Write;
use uni_script::is_note;

/// What a word of a field is.
#[derive(Drop)]
struct Sense(Field);

impl fmt::Display for Sense {
    fn fmt<W: fmt::Write>(&self, f: &mut fmt::Formatter<W>) -> fmt::Result {
        let Sense(field) = self;
        match (*field, field.range()) {
            (_, Some((least, most))) => write!(f, "a number from {least} to {most}"),
            (Field::Version, None) => write!(f, "1 or 2"),
            (Field::Object, None) => write!(f, "queue, directory, book or sticky"),
            _ => write!(f, "1 to 16 of a to z and 0 to 9"),
        }
    }
}

impl fmt::Display for Cause {
    fn fmt<W: fmt::Write>(&self, f: &mut fmt::Formatter<W>) -> fmt::Result {
        match self {
            Cause::TooMany => write!(f, "a script has at most 100000 lines"),
            Cause::TooLong => write!(f, "a line has at most 200 bytes"),
            Cause::CarriageReturn => {
                write!(f, "a carriage return: the file has Windows line ends")
            }
            Cause::Tab => write!(f, "a tab: between two words there is one space"),
            Cause::Byte(byte) => write!(f, "byte {byte} isn't from 32 to 126"),
            Cause::SpaceFirst => write!(f, "a space first: a line begins with its first word"),
            Cause::TwoSpaces => write!(f, "two spaces: there is one between two words"),
            Cause::SpaceLast => write!(f, "a space last: a line ends with its last word"),
            Cause::Note => write!(f, "a note stands on a line of its own"),
            Cause::NoHeader => write!(
                f,
                "the first line that isn't a note is the header: universal VERSION OBJECT N K"
            ),
            Cause::SecondHeader => write!(f, "a script has one header"),
            Cause::Newer => {
                write!(
                    f,
                    "reshape is a command of version 2: universal 2 OBJECT N K"
                )
            }
            Cause::Near(name) => write!(f, "unknown command: the nearest is '{name}'"),
            Cause::NoCommand => write!(
                f,
                "unknown command: there are call, step, finish, trim, log and heads"
            ),
            Cause::NoNewerCommand => write!(
                f,
                "unknown command: there are call, step, finish, trim, log, heads and reshape"
            ),
            Cause::NoCall(object) => {
                let calls = calls_of(*object);
                write!(f, "unknown call: {calls}")
            }
            Cause::Missing(form) => {
                let form = form.text();
                write!(f, "a word is missing: {form}")
            }
            Cause::Extra(form) => {
                let form = form.text();
                write!(f, "a word too many: {form}")
            }
            Cause::LeadingZero => write!(f, "a number has no leading zero"),
            Cause::Unfit(form, field) => {
                let (name, form, sense) = (field.name(), form.text(), Sense(*field));
                write!(f, "{name} of '{form}' is {sense}")
            }
        }
    }
}

/// Writes a line after a text, with `?` for each byte that isn't from 32 to 126, and a line of carets under a place.
///
/// An `Err` says that memory was refused.
fn push_line(text: &mut Vec<u8>, line: &[u8], place: &Place) -> Result<(), AllocError> {
    for byte in line {
        let is_plain = *byte >= 32 && *byte <= 126;
        text.push(if is_plain { *byte } else { b'?' })?;
    }
    text.push(b'\n')?;
    for _ in 0..place.start {
        text.push(b' ')?;
    }
    for _ in 0..place.length {
        text.push(b'^')?;
    }
    text.push(b'\n')?;
    Ok(())
}

/// Writes what is wrong with a line after a text: the line with carets under the place, where there is one, and the
/// reason.
///
/// An `Err` says that memory was refused.
fn push_advice(text: &mut Vec<u8>, line: &[u8], found: &Advice) -> Result<(), AllocError> {
    if let Some(place) = &found.place {
        push_line(text, line, place)?;
    }
    let cause = found.cause;
    writeln!(text, "{cause}").map_err(|_| AllocError)
}

/// Why the line with a number, counted from 1, is bad in a script: the line with carets under a word of it, and the
/// reason; where the script has no such line, that it has no header. It is empty where nothing is wrong with the line.
///
/// An `Err` says that memory was refused.
pub fn explanation(alloc: Global, script: &[u8], number: u64) -> Result<Vec<u8>, AllocError> {
    let mut text = Vec::new(alloc);
    let mut header = None;
    let mut left = number;
    for line in script.split_inclusive(|byte| *byte == b'\n') {
        let line = line.strip_suffix(b"\n".as_slice()).unwrap_or(line);
        left = left.saturating_sub(1);
        if left == 0 {
            let found = if number > 100_000 {
                Some(without_place(Cause::TooMany))
            } else {
                advice_on(alloc, header, line)?
            };
            if let Some(found) = &found {
                push_advice(&mut text, line, found)?;
            }
            return Ok(text);
        }
        if header.is_none() && !is_note(line) {
            header = Some(line);
        }
    }
    push_advice(&mut text, b"", &without_place(Cause::NoHeader))?;
    Ok(text)
}

/// The advice that shows no word.
fn without_place(cause: Cause) -> Advice {
    Advice { cause, place: None }
}
