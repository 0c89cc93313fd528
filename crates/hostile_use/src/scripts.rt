//! Malicious scripts: each gets its named fault, after the answers to the lines before it.

use crate::ends::{BOUND, answers_within, ends, runs, script_of};
use std::alloc::{AllocError, Global};
use std::process::Abort;
use uni_script::BenchFault;

/// A script of so many lines, of which the first is a header and the last a command.
fn long_script(alloc: Global, lines: usize) -> Result<Vec<u8>, AllocError> {
    let mut script = Vec::from_slice(alloc, b"universal 1 sticky 1 1\n")?;
    for _ in 2..lines {
        script.extend_from_slice(b"log\n")?;
    }
    script.extend_from_slice(b"heads\n")?;
    Ok(script)
}

#[test]
fn scripts_of_100_000_lines_and_one_more(rt: HostRuntime) -> Result<(), AllocError> {
    let alloc = rt.alloc();
    let longest = long_script(alloc, 100_000)?;
    runs(&rt, alloc, longest.as_slice(), b"heads 1\nend\n", Ok(()));
    let longer = long_script(alloc, 100_001)?;
    let outcome = Err(BenchFault::TooMany);
    runs(&rt, alloc, longer.as_slice(), b"", outcome);
    Ok(())
}

/// Lines of each kind, each after the header of an object.
const KINDS: &[(&str, &str)] = &[
    ("queue", "call 0 enq 7"),
    ("queue", "call 0 deq"),
    ("directory", "call 0 put 1 7"),
    ("directory", "call 0 get 1"),
    ("directory", "call 0 del 1"),
    ("directory", "call 0 size"),
    ("directory", "call 0 at 1"),
    ("book", "call 0 deposit 1 7"),
    ("book", "call 0 withdraw 1 7"),
    ("book", "call 0 move 1 2 7"),
    ("book", "call 0 total"),
    ("sticky", "call 0 stick 7"),
    ("sticky", "call 0 read"),
    ("queue", "step 0"),
    ("queue", "step 0 10"),
    ("queue", "finish 0"),
    ("queue", "trim"),
    ("queue", "reshape 1"),
    ("queue", "log"),
    ("queue", "heads"),
];

/// Notes, each after the header of an object.
const NOTES: &[(&str, &str)] = &[("queue", "# a note"), ("queue", "")];

/// A script whose second line is a prefix of a line, some bytes, and the rest of the line after as many
/// of its bytes are left out.
fn spoilt(
    alloc: Global,
    object: &str,
    line: (&[u8], &[u8]),
    between: &[u8],
) -> Result<Vec<u8>, AllocError> {
    let (before, after) = line;
    let mut script = Vec::from_slice(alloc, b"universal 2 ")?;
    script.extend_from_slice(object.as_bytes())?;
    script.extend_from_slice(b" 1 1\n")?;
    script.extend_from_slice(before)?;
    script.extend_from_slice(between)?;
    script.extend_from_slice(after)?;
    Ok(script)
}

/// Asserts that no line has one of these bytes between its parts.
fn has_bad_byte(
    rt: &impl Abort,
    alloc: Global,
    object: &str,
    parts: (&[u8], &[u8]),
) -> Result<(), AllocError> {
    for byte in b"\x00\x09\x0d\x1f\x7f\x80\xff" {
        let script = spoilt(alloc, object, parts, &[*byte])?;
        let outcome = Err(BenchFault::BadByte(2));
        runs(rt, alloc, script.as_slice(), b"", outcome);
    }
    Ok(())
}

#[test]
fn bytes_that_no_line_has(rt: HostRuntime) -> Result<(), AllocError> {
    let alloc = rt.alloc();
    for (object, line) in NOTES.iter().chain(KINDS) {
        let bytes = line.as_bytes();
        for place in 0..=bytes.len() {
            let parts = (&bytes[..place], &bytes[place..]);
            has_bad_byte(&rt, alloc, object, parts)?;
        }
    }
    Ok(())
}

/// Asserts that a line is no command where the letter at a place is dropped, doubled or a capital.
fn needs_its_letter(
    rt: &impl Abort,
    alloc: Global,
    object: &str,
    line: &[u8],
    place: usize,
) -> Result<(), AllocError> {
    let Some(letter) = line.get(place) else {
        return Ok(());
    };
    let parts = (&line[..place], &line[place.saturating_add(1)..]);
    let doubled = [*letter, *letter];
    let capital = [letter.to_ascii_uppercase()];
    for between in [[].as_slice(), doubled.as_slice(), capital.as_slice()] {
        let script = spoilt(alloc, object, parts, between)?;
        runs(
            rt,
            alloc,
            script.as_slice(),
            b"",
            Err(BenchFault::BadLine(2)),
        );
    }
    Ok(())
}

#[test]
fn each_letter_of_each_word(rt: HostRuntime) -> Result<(), AllocError> {
    for (object, line) in KINDS {
        let line = line.as_bytes();
        for place in 0..line.len() {
            if line[place].is_ascii_lowercase() {
                needs_its_letter(&rt, rt.alloc(), object, line, place)?;
            }
        }
    }
    Ok(())
}

/// The number of the line of a script that a prefix of it ends within.
fn line_of(prefix: &[u8]) -> u64 {
    prefix.iter().filter(|byte| **byte == b'\n').count() as u64 + 1
}

/// Asserts that the lines that end in a prefix of a script are answered, and that the rest of the prefix
/// either is no line or is answered too.
fn answers_front(
    rt: &impl Abort,
    alloc: Global,
    prefix: &[u8],
    want: &[u8],
) -> Result<(), AllocError> {
    let number = line_of(prefix);
    let mut text = Vec::new(alloc);
    match ends(alloc, prefix, &mut text) {
        Ok(()) => {
            assert!(rt; text.as_slice().starts_with(want), "line {number}");
            assert!(rt; text.as_slice().ends_with(b"end\n"), "line {number}");
        }
        Err(fault) => {
            assert!(rt; text.as_slice() == want, "line {number}");
            let own = match number {
                1 if prefix.is_empty() => BenchFault::NoHeader(1),
                1 => BenchFault::BadHeader(1),
                _ => BenchFault::BadLine(number),
            };
            assert!(rt; fault == own);
        }
    }
    Ok(())
}

#[test]
fn fronts_of_the_script_in_which_the_bound_is_met(rt: HostRuntime) -> Result<(), AllocError> {
    let alloc = rt.alloc();
    let script = script_of(alloc, BOUND)?;
    for length in 0..=script.len() {
        let mut want = answers_within(alloc, BOUND, length)?;
        answers_front(&rt, alloc, &script[..length], want.as_slice())?;
        if length > 0 && script[length - 1] == b'\n' {
            want.extend_from_slice(b"end\n")?;
            runs(&rt, alloc, &script[..length], want.as_slice(), Ok(()));
        }
    }
    Ok(())
}
