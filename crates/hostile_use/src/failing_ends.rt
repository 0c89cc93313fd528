//! Readers that fail after each byte of a script, and writers that fail after each byte of its answers.

use crate::ends::{BOUND, HELPED, Narrow, Rows, Torn, answers_within, ends_on, script_of};
use std::alloc::Global;
use std::process::Abort;
use std::test::Fail;
use uni_script::{BenchFault, Checked};

/// Asserts what is written where the reader fails after these bytes, of which it gives at most so many
/// at a time.
fn answers_what_it_read(rt: &impl Abort, alloc: Global, prefix: &[u8], most: usize, want: &[u8]) {
    let mut text = Vec::new(alloc);
    let ended = ends_on(
        alloc,
        &mut Torn::new(prefix, most),
        &mut Checked::new(&mut text),
    );
    assert!(rt; ended == Err(BenchFault::Read), "{} bytes", prefix.len());
    assert!(rt; text.as_slice() == want, "{} bytes", prefix.len());
}

/// Asserts of each prefix of the script of rows that its whole lines are answered where the reader fails
/// then.
fn readers_fail(rt: &impl Abort, alloc: Global, rows: Rows) -> Result<(), Fail> {
    let script = script_of(alloc, rows)?;
    for length in 0..=script.len() {
        let want = answers_within(alloc, rows, length)?;
        for most in [1, 7, 5_000] {
            answers_what_it_read(rt, alloc, &script[..length], most, want.as_slice());
        }
    }
    Ok(())
}

#[test]
fn readers_that_fail_after_each_byte(rt: HostRuntime) -> Result<(), Fail> {
    readers_fail(&rt, rt.alloc(), BOUND)?;
    readers_fail(&rt, rt.alloc(), HELPED)
}

/// How a script ends where its answers have so much room: with its fault at the writer, or well.
fn outcome_in(room: usize, length: usize) -> Result<(), BenchFault> {
    if room < length {
        Err(BenchFault::Write)
    } else {
        Ok(())
    }
}

/// Asserts that the prefix of the answers that fits is written, by a writer that fails after it, and
/// nothing more where the writer heals.
fn fails_after(rt: &impl Abort, alloc: Global, script: &[u8], want: &[u8], room: usize) {
    let prefix = &want[..room.min(want.len())];
    for heals in [false, true] {
        let mut writer = Narrow::new(alloc, room, heals);
        let ended = ends_on(alloc, &mut Checked::new(script), &mut writer);
        assert!(rt; ended == outcome_in(room, want.len()), "room {room}");
        assert!(rt; writer.taken() == prefix, "room {room}, heals: {heals}");
    }
}

/// Asserts the same of a writer of std that takes nothing after it.
fn takes_nothing_after(
    rt: &impl Abort,
    alloc: Global,
    script: &[u8],
    want: &[u8],
    room: &mut [u8],
) {
    let length = room.len();
    let ended = ends_on(
        alloc,
        &mut Checked::new(script),
        &mut Checked::new(&mut *room),
    );
    assert!(rt; ended == outcome_in(length, want.len()), "room {length}");
    assert!(rt; &*room == &want[..length.min(want.len())], "room {length}");
}

/// Asserts what is written of the answers to rows, for each room that they may have.
fn writers_fail(rt: &impl Abort, alloc: Global, rows: Rows) -> Result<(), Fail> {
    let script = script_of(alloc, rows)?;
    let mut want = answers_within(alloc, rows, script.len())?;
    want.extend_from_slice(b"end\n")?;
    let mut room = Vec::new(alloc);
    for length in 0..=want.len() {
        fails_after(rt, alloc, script.as_slice(), want.as_slice(), length);
        takes_nothing_after(
            rt,
            alloc,
            script.as_slice(),
            want.as_slice(),
            room.as_mut_slice(),
        );
        room.push(b'?')?;
    }
    Ok(())
}

#[test]
fn writers_that_fail_after_each_byte(rt: HostRuntime) -> Result<(), Fail> {
    writers_fail(&rt, rt.alloc(), BOUND)?;
    writers_fail(&rt, rt.alloc(), HELPED)
}
