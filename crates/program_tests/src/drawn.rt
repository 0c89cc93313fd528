//! Tests of the schedules that the program draws.

use crate::runs::{by_sevens, fails_after, outcome_of};
use std::alloc::Global;
use std::process::Abort;
use std::sync::Wait;
use std::thread::Threads;
use unibench_run::Watch;

/// How many lines a text has.
fn lines_of(text: &[u8]) -> usize {
    text.iter().filter(|byte| **byte == b'\n').count()
}

#[test]
fn as_many_events_as_can_be_drawn(rt: HostRuntime) {
    let words = ["unibench", "random", "--events=99000"].as_slice();
    let outcome = outcome_of(&rt, rt.alloc(), words, by_sevens(b"", false));
    assert!(rt; outcome.status == 0 && lines_of(&outcome.output) == 99_004);
}

/// The schedule of one event of a queue of three processes, from seed 741.
const QUEUE_OF_741: &[u8] = b"universal 1 queue 3 8\nstep 1\nfinish 0\nfinish 1\nfinish 2\nlog\n";

#[test]
fn schedule_that_nobody_takes(rt: HostRuntime) {
    let words = [
        "unibench",
        "random",
        "--processes=3",
        "--row=8",
        "--seed=741",
        "--events=1",
    ];
    for room in [0, 1, 21, 22, QUEUE_OF_741.len() - 1] {
        fails_after(
            &rt,
            rt.alloc(),
            words.as_slice(),
            b"",
            &QUEUE_OF_741[..room],
        );
    }
}

/// Whether the replay of a script ends well.
fn is_replayed<R: Threads + Wait + Watch + Sync>(rt: &R, alloc: Global, script: &[u8]) -> bool {
    let words = ["unibench", "replay"].as_slice();
    let outcome = outcome_of(rt, alloc, words, by_sevens(script, false));
    outcome.status == 0 && outcome.faults.is_empty() && outcome.output.ends_with(b"\nend\n")
}

/// Asserts that a schedule of 1,000 events is drawn for an object and so many processes, and that its
/// replay ends well.
fn drawn_is_replayed<R: Abort + Threads + Wait + Watch + Sync>(
    rt: &R,
    alloc: Global,
    object: &str,
    processes: &str,
) {
    let words = [
        "unibench",
        "random",
        "--object",
        object,
        "--processes",
        processes,
        "--seed",
        "1",
        "--events",
        "1000",
    ];
    let drawn = outcome_of(rt, alloc, words.as_slice(), by_sevens(b"", false));
    let is_right = drawn.status == 0 && is_replayed(rt, alloc, &drawn.output);
    assert!(rt; is_right, "{object} {processes}");
}

#[test]
fn schedules_that_are_replayed(rt: HostRuntime) {
    for object in ["queue", "directory", "book", "sticky"] {
        for processes in ["1", "2", "3", "16", "64"] {
            drawn_is_replayed(&rt, rt.alloc(), object, processes);
        }
    }
}
