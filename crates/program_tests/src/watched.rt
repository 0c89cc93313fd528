//! Who watches a run of threads is told of all calls before the first, and then of each.

use crate::runs::{by_sevens, outcome_of};
use std::process::Abort;
use std::sync::Wait;
use std::sync::atomic::{AtomicU64, Ordering};
use std::thread::Threads;
use unibench_run::Watch;

/// Counts the calls of a run of threads.
#[derive(Drop)]
struct Counting<'a, R> {
    runtime: &'a R,
    begun: AtomicU64,
    made: AtomicU64,
}

impl<R: Threads> Threads for Counting<'_, R> {}

impl<R: Wait> Wait for Counting<'_, R> {}

impl<R> Watch for Counting<'_, R> {
    fn begins(&self, calls: u64) {
        self.begun.fetch_add(calls, Ordering::SeqCst);
    }

    fn made(&self) {
        self.made.fetch_add(1, Ordering::SeqCst);
    }
}

/// Runs of three threads that make 20 calls each, in each form, and one that is refused.
const RUNS: &[(&str, &str, u64)] = &[
    ("lock", "queue", 60),
    ("words", "tally", 60),
    ("small", "map", 60),
    ("any", "directory", 60),
    ("words", "book", 0),
];

#[test]
fn each_call_is_watched(rt: HostRuntime) {
    for &(form, object, calls) in RUNS {
        let counting = Counting {
            runtime: &rt,
            begun: AtomicU64::new(0),
            made: AtomicU64::new(0),
        };
        let words = [
            "unibench",
            "threads",
            "--form",
            form,
            "--object",
            object,
            "--processes",
            "3",
            "--calls",
            "20",
        ];
        outcome_of(
            &counting,
            rt.alloc(),
            words.as_slice(),
            by_sevens(b"", false),
        );
        let begun = counting.begun.load(Ordering::SeqCst);
        let made = counting.made.load(Ordering::SeqCst);
        assert!(rt;
            begun == calls && made == calls,
            "{form} {object}: {begun} {made}"
        );
    }
}
