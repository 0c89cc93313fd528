//! Tests of `unibench` over memory where no case says it: ends that fail, and threads.

use script_advice::Kept;
use seq_object::CallId;
use std::alloc::{AllocError, Global};
use std::io;
use std::io::{ErrorKind, Read, Write};
use std::process::Abort;
use std::sync::Wait;
use std::test::Fail;
use std::thread::Threads;
use uni_record::Verdict;
use uni_script::Checked;
use unibench_run::{ThreadsFault, Watch, push_threads_fault, run};

/// A reader over memory that gives at most so many bytes at a time, and then ends or fails.
#[derive(Drop)]
pub(crate) struct Trickle<'a> {
    left: &'a [u8],
    most: usize,
    fails: bool,
}

impl Read for Trickle<'_> {
    fn read(&mut self, buffer: &mut [u8]) -> io::Result<usize> {
        if self.left.is_empty() && self.fails {
            return Err(io::Error::from(ErrorKind::Other));
        }
        let count = self.left.len().min(buffer.len()).min(self.most);
        buffer[..count].copy_from_slice(&self.left[..count]);
        self.left = &self.left[count..];
        Ok(count)
    }
}

/// A writer over memory that takes at most three bytes at a time, and past its room takes none or
/// fails.
#[derive(Drop)]
struct Narrow {
    taken: Vec<u8>,
    room: usize,
    fails: bool,
}

impl Write for Narrow {
    fn write(&mut self, bytes: &[u8]) -> io::Result<usize> {
        if self.room == 0 && self.fails {
            return Err(io::Error::from(ErrorKind::Other));
        }
        let count = bytes.len().min(self.room).min(3);
        self.taken.extend_from_slice(&bytes[..count])?;
        self.room -= count;
        Ok(count)
    }

    fn flush(&mut self) -> io::Result<()> {
        Ok(())
    }
}

/// What the program wrote to its two outputs, and its status.
#[derive(Drop)]
pub(crate) struct Outcome {
    pub(crate) output: Vec<u8>,
    pub(crate) faults: Vec<u8>,
    pub(crate) status: u8,
}

impl Outcome {
    /// Whether this was written, with this status.
    fn is(&self, output: &[u8], faults: &[u8], status: u8) -> bool {
        self.output.as_slice() == output
            && self.faults.as_slice() == faults
            && self.status == status
    }
}

/// Runs the program on argument texts and the script of a reader.
pub(crate) fn outcome_of<R: Threads + Wait + Watch + Sync>(
    rt: &R,
    alloc: Global,
    words: &[&str],
    reader: Trickle<'_>,
) -> Outcome {
    let mut input = Kept::new(Checked::new(reader));
    let mut output = Vec::new(alloc);
    let mut faults = Vec::new(alloc);
    let status = run(
        rt,
        alloc,
        words,
        &mut input,
        &mut Checked::new(&mut output),
        &mut Checked::new(&mut faults),
    );
    Outcome {
        output,
        faults,
        status,
    }
}

/// A reader of a script that gives at most seven bytes at a time.
pub(crate) fn by_sevens(script: &[u8], fails: bool) -> Trickle<'_> {
    Trickle {
        left: script,
        most: 7,
        fails,
    }
}

/// Asserts what the replay of the script of a reader writes, and its status.
fn replays<R: Abort + Threads + Wait + Watch + Sync>(
    rt: &R,
    alloc: Global,
    reader: Trickle<'_>,
    want: (&str, &str, u8),
) {
    let (output, faults, status) = want;
    let outcome = outcome_of(rt, alloc, ["unibench", "replay"].as_slice(), reader);
    let is_right = outcome.is(output.as_bytes(), faults.as_bytes(), status);
    assert!(rt; is_right, "{output:?} {faults:?}");
}

/// What is read before the reader fails, and what is written.
const CUT_SHORT: &[(&str, (&str, &str, u8))] = &[
    ("", ("", "cannot read\n", 3)),
    // A line that the reader failed within isn't judged.
    (
        "universal 1 queue 1 8\ncall 0 enq 7\nfin",
        ("called 0.0\n", "cannot read\n", 3),
    ),
    // The whole lines before it are.
    (
        "universal 1 queue 1 8\nfin\nlo",
        ("", "line 2: bad line\n", 2),
    ),
    // Reading stops at the 201st byte of a line, before the reader fails.
    (LONG_LINE, ("", "line 2: too long\n", 2)),
];

/// A header, and 201 bytes of a line.
const LONG_LINE: &str = "universal 1 queue 1 8
\
    ###################################################################\
    ###################################################################\
    ###################################################################";

#[test]
fn reader_that_fails(rt: HostRuntime) {
    for &(script, want) in CUT_SHORT {
        replays(&rt, rt.alloc(), by_sevens(script.as_bytes(), true), want);
    }
}

/// A header and notes, 99,999 lines in all, and then these.
fn at_the_end(alloc: Global, lines: &str) -> Result<Vec<u8>, AllocError> {
    let mut script = Vec::from_slice(alloc, b"universal 1 queue 1 1\n")?;
    for _ in 1..99_999 {
        script.push(b'\n')?;
    }
    script.extend_from_slice(lines.as_bytes())?;
    Ok(script)
}

/// The last line that a script can have, and one more, each with its explanation.
const LAST_LINES: &[(&str, &str)] = &[
    (
        "stepp 0\n",
        "line 100000: bad line\nstepp 0\n^^^^^\nunknown command: the nearest is 'step'\n",
    ),
    (
        "\nstepp 0\n",
        "line 100001: too many lines\na script has at most 100000 lines\n",
    ),
];

#[test]
fn last_lines_are_explained(rt: HostRuntime) -> Result<(), AllocError> {
    let words = ["unibench", "replay", "--explain"].as_slice();
    for &(lines, faults) in LAST_LINES {
        let script = at_the_end(rt.alloc(), lines)?;
        let outcome = outcome_of(&rt, rt.alloc(), words, by_sevens(script.as_slice(), false));
        assert!(rt; outcome.is(b"", faults.as_bytes(), 2), "{lines:?}");
    }
    Ok(())
}

/// Runs the program with an output that has so much room, and then takes no byte or fails.
fn narrow_outcome<R: Threads + Wait + Watch + Sync>(
    rt: &R,
    alloc: Global,
    words: &[&str],
    script: &[u8],
    room: usize,
    fails: bool,
) -> Outcome {
    let taken = Vec::new(alloc);
    let mut narrow = Narrow { taken, room, fails };
    let mut faults = Vec::new(alloc);
    let status = run(
        rt,
        alloc,
        words,
        &mut Kept::new(Checked::new(script)),
        &mut Checked::new(&mut narrow),
        &mut Checked::new(&mut faults),
    );
    let Narrow {
        taken,
        room: _,
        fails: _,
    } = narrow;
    Outcome {
        output: taken,
        faults,
        status,
    }
}

#[test]
fn writer_that_fails(rt: HostRuntime) {
    let replay = ["unibench", "replay"].as_slice();
    let help = ["unibench", "--help"].as_slice();
    let good = "universal 1 queue 1 8\ncall 0 enq 7\n";
    let bad = "universal 1 queue 1 8\ncall 0 enq 7\nfin\n";
    let rows = [
        (replay, good, 15, "called 0.0\nend\n", "", 0),
        (replay, good, 14, "called 0.0\nend", "cannot write\n", 3),
        (replay, good, 0, "", "cannot write\n", 3),
        (replay, bad, 11, "called 0.0\n", "line 3: bad line\n", 2),
        (replay, bad, 10, "called 0.0", "cannot write\n", 3),
        (help, "", 0, "", "cannot write\n", 3),
    ];
    for (words, script, room, output, faults, status) in rows {
        let outcome = narrow_outcome(&rt, rt.alloc(), words, script.as_bytes(), room, false);
        let is_right = outcome.is(output.as_bytes(), faults.as_bytes(), status);
        assert!(rt; is_right, "room {room}");
    }
}

/// Asserts what is written where the output of a program fails after this prefix of it.
pub(crate) fn fails_after<R: Abort + Threads + Wait + Watch + Sync>(
    rt: &R,
    alloc: Global,
    words: &[&str],
    script: &[u8],
    prefix: &[u8],
) {
    for fails in [false, true] {
        let outcome = narrow_outcome(rt, alloc, words, script, prefix.len(), fails);
        assert!(rt;
            outcome.is(prefix, b"cannot write\n", 3),
            "{words:?} {fails}"
        );
    }
}

#[test]
fn faults_that_nobody_takes(rt: HostRuntime) {
    let taken = Vec::new(rt.alloc());
    let mut faults = Narrow {
        taken,
        room: 0,
        fails: false,
    };
    let mut output = Vec::new(rt.alloc());
    let status = run(
        &rt,
        rt.alloc(),
        ["unibench", "replay"].as_slice(),
        &mut Kept::new(Checked::new(b"fin\n".as_slice())),
        &mut Checked::new(&mut output),
        &mut Checked::new(&mut faults),
    );
    assert!(rt; status == 2);
    assert!(rt; output.len() == 0);
    assert!(rt; faults.taken.len() == 0);
}

/// Asserts what the program writes on these words with no input, and its status.
fn runs<R: Abort + Threads + Wait + Watch + Sync>(
    rt: &R,
    alloc: Global,
    words: &[&str],
    want: (&str, &str, u8),
) {
    let (output, faults, status) = want;
    let outcome = outcome_of(rt, alloc, words, by_sevens(b"", false));
    let is_right = outcome.is(output.as_bytes(), faults.as_bytes(), status);
    assert!(rt; is_right, "{words:?}");
}

/// Plans over words, each by its object, processes, calls and seed, with its line.
const ON_WORDS: &[(&str, &str, &str, &str, &str)] = &[
    ("tally", "8", "100", "3", "threads 8 calls 800 agrees\n"),
    ("sticky", "4", "100", "1", "threads 4 calls 400 agrees\n"),
    ("tally", "1", "4096", "1", "threads 1 calls 4096 agrees\n"),
    ("sticky", "64", "1", "0", "threads 64 calls 64 agrees\n"),
    // The seed of the second thread is 0.
    (
        "tally",
        "3",
        "7",
        "18446744073709551615",
        "threads 3 calls 21 agrees\n",
    ),
];

#[test]
fn threads_that_agree(rt: HostRuntime) {
    for &(object, processes, calls, seed, output) in ON_WORDS {
        let words = [
            "unibench",
            "threads",
            "--form",
            "words",
            "--object",
            object,
            "--processes",
            processes,
            "--calls",
            calls,
            "--seed",
            seed,
        ];
        runs(&rt, rt.alloc(), words.as_slice(), (output, "", 0));
    }
    let words = ["unibench", "threads", "--form=words", "--object=tally"].as_slice();
    runs(
        &rt,
        rt.alloc(),
        words,
        ("threads 2 calls 200 agrees\n", "", 0),
    );
}

/// Plans under a lock, each by its object, processes and calls, with its line.
const UNDER_A_LOCK: &[(&str, &str, &str, &str)] = &[
    ("book", "4", "50", "threads 4 calls 200 agrees\n"),
    ("queue", "16", "20", "threads 16 calls 320 agrees\n"),
    ("directory", "3", "10", "threads 3 calls 30 agrees\n"),
    ("sticky", "64", "1", "threads 64 calls 64 agrees\n"),
];

#[test]
fn threads_under_a_lock_that_agree(rt: HostRuntime) {
    let words = ["unibench", "threads"].as_slice();
    let want = ("threads 2 calls 200 agrees\n", "", 0);
    runs(&rt, rt.alloc(), words, want);
    for &(object, processes, calls, output) in UNDER_A_LOCK {
        let words = [
            "unibench",
            "threads",
            "--object",
            object,
            "--processes",
            processes,
            "--calls",
            calls,
        ];
        runs(&rt, rt.alloc(), words.as_slice(), (output, "", 0));
    }
}

/// The call 1.2.
const CALL: CallId = CallId { process: 1, nth: 2 };

/// Faults of threads, each with its line.
const FAULTS: &[(ThreadsFault, &str)] = &[
    (ThreadsFault::SeatMissing(3), "close: seat 3 missing\n"),
    (ThreadsFault::SeatPending(0), "close: seat 0 pending\n"),
    (ThreadsFault::OtherRecord, "close: another record\n"),
    (ThreadsFault::LastState, "close: the last state differs\n"),
    (ThreadsFault::Differs(CALL), "close: call 1.2 differs\n"),
    (
        ThreadsFault::Audit(Verdict::BadReply(12)),
        "audit: entry 12 reply\n",
    ),
    (
        ThreadsFault::Audit(Verdict::Missing(CALL)),
        "audit: return 1.2 missing\n",
    ),
];

#[test]
fn lines_of_faults_of_threads(rt: HostRuntime) -> Result<(), Fail> {
    for &(fault, line) in FAULTS {
        let mut text = Vec::new(rt.alloc());
        push_threads_fault(&mut text, fault)?;
        assert!(rt; text.as_slice() == line.as_bytes());
    }
    Ok(())
}

#[test]
fn agreement_that_nobody_takes(rt: HostRuntime) {
    let words = ["unibench", "threads", "--form=words", "--object=tally"].as_slice();
    let line = "threads 2 calls 200 agrees\n".as_bytes();
    for room in [0, 1, 26] {
        fails_after(&rt, rt.alloc(), words, b"", &line[..room]);
    }
}
