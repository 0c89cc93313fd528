//! Readers and writers that fail after some bytes, and what the bench is asked with them.

ghost use Rattle.std.specs.Prelude.{◌≡◌, ◌≤◌, false, None};

use std::alloc::{AllocError, Global};
use std::process::Abort;
use uni_script::{BenchFault, Checked, Echo, Failed, Options, TextIn, TextOut, bench};

/// What the bench is told where its history is long enough.
const OPTIONS: Options = Options {
    history: 1_048_576,
    echo: Echo::Off,
};

/// A reader that fails after the bytes of a text, of which it gives at most so many at a time.
#[derive(Drop)]
pub(crate) struct Torn<'a> {
    left: &'a [u8],
    most: usize,
    failed: bool,
}

impl Torn<'_> {
    /// A reader that hasn't failed yet.
    pub(crate) fn new(left: &[u8], most: usize) -> Torn<'_>
        ensures { result.failed ≡ false }
    {
        Torn {
            left,
            most,
            failed: false,
        }
    }
}

impl TextIn for Torn<'_> {
    ghost remaining = { λ _. None };

    ghost has_failed = { λ torn. torn.failed };

    fn read(&mut self, buffer: &mut [u8]) -> Result<usize, Failed> {
        let count = self.left.len().min(buffer.len()).min(self.most);
        if count == 0 && !buffer.is_empty() {
            self.failed = true;
            return Err(Failed);
        }
        buffer[..count].copy_from_slice(&self.left[..count]);
        self.left = &self.left[count..];
        Ok(count)
    }

    fn failed(&self) -> bool {
        self.failed
    }
}

/// A writer that fails after so many bytes, and takes at most three at a time. One that heals fails
/// once, and takes all that comes after that.
#[derive(Drop)]
pub(crate) struct Narrow {
    taken: Vec<u8>,
    room: usize,
    heals: bool,
    failed: bool,
}

impl Narrow {
    /// A writer that hasn't failed yet.
    pub(crate) fn new(alloc: Global, room: usize, heals: bool) -> Narrow
        ensures { result.failed ≡ false }
    {
        Narrow {
            taken: Vec::new(alloc),
            room,
            heals,
            failed: false,
        }
    }

    /// What was written.
    pub(crate) fn taken(&self) -> &[u8] {
        self.taken.as_slice()
    }

    /// How many bytes of so many the next write takes.
    fn count_of(&self, length: usize) -> usize
        ensures { result ≤ length }
    {
        let has_healed = self.failed && self.heals;
        let room = if has_healed { length } else { self.room };
        length.min(room).min(3)
    }
}

impl TextOut for Narrow {
    ghost contents = { λ _. None };

    ghost has_failed = { λ narrow. narrow.failed };

    fn write(&mut self, bytes: &[u8]) -> Result<usize, Failed> {
        let count = self.count_of(bytes.len());
        if count == 0 && !bytes.is_empty()
            || self.taken.extend_from_slice(&bytes[..count]).is_err()
        {
            self.failed = true;
            return Err(Failed);
        }
        self.room = self.room.saturating_sub(count);
        Ok(count)
    }

    fn failed(&self) -> bool {
        self.failed
    }
}

/// Asserts what the bench writes for a script, and how it ends.
pub(crate) fn runs(
    rt: &impl Abort,
    alloc: Global,
    script: &[u8],
    want: &[u8],
    outcome: Result<(), BenchFault>,
) {
    let mut text = Vec::new(alloc);
    let ended = ends(alloc, script, &mut text);
    assert!(rt; ended == outcome, "{}", shown(script));
    assert!(rt; text.as_slice() == want, "{}", shown(script));
}

/// How the bench ends on a script; its answers go to the end of a text.
pub(crate) fn ends(alloc: Global, script: &[u8], text: &mut Vec<u8>) -> Result<(), BenchFault> {
    ends_on(alloc, &mut Checked::new(script), &mut Checked::new(text))
}

/// How the bench ends where its ends are these.
pub(crate) fn ends_on<R: TextIn, W: TextOut>(
    alloc: Global,
    reader: &mut R,
    writer: &mut W,
) -> Result<(), BenchFault>
    requires reader { R.has_failed reader.old ≡ false }
    requires writer { W.has_failed writer.old ≡ false }
{
    match bench(alloc, reader, writer, &OPTIONS) {
        Ok(_) => Ok(()),
        Err(fault) => Err(fault),
    }
}

/// The bytes of a script as a text, where they are one.
fn shown(script: &[u8]) -> &str {
    str::from_utf8(script).unwrap_or("a script that is no text")
}

/// The lines of a script, each with its answers.
pub(crate) type Rows = &'static [(&'static str, &'static str)];

/// The script in which the bound is met exactly: process 1 takes 32 steps and 3 turns.
pub(crate) const BOUND: Rows = &[
    ("universal 1 queue 2 8\n", ""),
    ("call 0 enq 10\n", "called 0.0\n"),
    ("step 0 10\n", "going 0.0 steps 10 turns 1\n"),
    ("call 1 deq\n", "called 1.0\n"),
    ("step 1 14\n", "going 1.0 steps 14 turns 1\n"),
    ("finish 0\n", "returned 0.0 ok steps 16 turns 1\n"),
    ("call 0 enq 20\n", "called 0.1\n"),
    ("step 0\n", "going 0.1 steps 1 turns 0\n"),
    ("finish 1\n", "returned 1.0 10 steps 32 turns 3\n"),
    ("heads\n", "heads 2 4\n"),
    (
        "log\n",
        "2 0.0 enq 10 -> ok\n3 0.1 enq 20 -> ok\n4 1.0 deq -> 10\n",
    ),
];

/// The script in which a stopped process is helped, and the era is ended at last.
pub(crate) const HELPED: Rows = &[
    ("universal 1 queue 2 8\n", ""),
    ("call 1 enq 5\n", "called 1.0\n"),
    ("step 1\n", "going 1.0 steps 1 turns 0\n"),
    ("call 0 enq 6\n", "called 0.0\n"),
    ("finish 0\n", "returned 0.0 ok steps 24 turns 2\n"),
    ("heads\n", "heads 3 1\n"),
    ("log\n", "2 1.0 enq 5 -> ok\n3 0.0 enq 6 -> ok\n"),
    ("trim\n", "refused pending 1\n"),
    ("finish 1\n", "returned 1.0 ok steps 8 turns 0\n"),
    ("heads\n", "heads 3 3\n"),
    ("trim\n", "trimmed 3\n"),
];

/// The bytes of the script of rows.
pub(crate) fn script_of(alloc: Global, rows: Rows) -> Result<Vec<u8>, AllocError> {
    let mut script = Vec::new(alloc);
    for (line, _) in rows {
        script.extend_from_slice(line.as_bytes())?;
    }
    Ok(script)
}

/// The answers to the lines of rows that end within so many bytes of their script.
pub(crate) fn answers_within(
    alloc: Global,
    rows: Rows,
    bytes: usize,
) -> Result<Vec<u8>, AllocError> {
    let mut text = Vec::new(alloc);
    let mut end = 0usize;
    for (line, answers) in rows {
        end = end.saturating_add(line.len());
        if end <= bytes {
            text.extend_from_slice(answers.as_bytes())?;
        }
    }
    Ok(text)
}
