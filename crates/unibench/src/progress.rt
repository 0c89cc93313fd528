//! How far a long run is: one line on a terminal, which is written again and again.

use std::io;
use std::io::{IsTerminal, Read, Stderr, Write};
use std::sync::Wait;
use std::sync::atomic::{AtomicU64, Ordering};
use std::thread::Threads;
use std::time::Clock;
use unibench_run::Watch;

/// How long a run takes before the line is shown, in milliseconds.
const PATIENCE: u64 = 2000;

/// How long the line stands before it is written again, in milliseconds.
const PAUSE: u64 = 200;

/// How much of a run is done. Where it is shown, that is in a line on standard error, from two seconds on.
#[derive(Drop)]
pub struct Progress<'a, R: Clock> {
    runtime: &'a R,
    terminal: Stderr,
    is_terminal: bool,
    done: AtomicU64,
    all: AtomicU64,
    next: AtomicU64,
    is_shown: AtomicU64,
}

impl<R: Threads + Clock> Threads for Progress<'_, R> {}

impl<R: Wait + Clock> Wait for Progress<'_, R> {}

/// How many milliseconds the clock shows; none where it can't be read.
fn milliseconds(clock: &impl Clock) -> Option<u64> {
    let now = clock.monotonic().ok()?;
    u64::try_from(now.as_millis()).ok()
}

impl<'a, R: Clock> Progress<'a, R> {
    /// That of a run that begins now.
    pub fn new(runtime: &'a R, terminal: Stderr) -> Progress<'a, R> {
        let next = match milliseconds(runtime) {
            Some(now) => now.saturating_add(PATIENCE),
            None => u64::MAX,
        };
        Progress {
            runtime,
            terminal,
            is_terminal: terminal.is_terminal(),
            done: AtomicU64::new(0),
            all: AtomicU64::new(0),
            next: AtomicU64::new(next),
            is_shown: AtomicU64::new(0),
        }
    }

    /// Counts what was done where that may be shown, and tells whether it is time, which only one thread is told.
    fn is_time(&self, more: u64) -> bool {
        if !self.is_terminal {
            return false;
        }
        self.done.fetch_add(more, Ordering::SeqCst);
        let next = self.next.load(Ordering::SeqCst);
        match milliseconds(self.runtime) {
            Some(now) if now >= next => self
                .next
                .compare_exchange(
                    next,
                    now.saturating_add(PAUSE),
                    Ordering::SeqCst,
                    Ordering::SeqCst,
                )
                .is_ok(),
            _ => false,
        }
    }

    /// Counts the lines that end in a piece of a script, and shows how many there were when it is time.
    fn has_read(&self, piece: &[u8]) {
        if !self.is_terminal {
            return;
        }
        let ends = piece.iter().filter(|byte| **byte == b'\n').count();
        if self.is_time(ends as u64) {
            let lines = self.done.load(Ordering::SeqCst);
            let mut terminal = self.terminal;
            let _ = write!(terminal, "\r{lines} lines read");
            self.is_shown.store(1, Ordering::SeqCst);
        }
    }

    /// Takes the line away, where it is shown.
    pub fn clear(&self) {
        if self.is_shown.swap(0, Ordering::SeqCst) == 1 {
            let mut terminal = self.terminal;
            let _ = write!(terminal, "\r\x1b[K");
        }
    }
}

impl<R: Clock> Watch for Progress<'_, R> {
    fn begins(&self, calls: u64) {
        self.all.store(calls, Ordering::SeqCst);
    }

    fn made(&self) {
        if self.is_time(1) {
            let calls = self.done.load(Ordering::SeqCst);
            let all = self.all.load(Ordering::SeqCst);
            let mut terminal = self.terminal;
            let _ = write!(terminal, "\r{calls} calls of {all} made");
            self.is_shown.store(1, Ordering::SeqCst);
        }
    }
}

/// A reader whose lines are counted, unless a user types them.
#[derive(Drop)]
pub struct Counted<'a, I: Drop, R: Clock> {
    end: I,
    is_typed: bool,
    progress: &'a Progress<'a, R>,
}

impl<'a, I: IsTerminal + Drop, R: Clock> Counted<'a, I, R> {
    /// A reader of which nothing was read.
    pub fn new(end: I, progress: &'a Progress<'a, R>) -> Counted<'a, I, R> {
        Counted {
            is_typed: end.is_terminal(),
            end,
            progress,
        }
    }
}

impl<I: Read + Drop, R: Clock> Read for Counted<'_, I, R> {
    ghost remaining = { λ counted. I.remaining counted.end };

    fn read(&mut self, buffer: &mut [u8]) -> io::Result<usize> {
        let count = self.end.read(&mut *buffer)?;
        if !self.is_typed {
            self.progress.has_read(&buffer[..count]);
        }
        Ok(count)
    }
}

/// A writer, and the line that is taken away before it writes to the same terminal.
#[derive(Drop)]
pub struct Cleared<'a, W: Drop, R: Clock> {
    end: W,
    is_terminal: bool,
    progress: &'a Progress<'a, R>,
}

impl<'a, W: IsTerminal + Drop, R: Clock> Cleared<'a, W, R> {
    /// A writer that has written nothing.
    pub fn new(end: W, progress: &'a Progress<'a, R>) -> Cleared<'a, W, R> {
        Cleared {
            is_terminal: end.is_terminal(),
            end,
            progress,
        }
    }
}

impl<W: Write + Drop, R: Clock> Write for Cleared<'_, W, R> {
    ghost contents = { λ cleared. W.contents cleared.end };

    fn write(&mut self, bytes: &[u8]) -> io::Result<usize> {
        if self.is_terminal {
            self.progress.clear();
        }
        self.end.write(bytes)
    }

    fn flush(&mut self) -> io::Result<()> {
        self.end.flush()
    }
}
