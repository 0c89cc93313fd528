//! Tests of `bench` where no case says it: faults that no script has, a reader without an end, and one that waits for
//! the answers.

use seq_object::CallId;
use std::cell::Cell;
use std::io;
use std::io::{ErrorKind, Read, Write};
use uni_record::Verdict;
use uni_script::{BenchFault, Checked, Echo, Options, Summary, bench, push_fault};

/// What `bench` is told where its history is long enough.
const OPTIONS: Options = Options {
    history: 1_048_576,
    echo: Echo::Off,
};

/// Faults that no case has, each with its text.
const TEXTS_OF_FAULTS: &[(BenchFault, &str)] = &[
    (BenchFault::TooMany, "line 100001: too many lines\n"),
    (BenchFault::Read, "cannot read\n"),
    (BenchFault::Write, "cannot write\n"),
    (BenchFault::Memory, "out of memory\n"),
    (
        BenchFault::Audit(Verdict::BadCall(0)),
        "audit: entry 0 call\n",
    ),
    (
        BenchFault::Audit(Verdict::BadReply(12)),
        "audit: entry 12 reply\n",
    ),
    (
        BenchFault::Audit(Verdict::Missing(CallId { process: 1, nth: 2 })),
        "audit: return 1.2 missing\n",
    ),
    (
        BenchFault::Audit(Verdict::BadReturn(CallId {
            process: 0,
            nth: 10,
        })),
        "audit: return 0.10 reply\n",
    ),
    (
        BenchFault::Audit(Verdict::Twice(CallId {
            process: 63,
            nth: 0,
        })),
        "audit: return 63.0 twice\n",
    ),
];

#[test]
fn texts_of_faults(rt: HostRuntime) {
    for &(fault, want) in TEXTS_OF_FAULTS {
        let mut text = Vec::new(rt.alloc());
        assert!(rt; push_fault(&mut text, fault).is_ok());
        assert!(rt; text.as_slice() == want.as_bytes());
    }
}

/// A reader that gives the same bytes again and again.
#[derive(Drop)]
struct Endless<'a> {
    text: &'a [u8],
}

impl Read for Endless<'_> {
    fn read(&mut self, buffer: &mut [u8]) -> io::Result<usize> {
        let count = self.text.len().min(buffer.len());
        buffer[..count].copy_from_slice(&self.text[..count]);
        Ok(count)
    }
}

/// What is read again and again, and the fault that ends it.
const ENDLESS: &[(&[u8], BenchFault)] = &[
    (b"#\n", BenchFault::TooMany),
    (b"a", BenchFault::TooLong(1)),
    (b"\n#", BenchFault::TooMany),
];

#[test]
fn readers_without_an_end(rt: HostRuntime) {
    for &(text, fault) in ENDLESS {
        let mut answers = Vec::new(rt.alloc());
        let ended = bench(
            rt.alloc(),
            &mut Checked::new(Endless { text }),
            &mut Checked::new(&mut answers),
            &OPTIONS,
        );
        assert!(rt; ended == Err(fault));
        assert!(rt; answers.len() == 0);
    }
}

/// A reader that gives the text of each row at a read, where that many bytes were written before, and
/// fails where they weren't.
#[derive(Drop)]
struct Asking<'a> {
    rows: &'a [(usize, &'a [u8])],
    written: &'a Cell<usize>,
}

impl Read for Asking<'_> {
    fn read(&mut self, buffer: &mut [u8]) -> io::Result<usize> {
        match self.rows {
            [(want, text), rest @ ..] if self.written.get() == *want => {
                let count = text.len().min(buffer.len());
                buffer[..count].copy_from_slice(&text[..count]);
                self.rows = rest;
                Ok(count)
            }
            _ => Err(io::Error::from(ErrorKind::Other)),
        }
    }
}

/// A writer that counts its bytes.
#[derive(Drop)]
struct Counting<'a> {
    written: &'a Cell<usize>,
}

impl Write for Counting<'_> {
    fn write(&mut self, bytes: &[u8]) -> io::Result<usize> {
        self.written
            .set(self.written.get().saturating_add(bytes.len()));
        Ok(bytes.len())
    }

    fn flush(&mut self) -> io::Result<()> {
        Ok(())
    }
}

#[test]
fn answers_come_before_the_next_line_is_read(rt: HostRuntime) {
    let written = Cell::new(0);
    let rows = [
        (0, b"universal 1 queue 1 8\n".as_slice()),
        (0, b"call 0 enq 7\n"),
        (11, b"finish 0\n"),
        (44, b"log\n"),
        (62, b""),
    ];
    let ended = bench(
        rt.alloc(),
        &mut Checked::new(Asking {
            rows: rows.as_slice(),
            written: &written,
        }),
        &mut Checked::new(Counting { written: &written }),
        &OPTIONS,
    );
    let summary = Summary {
        lines: 4,
        calls: 1,
        returns: 1,
    };
    assert!(rt; ended == Ok(summary));
    assert!(rt; written.get() == 66);
}
