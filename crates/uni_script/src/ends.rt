//! The ends of `bench`: where a script comes from, and where text goes.

ghost use Rattle.std.specs.Prelude.{◌≡◌, ◌≤◌, ◌<◌, ℕ, Bool, true, false, List, Option, length, IfOk};
ghost use Rattle.std.specs.Prelude.{OnOk, OnErr};
ghost use Rattle.std.specs.Io.KnownBytes.{Appends, ReadConsumes, WriteAppends};
ghost use Rattle.uni_script.specs.Ends.{AppendsPrefix};

use std::io::{Read, Write};
use std::marker::Model;

/// An end answered an error, or took no byte of some.
#[derive(Clone, Copy, Debug, PartialEq, Eq)]
pub struct Failed;

/// Where text is read from.
pub trait TextIn {
    /// The bytes that are left to read, where they are known.
    ghost remaining: { Self → Option (List ℕ) };

    /// Whether a read has failed.
    ghost has_failed: { Self → Bool };

    /// Reads into the buffer: the answer is how many bytes of it, from its start, were read. It is
    /// 0 for a buffer that isn't empty at the end of the text alone.
    ///
    /// An `Err` says that the end failed, which stays known; an `Ok` leaves that as it was.
    fn read(&mut self, buffer: &mut [u8]) -> Result<usize, Failed>
        ensures bound { IfOk result (λ n. n ≤ length buffer.new) }
        ensures bytes { ReadConsumes (remaining self.old) (remaining self.new) result buffer.new }
        ensures ok { OnOk result (has_failed self.new ≡ has_failed self.old) }
        ensures err { OnErr result (has_failed self.new ≡ true) };

    /// Tells whether a read has failed.
    fn failed(&self) -> bool
        ensures { result ≡ has_failed self.now };
}

/// Where text is written to.
pub trait TextOut {
    /// The bytes that were written, where they are known.
    ghost contents: { Self → Option (List ℕ) };

    /// Whether a write has failed.
    ghost has_failed: { Self → Bool };

    /// Writes bytes: the answer is how many of them, from the first, were taken. It is 0 for no
    /// bytes alone.
    ///
    /// An `Err` says that the end failed, which stays known; an `Ok` leaves that as it was.
    fn write(&mut self, bytes: &[u8]) -> Result<usize, Failed>
        ensures bound { IfOk result (λ n. n ≤ length bytes.now) }
        ensures some { IfOk result (λ n. 0 < length bytes.now → 0 < n) }
        ensures bytes { WriteAppends (contents self.old) (contents self.new) result bytes.now }
        ensures ok { OnOk result (has_failed self.new ≡ has_failed self.old) }
        ensures err { OnErr result (has_failed self.new ≡ true) };

    /// Tells whether a write has failed.
    fn failed(&self) -> bool
        ensures { result ≡ has_failed self.now };
}

/// A reader or a writer of std that remembers whether it has failed.
#[derive(Drop)]
pub struct Checked<T: Drop> {
    end: T,
    failed: bool,
}

impl<T: Drop> Model for Checked<T> {
    ghost use Rattle.uni_script.specs.Ends.{CheckedEnd};

    ghost Value = { CheckedEnd T };

    ghost view = { λ checked. record { end = checked.end; failed = checked.failed } };
}

impl<T: Drop> Checked<T> {
    /// An end that hasn't failed yet.
    pub fn new(end: T) -> Checked<T>
        ensures end { result.end ≡ end }
        ensures failed { result.failed ≡ false }
    {
        Checked { end, failed: false }
    }

    /// The end itself, to be read.
    pub fn end(&self) -> &T
        ensures { result.now ≡ self.now.end }
    {
        &self.end
    }

    /// Remembers that the end has failed.
    fn fail(&mut self) -> Failed
        ensures end { self.new.end ≡ self.old.end }
        ensures failed { self.new.failed ≡ true }
    {
        self.failed = true;
        Failed
    }
}

impl<T: Read + Drop> TextIn for Checked<T> {
    ghost remaining = { λ checked. T.remaining checked.end };

    ghost has_failed = { λ checked. checked.failed };

    fn read(&mut self, buffer: &mut [u8]) -> Result<usize, Failed> {
        match self.end.read(buffer) {
            Ok(count) => Ok(count),
            Err(_) => Err(self.fail()),
        }
    }

    fn failed(&self) -> bool {
        self.failed
    }
}

impl<T: Write + Drop> TextOut for Checked<T> {
    ghost contents = { λ checked. T.contents checked.end };

    ghost has_failed = { λ checked. checked.failed };

    fn write(&mut self, bytes: &[u8]) -> Result<usize, Failed> {
        match self.end.write(bytes) {
            Ok(count) if count > 0 || bytes.is_empty() => Ok(count),
            _ => Err(self.fail()),
        }
    }

    fn failed(&self) -> bool {
        self.failed
    }
}

/// Where text is let go: it is written nowhere, and never fails.
#[derive(Drop)]
pub(crate) struct Unwritten;

impl TextOut for Unwritten {
    ghost use Rattle.std.specs.Prelude.{None, false};

    ghost contents = { λ _. None };

    ghost has_failed = { λ _. false };

    fn write(&mut self, bytes: &[u8]) -> Result<usize, Failed> {
        Ok(bytes.len())
    }

    fn failed(&self) -> bool {
        false
    }
}

/// Writes all bytes.
///
/// An `Err` says that the end failed; a prefix of the bytes is written then.
pub fn write_all<T: TextOut>(end: &mut T, bytes: &[u8]) -> Result<(), Failed>
    ensures ok { OnOk result (Appends (T.contents end.old) (T.contents end.new) bytes.now) }
    ensures kept { OnOk result (T.has_failed end.new ≡ T.has_failed end.old) }
    ensures prefix { AppendsPrefix (T.contents end.old) (T.contents end.new) bytes.now }
    ensures err { OnErr result (T.has_failed end.new ≡ true) }
{
    let mut rest = bytes;
    while !rest.is_empty() {
        let taken = end.write(rest)?;
        rest = &rest[taken..];
    }
    Ok(())
}
