//! A script that a user types: a bad line is answered by why it is bad, and the script goes on.

ghost use Rattle.std.specs.Prelude.{◌≡◌};

use script_advice::explanation;
use std::alloc::{AllocError, Global};
use std::io;
use std::io::{ErrorKind, Read, Write};
use uni_script::is_note;

/// How much of a line is looked at, in bytes; the rest of a longer one is a line of its own.
const MOST: usize = 4096;

/// A reader of a script. Where a user types it, each line is looked at first: a bad one isn't handed on, and why it is
/// bad goes to `faults`. Any other script is handed on as it is.
#[derive(Drop)]
pub struct Typed<I: Drop, F: Drop> {
    alloc: Global,
    end: I,
    faults: F,
    is_typed: bool,
    /// The header with its line end, once it was typed.
    header: Vec<u8>,
    /// What is handed on.
    line: Vec<u8>,
    /// How much of it was.
    given: usize,
}

impl<I: Read + Drop, F: Write + Drop> Typed<I, F> {
    /// A reader of which nothing was read, of a script that a user types, or of any other.
    pub fn new(alloc: Global, end: I, faults: F, is_typed: bool) -> Typed<I, F> {
        Typed {
            alloc,
            end,
            faults,
            is_typed,
            header: Vec::new(alloc),
            line: Vec::new(alloc),
            given: 0,
        }
    }

    /// The next line that is typed, with its end; it is empty at the end of all.
    ///
    /// An `Err` says that the reader failed, or that memory was refused.
    fn typed_line(&mut self) -> io::Result<Vec<u8>> {
        let mut line = Vec::new(self.alloc);
        let mut byte = [0; 1];
        for _ in 0..MOST {
            match self.end.read(&mut byte) {
                Ok(0) => return Ok(line),
                Ok(_) => line.push(byte[0])?,
                Err(error) if error.kind() == ErrorKind::Interrupted => {}
                Err(error) => return Err(error),
            }
            if byte[0] == b'\n' {
                return Ok(line);
            }
        }
        Ok(line)
    }

    /// Why a line is bad after the header, if there is one; it is empty where the line isn't bad.
    ///
    /// An `Err` says that memory was refused.
    fn reason(&self, line: &[u8]) -> Result<Vec<u8>, AllocError> {
        let mut script = self.header.clone()?;
        script.extend_from_slice(line)?;
        let number = if self.header.is_empty() { 1 } else { 2 };
        explanation(self.alloc, &script, number)
    }

    /// The next typed line that isn't bad. Before each a prompt is written; a bad one's reason is.
    ///
    /// An `Err` says that the reader failed, or that memory was refused.
    fn good_line(&mut self) -> io::Result<Vec<u8>> {
        for _ in 0..u64::MAX {
            let _ = self.faults.write_all(b"> ");
            let line = self.typed_line()?;
            if line.is_empty() {
                let _ = self.faults.write_all(b"\n");
                return Ok(line);
            }
            let reason = self.reason(&line)?;
            if reason.is_empty() {
                let words = line.strip_suffix(b"\n".as_slice()).unwrap_or(&line);
                if self.header.is_empty() && !is_note(words) {
                    self.header = line.clone()?;
                }
                return Ok(line);
            }
            let _ = self.faults.write_all(&reason);
        }
        Ok(Vec::new(self.alloc))
    }
}

impl<I: Read + Drop, F: Write + Drop> Read for Typed<I, F> {
    fn read(&mut self, buffer: &mut [u8]) -> io::Result<usize> {
        if !self.is_typed {
            return self.end.read(buffer);
        }
        if self.given >= self.line.len() {
            self.line = self.good_line()?;
            self.given = 0;
        }
        let rest = &self.line[self.given.min(self.line.len())..];
        let count = rest.len().min(buffer.len());
        buffer[..count].copy_from_slice(&rest[..count]);
        self.given = self.given.saturating_add(count);
        Ok(count)
    }
}
