//! What a script tells: its notes but for empty lines, why its commands are refused, and which line stored each event.

ghost use Rattle.std.specs.Prelude.{◌≡◌, [], Option, OnOk, None, Some, map};
ghost use Rattle.uni_script.specs.Remarks.{Heard, HeardGrows, heard_events, heard_remarks, remark_at};
ghost use Rattle.uni_script.specs.Remarks.{remarks_after, remarks_of_note, text_of_note, without};
ghost use Rattle.uni_script.specs.Remarks.RemarkText.{Refused};

use crate::answer::Refusal;
use std::alloc::{AllocError, Global};

/// What a line tells that is no event.
#[derive(Drop)]
pub enum Remark {
    /// A note before the header, without its `#`.
    Heading(Vec<u8>),
    /// A note after the header, without its `#`.
    Note(Vec<u8>),
    /// A command that was refused.
    Refused {
        /// Its line, as it was typed.
        command: Vec<u8>,
        /// Why it was refused.
        refusal: Refusal,
    },
}

/// A remark, and where it stands in the script and among the events.
#[derive(Drop)]
pub struct PlacedRemark {
    /// The number of the script's line that tells it, from 1.
    pub line: u64,
    /// How many events were stored before it.
    pub before: u64,
    /// The remark.
    pub remark: Remark,
}

/// What hears the notes of a script, why its commands are refused, and how many events its lines store.
pub(crate) trait Listener {
    /// What it has heard, where that is kept.
    ghost heard: { Self → Option Heard };

    /// Hears a line of this number that is a note, after so many events, or before the header. An empty line tells
    /// nothing.
    ///
    /// An `Err` says that memory was refused.
    fn note(
        &mut self,
        alloc: Global,
        number: u64,
        before: Option<u64>,
        line: &[u8],
    ) -> Result<(), AllocError>
        ensures { OnOk result (HeardGrows (heard self.old) (heard self.new)
            (heard_remarks (remarks_of_note number before line.now))) };

    /// Hears why the command of a line of this number was refused, after so many events.
    ///
    /// An `Err` says that memory was refused.
    fn refusal(
        &mut self,
        alloc: Global,
        number: u64,
        before: u64,
        line: &[u8],
        refusal: Refusal,
    ) -> Result<(), AllocError>
        ensures { OnOk result (HeardGrows (heard self.old) (heard self.new)
            (heard_remarks (remarks_after number before (Some (Refused line.now refusal))))) };

    /// Hears that a line of this number has stored so many events.
    ///
    /// An `Err` says that memory was refused.
    fn events(&mut self, number: u64, count: usize) -> Result<(), AllocError>
        ensures { OnOk result (HeardGrows (heard self.old) (heard self.new) (heard_events number count)) };
}

/// Keeps nothing.
#[derive(Drop)]
pub(crate) struct Deaf;

impl Listener for Deaf {
    ghost use Rattle.std.specs.Prelude.{None};

    ghost heard = { λ _. None };

    fn note(&mut self, _: Global, _: u64, _: Option<u64>, _: &[u8]) -> Result<(), AllocError> {
        Ok(())
    }

    fn refusal(
        &mut self,
        _: Global,
        _: u64,
        _: u64,
        _: &[u8],
        _: Refusal,
    ) -> Result<(), AllocError> {
        Ok(())
    }

    fn events(&mut self, _: u64, _: usize) -> Result<(), AllocError> {
        Ok(())
    }
}

/// Keeps all remarks, in order, and the line of each event.
#[derive(Drop)]
pub(crate) struct Remarks {
    /// The remarks.
    pub(crate) remarks: Vec<PlacedRemark>,
    /// The number of the line that stored each event.
    pub(crate) lines: Vec<u64>,
}

impl Remarks {
    /// Nothing was heard yet.
    pub(crate) fn new(alloc: Global) -> Remarks
        ensures remarks { result.remarks.items ≡ [] }
        ensures lines { result.lines.items ≡ [] }
    {
        Remarks {
            remarks: Vec::new(alloc),
            lines: Vec::new(alloc),
        }
    }
}

impl Listener for Remarks {
    ghost use Rattle.std.specs.Prelude.{Some, map};
    ghost use Rattle.uni_script.specs.Remarks.{remark_at};

    ghost heard = { λ remarks. Some (record {
      remarks = map remark_at remarks.remarks.items;
      lines = remarks.lines.items;
    }) };

    fn note(
        &mut self,
        alloc: Global,
        number: u64,
        before: Option<u64>,
        line: &[u8],
    ) -> Result<(), AllocError> {
        if line.is_empty() {
            return Ok(());
        }
        let mut text = Vec::new(alloc);
        text.extend_from_slice(without(b' ', without(b'#', line)))?;
        let (before, remark) = match before {
            None => (0, Remark::Heading(text)),
            Some(before) => (before, Remark::Note(text)),
        };
        self.remarks.push(PlacedRemark {
            line: number,
            before,
            remark,
        })?;
        Ok(())
    }

    fn refusal(
        &mut self,
        alloc: Global,
        number: u64,
        before: u64,
        line: &[u8],
        refusal: Refusal,
    ) -> Result<(), AllocError> {
        let mut command = Vec::new(alloc);
        command.extend_from_slice(line)?;
        self.remarks.push(PlacedRemark {
            line: number,
            before,
            remark: Remark::Refused { command, refusal },
        })?;
        Ok(())
    }

    fn events(&mut self, number: u64, count: usize) -> Result<(), AllocError> {
        let stored = self.lines.len().saturating_add(count);
        self.lines.resize(stored, number)
    }
}

/// A text without this byte, where it begins with that.
fn without(byte: u8, text: &[u8]) -> &[u8]
    ensures { result.now ≡ without byte text.now }
{
    match text {
        [first, rest @ ..] if *first == byte => rest,
        _ => text,
    }
}
