//! The run of a script whose record is kept.

ghost use Rattle.std.specs.Prelude.{◌≡◌, false, true, IfOk, IfErr, OnOk, IsErrOf};
ghost use Rattle.std.specs.Io.KnownBytes.{IsAtEnd};
ghost use Rattle.uni_record.specs.Refusals.{IsHistoryLimit};
ghost use Rattle.uni_script.specs.Replay.{HasFault, IsFaultOfScript};
ghost use Rattle.uni_script.specs.Scripts.{scripts};
ghost use Rattle.uni_script.specs.ScriptRun.{IsScriptRun};

use crate::catalogue::Ready;
use crate::driver::run_script;
use crate::ends::{TextIn, Unwritten};
use crate::fault::BenchFault;
use crate::options::Options;
use crate::remarks::{PlacedRemark, Remarks};
use crate::summary::Summary;
use ready_objects::{BookObject, DirectoryObject, QueueObject, StickyObject};
use std::alloc::Global;
use uni_record::Recorded;

/// The record that a script leaves, by its object.
#[derive(Drop)]
pub enum ScriptRecord {
    /// That of a queue.
    Queue(Recorded<QueueObject>),
    /// That of a directory.
    Directory(Recorded<DirectoryObject>),
    /// That of a book of accounts.
    Book(Recorded<BookObject>),
    /// That of a sticky register.
    Sticky(Recorded<StickyObject>),
}

/// A script that was run to its end.
#[derive(Drop)]
pub(crate) struct Ran<R: Drop> {
    /// The record that it leaves.
    pub(crate) record: R,
    /// How much it has done.
    pub(crate) summary: Summary,
}

impl<R: Drop> Ran<R> {
    /// How much was done. The record is let go.
    pub(crate) fn into_summary(self) -> Summary
        ensures { result ≡ self.summary }
    {
        self.summary
    }
}

/// The run of a script.
#[derive(Drop)]
pub struct ScriptRun<R: Drop> {
    /// The record that it leaves.
    pub record: R,
    /// What it tells beside its events, in order.
    pub remarks: Vec<PlacedRemark>,
    /// The number of the script's line that stored each event, from 1.
    pub lines: Vec<u64>,
}

/// Runs the script that a reader has, as `bench` does, but writes no answer: the answer is the record that it leaves,
/// with what it tells beside its events.
///
/// An `Err` is the first fault of the script; `Read` where the reader failed, and none of the whole lines before has a
/// fault; or `Memory`.
pub fn run_of_script<I: TextIn>(
    alloc: Global,
    reader: &mut I,
    options: &Options,
) -> Result<ScriptRun<ScriptRecord>, BenchFault>
    requires history { IsHistoryLimit options.now.history }
    requires reader { I.has_failed reader.old ≡ false }
    ensures run { IfOk result (IsScriptRun options.now (I.remaining reader.old)) }
    ensures all_read { OnOk result (IsAtEnd (I.remaining reader.new)) }
    ensures fault { IfErr result (λ e. IsFaultOfScript e
        → HasFault (scripts options.now) (I.remaining reader.old) e) }
    ensures reader { IsErrOf result BenchFault.Read → I.has_failed reader.new ≡ true }
{
    let mut heard = Remarks::new(alloc);
    match run_script(Ready, alloc, options, reader, &mut Unwritten, &mut heard) {
        Ok(ran) => Ok(ScriptRun {
            record: ran.record,
            remarks: heard.remarks,
            lines: heard.lines,
        }),
        Err(fault) => Err(fault),
    }
}
