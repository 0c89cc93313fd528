//! The replay of a script.

ghost use Rattle.std.specs.Prelude.{◌≡◌, ◌↔◌, true, false, None, Some, IfOk, IfErr, OnOk, IsErrOf};
ghost use Rattle.std.specs.Io.KnownBytes.{IsAtEnd};
ghost use Rattle.uni_record.specs.Refusals.{IsHistoryLimit};
ghost use Rattle.uni_script.specs.Scripts.{scripts};
ghost use Rattle.uni_script.specs.Replay.{IsReplay, IsSummary, IsPromisedScript, HasAnswered, IsPartOfReplay};
ghost use Rattle.uni_script.specs.Replay.{IsFaultOfScript};

use crate::catalogue::Ready;
use crate::driver::run_script;
use crate::ends::{TextIn, TextOut};
use crate::fault::BenchFault;
use crate::options::Options;
use crate::remarks::Deaf;
use crate::summary::Summary;
use std::alloc::Global;
use uni_record::Verdict;

/// Runs the script that a reader has, and writes its answers; the answer is how much it has done.
///
/// The lines are taken and run in turn: the answers to a line are written before the reader is asked
/// for bytes after it. An `Err` is the first fault of the script; `Read` where the reader failed, and
/// none of the whole lines before has a fault; `Write` where an answer couldn't be written; or
/// `Memory`. The answers to the lines before it are written, but for `Write` and `Memory`, where a
/// prefix of them is.
pub fn bench<I: TextIn, O: TextOut>(
    alloc: Global,
    reader: &mut I,
    writer: &mut O,
    options: &Options,
) -> Result<Summary, BenchFault>
    requires history { IsHistoryLimit options.now.history }
    requires reader { I.has_failed reader.old ≡ false }
    requires writer { O.has_failed writer.old ≡ false }
    ensures replayed { OnOk result (IsReplay (scripts options.now) (I.remaining reader.old) (O.contents writer.old)
        (O.contents writer.new) None) }
    ensures summary { IfOk result (IsSummary options.now (I.remaining reader.old)) }
    ensures promised { OnOk result (IsPromisedScript options.now (I.remaining reader.old)) }
    ensures audited { (verdict : Verdict) → IsErrOf result (BenchFault.Audit verdict) → ⊥ }
    ensures all_read { OnOk result (IsAtEnd (I.remaining reader.new)) }
    ensures fault { IfErr result (λ e. IsFaultOfScript e
        → IsReplay (scripts options.now) (I.remaining reader.old) (O.contents writer.old) (O.contents writer.new)
        (Some e)) }
    ensures read { IsErrOf result BenchFault.Read
        → HasAnswered (scripts options.now) (I.remaining reader.old) (I.remaining reader.new) (O.contents writer.old)
        (O.contents writer.new) }
    ensures part { IfErr result (λ e. IsPartOfReplay (scripts options.now) (I.remaining reader.old)
        (O.contents writer.old) (O.contents writer.new)) }
    ensures reader { IsErrOf result BenchFault.Read → I.has_failed reader.new ≡ true }
    ensures reader_ok { OnOk result (I.has_failed reader.new ≡ false) }
    ensures writer { IsErrOf result BenchFault.Write ↔ (O.has_failed writer.new ≡ true) }
{
    match run_script(Ready, alloc, options, reader, writer, &mut Deaf) {
        Ok(ran) => Ok(ran.into_summary()),
        Err(fault) => Err(fault),
    }
}
