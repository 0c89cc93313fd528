//! Scripts over an object of a user's own, which their headers name by a word that the user gives.

ghost use Rattle.std.specs.Prelude.{◌≡◌, ◌↔◌, true, false, None, Some, IfOk, IfErr, OnOk, IsErrOf};
ghost use Rattle.std.specs.Io.KnownBytes.{IsAtEnd};
ghost use Rattle.uni_record.specs.Refusals.{IsHistoryLimit};
ghost use Rattle.uni_script.specs.Objects.{spoken};
ghost use Rattle.uni_script.specs.Promises.{IsPromised};
ghost use Rattle.uni_script.specs.Replay.{IsReplay, Leaves, HasAnswered, HasFault, IsPartOfReplay, IsFaultOfScript};
ghost use Rattle.uni_script.specs.ScriptRun.{HasRunWhole, IsOwnRunOf};
ghost use Rattle.uni_script.specs.Scripts.{own_scripts};
ghost use Rattle.uni_script.specs.Summary.{summary_of};

use crate::catalogue::Own;
use crate::driver::run_script;
use crate::ends::{TextIn, TextOut, Unwritten};
use crate::fault::BenchFault;
use crate::options::Options;
use crate::remarks::{Deaf, Remarks};
use crate::script_run::ScriptRun;
use crate::summary::Summary;
use ready_objects::Spoken;
use std::alloc::Global;
use uni_record::{Recorded, Verdict};

/// Runs the script that a reader has, over an object, and writes its answers, as `bench` does over the four objects
/// that
/// have names: the header of the script names the object by this word, `universal 2 NAME 3 8`.
///
/// A name with a space in it, or an empty one, is never met, so each script ends with `BadHeader` or `NoHeader` then.
/// The
/// errors are those of `bench`.
pub fn bench_object<O: Spoken, I: TextIn, W: TextOut>(
    alloc: Global,
    object: O,
    name: &str,
    reader: &mut I,
    writer: &mut W,
    options: &Options,
) -> Result<Summary, BenchFault>
    requires history { IsHistoryLimit options.now.history }
    requires reader { I.has_failed reader.old ≡ false }
    requires writer { W.has_failed writer.old ≡ false }
    ensures replayed { OnOk result (IsReplay (own_scripts (spoken O.sequential O.language object) name.now options.now)
        (I.remaining reader.old) (W.contents writer.old) (W.contents writer.new) None) }
    ensures summary { IfOk result (λ summary. Leaves
        (own_scripts (spoken O.sequential O.language object) name.now options.now) (I.remaining reader.old)
        (λ lines b. summary ≡ summary_of (spoken O.sequential O.language object) lines b.session)) }
    ensures promised { OnOk result (Leaves (own_scripts (spoken O.sequential O.language object) name.now options.now)
        (I.remaining reader.old) (λ lines b. IsPromised (spoken O.sequential O.language object) b.session)) }
    ensures audited { (verdict : Verdict) → IsErrOf result (BenchFault.Audit verdict) → ⊥ }
    ensures all_read { OnOk result (IsAtEnd (I.remaining reader.new)) }
    ensures fault { IfErr result (λ e. IsFaultOfScript e
        → IsReplay (own_scripts (spoken O.sequential O.language object) name.now options.now) (I.remaining reader.old)
        (W.contents writer.old) (W.contents writer.new) (Some e)) }
    ensures read { IsErrOf result BenchFault.Read
        → HasAnswered (own_scripts (spoken O.sequential O.language object) name.now options.now)
        (I.remaining reader.old) (I.remaining reader.new) (W.contents writer.old) (W.contents writer.new) }
    ensures part { IfErr result (λ e. IsPartOfReplay
        (own_scripts (spoken O.sequential O.language object) name.now options.now) (I.remaining reader.old)
        (W.contents writer.old) (W.contents writer.new)) }
    ensures reader { IsErrOf result BenchFault.Read → I.has_failed reader.new ≡ true }
    ensures reader_ok { OnOk result (I.has_failed reader.new ≡ false) }
    ensures writer { IsErrOf result BenchFault.Write ↔ (W.has_failed writer.new ≡ true) }
{
    let own = Own { name, object };
    match run_script(own, alloc, options, reader, writer, &mut Deaf) {
        Ok(ran) => Ok(ran.summary),
        Err(fault) => Err(fault),
    }
}

/// Runs the script that a reader has, over an object, as `bench_object` does, but writes no answer: the answer is the
/// record that it leaves, with what it tells beside its events.
///
/// An `Err` is the first fault of the script; `Read` where the reader failed, and none of the whole lines before has a
/// fault; or `Memory`.
pub fn run_of_object<O: Spoken, I: TextIn>(
    alloc: Global,
    object: O,
    name: &str,
    reader: &mut I,
    options: &Options,
) -> Result<ScriptRun<Recorded<O>>, BenchFault>
    requires history { IsHistoryLimit options.now.history }
    requires reader { I.has_failed reader.old ≡ false }
    ensures run { IfOk result (λ run. HasRunWhole
        (own_scripts (spoken O.sequential O.language object) name.now options.now) (I.remaining reader.old)
        (λ b heard. IsOwnRunOf (spoken O.sequential O.language object) b heard run)) }
    ensures all_read { OnOk result (IsAtEnd (I.remaining reader.new)) }
    ensures fault { IfErr result (λ e. IsFaultOfScript e
        → HasFault (own_scripts (spoken O.sequential O.language object) name.now options.now)
        (I.remaining reader.old) e) }
    ensures reader { IsErrOf result BenchFault.Read → I.has_failed reader.new ≡ true }
{
    let mut heard = Remarks::new(alloc);
    let own = Own { name, object };
    match run_script(own, alloc, options, reader, &mut Unwritten, &mut heard) {
        Ok(ran) => Ok(ScriptRun {
            record: ran.record,
            remarks: heard.remarks,
            lines: heard.lines,
        }),
        Err(fault) => Err(fault),
    }
}
