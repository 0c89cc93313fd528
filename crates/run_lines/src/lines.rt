//! From the bytes of a script to the lines that draw its run.

ghost use Rattle.std.specs.Prelude.{◌≡◌, IfOk, IsErrOf, false};
ghost use Rattle.run_lines.specs.Vocabulary.{spoken, HasFault, IsFaultOfScript, scripts_of, own_scripts_of, Fault};
ghost use Rattle.run_lines.specs.Vocabulary.{marks_shown, chosen, chosen_remarks, HasRangeFault, HasRangeFaultOf};
ghost use Rattle.run_lines.specs.Vocabulary.{RangeFault, marks_of_own};
ghost use Rattle.run_lines.specs.Lines.{IsLines, IsLinesOf, IsTextOf};

use crate::sheet::{sketch_of, tried};
use ready_objects::Spoken;
use run_layout::{PictureFault, Range, Subject, subject_of, subject_of_object};
use std::alloc::Global;
use uni_script::TextIn;

/// The lines of what a picture shows where these events are chosen. An `Err` is `Misdrawn` where what is drawn does not
/// show it, or says that memory was refused.
fn text_of_subject(
    alloc: Global,
    range: Range,
    columns: u64,
    subject: Subject,
) -> Result<Vec<u8>, PictureFault>
    ensures text { IfOk result (λ text. IsTextOf columns (chosen range (marks_shown subject.marks))
        (chosen_remarks range subject.remarks.items) text.items) }
    ensures range { (e : RangeFault) → IsErrOf result (PictureFault.Range e) → ⊥ }
    ensures memory { (e : Fault) → IsErrOf result (PictureFault.Script e) → e ≡ Fault.Memory }
{
    let part = subject.chosen(alloc, range)?;
    let drawn = sketch_of(alloc, columns, &part.marks, &part.remarks)?;
    tried(alloc, columns, &part.marks, &part.remarks, &drawn)
}

/// The run of the script that a reader has, where these events are chosen, as lines for a terminal of so many columns.
/// A block has at least one column behind the names of lanes, and at most 1,000. An `Err` is the first fault of the
/// script; `Read` where the reader failed; `Memory` where memory was refused; `Range` of a good script of which these
/// events can't be chosen; or `Misdrawn` where what is drawn of its run does not show its marks, of which no script is
/// known.
pub fn lines_of<I: TextIn>(
    alloc: Global,
    range: Range,
    columns: u64,
    reader: &mut I,
) -> Result<Vec<u8>, PictureFault>
    requires { I.has_failed reader.old ≡ false }
    ensures lines { IfOk result (λ text. IsLines range columns (I.remaining reader.old) text.items) }
    ensures range { (e : RangeFault) → IsErrOf result (PictureFault.Range e)
        → HasRangeFault range e (I.remaining reader.old) }
    ensures fault { (e : Fault) → IsErrOf result (PictureFault.Script e) → IsFaultOfScript e
        → HasFault (scripts_of 1048576) (I.remaining reader.old) e }
{
    let subject = subject_of(alloc, range, reader)?;
    text_of_subject(alloc, range, columns, subject)
}

/// The same of a script over an object, whose header names the object by this word, as for `uni_script::bench_object`.
/// The errors are those of `lines_of`.
pub fn lines_of_object<O: Spoken + Copy, I: TextIn>(
    alloc: Global,
    object: O,
    name: &str,
    range: Range,
    columns: u64,
    reader: &mut I,
) -> Result<Vec<u8>, PictureFault>
    requires { I.has_failed reader.old ≡ false }
    ensures lines { IfOk result (λ text. IsLinesOf
        (own_scripts_of (spoken O.sequential O.language object) name.now 1048576)
        (marks_of_own (spoken O.sequential O.language object) O.state_text name.now)
        range columns (I.remaining reader.old) text.items) }
    ensures range { (e : RangeFault) → IsErrOf result (PictureFault.Range e)
        → HasRangeFaultOf (own_scripts_of (spoken O.sequential O.language object) name.now 1048576)
        range e (I.remaining reader.old) }
    ensures fault { (e : Fault) → IsErrOf result (PictureFault.Script e) → IsFaultOfScript e
        → HasFault (own_scripts_of (spoken O.sequential O.language object) name.now 1048576)
        (I.remaining reader.old) e }
{
    let subject = subject_of_object(alloc, object, name, range, reader)?;
    text_of_subject(alloc, range, columns, subject)
}
