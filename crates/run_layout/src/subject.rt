//! What a picture shows of a script.

ghost use Rattle.std.specs.Prelude.{◌≡◌, ◌≤◌, IfOk, OnOk, IsErrOf, None, Some, false, length};
ghost use Rattle.run_layout.specs.Vocabulary.{events_shown, spoken, HasFault, IsFaultOfScript, scripts_of};
ghost use Rattle.run_layout.specs.Vocabulary.{own_scripts_of, Fault, marks_shown};
ghost use Rattle.run_layout.specs.Choice.{chosen, chosen_remarks, count_in, range_fault};
ghost use Rattle.run_layout.specs.Subject.{marks_of_events, marks_of_record, marks_of_own, events_of_record};
ghost use Rattle.run_layout.specs.Subject.{picture_fault_text, IsSubject, IsSubjectOf, HasRangeFault, HasRangeFaultOf};

use crate::choice::{Range, RangeFault, chosen, chosen_remarks};
use ready_objects::{BookObject, DirectoryObject, QueueObject, Spoken, StickyObject};
use run_replay::{Marks, marks_of};
use std::alloc::{AllocError, Global};
use std::fmt;
use uni_record::Recorded;
use uni_script::{
    BenchFault, Options, PlacedRemark, ScriptRecord, TextIn, run_of_object, run_of_script,
};

/// Why there is no picture.
#[derive(Clone, Copy, Debug, PartialEq, Eq)]
pub enum PictureFault {
    /// The script has this fault, or its run has.
    Script(BenchFault),
    /// The events that are asked for can't be chosen of the script's.
    Range(RangeFault),
    /// The drawing of its run does not show what it is to show: no script is known to come to this.
    Misdrawn,
}

impl fmt::Display for PictureFault {
    ghost output = { λ fault. Some (picture_fault_text fault) };

    fn fmt<W: fmt::Write>(&self, f: &mut fmt::Formatter<W>) -> fmt::Result {
        match self {
            PictureFault::Script(fault) => write!(f, "{fault}"),
            PictureFault::Range(RangeFault::PastEnd) => {
                write!(f, "no event is left: the range begins after the last one")
            }
            PictureFault::Range(RangeFault::TooManyEvents) => {
                write!(f, "too many events for a picture: at most 2000")
            }
            PictureFault::Misdrawn => write!(f, "the picture does not show its run"),
        }
    }
}

impl From<BenchFault> for PictureFault {
    ghost use Rattle.std.specs.Prelude.{◌≡◌};
    ghost use Rattle.run_layout.specs.declared.subject.PictureFault.TheVariants.{Script};

    ghost from_gives = { λ of fault. fault ≡ Script of };

    fn from(fault: BenchFault) -> PictureFault {
        PictureFault::Script(fault)
    }
}

impl From<AllocError> for PictureFault {
    ghost use Rattle.std.specs.Prelude.{◌≡◌};
    ghost use Rattle.uni_script.specs.declared.fault.BenchFault.TheVariants.{Memory};
    ghost use Rattle.run_layout.specs.declared.subject.PictureFault.TheVariants.{Script};

    ghost from_gives = { λ _ fault. fault ≡ Script Memory };

    fn from(_: AllocError) -> PictureFault {
        PictureFault::Script(BenchFault::Memory)
    }
}

/// What a picture shows of a script.
#[derive(Drop)]
pub struct Subject {
    /// The marks of its run.
    pub marks: Marks,
    /// What it tells beside its events, in order.
    pub remarks: Vec<PlacedRemark>,
}

impl Subject {
    /// What a picture shows where these events are chosen. An `Err` says that memory was refused.
    pub fn chosen(self, alloc: Global, range: Range) -> Result<Subject, AllocError>
        ensures marks { IfOk result (λ part. marks_shown part.marks ≡ chosen range (marks_shown self.marks)) }
        ensures remarks { IfOk result (λ part. part.remarks.items ≡ chosen_remarks range self.remarks.items) }
        ensures events { IfOk result (λ part. part.marks.events ≡ count_in range self.marks.events) }
        ensures told { IfOk result (λ part. length part.remarks.items ≤ length self.remarks.items) }
    {
        Ok(Subject {
            marks: chosen(alloc, range, self.marks)?,
            remarks: chosen_remarks(alloc, range, self.remarks)?,
        })
    }
}

/// The marks of the run that a record has stored, on an object of this name, of which these events are to be chosen;
/// `object` is a further value of that object. Errors: `Range` where they can't be chosen; else `Memory`.
fn marks_of_events<O: Spoken>(
    alloc: Global,
    range: Range,
    name: &str,
    object: O,
    recorded: &Recorded<O>,
) -> Result<Marks, PictureFault>
    ensures fits { OnOk result (range_fault range (length (events_shown recorded.now.events)) ≡ None) }
    ensures marks { IfOk result (λ marks. marks_shown marks
        ≡ marks_of_events (record { object = O.sequential object; language = O.language }) O.state_text name.now
        recorded.now.processes recorded.now.first (events_shown recorded.now.events)) }
    ensures range { (e : RangeFault) → IsErrOf result (PictureFault.Range e)
        → range_fault range (length (events_shown recorded.now.events)) ≡ Some e }
    ensures memory { (e : Fault) → IsErrOf result (PictureFault.Script e) → e ≡ Fault.Memory }
    ensures drawn { IsErrOf result PictureFault.Misdrawn → ⊥ }
{
    if let Some(fault) = range.fault(recorded.events().len() as u64) {
        return Err(PictureFault::Range(fault));
    }
    Ok(marks_of(alloc, name, object, recorded)?)
}

/// The marks of a record, by its object, of which these events are to be chosen. Errors: `Range` where they can't be
/// chosen; else `Memory`.
fn marks_of_record(
    alloc: Global,
    range: Range,
    stored: &ScriptRecord,
) -> Result<Marks, PictureFault>
    ensures fits { OnOk result (range_fault range (events_of_record stored.now) ≡ None) }
    ensures marks { IfOk result (λ marks. marks_shown marks ≡ marks_of_record stored.now) }
    ensures range { (e : RangeFault) → IsErrOf result (PictureFault.Range e)
        → range_fault range (events_of_record stored.now) ≡ Some e }
    ensures memory { (e : Fault) → IsErrOf result (PictureFault.Script e) → e ≡ Fault.Memory }
    ensures drawn { IsErrOf result PictureFault.Misdrawn → ⊥ }
{
    match stored {
        ScriptRecord::Queue(run) => marks_of_events(alloc, range, "queue", QueueObject, run),
        ScriptRecord::Directory(run) => {
            marks_of_events(alloc, range, "directory", DirectoryObject, run)
        }
        ScriptRecord::Book(run) => marks_of_events(alloc, range, "book", BookObject, run),
        ScriptRecord::Sticky(run) => marks_of_events(alloc, range, "sticky", StickyObject, run),
    }
}

/// What a picture shows of the script that a reader has, of which these events are to be chosen. An `Err` is the first
/// fault of the script; `Read` where the reader failed; `Memory` where memory was refused; or `Range` of a good script
/// of which these events can't be chosen.
pub fn subject_of<I: TextIn>(
    alloc: Global,
    range: Range,
    reader: &mut I,
) -> Result<Subject, PictureFault>
    requires { I.has_failed reader.old ≡ false }
    ensures subject { IfOk result (λ subject. IsSubject range (I.remaining reader.old)
        (marks_shown subject.marks) subject.remarks.items) }
    ensures few { IfOk result (λ subject. count_in range subject.marks.events ≤ 2000) }
    ensures remarks { IfOk result (λ subject. length subject.remarks.items ≤ 100000) }
    ensures range { (e : RangeFault) → IsErrOf result (PictureFault.Range e)
        → HasRangeFault range e (I.remaining reader.old) }
    ensures fault { (e : Fault) → IsErrOf result (PictureFault.Script e) → IsFaultOfScript e
        → HasFault (scripts_of 1048576) (I.remaining reader.old) e }
    ensures drawn { IsErrOf result PictureFault.Misdrawn → ⊥ }
{
    let run = run_of_script(alloc, reader, &Options::default())?;
    let marks = marks_of_record(alloc, range, &run.record)?;
    Ok(Subject {
        marks,
        remarks: run.remarks,
    })
}

/// What a picture shows of the script over an object that a reader has, whose header names the object by this word, as
/// for `uni_script::bench_object`. The errors are those of `subject_of`.
pub fn subject_of_object<O: Spoken + Copy, I: TextIn>(
    alloc: Global,
    object: O,
    name: &str,
    range: Range,
    reader: &mut I,
) -> Result<Subject, PictureFault>
    requires { I.has_failed reader.old ≡ false }
    ensures subject { IfOk result (λ subject. IsSubjectOf
        (own_scripts_of (spoken O.sequential O.language object) name.now 1048576)
        (marks_of_own (spoken O.sequential O.language object) O.state_text name.now) range (I.remaining reader.old)
        (marks_shown subject.marks) subject.remarks.items) }
    ensures few { IfOk result (λ subject. count_in range subject.marks.events ≤ 2000) }
    ensures remarks { IfOk result (λ subject. length subject.remarks.items ≤ 100000) }
    ensures range { (e : RangeFault) → IsErrOf result (PictureFault.Range e)
        → HasRangeFaultOf (own_scripts_of (spoken O.sequential O.language object) name.now 1048576)
        range e (I.remaining reader.old) }
    ensures fault { (e : Fault) → IsErrOf result (PictureFault.Script e) → IsFaultOfScript e
        → HasFault (own_scripts_of (spoken O.sequential O.language object) name.now 1048576)
        (I.remaining reader.old) e }
    ensures drawn { IsErrOf result PictureFault.Misdrawn → ⊥ }
{
    let run = run_of_object(alloc, object, name, reader, &Options::default())?;
    let marks = marks_of_events(alloc, range, name, object, &run.record)?;
    Ok(Subject {
        marks,
        remarks: run.remarks,
    })
}
