//! From the bytes of a script to its run, told.

ghost use Rattle.std.specs.Prelude.{◌↔◌, ◌≡◌, ◌≢◌, ◌⊎◌, IfErr, IfOk, IsErrOf, Some, false};
ghost use Rattle.std.specs.Prelude.{length, option_map, true};
ghost use Rattle.run_tell.specs.Vocabulary.{BenchFault as Fault, HasFault, HasRangeFault, IsFaultOfScript, IsOfRange};
ghost use Rattle.run_tell.specs.Vocabulary.{RangeFault, Version, events_of_record, events_shown, range_fault};
ghost use Rattle.run_tell.specs.Vocabulary.{scripts_of, session_of_record, spoken, start_shown};
ghost use Rattle.run_tell.specs.Told.{IsLinearizableRun, IsLinearizableSession, IsTold, WritesSuch, WritesText};
ghost use Rattle.run_tell.specs.Told.{opening, opening_shown, text_of_record, text_of_session};

use crate::opened::Opened;
use crate::order::{Telling, tell_events};
use ready_objects::Spoken;
use run_layout::{PictureFault, Range};
use run_replay::{Start, excerpt_of};
use std::alloc::{AllocError, Global};
use uni_record::Recorded;
use uni_script::{
    ObjectName, Options, PlacedRemark, ScriptRecord, ScriptRun, TextIn, TextOut, run_of_script,
};

/// The text of an object's first state.
fn first_state<O: Spoken>(alloc: Global, object: &O) -> Result<Vec<u8>, AllocError>
    ensures { IfOk result (λ text. text.items ≡ O.state_text (O.sequential object.now).initial) }
{
    let mut text = Vec::new(alloc);
    O::push_state(&mut text, &object.start(alloc)?)?;
    Ok(text)
}

/// How the run opened that a record has stored, on an object of this name, where its events are told from `start` on.
fn opened_of<'a, O: Spoken>(
    alloc: Global,
    name: &'a str,
    recorded: &Recorded<O>,
    start: Option<Start>,
) -> Result<Opened<'a>, AllocError>
    ensures { IfOk result (λ opened. opening_shown opened ≡ opening name.now recorded.now.processes
        recorded.now.world.row recorded.now.first
        (O.state_text (O.sequential recorded.now.world.object).initial) (option_map start_shown start)) }
{
    let state = first_state(alloc, recorded.world().object())?;
    Ok(Opened {
        object: name,
        processes: recorded.processes(),
        row: recorded.world().row(),
        number: recorded.first(),
        state,
        start,
    })
}

/// Writes these events of the run that a record has stored, told, on an object of this name: of a linearizable run.
/// `lines` has the number of the script's line that stored each event of the run, where there was a script; `remarks`
/// is what is told beside the run, of which that is told which belongs to these events. Errors: `Range` where these
/// events can't be chosen, and nothing is written; else `Memory`, or `Write` where the output failed, and a prefix is
/// written.
pub fn tell_record<T: Telling, O: Spoken + Copy, W: TextOut>(
    alloc: Global,
    range: Range,
    name: &str,
    recorded: &Recorded<O>,
    lines: &[u64],
    remarks: &[PlacedRemark],
    out: &mut W,
) -> Result<(), PictureFault>
    requires { W.has_failed out.old ≡ false }
    ensures told { WritesText result (W.contents out.old) (W.contents out.new)
        (text_of_record T.wording range (spoken O.sequential O.language recorded.now.world.object) O.state_text name.now
        recorded.now lines.now remarks.now) }
    ensures linearizable { IsLinearizableRun (O.sequential recorded.now.world.object) recorded.now.processes
        recorded.now.first (events_shown recorded.now.events) }
    ensures range { (e : RangeFault) → (IsErrOf result (PictureFault.Range e)
        ↔ (range_fault range (length (events_shown recorded.now.events)) ≡ Some e)) }
    ensures unwritten { (e : RangeFault) → IsErrOf result (PictureFault.Range e) → out.new ≡ out.old }
    ensures fault { IfErr result (λ e. IsOfRange e
        ⊎ (e ≡ PictureFault.Script Fault.Memory) ⊎ (e ≡ PictureFault.Script Fault.Write)) }
    ensures out { IsErrOf result (PictureFault.Script Fault.Write) ↔ (W.has_failed out.new ≡ true) }
{
    recorded.promise();
    let events = recorded.events().len() as u64;
    if let Some(fault) = range.fault(events) {
        return Err(PictureFault::Range(fault));
    }
    let count = range.count(events);
    let object = *recorded.world().object();
    let (start, scenes) = excerpt_of(alloc, object, recorded, range.from, count, T::is_whole())?;
    let opened = opened_of(alloc, name, recorded, start)?;
    tell_events::<T, O, W>(alloc, range, &opened, lines, remarks, scenes, out)?;
    Ok(())
}

/// Writes these events of the run of a script, told, by its object. Errors: as `tell_record` says.
pub(crate) fn tell_run<T: Telling, W: TextOut>(
    alloc: Global,
    range: Range,
    run: &ScriptRun<ScriptRecord>,
    out: &mut W,
) -> Result<(), PictureFault>
    requires { W.has_failed out.old ≡ false }
    ensures told { (version : Version) → WritesText result (W.contents out.old) (W.contents out.new)
        (text_of_session T.wording range (session_of_record version run.now.record) run.now.lines.items
        run.now.remarks.items) }
    ensures linearizable { (version : Version) → IsLinearizableSession (session_of_record version run.now.record) }
    ensures range { (e : RangeFault) → (IsErrOf result (PictureFault.Range e)
        ↔ (range_fault range (events_of_record run.now.record) ≡ Some e)) }
    ensures unwritten { (e : RangeFault) → IsErrOf result (PictureFault.Range e) → out.new ≡ out.old }
    ensures fault { IfErr result (λ e. IsOfRange e
        ⊎ (e ≡ PictureFault.Script Fault.Memory) ⊎ (e ≡ PictureFault.Script Fault.Write)) }
    ensures out { IsErrOf result (PictureFault.Script Fault.Write) ↔ (W.has_failed out.new ≡ true) }
{
    let lines = run.lines.as_slice();
    let remarks = run.remarks.as_slice();
    match &run.record {
        ScriptRecord::Queue(recorded) => {
            let name = ObjectName::Queue.word();
            tell_record::<T, _, W>(alloc, range, name, recorded, lines, remarks, out)
        }
        ScriptRecord::Directory(recorded) => {
            let name = ObjectName::Directory.word();
            tell_record::<T, _, W>(alloc, range, name, recorded, lines, remarks, out)
        }
        ScriptRecord::Book(recorded) => {
            let name = ObjectName::Book.word();
            tell_record::<T, _, W>(alloc, range, name, recorded, lines, remarks, out)
        }
        ScriptRecord::Sticky(recorded) => {
            let name = ObjectName::Sticky.word();
            tell_record::<T, _, W>(alloc, range, name, recorded, lines, remarks, out)
        }
    }
}

/// Writes these events of the run of the script that a reader has, told: of a linearizable run. `T` is how: `InWords`
/// in a sentence for each, `InJson` and `InWholeJson` in lines of JSON, without or with the whole memory after each. An
/// `Err` is the first fault of the script; `Read` where the reader failed; `Memory` where memory was refused;
/// `Range` of a good script of which these events can't be chosen; or `Write` where the output failed. With `Memory`
/// and `Write` a prefix may be written, else nothing is.
pub fn tell_script<T: Telling, I: TextIn, W: TextOut>(
    alloc: Global,
    range: Range,
    reader: &mut I,
    out: &mut W,
) -> Result<(), PictureFault>
    requires reader { I.has_failed reader.old ≡ false }
    requires out { W.has_failed out.old ≡ false }
    ensures told { WritesSuch result (IsTold T.wording range (I.remaining reader.old))
        (W.contents out.old) (W.contents out.new) }
    ensures unwritten { (e : PictureFault) → IsErrOf result e → e ≢ PictureFault.Script Fault.Memory
        → e ≢ PictureFault.Script Fault.Write → out.new ≡ out.old }
    ensures range { (e : RangeFault) → IsErrOf result (PictureFault.Range e)
        → HasRangeFault range e (I.remaining reader.old) }
    ensures fault { (e : Fault) → IsErrOf result (PictureFault.Script e) → IsFaultOfScript e
        → HasFault (scripts_of 1048576) (I.remaining reader.old) e }
    ensures reader { IsErrOf result (PictureFault.Script Fault.Read) → I.has_failed reader.new ≡ true }
    ensures out { W.has_failed out.new ≡ true → IsErrOf result (PictureFault.Script Fault.Write) }
    ensures drawn { IsErrOf result PictureFault.Misdrawn → ⊥ }
{
    let run = run_of_script(alloc, reader, &Options::default())?;
    tell_run::<T, W>(alloc, range, &run, out)
}
