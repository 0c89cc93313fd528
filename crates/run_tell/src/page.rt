//! From the bytes of a script to the page that shows its run.

ghost use Rattle.std.specs.Prelude.{◌++◌, ◌≡◌, IfOk, IsErrOf, List, None, OnOk, Some, false, true, ℕ};
ghost use Rattle.run_tell.specs.Vocabulary.{AllByRecursion, BenchFault as Fault, HasFault, HasRangeFault};
ghost use Rattle.run_tell.specs.Vocabulary.{IsFaultOfScript, RangeFault, Version, events_of_record, range_fault};
ghost use Rattle.run_tell.specs.Vocabulary.{scripts_of, session_of_record};
ghost use Rattle.run_tell.specs.Page.{IsPage, IsPlain, escaped, escaped_byte, page_between, page_text};
ghost use Rattle.run_tell.specs.Told.{IsLinearizableSession, text_of_session};

use crate::order::Telling;
use crate::rows::InRows;
use crate::told::tell_run;
use crate::trace::InJson;
use crate::viewer::{END, MIDDLE, START};
use run_layout::{PictureFault, Range};
use std::alloc::{AllocError, Global};
use uni_script::{BenchFault, Checked, Options, ScriptRecord, ScriptRun, TextIn, run_of_script};

/// Adds a byte of JSON, escaped.
fn push_escaped_byte(text: &mut Vec<u8>, byte: u8) -> Result<(), AllocError>
    ensures { OnOk result (text.new.items ≡ text.old.items ++ escaped_byte byte) }
{
    match byte {
        b'<' => text.extend_from_slice("\\u003c".as_bytes()),
        b'&' => text.extend_from_slice("\\u0026".as_bytes()),
        plain => text.extend_from_slice(&[plain]),
    }
}

/// Adds JSON with each `<` and `&`, which it has in strings alone, escaped.
fn push_escaped(text: &mut Vec<u8>, json: &[u8]) -> Result<(), AllocError>
    ensures { OnOk result (text.new.items ≡ text.old.items ++ escaped json.now) }
{
    for byte in json {
        push_escaped_byte(text, *byte)?;
    }
    Ok(())
}

/// The rows of a table, and what a page walks through, escaped, between three texts: a trace, or a graph as JSON. An
/// `Err` says that memory was refused.
#[tactic(auto, unfolding(crate::specs::Page::page_text))]
pub fn page_text(
    alloc: Global,
    start: &str,
    rows: &[u8],
    middle: &str,
    walked: &[u8],
    end: &str,
) -> Result<Vec<u8>, AllocError>
    ensures { IfOk result (λ text. text.items ≡ page_text start.now rows.now middle.now walked.now end.now) }
{
    let mut text = Vec::new(alloc);
    text.extend_from_slice(start.as_bytes())?;
    text.extend_from_slice(rows)?;
    text.extend_from_slice(middle.as_bytes())?;
    push_escaped(&mut text, walked)?;
    text.extend_from_slice(end.as_bytes())?;
    Ok(text)
}

/// These events of the run of a script, told. Errors: `Range` where they can't be chosen; else `Memory`.
fn text_of_run<T: Telling>(
    alloc: Global,
    range: Range,
    run: &ScriptRun<ScriptRecord>,
) -> Result<Checked<Vec<u8>>, PictureFault>
    ensures fits { OnOk result (range_fault range (events_of_record run.now.record) ≡ None) }
    ensures text { IfOk result (λ text. (version : Version) → text.end.items
        ≡ text_of_session T.wording range (session_of_record version run.now.record)
        run.now.lines.items run.now.remarks.items) }
    ensures linearizable { (version : Version) → IsLinearizableSession (session_of_record version run.now.record) }
    ensures range { (e : RangeFault) → IsErrOf result (PictureFault.Range e)
        → range_fault range (events_of_record run.now.record) ≡ Some e }
    ensures memory { (e : Fault) → IsErrOf result (PictureFault.Script e) → e ≡ Fault.Memory }
    ensures drawn { IsErrOf result PictureFault.Misdrawn → ⊥ }
{
    let mut text = Checked::new(Vec::new(alloc));
    match tell_run::<T, _>(alloc, range, run, &mut text) {
        Ok(()) => Ok(text),
        Err(PictureFault::Range(fault)) => Err(PictureFault::Range(fault)),
        Err(_) => Err(PictureFault::Script(BenchFault::Memory)),
    }
}

/// The page of these events of the run of a script. Errors: `Range` where they can't be chosen; else `Memory`.
fn page_of_run(
    alloc: Global,
    range: Range,
    run: &ScriptRun<ScriptRecord>,
) -> Result<Vec<u8>, PictureFault>
    ensures fits { OnOk result (range_fault range (events_of_record run.now.record) ≡ None) }
    ensures page { IfOk result (λ text. (version : Version) → text.items
        ≡ page_between START.now MIDDLE.now END.now range (session_of_record version run.now.record)
        run.now.lines.items run.now.remarks.items) }
    ensures linearizable { (version : Version) → IsLinearizableSession (session_of_record version run.now.record) }
    ensures range { (e : RangeFault) → IsErrOf result (PictureFault.Range e)
        → range_fault range (events_of_record run.now.record) ≡ Some e }
    ensures memory { (e : Fault) → IsErrOf result (PictureFault.Script e) → e ≡ Fault.Memory }
    ensures drawn { IsErrOf result PictureFault.Misdrawn → ⊥ }
{
    let rows = text_of_run::<InRows>(alloc, range, run)?;
    let lines = text_of_run::<InJson>(alloc, range, run)?;
    Ok(page_text(alloc, START, rows.end(), MIDDLE, lines.end(), END)?)
}

/// The page that shows these events of the run of the script that a reader has. An `Err` is the first fault of the
/// script; `Read` where the reader failed; `Memory` where memory was refused; or `Range` of a good script of which
/// these events can't be chosen.
pub fn page_of<I: TextIn>(
    alloc: Global,
    range: Range,
    reader: &mut I,
) -> Result<Vec<u8>, PictureFault>
    requires { I.has_failed reader.old ≡ false }
    ensures page { IfOk result (λ text. IsPage range (I.remaining reader.old) text.items) }
    ensures range { (e : RangeFault) → IsErrOf result (PictureFault.Range e)
        → HasRangeFault range e (I.remaining reader.old) }
    ensures fault { (e : Fault) → IsErrOf result (PictureFault.Script e) → IsFaultOfScript e
        → HasFault (scripts_of 1048576) (I.remaining reader.old) e }
    ensures reader { IsErrOf result (PictureFault.Script Fault.Read) → I.has_failed reader.new ≡ true }
    ensures drawn { IsErrOf result PictureFault.Misdrawn → ⊥ }
{
    let run = run_of_script(alloc, reader, &Options::default())?;
    page_of_run(alloc, range, &run)
}

/// JSON as it stands in a page has no `<` and no `&`, so it begins no element, ends none, and names no character. It is
/// a law, as the contract of a function that does nothing.
pub fn trace_ends_no_element()
    ensures { (json : List ℕ) → AllByRecursion IsPlain (escaped json) }
{}
