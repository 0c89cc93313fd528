//! The run of a script: its lines are taken and run in turn, what they answer is written, and what they tell is heard.

ghost use Rattle.std.specs.Prelude.{ℕ, ◌+◌, ◌≡◌, ◌≢◌, ◌↔◌, ◌⊎◌, [], true, false, List};
ghost use Rattle.std.specs.Prelude.{Option, None, Some, Err, is_none, IfSome, IfNone, IfOk, IfErr, OnOk, OnErr};
ghost use Rattle.std.specs.Prelude.{IsErrOf};
ghost use Rattle.uni_record.specs.Refusals.{IsHistoryLimit};
ghost use Rattle.uni_script.specs.declared.options.Options.{Options};
ghost use Rattle.uni_script.specs.Ends.{AppendsPrefix, Moves};
ghost use Rattle.uni_script.specs.Grammar.{IsInRange, is_note};
ghost use Rattle.uni_script.specs.Lines.{IsHeld, HasTaken, EndsAs, WritesAs, HasRun, HasEnded, GoesOn, RunsOn};
ghost use Rattle.uni_script.specs.Lines.{IsFaultOfLine};
ghost use Rattle.uni_script.specs.Meaning.{Session, session_of, opened_session};
ghost use Rattle.uni_script.specs.Objects.{spoken};
ghost use Rattle.std.specs.Io.KnownBytes.{Appends};
ghost use Rattle.uni_script.specs.Outcome.{Kind, echo_of, outcome_of_text, outcome_of_fault, outcome_of_short_line};
ghost use Rattle.uni_script.specs.Outcome.{outcome_of_end};
ghost use Rattle.uni_script.specs.Promises.{IsPromised};
ghost use Rattle.uni_script.specs.ScriptRun.{IsRanAs, IsSummaryOf};
ghost use Rattle.uni_script.specs.Scripts.{IsAbout};
ghost use Rattle.uni_script.specs.Summary.{summary_of};
ghost use Rattle.uni_script.specs.Remarks.{Heard, HeardGrows, heard_of_line};

use crate::catalogue::{Catalogue, Scripts};
use crate::commands::{make, open};
use crate::ends::{TextIn, TextOut, write_all};
use crate::fault::BenchFault;
use crate::grammar::{Header, command_of, header_by, is_note, is_plain, words_of};
use crate::lines::{Lines, Taken};
use crate::options::{Dialect, Echo, Options, push_echo};
use crate::remarks::Listener;
use crate::script_run::Ran;
use crate::summary::{Summary, summary_of};
use ready_objects::Spoken;
use std::alloc::Global;
use uni_record::{Recorded, Verdict};

/// How many bytes of answers are gathered before they are written.
const MOST_TEXT: usize = 65_536;

/// Runs the script that a reader has, over the objects of a catalogue; the answer is the record that it leaves, and how
/// much it has done.
///
/// `Memory` where memory was refused, `Write` where the writer failed; any other `Err` is the first fault of what was
/// read.
pub(crate) fn run_script<C: Catalogue, I: TextIn, W: TextOut, L: Listener>(
    catalogue: C,
    alloc: Global,
    options: &Options,
    reader: &mut I,
    writer: &mut W,
    listener: &mut L,
) -> Result<Ran<C::Record>, BenchFault>
    requires history { IsHistoryLimit options.now.history }
    requires reader { I.has_failed reader.old ≡ false }
    requires writer { W.has_failed writer.old ≡ false }
    ensures run { HasEnded (C.kind catalogue options.now) (I.remaining reader.old) (I.remaining reader.new)
        (W.contents writer.old) (W.contents writer.new) (L.heard listener.old) (L.heard listener.new)
        (C.IsRan catalogue) result }
    ensures reader { IsErrOf result BenchFault.Read → I.has_failed reader.new ≡ true }
    ensures reader_ok { OnOk result (I.has_failed reader.new ≡ false) }
    ensures writer { IsErrOf result BenchFault.Write ↔ (W.has_failed writer.new ≡ true) }
{
    let mut lines = Lines::new();
    let header = take_header(
        &catalogue, alloc, options, &mut lines, reader, writer, listener,
    )?;
    catalogue.run(alloc, header, options, &mut lines, reader, writer, listener)
}

/// Takes the lines of a script up to its header, which is the answer. The lines before it are notes.
///
/// `NoHeader` where the script has no further line; `Memory` where memory was refused, `Write` where the writer failed;
/// any other `Err` is the first fault of what was read.
fn take_header<C: Catalogue, I: TextIn, W: TextOut, L: Listener>(
    catalogue: &C,
    alloc: Global,
    options: &Options,
    lines: &mut Lines,
    reader: &mut I,
    writer: &mut W,
    listener: &mut L,
) -> Result<Header<C::Name>, BenchFault>
    requires held { IsHeld lines.old }
    requires fresh { (left : Option (List ℕ)) → HasTaken left left lines.old [] }
    requires reader { I.has_failed reader.old ≡ false }
    requires writer { W.has_failed writer.old ≡ false }
    ensures held { OnOk result (IsHeld lines.new) }
    ensures range { IfOk result IsInRange }
    ensures run { IfOk result (λ header. (taken : List (List ℕ))
        × HasRun (C.kind catalogue.now options.now) (I.remaining reader.old) (I.remaining reader.new) lines.new
        (W.contents writer.old) (W.contents writer.new) [] (L.heard listener.old) (L.heard listener.new) taken
        (Some (C.opened catalogue.now options.now header))) }
    ensures ended { IfErr result (λ e. HasEnded (C.kind catalogue.now options.now) (I.remaining reader.old)
        (I.remaining reader.new) (W.contents writer.old) (W.contents writer.new) (L.heard listener.old)
        (L.heard listener.new) (C.IsRan catalogue.now) (Err e)) }
    ensures reader { IsErrOf result BenchFault.Read → I.has_failed reader.new ≡ true }
    ensures reader_ok { OnOk result (I.has_failed reader.new ≡ false) }
    ensures writer { IsErrOf result BenchFault.Write ↔ (W.has_failed writer.new ≡ true) }
{
    loop {
        match lines.take(reader)? {
            Taken::Line => {}
            Taken::End => return Err(BenchFault::NoHeader(lines.count + 1)),
        }
        let line = lines.line();
        let header = read_header(catalogue, alloc, lines.count, line)?;
        match header {
            Some(header) => {
                write_echo(alloc, options.echo, line, writer)?;
                return Ok(header);
            }
            None => {
                listener.note(alloc, lines.count, None, line)?;
                write_echo(alloc, options.echo, line, writer)?;
            }
        }
    }
}

/// Writes what comes before the answers of a line.
///
/// An `Err` is `Memory` where memory was refused, or `Write` where the writer failed.
fn write_echo<W: TextOut>(
    alloc: Global,
    echo: Echo,
    line: &[u8],
    writer: &mut W,
) -> Result<(), BenchFault>
    requires { W.has_failed writer.old ≡ false }
    ensures written { OnOk result (Appends (W.contents writer.old) (W.contents writer.new) (echo_of echo line.now)) }
    ensures prefix { OnErr result (AppendsPrefix (W.contents writer.old) (W.contents writer.new)
        (echo_of echo line.now)) }
    ensures fault { IfErr result (λ e. (e ≡ BenchFault.Memory) ⊎ (e ≡ BenchFault.Write)) }
    ensures writer { IsErrOf result BenchFault.Write ↔ (W.has_failed writer.new ≡ true) }
{
    let mut text = Vec::new(alloc);
    push_echo(&mut text, echo, line)?;
    write_text(&mut text, writer)
}

/// Reads a line before the header, with its number; the answer is the header, where the line isn't a note.
///
/// `Memory` where memory was refused; any other `Err` is the fault of the line.
fn read_header<C: Catalogue>(
    catalogue: &C,
    alloc: Global,
    number: u64,
    line: &[u8],
) -> Result<Option<Header<C::Name>>, BenchFault>
    ensures note { (options : Options) → IfOk result
        (λ header. IfNone header (outcome_of_short_line (C.kind catalogue.now options) number None line.now
        ≡ record { session = None; text = []; fault = None })) }
    ensures header { (options : Options) → IfOk result
        (λ header. IfSome header (λ h. outcome_of_short_line (C.kind catalogue.now options) number None line.now
        ≡ outcome_of_text (C.opened catalogue.now options h) [])) }
    ensures kind { IfOk result (λ header. is_note line.now ≡ is_none header) }
    ensures range { IfOk result (λ header. IfSome header IsInRange) }
    ensures fault { (options : Options) → IfErr result
        (λ e. (e ≡ BenchFault.Memory) ⊎ (outcome_of_short_line (C.kind catalogue.now options) number None line.now
        ≡ outcome_of_fault None e)) }
    ensures own { IfErr result IsFaultOfLine }
{
    if !is_plain(line) {
        return Err(BenchFault::BadByte(number));
    }
    if is_note(line) {
        return Ok(None);
    }
    let words = words_of(alloc, line)?;
    match header_by(catalogue, words.as_slice()) {
        Some(header) => Ok(Some(header)),
        None => Err(BenchFault::BadHeader(number)),
    }
}

/// Opens the record of a header for processes that share this object, and runs the lines that are left. The sessions of
/// the scripts are those of a catalogue.
///
/// `Memory` where memory was refused, `Write` where the writer failed; any other `Err` is the first fault of what was
/// read.
pub(crate) fn run_object<S: Scripts, O: Spoken, N: Copy, I: TextIn, W: TextOut, L: Listener>(
    alloc: Global,
    object: O,
    header: Header<N>,
    options: &Options,
    lines: &mut Lines,
    reader: &mut I,
    writer: &mut W,
    listener: &mut L,
) -> Result<Ran<Recorded<O>>, BenchFault>
    requires range { IsInRange header }
    requires history { IsHistoryLimit options.now.history }
    requires held { IsHeld lines.old }
    requires reader { I.has_failed reader.old ≡ false }
    requires writer { W.has_failed writer.old ≡ false }
    ensures run { (kind : Kind S.Session) (inside : Session O.State O.Inv O.Resp → S.Session)
        → IsAbout kind (spoken O.sequential O.language object)
        (record { version = header.version; echo = options.now.echo }) inside
        → RunsOn kind (I.remaining reader.old) lines.old (W.contents writer.old) (L.heard listener.old)
        (Some (inside (opened_session (spoken O.sequential O.language object) options.now.history header)))
        (I.remaining reader.new) (W.contents writer.new) (L.heard listener.new)
        (IsRanAs (spoken O.sequential O.language object) inside) result }
    ensures reader { IsErrOf result BenchFault.Read → I.has_failed reader.new ≡ true }
    ensures reader_ok { OnOk result (I.has_failed reader.new ≡ false) }
    ensures writer { IsErrOf result BenchFault.Write ↔ (W.has_failed writer.new ≡ true) }
{
    let dialect = Dialect {
        version: header.version,
        echo: options.echo,
    };
    let mut session = open(alloc, object, header, options.history)?;
    match run_commands::<S, O, I, W, L>(
        alloc,
        dialect,
        &mut session,
        lines,
        reader,
        writer,
        listener,
    ) {
        Ok(summary) => Ok(Ran {
            record: session,
            summary,
        }),
        Err(fault) => Err(fault),
    }
}

/// Runs the lines that are left on a record; the answer is how much the script has done.
///
/// Their answers gather in one text. It is written before the reader is asked for more, before a fault is answered, at
/// the end, and where it has 64 KiB.
///
/// `Memory` where memory was refused, `Write` where the writer failed; any other `Err` is the first fault of what was
/// read.
fn run_commands<S: Scripts, O: Spoken, I: TextIn, W: TextOut, L: Listener>(
    alloc: Global,
    dialect: Dialect,
    session: &mut Recorded<O>,
    lines: &mut Lines,
    reader: &mut I,
    writer: &mut W,
    listener: &mut L,
) -> Result<Summary, BenchFault>
    requires held { IsHeld lines.old }
    requires reader { I.has_failed reader.old ≡ false }
    requires writer { W.has_failed writer.old ≡ false }
    ensures object { session.new.world.object ≡ session.old.world.object }
    ensures run { (kind : Kind S.Session) (inside : Session O.State O.Inv O.Resp → S.Session)
        → IsAbout kind (spoken O.sequential O.language session.old.world.object) dialect inside
        → RunsOn kind (I.remaining reader.old) lines.old (W.contents writer.old) (L.heard listener.old)
        (Some (inside (session_of session.old))) (I.remaining reader.new) (W.contents writer.new) (L.heard listener.new)
        (IsSummaryOf (spoken O.sequential O.language session.old.world.object) inside (session_of session.new)) result }
    ensures reader { IsErrOf result BenchFault.Read → I.has_failed reader.new ≡ true }
    ensures reader_ok { OnOk result (I.has_failed reader.new ≡ false) }
    ensures writer { IsErrOf result BenchFault.Write ↔ (W.has_failed writer.new ≡ true) }
{
    let mut text = Vec::new(alloc);
    let mut answer = Vec::new(alloc);
    loop {
        make_room(lines, &mut text, writer)?;
        match run_next::<S, O, I, L>(
            alloc,
            dialect,
            session,
            lines,
            reader,
            &mut answer,
            &mut text,
            listener,
        ) {
            Ok(Taken::Line) => {}
            Ok(Taken::End) => {
                write_text(&mut text, writer)?;
                return run_end::<S, O, W>(alloc, session, lines.count, writer);
            }
            Err(fault) => {
                write_text(&mut text, writer)?;
                return Err(fault);
            }
        }
    }
}

/// Writes the answers that were gathered where the reader will be asked for more, or where they have 64 KiB.
///
/// An `Err` is `Write`: the writer failed.
fn make_room<W: TextOut>(
    lines: &Lines,
    text: &mut Vec<u8>,
    writer: &mut W,
) -> Result<(), BenchFault>
    requires held { IsHeld lines.now }
    requires writer { W.has_failed writer.old ≡ false }
    ensures moved { OnOk result (Moves (W.contents writer.old) (W.contents writer.new) text.old.items text.new.items) }
    ensures prefix { OnErr result (AppendsPrefix (W.contents writer.old) (W.contents writer.new) text.old.items) }
    ensures fault { IfErr result (λ e. e ≡ BenchFault.Write) }
    ensures writer { IsErrOf result BenchFault.Write ↔ (W.has_failed writer.new ≡ true) }
{
    if lines.has_line() && text.len() < MOST_TEXT {
        return Ok(());
    }
    write_text(text, writer)
}

/// Writes the answers that were gathered; none is left then.
///
/// An `Err` is `Write`: the writer failed.
fn write_text<W: TextOut>(text: &mut Vec<u8>, writer: &mut W) -> Result<(), BenchFault>
    requires { W.has_failed writer.old ≡ false }
    ensures moved { OnOk result (Moves (W.contents writer.old) (W.contents writer.new) text.old.items text.new.items) }
    ensures all { OnOk result (text.new.items ≡ []) }
    ensures prefix { OnErr result (AppendsPrefix (W.contents writer.old) (W.contents writer.new) text.old.items) }
    ensures fault { IfErr result (λ e. e ≡ BenchFault.Write) }
    ensures writer { IsErrOf result BenchFault.Write ↔ (W.has_failed writer.new ≡ true) }
{
    match write_all(writer, text.as_slice()) {
        Ok(()) => {
            text.clear();
            Ok(())
        }
        Err(_) => Err(BenchFault::Write),
    }
}

/// Takes the next line and runs it, and gathers its answer, which is made in a text of its own after its echo.
///
/// `Memory` where memory was refused; any other `Err` is the first fault of what was read. No answer is gathered then.
fn run_next<S: Scripts, O: Spoken, I: TextIn, L: Listener>(
    alloc: Global,
    dialect: Dialect,
    session: &mut Recorded<O>,
    lines: &mut Lines,
    reader: &mut I,
    answer: &mut Vec<u8>,
    text: &mut Vec<u8>,
    listener: &mut L,
) -> Result<Taken, BenchFault>
    requires held { IsHeld lines.old }
    requires reader { I.has_failed reader.old ≡ false }
    ensures held { IsHeld lines.new }
    ensures object { session.new.world.object ≡ session.old.world.object }
    ensures next { (kind : Kind S.Session) (inside : Session O.State O.Inv O.Resp → S.Session)
        → IsAbout kind (spoken O.sequential O.language session.old.world.object) dialect inside
        → (old written_old written : Option (List ℕ)) (heard_old : Option Heard)
        → (taken : List (List ℕ))
        → HasRun kind old (I.remaining reader.old) lines.old written_old written text.old.items heard_old
        (L.heard listener.old) taken (Some (inside (session_of session.old)))
        → GoesOn kind old (I.remaining reader.new) lines.old lines.new written_old written text.old.items
        text.new.items heard_old (L.heard listener.old) (L.heard listener.new) taken
        (inside (session_of session.old)) (inside (session_of session.new)) result }
    ensures reader { IsErrOf result BenchFault.Read → I.has_failed reader.new ≡ true }
    ensures reader_ok { OnOk result (I.has_failed reader.new ≡ false) }
    ensures other { IfErr result (λ e. e ≢ BenchFault.Write) }
    ensures count { result ≡ Ok Taken.Line → lines.new.count ≡ lines.old.count + 1 }
{
    match lines.take(reader)? {
        Taken::Line => {
            answer.clear();
            let line = lines.line();
            push_echo(answer, dialect.echo, line)?;
            run_line::<S, O, L>(alloc, dialect, session, lines.count, line, answer, listener)?;
            text.extend_from_slice(answer.as_slice())?;
            Ok(Taken::Line)
        }
        Taken::End => Ok(Taken::End),
    }
}

/// Runs a line after the header, with its number, on a record, and writes its answer after a text.
///
/// `Memory` where memory was refused; any other `Err` is the fault of the line.
fn run_line<S: Scripts, O: Spoken, L: Listener>(
    alloc: Global,
    dialect: Dialect,
    session: &mut Recorded<O>,
    number: u64,
    line: &[u8],
    text: &mut Vec<u8>,
    listener: &mut L,
) -> Result<(), BenchFault>
    ensures object { session.new.world.object ≡ session.old.world.object }
    ensures outcome { (kind : Kind S.Session) (inside : Session O.State O.Inv O.Resp → S.Session)
        → IsAbout kind (spoken O.sequential O.language session.old.world.object) dialect inside
        → EndsAs (outcome_of_short_line kind number (Some (inside (session_of session.old))) line.now) text.old.items
        text.new.items result }
    ensures session { (kind : Kind S.Session) (inside : Session O.State O.Inv O.Resp → S.Session)
        → IsAbout kind (spoken O.sequential O.language session.old.world.object) dialect inside
        → OnOk result (Some (inside (session_of session.new))
        ≡ (outcome_of_short_line kind number (Some (inside (session_of session.old))) line.now).session) }
    ensures heard { (kind : Kind S.Session) (inside : Session O.State O.Inv O.Resp → S.Session)
        → IsAbout kind (spoken O.sequential O.language session.old.world.object) dialect inside
        → OnOk result (HeardGrows (L.heard listener.old) (L.heard listener.new)
        (heard_of_line kind number (Some (inside (session_of session.old))) (Some (inside (session_of session.new)))
        line.now)) }
    ensures own { IfErr result IsFaultOfLine }
{
    if !is_plain(line) {
        return Err(BenchFault::BadByte(number));
    }
    let before = session.events().len();
    if is_note(line) {
        return Ok(listener.note(alloc, number, Some(before as u64), line)?);
    }
    let words = words_of(alloc, line)?;
    let Some(command) = command_of::<O>(dialect.version, words.as_slice()) else {
        return Err(BenchFault::BadLine(number));
    };
    let refusal = make(session, alloc, command, text)?;
    listener.events(number, session.events().len().saturating_sub(before))?;
    match refusal {
        Some(refusal) => Ok(listener.refusal(alloc, number, before as u64, line, refusal)?),
        None => Ok(()),
    }
}

/// Writes the last line of a script that has so many lines and has left a record, where an audit of the record agrees;
/// the answer is how much it has done.
///
/// `Memory` where memory was refused, `Write` where the writer failed.
fn run_end<S: Scripts, O: Spoken, W: TextOut>(
    alloc: Global,
    session: &Recorded<O>,
    lines: u64,
    writer: &mut W,
) -> Result<Summary, BenchFault>
    requires { W.has_failed writer.old ≡ false }
    ensures outcome { (b : S.Session) → WritesAs (outcome_of_end lines (Some b)) (W.contents writer.old)
        (W.contents writer.new) result }
    ensures summary { IfOk result (λ summary. summary
        ≡ summary_of (spoken O.sequential O.language session.now.world.object) lines (session_of session.now)) }
    ensures promised { OnOk result (IsPromised (spoken O.sequential O.language session.now.world.object)
        (session_of session.now)) }
    ensures writer { IsErrOf result BenchFault.Write ↔ (W.has_failed writer.new ≡ true) }
    ensures other { IfErr result (λ e. e ≢ BenchFault.Read) }
{
    session.promise();
    match session.audit(alloc)? {
        Verdict::Agrees => {}
        verdict => return Err(BenchFault::Audit(verdict)),
    }
    match write_all(writer, b"end\n") {
        Ok(()) => Ok(summary_of(session, lines)),
        Err(_) => Err(BenchFault::Write),
    }
}
