//! The commands of a script, made on a record.

ghost use Rattle.std.specs.Prelude.{◌≡◌, ◌<◌, ◌≤◌, ◌++◌, IfOk, IsSome, OnOk, codes, decimal};
ghost use Rattle.std.specs.Prelude.{option_map};
ghost use Rattle.std.specs.Option.{option_map_or};
ghost use Rattle.ready_objects.specs.Words.{text_of_words};
ghost use Rattle.uni_model.specs.Bound.{most_steps};
ghost use Rattle.uni_model.specs.Places.{head_seq};
ghost use Rattle.uni_core.specs.World.{world_of};
ghost use Rattle.uni_log.specs.Entry.{entry_shown};
ghost use Rattle.uni_record.specs.Refusals.{IsHistoryLimit};
ghost use Rattle.uni_script.specs.Grammar.{IsInRange};
ghost use Rattle.uni_script.specs.Commands.{answer_text, refusal_in, IsOver};
ghost use Rattle.uni_script.specs.Answer.{call_text, numbers_text, heads_text, entry_text};
ghost use Rattle.uni_script.specs.Objects.{spoken};
ghost use Rattle.uni_script.specs.Meaning.{session_of, session_after, opened_session, result_of_command};
ghost use Rattle.uni_script.specs.Meaning.{result_of_call, result_of_steps, result_of_trim, result_of_reshape};
ghost use Rattle.uni_script.specs.Meaning.{last_step, steps_of, steps_taken, log_text, refusal_of_call};
ghost use Rattle.uni_script.specs.Meaning.{refusal_of_step, refusal_of_end, refusal_of_reshape, refusal_of_command};

use crate::answer::{Answer, Refusal, push_call, push_called, push_progress};
use crate::grammar::{Command, Header};
use ready_objects::{Spoken, push_number};
use seq_object::CallId;
use std::alloc::{AllocError, Global};
use std::io::Write;
use uni_core::{Progress, World};
use uni_log::{Entry, Log};
use uni_record::{
    RecordBeginFault, RecordOpenFault, RecordReshapeFault, RecordStepFault, RecordTrimFault,
    Recorded,
};

/// Opens the record of a header, for processes that share this object, with a history of so many
/// events at most.
///
/// An `Err` says that memory was refused.
pub fn open<O: Spoken, N: Copy>(
    alloc: Global,
    object: O,
    header: Header<N>,
    history: u64,
) -> Result<Recorded<O>, AllocError>
    requires range { IsInRange header }
    requires history { IsHistoryLimit history }
    ensures session { IfOk result (λ session. session_of session
        ≡ opened_session (spoken O.sequential O.language object) history header) }
    ensures object { IfOk result (λ session. session.world.object ≡ object) }
{
    match Recorded::open(alloc, object, header.processes, header.row, history) {
        Ok(session) => Ok(session),
        Err(RecordOpenFault::Memory) => Err(AllocError),
        // The numbers of a header are in range, and so is that of the history.
        Err(
            RecordOpenFault::BadCount
            | RecordOpenFault::BadRow
            | RecordOpenFault::SeqFull
            | RecordOpenFault::BadHistory,
        ) => unreachable!(),
    }
}

/// Makes a command, and writes its answer after a text; the answer is why it was refused, where it was.
///
/// An `Err` says that memory was refused.
pub fn make<O: Spoken>(
    session: &mut Recorded<O>,
    alloc: Global,
    command: Command<O::Inv>,
    text: &mut Vec<u8>,
) -> Result<Option<Refusal>, AllocError>
    ensures object { session.new.world.object ≡ session.old.world.object }
    ensures session { OnOk result (session_of session.new
        ≡ session_after (spoken O.sequential O.language session.old.world.object) (session_of session.old)
        (result_of_command (spoken O.sequential O.language session.old.world.object)
        (session_of session.old) command).events) }
    ensures text { OnOk result (text.new.items
        ≡ text.old.items ++ (result_of_command (spoken O.sequential O.language session.old.world.object)
        (session_of session.old) command).text) }
    ensures refusal { IfOk result (λ refusal. refusal ≡ refusal_of_command (session_of session.old) command) }
{
    let answer = answer_to(session, alloc, command)?;
    push_answer(session.world(), alloc, &answer, text)?;
    Ok(refusal_in(&answer))
}

/// Makes a command; the answer is what is to be written of it.
///
/// An `Err` says that memory was refused.
fn answer_to<O: Spoken>(
    session: &mut Recorded<O>,
    alloc: Global,
    command: Command<O::Inv>,
) -> Result<Answer<O::Resp>, AllocError>
    ensures object { session.new.world.object ≡ session.old.world.object }
    ensures session { OnOk result (session_of session.new
        ≡ session_after (spoken O.sequential O.language session.old.world.object) (session_of session.old)
        (result_of_command (spoken O.sequential O.language session.old.world.object)
        (session_of session.old) command).events) }
    ensures text { IfOk result (λ answer. answer_text (spoken O.sequential O.language session.old.world.object)
        (world_of session.new.world) answer ≡ (result_of_command
        (spoken O.sequential O.language session.old.world.object) (session_of session.old) command).text) }
    ensures refusal { IfOk result (λ answer. refusal_in answer
        ≡ refusal_of_command (session_of session.old) command) }
{
    match command {
        Command::Call { process, inv } => call(session, alloc, process, &inv),
        Command::Step { process, count } => step(session, alloc, process, count),
        Command::Finish { process } => finish(session, alloc, process),
        Command::Log => Ok(Answer::Log),
        Command::Heads => Ok(Answer::Heads),
        Command::Trim => trim(session, alloc),
        Command::Reshape { processes } => reshape(session, alloc, processes),
    }
}

/// Why a command was refused, where this answers it.
fn refusal_in<R>(answer: &Answer<R>) -> Option<Refusal>
    ensures { result ≡ refusal_in answer.now }
{
    match answer {
        Answer::Refused(refusal) => Some(*refusal),
        _ => None,
    }
}

/// Writes the answer to a command that has led to a world, and the end of its line, after a text.
///
/// An `Err` says that memory was refused.
fn push_answer<O: Spoken>(
    world: &World<O>,
    alloc: Global,
    answer: &Answer<O::Resp>,
    text: &mut Vec<u8>,
) -> Result<(), AllocError>
    ensures { OnOk result (text.new.items ≡ text.old.items
        ++ answer_text (spoken O.sequential O.language world.now.object) (world_of world.now) answer.now) }
{
    match *answer {
        Answer::Called(call) => push_called(text, call),
        Answer::Refused(refusal) => writeln!(text, "{refusal}").map_err(|_| AllocError),
        Answer::Returned {
            call,
            response,
            steps,
            turns,
        } => {
            text.extend_from_slice(b"returned ")?;
            push_call(text, call)?;
            text.extend_from_slice(b" ")?;
            O::push_resp(text, response)?;
            push_progress(text, steps, turns)
        }
        Answer::Going { call, steps, turns } => {
            text.extend_from_slice(b"going ")?;
            push_call(text, call)?;
            push_progress(text, steps, turns)
        }
        Answer::Trimmed(number) => writeln!(text, "trimmed {number}").map_err(|_| AllocError),
        Answer::Reshaped { count, number } => {
            writeln!(text, "reshaped {count} at {number}").map_err(|_| AllocError)
        }
        Answer::Heads => push_heads(world, text),
        Answer::Log => push_log(world, alloc, text),
    }
}

/// Begins a call of a process; the answer names it, or says why it wasn't begun.
///
/// An `Err` says that memory was refused.
fn call<O: Spoken>(
    session: &mut Recorded<O>,
    alloc: Global,
    process: u64,
    inv: &O::Inv,
) -> Result<Answer<O::Resp>, AllocError>
    ensures object { session.new.world.object ≡ session.old.world.object }
    ensures session { OnOk result (session_of session.new
        ≡ session_after (spoken O.sequential O.language session.old.world.object) (session_of session.old)
        (result_of_call (session_of session.old) process inv.now).events) }
    ensures answer { IfOk result (λ answer. answer_text (spoken O.sequential O.language session.old.world.object)
        (world_of session.new.world) answer ≡ (result_of_call (session_of session.old) process inv.now).text) }
    ensures refusal { IfOk result (λ answer. refusal_in answer ≡ refusal_of_call (session_of session.old) process) }
{
    match session.begin(alloc, process, inv) {
        Ok(call) => Ok(Answer::Called(call)),
        Err(RecordBeginFault::BadProcess) => Ok(Answer::Refused(Refusal::Process(process))),
        Err(RecordBeginFault::Busy(process)) => Ok(Answer::Refused(Refusal::Busy(process))),
        Err(RecordBeginFault::RowFull(process)) => Ok(Answer::Refused(Refusal::Row(process))),
        Err(RecordBeginFault::HistoryFull) => Ok(Answer::Refused(Refusal::History)),
        Err(RecordBeginFault::Memory) => Err(AllocError),
    }
}

/// Takes steps of a process until its call returns, as it does within the bound on a call; the answer
/// says that it has, or why no step was taken.
///
/// An `Err` says that memory was refused.
fn finish<O: Spoken>(
    session: &mut Recorded<O>,
    alloc: Global,
    process: u64,
) -> Result<Answer<O::Resp>, AllocError>
    ensures object { session.new.world.object ≡ session.old.world.object }
    ensures session { OnOk result (session_of session.new
        ≡ session_after (spoken O.sequential O.language session.old.world.object) (session_of session.old)
        (result_of_steps (spoken O.sequential O.language session.old.world.object) (world_of session.old.world) process
        (most_steps (world_of session.old.world).n)).events) }
    ensures answer { IfOk result (λ answer. answer_text (spoken O.sequential O.language session.old.world.object)
        (world_of session.new.world) answer ≡ (result_of_steps
        (spoken O.sequential O.language session.old.world.object) (world_of session.old.world) process
        (most_steps (world_of session.old.world).n)).text) }
    ensures refusal { IfOk result (λ answer. refusal_in answer
        ≡ refusal_of_step (world_of session.old.world) process) }
    ensures over { IfOk result IsOver }
{
    session.world().shape();
    let most = 10 * session.world().processes() + 12;
    step(session, alloc, process, most)
}

/// Takes steps of a process until its call returns, at most so many; the answer says how far the call
/// has come, or why no step was taken.
///
/// An `Err` says that memory was refused.
fn step<O: Spoken>(
    session: &mut Recorded<O>,
    alloc: Global,
    process: u64,
    most: u64,
) -> Result<Answer<O::Resp>, AllocError>
    ensures object { session.new.world.object ≡ session.old.world.object }
    ensures session { OnOk result (session_of session.new
        ≡ session_after (spoken O.sequential O.language session.old.world.object) (session_of session.old)
        (result_of_steps (spoken O.sequential O.language session.old.world.object)
        (world_of session.old.world) process most).events) }
    ensures answer { IfOk result (λ answer. answer_text (spoken O.sequential O.language session.old.world.object)
        (world_of session.new.world) answer ≡ (result_of_steps
        (spoken O.sequential O.language session.old.world.object) (world_of session.old.world) process most).text) }
    ensures refusal { IfOk result (λ answer. refusal_in answer
        ≡ refusal_of_step (world_of session.old.world) process) }
    ensures over { IfOk result (λ answer. most_steps (world_of session.old.world).n ≤ most → IsOver answer) }
{
    if process >= session.world().processes() {
        return Ok(Answer::Refused(Refusal::Process(process)));
    }
    let Some(call) = session.world().current(process) else {
        return Ok(Answer::Refused(Refusal::Idle(process)));
    };
    let response = step_on(session, alloc, process, most)?;
    let steps = session.world().steps(process);
    let turns = session.world().turns(process);
    let Some(response) = response else {
        return Ok(Answer::Going { call, steps, turns });
    };
    Ok(Answer::Returned {
        call,
        response,
        steps,
        turns,
    })
}

/// Takes steps of a process that has a call pending until that returns, at most so many; the answer is
/// the response, where it returns. It does within the bound on a call.
///
/// An `Err` says that memory was refused.
fn step_on<O: Spoken>(
    session: &mut Recorded<O>,
    alloc: Global,
    process: u64,
    most: u64,
) -> Result<Option<O::Resp>, AllocError>
    requires process { process < (world_of session.old.world).n }
    requires pending { IsSome ((world_of session.old.world).call process) }
    ensures object { session.new.world.object ≡ session.old.world.object }
    ensures session { OnOk result (session_of session.new
        ≡ session_after (spoken O.sequential O.language session.old.world.object) (session_of session.old)
        (steps_of process (steps_taken most (last_step (spoken O.sequential O.language session.old.world.object)
        (world_of session.old.world) process most)))) }
    ensures processes { (world_of session.new.world).n ≡ (world_of session.old.world).n }
    ensures response { IfOk result (λ response. response
        ≡ option_map (λ last. last.response) (last_step (spoken O.sequential O.language session.old.world.object)
        (world_of session.old.world) process most)) }
    ensures over { IfOk result (λ response. most_steps (world_of session.old.world).n ≤ most → IsSome response) }
{
    session.promise();
    for _ in 0..most {
        match session.step(alloc, process) {
            Ok(Progress::Done(response)) => return Ok(Some(response)),
            Ok(Progress::Going) => {}
            Err(RecordStepFault::Memory) => return Err(AllocError),
            // There is such a process, and it has a call.
            Err(RecordStepFault::BadProcess | RecordStepFault::Idle(_)) => unreachable!(),
        }
    }
    Ok(None)
}

/// Ends the era, where no call is pending; the answer has the number of the new anchor, or says why it
/// didn't end.
///
/// An `Err` says that memory was refused.
fn trim<O: Spoken>(session: &mut Recorded<O>, alloc: Global) -> Result<Answer<O::Resp>, AllocError>
    ensures object { session.new.world.object ≡ session.old.world.object }
    ensures session { OnOk result (session_of session.new
        ≡ session_after (spoken O.sequential O.language session.old.world.object) (session_of session.old)
        (result_of_trim (session_of session.old)).events) }
    ensures answer { IfOk result (λ answer. answer_text (spoken O.sequential O.language session.old.world.object)
        (world_of session.new.world) answer ≡ (result_of_trim (session_of session.old)).text) }
    ensures refusal { IfOk result (λ answer. refusal_in answer
        ≡ refusal_of_end (session_of session.old) (world_of session.old.world).n) }
{
    match session.trim(alloc) {
        Ok(number) => Ok(Answer::Trimmed(number)),
        Err(RecordTrimFault::Pending(process)) => Ok(Answer::Refused(Refusal::Pending(process))),
        Err(RecordTrimFault::SeqFull) => Ok(Answer::Refused(Refusal::Sequence)),
        Err(RecordTrimFault::HistoryFull) => Ok(Answer::Refused(Refusal::History)),
        Err(RecordTrimFault::Memory) => Err(AllocError),
    }
}

/// Ends the era for another number of processes, where no call is pending; the answer has that number
/// and that of the new anchor, or says why it didn't end.
///
/// An `Err` says that memory was refused.
fn reshape<O: Spoken>(
    session: &mut Recorded<O>,
    alloc: Global,
    processes: u64,
) -> Result<Answer<O::Resp>, AllocError>
    ensures object { session.new.world.object ≡ session.old.world.object }
    ensures session { OnOk result (session_of session.new
        ≡ session_after (spoken O.sequential O.language session.old.world.object) (session_of session.old)
        (result_of_reshape (session_of session.old) processes).events) }
    ensures answer { IfOk result (λ answer. answer_text (spoken O.sequential O.language session.old.world.object)
        (world_of session.new.world) answer ≡ (result_of_reshape (session_of session.old) processes).text) }
    ensures refusal { IfOk result (λ answer. refusal_in answer
        ≡ refusal_of_reshape (session_of session.old) processes) }
{
    match session.reshape(alloc, processes) {
        Ok(number) => Ok(Answer::Reshaped {
            count: processes,
            number,
        }),
        Err(RecordReshapeFault::BadCount) => Ok(Answer::Refused(Refusal::Count(processes))),
        Err(RecordReshapeFault::Pending(process)) => Ok(Answer::Refused(Refusal::Pending(process))),
        Err(RecordReshapeFault::SeqFull) => Ok(Answer::Refused(Refusal::Sequence)),
        Err(RecordReshapeFault::HistoryFull) => Ok(Answer::Refused(Refusal::History)),
        Err(RecordReshapeFault::Memory) => Err(AllocError),
    }
}

/// Writes the line of the heads after a text.
///
/// An `Err` says that memory was refused.
fn push_heads<O: Spoken>(world: &World<O>, text: &mut Vec<u8>) -> Result<(), AllocError>
    ensures { OnOk result (text.new.items ≡ text.old.items
        ++ heads_text (world_of world.now).n (head_seq (world_of world.now).memory)) }
{
    text.extend_from_slice(b"heads")?;
    push_numbers(world, text)?;
    text.extend_from_slice(b"\n")
}

/// Writes the number of each head after a text, with a space before each.
///
/// An `Err` says that memory was refused.
fn push_numbers<O: Spoken>(world: &World<O>, text: &mut Vec<u8>) -> Result<(), AllocError>
    ensures { OnOk result (text.new.items ≡ text.old.items
        ++ numbers_text (world_of world.now).n (head_seq (world_of world.now).memory)) }
{
    for process in 0..world.processes() {
        text.extend_from_slice(b" ")?;
        push_number(text, world.head_seq(process))?;
    }
    Ok(())
}

/// Writes the log after a text.
///
/// An `Err` says that memory was refused.
fn push_log<O: Spoken>(
    world: &World<O>,
    alloc: Global,
    text: &mut Vec<u8>,
) -> Result<(), AllocError>
    ensures { OnOk result (text.new.items ≡ text.old.items
        ++ log_text (spoken O.sequential O.language world.now.object) (world_of world.now)) }
{
    let mut cursor = Log::of(world).cursor();
    while let Some(entry) = cursor.next_entry(alloc)? {
        push_entry::<O>(text, &entry)?;
    }
    Ok(())
}

/// Writes an entry of the log and the end of its line after a text.
///
/// An `Err` says that memory was refused.
fn push_entry<O: Spoken>(
    text: &mut Vec<u8>,
    entry: &Entry<O::Inv, O::Resp>,
) -> Result<(), AllocError>
    ensures { OnOk result (text.new.items ≡ text.old.items
        ++ entry_text (λ inv. text_of_words (O.language.inv_words inv)) O.language.resp_text (entry_shown entry.now)) }
{
    push_numbered_call(text, entry.seq, entry.call)?;
    O::push_inv(text, &entry.inv)?;
    text.extend_from_slice(b" -> ")?;
    push_reply::<O>(text, entry.reply)?;
    text.extend_from_slice(b"\n")
}

/// Writes a number and the name of a call after a text, with a space after each.
///
/// An `Err` says that memory was refused.
fn push_numbered_call(text: &mut Vec<u8>, number: u64, call: CallId) -> Result<(), AllocError>
    ensures { OnOk result (text.new.items ≡ text.old.items ++ decimal number ++ codes " " ++ call_text call
        ++ codes " ") }
{
    push_number(text, number)?;
    text.extend_from_slice(b" ")?;
    push_call(text, call)?;
    text.extend_from_slice(b" ")
}

/// Writes a response in the log after a text: a question mark where there is none yet.
///
/// An `Err` says that memory was refused.
fn push_reply<O: Spoken>(text: &mut Vec<u8>, reply: Option<O::Resp>) -> Result<(), AllocError>
    ensures { OnOk result (text.new.items ≡ text.old.items ++ option_map_or O.language.resp_text reply (codes "?")) }
{
    match reply {
        Some(response) => O::push_resp(text, response),
        None => text.extend_from_slice(b"?"),
    }
}
