//! Records, where no script says it: which are opened, what one stores of a call, what it answers to commands, and
//! numbers up to the greatest.

ghost use Rattle.std.specs.Prelude.{◌≤◌};

use crate::acts::call;
use crate::seat_calls::{amount, enq};
use ready_objects::{QueueInv, QueueObject, QueueResp};
use seq_object::{SeqObject, SwapRegister};
use std::alloc::{AllocError, Global};
use std::process::Abort;
use std::test::Fail;
use uni_core::Progress;
use uni_log::Entry;
use uni_record::{
    Command, Counts, Event, Outcome, RecordOpenFault, RecordReshapeFault, RecordTrimFault,
    Recorded, Refusal, Return, Verdict,
};

/// The reply with which a process ends its pending call.
pub(crate) fn finishes<O: SeqObject>(
    alloc: Global,
    recorded: &mut Recorded<O>,
    p: u64,
) -> Option<O::Resp> {
    for _ in 0..1000 {
        match recorded.step(alloc, p) {
            Ok(Progress::Going) => {}
            Ok(Progress::Done(reply)) => return Some(reply),
            Err(_) => return None,
        }
    }
    None
}

/// A record of a queue that so many processes share, with rows of so many calls and so many events.
pub(crate) fn record_of_queue(
    rt: &impl Abort,
    alloc: Global,
    n: u64,
    k: u64,
    h: u64,
) -> Recorded<QueueObject> {
    let Ok(recorded) = Recorded::open(alloc, QueueObject, n, k, h) else {
        panic!(rt; "no record was opened")
    };
    recorded
}

/// The entries of a record.
pub(crate) fn entries_of(
    rt: &impl Abort,
    alloc: Global,
    recorded: &Recorded<QueueObject>,
) -> Vec<Entry<QueueInv, QueueResp>> {
    let Ok(entries) = recorded.entries(alloc) else {
        panic!(rt; "out of memory")
    };
    entries
}

/// Why no record of so many events is opened from this number, if none is.
fn refused_at(alloc: Global, seq: u64, h: u64) -> Option<RecordOpenFault>
    requires { 1 ≤ seq }
{
    Recorded::open_at(alloc, QueueObject, 2, 4, seq, h).err()
}

#[test]
fn what_cannot_be_opened_is_refused_in_order(rt: HostRuntime) {
    let alloc = rt.alloc();
    for (n, k, h, fault) in [
        (0, 0, 0, Some(RecordOpenFault::BadCount)),
        (65, 8, 100, Some(RecordOpenFault::BadCount)),
        (64, 0, 0, Some(RecordOpenFault::BadRow)),
        (1, 4097, 100, Some(RecordOpenFault::BadRow)),
        (1, 8, 0, Some(RecordOpenFault::BadHistory)),
        (1, 8, 16_777_217, Some(RecordOpenFault::BadHistory)),
        (64, 8, 16_777_216, None),
    ] {
        let opened = Recorded::open(alloc, QueueObject, n, k, h);
        assert!(rt;
            opened.err() == fault,
            "{n} processes, rows of {k}, {h} events"
        );
    }
    assert!(rt; refused_at(alloc, 281_474_976_710_648, 0) == Some(RecordOpenFault::SeqFull));
    assert!(rt; refused_at(alloc, 281_474_976_710_647, 0) == Some(RecordOpenFault::BadHistory));
    assert!(rt; refused_at(alloc, 281_474_976_710_647, 1) == None);
}

/// What is stored of a call of process 0, which enqueues 7.
fn is_stored(rt: &impl Abort, recorded: &Recorded<QueueObject>) {
    assert!(rt; recorded.events().len() == 15);
    assert!(rt; recorded.events().next() == Some(Event::Call(0, enq(7)).as_ref()));
    assert!(rt; recorded.events().last() == Some(Event::Step(0).as_ref()));
    let returned = Return {
        call: call(0, 0),
        reply: QueueResp::Added,
    };
    assert!(rt; recorded.returns() == [returned].as_slice());
    let counts = Counts {
        steps: 14,
        turns: 1,
    };
    assert!(rt; recorded.counts() == [counts].as_slice());
    assert!(rt; (recorded.processes(), recorded.first(), recorded.limit()) == (1, 1, 100));
}

#[test]
fn a_call_is_stored_event_by_event(rt: HostRuntime) {
    let mut recorded = record_of_queue(&rt, rt.alloc(), 1, 8, 100);
    assert!(rt; recorded.begin(rt.alloc(), 0, &enq(7)) == Ok(call(0, 0)));
    assert!(rt; finishes(rt.alloc(), &mut recorded, 0) == Some(QueueResp::Added));
    is_stored(&rt, &recorded);
}

/// Whether a record that is given these commands answers these.
fn answers(
    alloc: Global,
    recorded: &mut Recorded<QueueObject>,
    commands: &[Command<QueueInv>],
    told: &[Outcome<QueueResp>],
) -> bool {
    match recorded.run(alloc, commands) {
        Ok(outcomes) => outcomes.as_slice() == told,
        Err(_) => false,
    }
}

/// A new record of a queue is given these commands, and answers these; then it has so many events.
fn runs(
    rt: &impl Abort,
    alloc: Global,
    (n, k, h): (u64, u64, u64),
    commands: &[Command<QueueInv>],
    told: &[Outcome<QueueResp>],
    stored: usize,
) {
    let mut recorded = record_of_queue(rt, alloc, n, k, h);
    assert!(rt;
        answers(alloc, &mut recorded, commands, told),
        "other outcomes"
    );
    assert!(rt; recorded.events().len() == stored, "other events");
    assert!(rt;
        recorded.events().size_hint() == (stored, Some(stored)),
        "another hint"
    );
}

#[test]
fn refused_commands_are_not_stored(rt: HostRuntime) {
    let commands = [
        Command::Call(1, enq(5)),
        Command::Step(0),
        Command::Call(2, QueueInv::Deq),
        Command::Trim,
        Command::Reshape(0),
    ];
    let told = [
        Outcome::Called(call(1, 0)),
        Outcome::Refused(Refusal::Idle(0)),
        Outcome::Refused(Refusal::BadProcess),
        Outcome::Refused(Refusal::Pending(1)),
        Outcome::Refused(Refusal::BadCount),
    ];
    runs(&rt, rt.alloc(), (2, 8, 1000), &commands, &told, 1);
}

#[test]
fn a_run_of_commands_ends_eras(rt: HostRuntime) {
    let commands = [
        Command::Trim,
        Command::Reshape(3),
        Command::Call(2, enq(7)),
        Command::Reshape(1),
        Command::Call(0, enq(7)),
    ];
    let told = [
        Outcome::Trimmed(1),
        Outcome::Reshaped(3, 1),
        Outcome::Refused(Refusal::HistoryFull),
        Outcome::Reshaped(1, 1),
        Outcome::Refused(Refusal::HistoryFull),
    ];
    runs(&rt, rt.alloc(), (1, 8, 23), &commands, &told, 3);
}

/// A command and so many steps of a process, at the end of others.
fn add(
    commands: &mut Vec<Command<QueueInv>>,
    first: Command<QueueInv>,
    p: u64,
    count: u64,
) -> Result<(), AllocError> {
    commands.push(first)?;
    for _ in 0..count {
        commands.push(Command::Step(p))?;
    }
    Ok(())
}

/// A call that returns, the end of its era, a call that isn't announced, and one that returns.
fn commands_of_two_eras(alloc: Global) -> Result<Vec<Command<QueueInv>>, AllocError> {
    let mut commands = Vec::new(alloc);
    add(&mut commands, Command::Call(0, enq(1)), 0, 16)?;
    add(&mut commands, Command::Trim, 0, 0)?;
    add(&mut commands, Command::Call(1, enq(2)), 1, 1)?;
    add(&mut commands, Command::Call(0, QueueInv::Deq), 0, 16)?;
    Ok(commands)
}

/// Whether the entries are those of the calls that returned in these eras.
fn are_of_two_eras(entries: &[Entry<QueueInv, QueueResp>]) -> bool {
    match entries {
        [first, second] => {
            (first.seq, first.call, first.reply) == (2, call(0, 0), Some(QueueResp::Added))
                && (second.seq, second.call, second.reply)
                    == (3, call(0, 1), Some(QueueResp::Taken(amount(1))))
        }
        _ => false,
    }
}

/// What `the_entries_of_ended_eras_are_kept` looks at.
fn the_entries_of_ended_eras_are_kept_in(
    rt: &impl Abort,
    alloc: Global,
    recorded: &mut Recorded<QueueObject>,
) -> Result<(), AllocError> {
    let commands = commands_of_two_eras(alloc)?;
    let outcomes = recorded.run(alloc, &commands)?;
    assert!(rt; outcomes.len() == 37 && recorded.events().len() == 37);
    assert!(rt; are_of_two_eras(&recorded.entries(alloc)?));
    assert!(rt; recorded.audit(alloc)? == Verdict::Agrees);
    Ok(())
}

#[test]
fn the_entries_of_ended_eras_are_kept(rt: HostRuntime) -> Result<(), Fail> {
    let mut recorded = record_of_queue(&rt, rt.alloc(), 2, 8, 1000);
    the_entries_of_ended_eras_are_kept_in(&rt, rt.alloc(), &mut recorded)?;
    Ok(())
}

/// What `numbers_that_would_pass_the_greatest_are_refused` looks at.
fn numbers_that_would_pass_the_greatest_are_refused_in(
    rt: &impl Abort,
    alloc: Global,
    recorded: &mut Recorded<SwapRegister>,
) {
    assert!(rt; recorded.begin(alloc, 0, &9) == Ok(call(0, 0)));
    assert!(rt; finishes(alloc, recorded, 0) == Some(5));
    assert!(rt; recorded.trim(alloc) == Err(RecordTrimFault::SeqFull));
    assert!(rt; recorded.reshape(alloc, 2) == Err(RecordReshapeFault::SeqFull));
    assert!(rt; recorded.events().len() == 17);
    assert!(rt; recorded.reshape(alloc, 1) == Ok(281_474_976_710_648));
}

#[test]
fn numbers_that_would_pass_the_greatest_are_refused(rt: HostRuntime) {
    let object = SwapRegister { start: 5 };
    let opened = Recorded::open_at(rt.alloc(), object, 2, 4, 281_474_976_710_647, 1000);
    let Ok(mut recorded) = opened else {
        panic!(rt; "no record was opened")
    };
    numbers_that_would_pass_the_greatest_are_refused_in(&rt, rt.alloc(), &mut recorded);
}
