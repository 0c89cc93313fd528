//! Two threads over one record: what the lock lets happen between the steps of a call.

use crate::records::{entries_of, finishes, record_of_queue};
use crate::seat_calls::{
    Stops, amount, calls, closed, enq, enqueues, last, listed, queue, receipts_of, resumes,
};
use ready_objects::{QueueInv, QueueObject, QueueResp};
use std::alloc::Global;
use std::process::Abort;
use std::sync::Wait;
use std::sync::atomic::{AtomicU64, Ordering};
use std::thread::{Threads, join};
use uni_core::{Place, Progress};
use uni_log::Entry;
use uni_record::{Counts, RecordTrimFault, Recorded, Return, Verdict, audit};
use uni_shared::{ApplyFault, Closed, Gate, GaveUp, NoGate, Seat, Shared, trim};

/// How often a word is looked at before waiting for it ends.
const PATIENCE: u64 = 1_000_000_000;

/// Whether a word became 1.
fn is_raised(word: &AtomicU64) -> bool {
    for _ in 0..PATIENCE {
        if word.load(Ordering::SeqCst) == 1 {
            return true;
        }
    }
    false
}

/// Lets process 0 take so many steps, then says that it stands before the next one, and waits there
/// until process 1 has made its calls.
#[derive(Drop)]
struct Between {
    steps: u64,
    asked: AtomicU64,
    stands: AtomicU64,
    at_own_head: AtomicU64,
    made: AtomicU64,
}

impl Between {
    /// A gate that stops process 0 before the step after so many.
    fn new(steps: u64) -> Between {
        Between {
            steps,
            asked: AtomicU64::new(0),
            stands: AtomicU64::new(0),
            at_own_head: AtomicU64::new(0),
            made: AtomicU64::new(0),
        }
    }
}

impl Gate for Between {
    fn before(&self, p: u64, place: Place) -> Result<(), GaveUp> {
        if p != 0 || self.asked.fetch_add(1, Ordering::SeqCst) != self.steps {
            return Ok(());
        }
        if place == Place::HeadOf(0) {
            self.at_own_head.store(1, Ordering::SeqCst);
        }
        self.stands.store(1, Ordering::SeqCst);
        if is_raised(&self.made) {
            Ok(())
        } else {
            Err(GaveUp)
        }
    }
}

/// The seat of process 0 after its one call.
fn makes_one<R: Wait + Abort>(
    rt: &R,
    alloc: Global,
    shared: &Shared<QueueObject>,
    mut seat: Seat<QueueObject>,
    inv: QueueInv,
    gate: &Between,
) -> Seat<QueueObject> {
    assert!(rt; calls(rt, alloc, shared, &mut seat, inv, gate).is_none());
    seat
}

/// The seat of process 1 after its two calls, once process 0 stands before the step in question.
fn makes_two<R: Wait + Abort>(
    rt: &R,
    alloc: Global,
    shared: &Shared<QueueObject>,
    mut seat: Seat<QueueObject>,
    inv: QueueInv,
    gate: &Between,
) -> Seat<QueueObject> {
    assert!(rt; is_raised(&gate.stands));
    for inv in [inv, QueueInv::Deq] {
        assert!(rt; calls(rt, alloc, shared, &mut seat, inv, gate).is_none());
    }
    gate.made.store(1, Ordering::SeqCst);
    seat
}

/// What is closed after process 0 made a call in one thread, stopped at a gate, while process 1 made
/// two in another.
fn in_two_threads<R: Threads + Wait + Abort + Sync>(
    rt: &R,
    alloc: Global,
    gate: &Between,
) -> Closed<QueueObject> {
    let (shared, mut seats) = queue(rt, alloc, 2, 2);
    let second = last(rt, &mut seats);
    let first = last(rt, &mut seats);
    let queue = &shared;
    let (first, second) = join(
        rt,
        move || makes_one(rt, alloc, queue, first, enq(10), gate),
        move || makes_two(rt, alloc, queue, second, enq(1), gate),
    );
    closed(rt, alloc, shared, listed(rt, alloc, [first, second]))
}

/// A process begins this call, and takes its steps to its end.
fn makes(
    rt: &impl Abort,
    alloc: Global,
    recorded: &mut Recorded<QueueObject>,
    p: u64,
    inv: QueueInv,
) {
    assert!(rt; recorded.begin(alloc, p, &inv).is_ok());
    assert!(rt; finishes(alloc, recorded, p).is_some());
}

/// The same events, given one by one.
fn one_by_one(rt: &impl Abort, alloc: Global, recorded: &mut Recorded<QueueObject>, steps: u64) {
    assert!(rt; recorded.begin(alloc, 0, &enq(10)).is_ok());
    for _ in 0..steps {
        assert!(rt; matches!(recorded.step(alloc, 0), Ok(Progress::Going)));
    }
    makes(rt, alloc, recorded, 1, enq(1));
    makes(rt, alloc, recorded, 1, QueueInv::Deq);
    assert!(rt; finishes(alloc, recorded, 0).is_some());
}

/// Two records have the same entries.
fn has_entries_of(
    rt: &impl Abort,
    alloc: Global,
    recorded: &Recorded<QueueObject>,
    expected: &Recorded<QueueObject>,
) {
    assert!(rt; entries_of(rt, alloc, recorded) == entries_of(rt, alloc, expected));
}

/// Whether a receipt is of this return with these counts.
fn is_receipt_of(closed: &Closed<QueueObject>, told: &Return<QueueResp>, counts: Counts) -> bool {
    let call = told.call;
    match receipts_of(closed, u64::from(call.process)).get(call.nth as usize) {
        Some(receipt) => {
            receipt.call == call
                && receipt.reply == told.reply
                && receipt.steps == counts.steps
                && receipt.turns == counts.turns
        }
        None => false,
    }
}

/// What is closed has three receipts, which are the returns of a record with their counts.
fn has_returns_of(rt: &impl Abort, closed: &Closed<QueueObject>, expected: &Recorded<QueueObject>) {
    let returns = expected.returns();
    let counts = expected.counts();
    assert!(rt; returns.len() == 3 && counts.len() == 3);
    for i in 0..returns.len() {
        assert!(rt; is_receipt_of(closed, &returns[i], counts[i]), "return {i}");
    }
}

/// What is closed has these events, and its receipts are these returns with their counts.
fn is_as_expected(
    rt: &impl Abort,
    alloc: Global,
    closed: &Closed<QueueObject>,
    expected: &Recorded<QueueObject>,
) {
    assert!(rt; closed.recorded().events().eq(expected.events()));
    has_returns_of(rt, closed, expected);
    has_entries_of(rt, alloc, closed.recorded(), expected);
}

/// What is closed has the events and the returns that the same events have when they are given one by
/// one.
fn is_as_one_by_one(rt: &impl Abort, alloc: Global, closed: &Closed<QueueObject>, steps: u64) {
    let mut expected = record_of_queue(rt, alloc, 2, 2, 1000);
    one_by_one(rt, alloc, &mut expected, steps);
    is_as_expected(rt, alloc, closed, &expected);
}

#[test]
fn between_any_two_steps(rt: HostRuntime) {
    for steps in 0..16 {
        let closed = in_two_threads(&rt, rt.alloc(), &Between::new(steps));
        is_as_one_by_one(&rt, rt.alloc(), &closed, steps);
    }
}

/// Whether an entry of the log is this call, with this number.
fn is_entry(
    entry: &Entry<QueueInv, QueueResp>,
    seq: u64,
    process: u32,
    nth: u64,
    reply: QueueResp,
) -> bool {
    entry.seq == seq
        && entry.call.process == process
        && entry.call.nth == nth
        && entry.reply == Some(reply)
}

/// Whether a process's receipt has these own steps and turns.
fn counts_are(closed: &Closed<QueueObject>, p: u64, nth: usize, steps: u64, turns: u64) -> bool {
    let Some(receipt) = receipts_of(closed, p).get(nth) else {
        return false;
    };
    receipt.steps == steps && receipt.turns == turns
}

/// Whether the entries are those of `after_the_first_step`.
fn are_after_the_first_step(entries: &[Entry<QueueInv, QueueResp>]) -> bool {
    entries.len() == 3
        && is_entry(&entries[0], 2, 1, 0, QueueResp::Added)
        && is_entry(&entries[1], 3, 0, 0, QueueResp::Added)
        && is_entry(&entries[2], 4, 1, 1, QueueResp::Taken(amount(1)))
}

#[test]
fn after_the_first_step(rt: HostRuntime) {
    let gate = Between::new(1);
    let closed = in_two_threads(&rt, rt.alloc(), &gate);
    assert!(rt; gate.at_own_head.load(Ordering::SeqCst) == 1);
    for (p, nth, steps, turns) in [(0, 0, 8, 0), (1, 0, 16, 1), (1, 1, 24, 2)] {
        assert!(rt; counts_are(&closed, p, nth, steps, turns), "{p} {nth}");
    }
    let entries = entries_of(&rt, rt.alloc(), closed.recorded());
    assert!(rt; are_after_the_first_step(&entries));
}

/// The seat of a process among three, after calls that enqueue these numbers, each within 42 own steps and 4 turns.
fn makes_all<R: Wait + Abort>(
    rt: &R,
    alloc: Global,
    shared: &Shared<QueueObject>,
    mut seat: Seat<QueueObject>,
    values: [u32; 4],
) -> Seat<QueueObject> {
    for value in values {
        assert!(rt; enqueues(rt, alloc, shared, &mut seat, value, &NoGate).is_none());
    }
    for receipt in seat.receipts() {
        assert!(rt; receipt.steps <= 42 && receipt.turns <= 4);
    }
    seat
}

/// Process 0 announces its call and stops.
fn stops<R: Wait>(
    rt: &R,
    alloc: Global,
    shared: &Shared<QueueObject>,
    seat: &mut Seat<QueueObject>,
) -> bool {
    let gate = Stops::after(1);
    enqueues(rt, alloc, shared, seat, 1, &gate) == Some(ApplyFault::GaveUp)
}

/// Whether no era ends before process 0 goes on, which then ends its call.
fn goes_on<R: Wait>(
    rt: &R,
    alloc: Global,
    shared: &Shared<QueueObject>,
    seat: &mut Seat<QueueObject>,
) -> bool {
    trim(rt, alloc, shared) == Err(RecordTrimFault::Pending(0))
        && resumes(rt, alloc, shared, seat).is_none()
}

/// A queue of three processes with rows of four calls, whose process 0 stops in a call and goes on when the others have
/// made four calls each, at once.
fn one_stops<R: Threads + Wait + Abort + Sync>(rt: &R, alloc: Global) -> Closed<QueueObject> {
    let (shared, mut seats) = queue(rt, alloc, 3, 4);
    let third = last(rt, &mut seats);
    let second = last(rt, &mut seats);
    let mut first = last(rt, &mut seats);
    assert!(rt; stops(rt, alloc, &shared, &mut first));
    let queue = &shared;
    let (second, third) = join(
        rt,
        move || makes_all(rt, alloc, queue, second, [10, 11, 12, 13]),
        move || makes_all(rt, alloc, queue, third, [20, 21, 22, 23]),
    );
    assert!(rt; goes_on(rt, alloc, &shared, &mut first));
    closed(rt, alloc, shared, listed(rt, alloc, [first, second, third]))
}

#[test]
fn beside_a_stopped_process(rt: HostRuntime) {
    let closed = one_stops(&rt, rt.alloc());
    assert!(rt; counts_are(&closed, 0, 0, 10, 0));
    let recorded = closed.recorded();
    let entries = entries_of(&rt, rt.alloc(), recorded);
    assert!(rt; entries.len() == 9);
    let verdict = audit(rt.alloc(), &QueueObject, &entries, recorded.returns());
    assert!(rt; verdict == Ok(Verdict::Agrees));
}
