//! Calls that tests make.

use ready_objects::{Amount, QueueInv, QueueObject, QueueResp};
use seq_object::CallId;
use std::alloc::Global;
use std::process::Abort;
use std::sync::Wait;
use std::sync::atomic::{AtomicU64, Ordering};
use uni_core::Place;
use uni_shared::{ApplyFault, Closed, Gate, GaveUp, NoGate, Receipt, Seat, Shared};

/// The seats of a queue, and the queue under a lock.
pub(crate) type Opened = (Shared<QueueObject>, Vec<Seat<QueueObject>>);

/// A queue that so many processes share under a lock, with rows of so many calls and so many events.
pub(crate) fn queue_of_events(rt: &impl Abort, alloc: Global, n: u64, k: u64, h: u64) -> Opened {
    let Ok(opened) = Shared::open(alloc, QueueObject, n, k, h) else {
        panic!(rt; "nothing was opened")
    };
    opened
}

/// A queue that so many processes share under a lock, with rows of so many calls and 1,000 events.
pub(crate) fn queue(rt: &impl Abort, alloc: Global, n: u64, k: u64) -> Opened {
    queue_of_events(rt, alloc, n, k, 1000)
}

/// A queue of one process under a lock, with rows of so many calls, and its seat.
pub(crate) fn queue_of_one(
    rt: &impl Abort,
    alloc: Global,
    k: u64,
) -> (Shared<QueueObject>, Seat<QueueObject>) {
    let (shared, mut seats) = queue(rt, alloc, 1, k);
    (shared, last(rt, &mut seats))
}

/// The last seat, taken out.
pub(crate) fn last(rt: &impl Abort, seats: &mut Vec<Seat<QueueObject>>) -> Seat<QueueObject> {
    let Some(seat) = seats.pop() else {
        panic!(rt; "there should be one more seat")
    };
    seat
}

/// A list of these seats.
pub(crate) fn listed<const N: usize>(
    rt: &impl Abort,
    alloc: Global,
    seats: [Seat<QueueObject>; N],
) -> Vec<Seat<QueueObject>> {
    let Ok(list) = Vec::from_array(alloc, seats) else {
        panic!(rt; "out of memory")
    };
    list
}

/// A number.
pub(crate) fn amount(value: u32) -> Amount {
    let Some(amount) = Amount::new(u64::from(value)) else {
        unreachable!()
    };
    amount
}

/// An invocation that enqueues a number.
pub(crate) fn enq(value: u32) -> QueueInv {
    QueueInv::Enq(amount(value))
}

/// What refuses a call, if anything does.
pub(crate) fn calls<G: Gate, R: Wait>(
    rt: &R,
    alloc: Global,
    shared: &Shared<QueueObject>,
    seat: &mut Seat<QueueObject>,
    inv: QueueInv,
    gate: &G,
) -> Option<ApplyFault> {
    seat.apply(rt, alloc, shared, inv, gate).err()
}

/// What refuses a call that enqueues a number, if anything does.
pub(crate) fn enqueues<G: Gate, R: Wait>(
    rt: &R,
    alloc: Global,
    shared: &Shared<QueueObject>,
    seat: &mut Seat<QueueObject>,
    value: u32,
    gate: &G,
) -> Option<ApplyFault> {
    calls(rt, alloc, shared, seat, enq(value), gate)
}

/// What refuses to go on with a call, if anything does.
pub(crate) fn resumes<R: Wait>(
    rt: &R,
    alloc: Global,
    shared: &Shared<QueueObject>,
    seat: &mut Seat<QueueObject>,
) -> Option<ApplyFault> {
    seat.resume(rt, alloc, shared, &NoGate).err()
}

/// Whether a seat has this receipt of a call that enqueued a number, after as many others.
pub(crate) fn has_added(
    seat: &Seat<QueueObject>,
    process: u32,
    nth: u64,
    value: u32,
    steps: u64,
    turns: u64,
) -> bool {
    let Some(receipt) = seat.receipts().get(nth as usize) else {
        return false;
    };
    receipt.call == (CallId { process, nth })
        && receipt.inv == enq(value)
        && receipt.reply == QueueResp::Added
        && receipt.steps == steps
        && receipt.turns == turns
}

/// Lets so many steps pass, and then gives up once.
#[derive(Drop)]
pub(crate) struct Stops {
    steps: u64,
    asked: AtomicU64,
}

impl Stops {
    /// One that wasn't asked yet.
    pub(crate) fn after(steps: u64) -> Stops {
        Stops {
            steps,
            asked: AtomicU64::new(0),
        }
    }
}

impl Gate for Stops {
    fn before(&self, _p: u64, _place: Place) -> Result<(), GaveUp> {
        if self.asked.fetch_add(1, Ordering::SeqCst) == self.steps {
            return Err(GaveUp);
        }
        Ok(())
    }
}

/// The receipts of a process; none where there is no such process.
pub(crate) fn receipts_of(closed: &Closed<QueueObject>, p: u64) -> &[Receipt<QueueInv, QueueResp>] {
    if p >= closed.recorded().processes() {
        return &[];
    }
    closed.receipts(p)
}

/// What was closed.
pub(crate) fn closed(
    rt: &impl Abort,
    alloc: Global,
    shared: Shared<QueueObject>,
    seats: Vec<Seat<QueueObject>>,
) -> Closed<QueueObject> {
    let Ok(closed) = shared.close(alloc, seats) else {
        panic!(rt; "it should have been closed")
    };
    closed
}
