//! Seats and closed records whose receipts and faults were worked out by hand.

use crate::seat_calls::{
    Opened, Stops, closed, enqueues, has_added, last, listed, queue, queue_of_events, receipts_of,
    resumes,
};
use ready_objects::QueueObject;
use seq_object::CallId;
use std::alloc::Global;
use std::process::Abort;
use std::sync::Wait;
use uni_record::RecordTrimFault;
use uni_shared::{ApplyFault, CloseFault, NoGate, Seat, Shared, trim};

/// What is asked of a seat and a queue, and what has to come of it.
#[derive(Clone, Copy)]
enum Ask {
    /// A call that enqueues a number; what refuses it.
    Enqueues(u32, Option<ApplyFault>),
    /// The same, stopped by its gate before its second step.
    Stops(u32),
    /// To go on with the seat's call; what refuses that.
    Resumes(Option<ApplyFault>),
    /// Whether the seat has a call pending.
    Pends(bool),
    /// The receipt of the seat's call of this number: what it enqueued, its own steps and turns.
    Has(u64, u32, u64, u64),
    /// The end of the era.
    Trims(Result<u64, RecordTrimFault>),
}

/// Whether what has to come of it comes.
fn does<R: Wait>(
    rt: &R,
    alloc: Global,
    shared: &Shared<QueueObject>,
    seat: &mut Seat<QueueObject>,
    ask: &Ask,
) -> bool {
    match *ask {
        Ask::Enqueues(value, fault) => {
            enqueues(rt, alloc, shared, seat, value, &NoGate) == fault
        }
        Ask::Stops(value) => {
            let stops = Stops::after(1);
            enqueues(rt, alloc, shared, seat, value, &stops) == Some(ApplyFault::GaveUp)
        }
        Ask::Resumes(fault) => resumes(rt, alloc, shared, seat) == fault,
        Ask::Pends(pends) => seat.pending() == pends,
        Ask::Has(nth, value, steps, turns) => {
            let process = seat.process() as u32;
            has_added(seat, process, nth, value, steps, turns)
        }
        Ask::Trims(told) => trim(rt, alloc, shared) == told,
    }
}

/// What is asked of a seat, by its place, and of a queue, by its place.
type Row = (usize, usize, Ask);

/// Asks all this, one after the other.
fn plays<R: Wait + Abort>(
    rt: &R,
    alloc: Global,
    queues: &[&Shared<QueueObject>],
    seats: &mut [Seat<QueueObject>],
    rows: &[Row],
) {
    for (at, (seat, queue, ask)) in rows.iter().enumerate() {
        let (Some(seat), Some(shared)) = (seats.get_mut(*seat), queues.get(*queue)) else {
            panic!(rt; "no such seat or queue at row {at}")
        };
        assert!(rt; does(rt, alloc, shared, seat, ask), "at row {at}");
    }
}

/// A seat of process 0 that makes a call, after which the era ends.
const ONE: &[Row] = &[
    (0, 0, Ask::Enqueues(7, None)),
    (0, 0, Ask::Has(0, 7, 14, 1)),
    (0, 0, Ask::Pends(false)),
    (0, 0, Ask::Trims(Ok(2))),
];

#[test]
fn one_seat(rt: HostRuntime) {
    let (shared, mut seats) = queue(&rt, rt.alloc(), 1, 8);
    plays(&rt, rt.alloc(), &[&shared], &mut seats, ONE);
    let seat = last(&rt, &mut seats);
    assert!(rt; seat.process() == 0);
}

/// What was handed back for this fault, where closing was refused.
fn refused(rt: &impl Abort, alloc: Global, (shared, seats): Opened, fault: CloseFault) -> Opened {
    let count = seats.len();
    let Err(refused) = shared.close(alloc, seats) else {
        panic!(rt; "nothing should have been closed")
    };
    assert!(rt; refused.fault == fault, "another fault");
    assert!(rt; refused.seats.len() == count, "other seats");
    (refused.shared, refused.seats)
}

/// A record with so many events is closed with one receipt of process 0.
fn is_closed(rt: &impl Abort, alloc: Global, (shared, seats): Opened, events: usize) {
    let closed = closed(rt, alloc, shared, seats);
    assert!(rt; closed.recorded().events().len() == events);
    assert!(rt; receipts_of(&closed, 0).len() == 1);
}

/// A record isn't closed with the seat of another one, whose call enqueued 8.
fn differs<R: Wait + Abort>(
    rt: &R,
    alloc: Global,
    shared: Shared<QueueObject>,
) -> Shared<QueueObject> {
    let (there, mut others) = queue(rt, alloc, 1, 8);
    plays(
        rt,
        alloc,
        &[&there],
        &mut others,
        &[(0, 0, Ask::Enqueues(8, None))],
    );
    let fault = CloseFault::Mismatch(CallId { process: 0, nth: 0 });
    let (shared, mut others) = refused(rt, alloc, (shared, others), fault);
    plays(
        rt,
        alloc,
        &[&shared],
        &mut others,
        &[(0, 0, Ask::Has(0, 8, 14, 1))],
    );
    shared
}

#[test]
fn a_seat_of_another_record_differs(rt: HostRuntime) {
    let (shared, mut own) = queue(&rt, rt.alloc(), 1, 8);
    plays(&rt, rt.alloc(), &[&shared], &mut own, ONE);
    let shared = differs(&rt, rt.alloc(), shared);
    is_closed(&rt, rt.alloc(), (shared, own), 16);
}

#[test]
fn a_seat_that_is_not_there(rt: HostRuntime) {
    let alloc = rt.alloc();
    let (shared, mut seats) = queue(&rt, alloc, 2, 8);
    let second = last(&rt, &mut seats);
    assert!(rt; second.process() == 1);
    let (shared, mut seats) = refused(&rt, alloc, (shared, seats), CloseFault::MissingSeat(1));
    let (_, mut others) = queue(&rt, alloc, 2, 8);
    last(&rt, &mut others);
    let (first, other) = (last(&rt, &mut seats), last(&rt, &mut others));
    let seats = listed(&rt, alloc, [first, other, second]);
    refused(&rt, alloc, (shared, seats), CloseFault::MissingSeat(0));
}

#[test]
fn a_seat_of_more_processes(rt: HostRuntime) {
    let (shared, _) = queue(&rt, rt.alloc(), 1, 8);
    let (_, seats) = queue(&rt, rt.alloc(), 3, 8);
    refused(&rt, rt.alloc(), (shared, seats), CloseFault::MissingSeat(1));
}

/// Two queues of one process, and their seats.
fn two_queues(
    rt: &impl Abort,
    alloc: Global,
) -> (
    Shared<QueueObject>,
    Shared<QueueObject>,
    Vec<Seat<QueueObject>>,
) {
    let (here, mut seats) = queue(rt, alloc, 1, 8);
    let (there, mut others) = queue(rt, alloc, 1, 8);
    let (seat, other) = (last(rt, &mut seats), last(rt, &mut others));
    (here, there, listed(rt, alloc, [seat, other]))
}

/// What is asked of a queue's own seat and of another queue's.
const STRANGER: &[Row] = &[
    (0, 0, Ask::Enqueues(7, None)),
    (1, 0, Ask::Enqueues(8, Some(ApplyFault::Stranger))),
    (1, 0, Ask::Pends(true)),
    // the call has begun, so that its process is busy
    (0, 0, Ask::Enqueues(9, Some(ApplyFault::Stranger))),
    (0, 0, Ask::Pends(false)),
];

#[test]
fn a_stranger(rt: HostRuntime) {
    let (here, there, mut seats) = two_queues(&rt, rt.alloc());
    plays(&rt, rt.alloc(), &[&here, &there], &mut seats, STRANGER);
}

/// What is asked of a seat whose process there isn't.
const NOT_THERE: &[Row] = &[
    (1, 0, Ask::Enqueues(8, Some(ApplyFault::Stranger))),
    (1, 0, Ask::Pends(false)),
];

#[test]
fn a_seat_of_a_process_that_is_not_there(rt: HostRuntime) {
    let (shared, _) = queue(&rt, rt.alloc(), 1, 8);
    let (_, mut seats) = queue(&rt, rt.alloc(), 2, 8);
    plays(&rt, rt.alloc(), &[&shared], &mut seats, NOT_THERE);
}

/// What is asked of the seats of two queues, each at its own queue and at the other one.
const ELSEWHERE: &[Row] = &[
    (0, 0, Ask::Stops(7)),
    // no call is pending there
    (0, 1, Ask::Resumes(Some(ApplyFault::Stranger))),
    // the second call is pending there, and not the first
    (1, 1, Ask::Enqueues(1, None)),
    (1, 1, Ask::Stops(2)),
    (0, 1, Ask::Resumes(Some(ApplyFault::Stranger))),
    // each goes on where it is at home
    (0, 0, Ask::Resumes(None)),
    (0, 0, Ask::Has(0, 7, 14, 1)),
    (1, 1, Ask::Resumes(None)),
    (1, 1, Ask::Has(1, 2, 14, 1)),
];

#[test]
fn a_step_of_a_call_that_another_object_has_pending(rt: HostRuntime) {
    let (here, there, mut seats) = two_queues(&rt, rt.alloc());
    plays(&rt, rt.alloc(), &[&here, &there], &mut seats, ELSEWHERE);
}

/// Alone among 64 a call takes 140 steps, and a seat of one process takes 22 at a time.
const AMONG_64: &[Row] = &[
    (0, 0, Ask::Enqueues(7, Some(ApplyFault::Stranger))),
    (0, 0, Ask::Resumes(Some(ApplyFault::Stranger))),
    (0, 0, Ask::Resumes(Some(ApplyFault::Stranger))),
    (0, 0, Ask::Resumes(Some(ApplyFault::Stranger))),
    (0, 0, Ask::Resumes(Some(ApplyFault::Stranger))),
    (0, 0, Ask::Resumes(Some(ApplyFault::Stranger))),
    (0, 0, Ask::Resumes(None)),
    (0, 0, Ask::Has(0, 7, 140, 1)),
];

#[test]
fn a_call_among_more_processes_than_its_seat_knows(rt: HostRuntime) {
    let (shared, _) = queue(&rt, rt.alloc(), 64, 8);
    let (_, mut seats) = queue(&rt, rt.alloc(), 1, 8);
    plays(&rt, rt.alloc(), &[&shared], &mut seats, AMONG_64);
}

/// Two calls in a row of one.
const FULL_ROW: &[Row] = &[
    (0, 0, Ask::Enqueues(7, None)),
    (0, 0, Ask::Enqueues(8, Some(ApplyFault::RowFull))),
    (0, 0, Ask::Pends(false)),
];

#[test]
fn a_full_row(rt: HostRuntime) {
    let (shared, mut seats) = queue(&rt, rt.alloc(), 1, 1);
    plays(&rt, rt.alloc(), &[&shared], &mut seats, FULL_ROW);
}

/// A call that may take 23 events, where there is room for 22.
const FULL_HISTORY: &[Row] = &[
    (0, 0, Ask::Enqueues(8, Some(ApplyFault::HistoryFull))),
    (0, 0, Ask::Pends(false)),
];

#[test]
fn a_full_history(rt: HostRuntime) {
    let (shared, mut seats) = queue_of_events(&rt, rt.alloc(), 1, 1, 22);
    plays(&rt, rt.alloc(), &[&shared], &mut seats, FULL_HISTORY);
}

#[test]
fn no_era_ends_where_the_history_is_full(rt: HostRuntime) {
    let alloc = rt.alloc();
    let (shared, mut seats) = queue_of_events(&rt, alloc, 1, 8, 23);
    // the call's share is 23 events, and it takes 15
    plays(
        &rt,
        alloc,
        &[&shared],
        &mut seats,
        &[(0, 0, Ask::Enqueues(7, None))],
    );
    for _ in 0..8 {
        plays(
            &rt,
            alloc,
            &[&shared],
            &mut seats,
            &[(0, 0, Ask::Trims(Ok(2)))],
        );
    }
    let full = Ask::Trims(Err(RecordTrimFault::HistoryFull));
    plays(&rt, alloc, &[&shared], &mut seats, &[(0, 0, full)]);
    is_closed(&rt, alloc, (shared, seats), 23);
}

/// A call that its gate stops.
const STOPPED: &[Row] = &[
    (0, 0, Ask::Stops(7)),
    (0, 0, Ask::Pends(true)),
    (0, 0, Ask::Enqueues(8, Some(ApplyFault::SeatPending))),
];

/// Its end.
const ENDED: &[Row] = &[
    (0, 0, Ask::Resumes(None)),
    (0, 0, Ask::Has(0, 7, 14, 1)),
    (0, 0, Ask::Resumes(Some(ApplyFault::NothingPending))),
];

#[test]
fn a_gate_that_gives_up(rt: HostRuntime) {
    let alloc = rt.alloc();
    let (shared, mut seats) = queue(&rt, alloc, 1, 8);
    plays(&rt, alloc, &[&shared], &mut seats, STOPPED);
    let (shared, mut seats) = refused(&rt, alloc, (shared, seats), CloseFault::PendingSeat(0));
    plays(&rt, alloc, &[&shared], &mut seats, ENDED);
    is_closed(&rt, alloc, (shared, seats), 15);
}

/// Calls, with memory refused for whatever one request: each is asked again where it was.
fn asked_again<R: Wait + Abort>(
    rt: &R,
    alloc: Global,
    shared: &Shared<QueueObject>,
    seat: &mut Seat<QueueObject>,
) {
    if let Some(fault) = enqueues(rt, alloc, shared, seat, 7, &NoGate) {
        assert!(rt; fault == ApplyFault::Memory);
        let again = if seat.pending() {
            resumes(rt, alloc, shared, seat)
        } else {
            enqueues(rt, alloc, shared, seat, 7, &NoGate)
        };
        assert!(rt; again.is_none());
    }
    assert!(rt; has_added(seat, 0, 0, 7, 14, 1));
}

/// What `queue` opens for one process; it is opened again where memory was refused.
fn opened_again(rt: &impl Abort, alloc: Global) -> Opened {
    match Shared::open(alloc, QueueObject, 1, 8, 1000) {
        Ok(opened) => opened,
        Err(_) => queue(rt, alloc, 1, 8),
    }
}

#[test]
fn a_call_that_is_asked_again(rt: HostRuntime) {
    let (shared, mut seats) = opened_again(&rt, rt.alloc());
    for seat in seats.iter_mut() {
        asked_again(&rt, rt.alloc(), &shared, seat);
    }
    is_closed(&rt, rt.alloc(), (shared, seats), 15);
}
