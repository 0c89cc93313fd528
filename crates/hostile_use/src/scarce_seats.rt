//! An object under a lock that is refused memory at one of its requests: the call that meets the
//! refusal answers it, is pending where it had begun, and asked again goes on as without it.

use crate::scarce::{Asked, Scarce, were_made};
use std::alloc::Global;
use std::cell::Cell;
use std::process::Abort;
use std::sync::Wait;
use std::test::Fail;
use uni_core::Place;
use uni_record::{RecordOpenFault, RecordTrimFault};
use uni_shared::{ApplyFault, Gate, GaveUp, Seat, Shared, trim};

/// Lets so many steps pass, and then gives up.
#[derive(Drop)]
struct Few {
    left: Cell<u64>,
}

impl Gate for Few {
    fn before(&self, _p: u64, _place: Place) -> Result<(), GaveUp> {
        let left = self.left.get();
        self.left.set(left.saturating_sub(1));
        if left == 0 { Err(GaveUp) } else { Ok(()) }
    }
}

/// A register under a lock that two processes share, and their seats.
type Opened<'a> = (Shared<Scarce<'a>>, Vec<Seat<Scarce<'a>>>);

/// A register under a lock; asked again where its start state was refused.
fn opened(alloc: Global, granted: &Cell<u64>) -> Result<Opened<'_>, Fail> {
    match Shared::open(alloc, Scarce { granted }, 2, 8, 1000) {
        Ok(opened) => return Ok(opened),
        Err(RecordOpenFault::Memory) => {}
        Err(_) => return Err(Fail::from("only memory should be refused")),
    }
    match Shared::open(alloc, Scarce { granted }, 2, 8, 1000) {
        Ok(opened) => Ok(opened),
        Err(_) => Err(Fail::from("asked again, a register should be opened")),
    }
}

/// A seat begins a call where there is an invocation, and goes on with its call while the gate lets it
/// pass. The answer is the reply with the own steps and the turns.
fn goes<'a, R: Wait>(
    rt: &R,
    alloc: Global,
    shared: &Shared<Scarce<'a>>,
    seat: &mut Seat<Scarce<'a>>,
    asked: Option<Asked<'a>>,
    gate: &Few,
) -> Result<(u32, u64, u64), ApplyFault> {
    let receipt = match asked {
        Some(asked) => seat.apply(rt, alloc, shared, asked, gate)?,
        None => seat.resume(rt, alloc, shared, gate)?,
    };
    Ok((receipt.reply, receipt.steps, receipt.turns))
}

/// A number that a call asks for, if any, how many steps it may take, and the counter of its copies.
type Bid<'a> = (Option<u32>, u64, &'a Cell<u64>);

/// The same; where memory is refused the seat has no receipt more, and it is asked again: to go on with
/// its call, where that has begun.
fn goes_again<'a, R: Wait>(
    rt: &R,
    alloc: Global,
    shared: &Shared<Scarce<'a>>,
    seat: &mut Seat<Scarce<'a>>,
    (number, steps, granted): Bid<'a>,
) -> Result<(u32, u64, u64), ApplyFault> {
    let receipts = seat.receipts().len();
    let gate = Few {
        left: Cell::new(steps),
    };
    let asked = number.map(|number| Asked::new(number, granted));
    let made = goes(rt, alloc, shared, seat, asked, &gate);
    if made != Err(ApplyFault::Memory) || seat.receipts().len() != receipts {
        return made;
    }
    if seat.pending() {
        // The gate let the step pass that was refused.
        gate.left.set(gate.left.get().saturating_add(1));
        return goes(rt, alloc, shared, seat, None, &gate);
    }
    let asked = number.map(|number| Asked::new(number, granted));
    goes(rt, alloc, shared, seat, asked, &gate)
}

/// The same of the seat of a process, where there is one.
fn process_goes<'a, R: Wait>(
    rt: &R,
    alloc: Global,
    shared: &Shared<Scarce<'a>>,
    seats: &mut [Seat<Scarce<'a>>],
    p: usize,
    bid: Bid<'a>,
) -> Option<Result<(u32, u64, u64), ApplyFault>> {
    match seats.get_mut(p) {
        Some(seat) => Some(goes_again(rt, alloc, shared, seat, bid)),
        None => None,
    }
}

/// What the end of the era answers; asked again where memory is refused.
fn trims<R: Wait>(
    rt: &R,
    alloc: Global,
    shared: &Shared<Scarce<'_>>,
) -> Result<u64, RecordTrimFault> {
    match trim(rt, alloc, shared) {
        Err(RecordTrimFault::Memory) => trim(rt, alloc, shared),
        answer => answer,
    }
}

/// The holds of the run in which the bound is met exactly, the end of its era, and a call after it.
fn meets_the_bound<'a, R: Wait + Abort>(
    rt: &R,
    alloc: Global,
    shared: &Shared<Scarce<'a>>,
    seats: &mut [Seat<Scarce<'a>>],
    granted: &'a Cell<u64>,
) {
    let gave_up = Err(ApplyFault::GaveUp);
    for (p, number, steps, made) in [
        (0, Some(10), 10, gave_up),
        (1, Some(7), 14, gave_up),
        (0, None, 6, Ok((9, 16, 1))),
        (0, Some(20), 1, gave_up),
        (1, None, 18, Ok((20, 32, 3))),
        (0, None, 7, Ok((10, 8, 0))),
    ] {
        let bid = (number, steps, granted);
        assert!(rt;
            process_goes(rt, alloc, shared, seats, p, bid) == Some(made),
            "{p}"
        );
    }
    assert!(rt; trims(rt, alloc, shared) == Ok(4));
    let last = process_goes(rt, alloc, shared, seats, 0, (Some(30), 16, granted));
    assert!(rt; last == Some(Ok((7, 16, 1))));
}

/// That run, where one request is refused.
fn bound_is_met<R: Wait + Abort>(rt: &R, alloc: Global, granted: &Cell<u64>) -> Result<(), Fail> {
    let (shared, mut seats) = opened(alloc, granted)?;
    meets_the_bound(rt, alloc, &shared, &mut seats, granted);
    match shared.close(alloc, seats) {
        // Four calls, their 72 steps, and the trim.
        Ok(closed) => assert!(rt; closed.recorded().events().len() == 77),
        Err(_) => assert!(rt; false, "it should be closed"),
    }
    Ok(())
}

#[test]
fn seats_whose_object_is_refused(rt: HostRuntime) -> Result<(), Fail> {
    // The start state, two copies for each of four calls, their next states, and three entries.
    for refused in 0..17 {
        let granted = Cell::new(refused);
        bound_is_met(&rt, rt.alloc(), &granted)?;
        were_made(&rt, &granted, refused, 16);
    }
    Ok(())
}
