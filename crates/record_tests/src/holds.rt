//! What single holds of the lock do to a record, worked out by hand.

use crate::audits::FIRST;
use crate::records::record_of_queue;
use crate::seat_calls::enq;
use ready_objects::{QueueInv, QueueObject, QueueResp};
use seq_object::CallId;
use std::alloc::Global;
use std::process::Abort;
use uni_core::Place;
use uni_record::{RecordBeginFault, RecordTrimFault, Recorded};
use uni_shared::{StepHeldFault, begin_held, step_held, trim_held};

/// Whether a hold takes a step of call 0.0, which goes on after so many.
fn goes_on(alloc: Global, recorded: &mut Recorded<QueueObject>, steps: u64) -> bool {
    match step_held(alloc, recorded, FIRST) {
        Ok(held) => held.reply == None && held.steps == steps,
        Err(_) => false,
    }
}

/// Call 0.0 of a queue of one process, which asks for `enq 7`, up to its end.
fn first_call(rt: &impl Abort, alloc: Global, recorded: &mut Recorded<QueueObject>) {
    let Ok(held) = begin_held(alloc, recorded, 0, &enq(7)) else {
        panic!(rt; "the call should have begun")
    };
    assert!(rt; held.call == FIRST);
    assert!(rt; held.reply == None);
    assert!(rt; held.place == Some(Place::Announced(0)));
    for step in 1..14 {
        assert!(rt; goes_on(alloc, recorded, step), "at step {step}");
    }
    let Ok(held) = step_held(alloc, recorded, FIRST) else {
        panic!(rt; "the call should end")
    };
    assert!(rt; held.call == FIRST);
    assert!(rt; held.reply == Some(QueueResp::Added));
    assert!(rt; held.steps == 14 && held.turns == 1);
    assert!(rt; held.place == None);
}

#[test]
fn a_call_in_fifteen_holds(rt: HostRuntime) {
    let mut recorded = record_of_queue(&rt, rt.alloc(), 1, 2, 100);
    first_call(&rt, rt.alloc(), &mut recorded);
    assert!(rt; recorded.events().len() == 15);
    assert!(rt; trim_held(rt.alloc(), &mut recorded) == Ok(2));
    assert!(rt; recorded.events().len() == 16);
}

/// Holds that do nothing, where call 0.0 is pending.
fn refused_holds<R: Abort>(rt: &R, alloc: Global, recorded: &mut Recorded<QueueObject>) {
    let stranger = begin_held(alloc, recorded, 1, &QueueInv::Deq).err();
    assert!(rt; stranger == Some(RecordBeginFault::BadProcess));
    let busy = begin_held(alloc, recorded, 0, &QueueInv::Deq).err();
    assert!(rt; busy == Some(RecordBeginFault::Busy(0)));
    for call in [CallId { process: 0, nth: 1 }, CallId { process: 1, nth: 0 }] {
        let fault = step_held(alloc, recorded, call).err();
        assert!(rt; fault == Some(StepHeldFault::NotIts));
    }
    assert!(rt; trim_held(alloc, recorded) == Err(RecordTrimFault::Pending(0)));
}

/// What `a_refused_hold_does_nothing` looks at.
fn a_refused_hold_does_nothing_in<R: Abort>(
    rt: &R,
    alloc: Global,
    recorded: &mut Recorded<QueueObject>,
) {
    assert!(rt; begin_held(alloc, recorded, 0, &QueueInv::Deq).is_ok());
    refused_holds(rt, alloc, recorded);
    assert!(rt; recorded.events().len() == 1);
}

/// What `no_era_ends_where_the_numbers_are_full` looks at.
fn no_era_ends_where_the_numbers_are_full_in<R: Abort>(
    rt: &R,
    alloc: Global,
    recorded: &mut Recorded<QueueObject>,
) {
    assert!(rt; begin_held(alloc, recorded, 1, &QueueInv::Deq).is_ok());
    for _ in 0..16 {
        assert!(rt; step_held(alloc, recorded, CallId { process: 1, nth: 0 }).is_ok());
    }
    assert!(rt; trim_held(alloc, recorded) == Err(RecordTrimFault::SeqFull));
    assert!(rt; recorded.events().len() == 17);
}

#[test]
fn no_era_ends_where_the_numbers_are_full(rt: HostRuntime) {
    let opened = Recorded::open_at(rt.alloc(), QueueObject, 2, 4, 281_474_976_710_647, 100);
    let Ok(mut recorded) = opened else {
        panic!(rt; "no record was opened")
    };
    no_era_ends_where_the_numbers_are_full_in(&rt, rt.alloc(), &mut recorded);
}

#[test]
fn a_refused_hold_does_nothing(rt: HostRuntime) {
    let mut recorded = record_of_queue(&rt, rt.alloc(), 1, 2, 100);
    a_refused_hold_does_nothing_in(&rt, rt.alloc(), &mut recorded);
}
