//! Processes that stop for good: the others' calls return within the bound, and the log stays legal.

use rand_xoshiro::Xoshiro256PlusPlus;
use rand_xoshiro::rand_core::{Rng, SeedableRng};
use ready_objects::{Amount, QueueInv, QueueObject};
use seq_object::CallId;
use std::alloc::Global;
use std::process::Abort;
use std::test::Fail;
use uni_record::{RecordBeginFault, RecordTrimFault, Recorded, Verdict, audit};

/// An invocation that enqueues a number.
fn enq(value: u64) -> Result<QueueInv, Fail> {
    let amount = Amount::new(value).ok_or("the number should fit")?;
    Ok(QueueInv::Enq(amount))
}

/// Process `p` begins its next call, which enqueues a number, where it has none pending and its row
/// isn't full, and takes one step of the call that is pending then. The answer is whether it did.
fn advances(
    alloc: Global,
    recorded: &mut Recorded<QueueObject>,
    p: u64,
    inv: &QueueInv,
) -> Result<bool, Fail> {
    match recorded.begin(alloc, p, inv) {
        Ok(_) | Err(RecordBeginFault::Busy(_)) => {}
        Err(RecordBeginFault::RowFull(_)) => return Ok(false),
        Err(_) => return Err(Fail::from("the call should have begun")),
    }
    match recorded.step(alloc, p) {
        Ok(_) => Ok(true),
        Err(_) => Err(Fail::from("the step should have been taken")),
    }
}

/// Process `p` begins a call that enqueues a number, takes so many steps and stops.
fn stops(
    alloc: Global,
    recorded: &mut Recorded<QueueObject>,
    p: u64,
    steps: u64,
) -> Result<(), Fail> {
    let inv = enq(p)?;
    if recorded.begin(alloc, p, &inv).is_err() {
        return Err(Fail::from("the call should have begun"));
    }
    for _ in 0..steps {
        if !advances(alloc, recorded, p, &inv)? {
            return Err(Fail::from("the call should be pending"));
        }
    }
    Ok(())
}

/// Asserts that so many calls have returned, each within the bound of `n` processes.
fn are_bounded(rt: &impl Abort, recorded: &Recorded<QueueObject>, calls: usize, n: u64) {
    assert!(rt; recorded.counts().len() == calls);
    for counts in recorded.counts() {
        assert!(rt; counts.steps <= n.saturating_mul(10).saturating_add(12));
        assert!(rt; counts.turns <= n.saturating_add(1));
    }
}

/// Asserts that the log has so many entries, this one among them or not, and that it agrees with the
/// returns.
fn has_log(
    rt: &impl Abort,
    alloc: Global,
    recorded: &Recorded<QueueObject>,
    length: usize,
    call: (CallId, bool),
) -> Result<(), Fail> {
    let entries = recorded.entries(alloc)?;
    assert!(rt; entries.len() == length, "{call:?}");
    let (call, is_there) = call;
    let found = entries.iter().any(|entry| entry.call == call);
    assert!(rt; found == is_there, "{call:?}");
    let verdict = audit(alloc, &QueueObject, entries.as_slice(), recorded.returns())?;
    assert!(rt; verdict == Verdict::Agrees);
    Ok(())
}

/// Processes 1 and 2 make four calls each, one step in turn.
fn both_call(alloc: Global, recorded: &mut Recorded<QueueObject>) -> Result<(), Fail> {
    for turn in 0..168 {
        advances(alloc, recorded, 1, &enq(1000 + turn)?)?;
        advances(alloc, recorded, 2, &enq(2000 + turn)?)?;
    }
    Ok(())
}

/// A record of a queue that so many processes share, with rows of so many calls.
fn queue(alloc: Global, n: u64, k: u64) -> Result<Recorded<QueueObject>, Fail> {
    match Recorded::open(alloc, QueueObject, n, k, 1_000_000) {
        Ok(opened) => Ok(opened),
        Err(_) => Err(Fail::from("no record was opened")),
    }
}

/// Process 0 of three stops after so many steps, beside two that make four calls each.
fn one_of_three_stops(
    rt: &impl Abort,
    alloc: Global,
    recorded: &mut Recorded<QueueObject>,
    steps: u64,
) -> Result<(), Fail> {
    stops(alloc, recorded, 0, steps)?;
    both_call(alloc, recorded)?;
    are_bounded(rt, recorded, 8, 3);
    let first = CallId { process: 0, nth: 0 };
    let (length, is_there) = if steps == 0 { (8, false) } else { (9, true) };
    has_log(rt, alloc, recorded, length, (first, is_there))?;
    assert!(rt;
        recorded.trim(alloc) == Err(RecordTrimFault::Pending(0)),
        "{steps}"
    );
    Ok(())
}

#[test]
fn one_of_three_stops_after_each_step(rt: HostRuntime) -> Result<(), Fail> {
    for steps in 0..18 {
        let mut recorded = queue(rt.alloc(), 3, 4)?;
        one_of_three_stops(&rt, rt.alloc(), &mut recorded, steps)?;
    }
    Ok(())
}

/// The process that goes on where the others stop.
const ALIVE: u64 = 31;

/// Process 31 makes 50 calls, one after the other.
fn one_calls(alloc: Global, recorded: &mut Recorded<QueueObject>) -> Result<(), Fail> {
    let inv = enq(ALIVE)?;
    for _ in 0..32_600 {
        if recorded.counts().len() == 50 {
            return Ok(());
        }
        advances(alloc, recorded, ALIVE, &inv)?;
    }
    Ok(())
}

/// All processes but one of 64 stop, each after as many steps of a call as the next word draws, in
/// turn of processes. The answer is how many of them took a step.
fn drawn_stops(
    alloc: Global,
    recorded: &mut Recorded<QueueObject>,
    source: &mut Xoshiro256PlusPlus,
) -> Result<usize, Fail> {
    let mut announced = 0usize;
    for p in 0..64 {
        if p != ALIVE {
            // A call that another one helped from its first step on takes 132 steps.
            let steps = source.next_u64() % 132;
            stops(alloc, recorded, p, steps)?;
            announced = announced.saturating_add(usize::from(steps > 0));
        }
    }
    Ok(announced)
}

/// All processes but one of 64 stop, where a seed draws it, and that one makes 50 calls.
fn all_but_one_stop(
    rt: &impl Abort,
    alloc: Global,
    recorded: &mut Recorded<QueueObject>,
    seed: u64,
) -> Result<(), Fail> {
    let mut source = Xoshiro256PlusPlus::seed_from_u64(seed);
    let announced = drawn_stops(alloc, recorded, &mut source)?;
    one_calls(alloc, recorded)?;
    are_bounded(rt, recorded, 50, 64);
    // Each call that was announced is in the log, since the turns have come to each process.
    let last = CallId {
        process: 31,
        nth: 49,
    };
    has_log(
        rt,
        alloc,
        recorded,
        announced.saturating_add(50),
        (last, true),
    )?;
    assert!(rt;
        recorded.trim(alloc) == Err(RecordTrimFault::Pending(0)),
        "{seed}"
    );
    Ok(())
}

#[test]
fn all_but_one_of_64_stop(rt: HostRuntime) -> Result<(), Fail> {
    for seed in 1..4 {
        let mut recorded = queue(rt.alloc(), 64, 64)?;
        all_but_one_stop(&rt, rt.alloc(), &mut recorded, seed)?;
    }
    Ok(())
}
