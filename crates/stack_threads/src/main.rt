//! A stack under a lock, which four threads share. Each pushes ten numbers. The program prints how many
//! calls the history has, and what an audit of it says.
#![tactic(auto)]

use stack::{Stack, StackInv};
use std::alloc::{AllocError, Global};
use std::sync::Wait;
use std::thread::Threads;
use std::{io, thread};
use universal::{NoGate, Seat, Shared, Verdict};

/// How many threads there are.
const THREADS: u64 = 4;

/// How many numbers each of them pushes.
const CALLS: u32 = 10;

/// Pushes the numbers of a thread by its seat, but no more after a refusal.
fn push_all<R: Wait>(
    rt: &R,
    alloc: Global,
    stack: &Shared<Stack>,
    seat: Seat<Stack>,
) -> Seat<Stack> {
    let mut seat = seat;
    for value in 0..CALLS {
        if seat
            .apply(rt, alloc, stack, StackInv::Push(value), &NoGate)
            .is_err()
        {
            return seat;
        }
    }
    seat
}

/// The calls that the history has after all threads have ended, and what the audit says. `None` where
/// memory was refused.
fn run<R: Threads + Wait + Sync>(rt: &R, alloc: Global) -> Option<(usize, bool)> {
    let (stack, seats) = Shared::open(alloc, Stack, THREADS, 10, 10_000).ok()?;
    let seats = thread::map_vec(
        rt,
        seats,
        &|seat: Seat<Stack>| -> Seat<Stack> { push_all(rt, alloc, &stack, seat) },
    )
    .ok()?;
    let closed = stack.close(alloc, seats).ok()?;
    let recorded = closed.recorded();
    let agrees = recorded.audit(alloc).ok()? == Verdict::Agrees;
    Some((recorded.returns().len(), agrees))
}

fn main(rt: HostRuntime) -> io::Result<()> {
    match run(&rt, rt.alloc()) {
        Some((calls, agrees)) => println!(rt; "{calls} calls, the audit agrees: {agrees}"),
        None => println!(rt; "out of memory"),
    }
}
