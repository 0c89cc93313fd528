//! A stack that four threads share without a lock. Each pushes ten numbers. The program prints how many calls the last
//! version has.
#![tactic(auto)]

ghost use Rattle.std.specs.Prelude.{All, IfSome};
ghost use Rattle.uni_any.specs.Seats.{IsSeatOf};

use stack::{Stack, StackInv};
use std::alloc::Global;
use std::thread::Threads;
use std::{io, thread};
use uni_any::{AnySeat, AnyShared};

/// How many threads there are.
const THREADS: u64 = 4;

/// How many numbers each of them pushes.
const CALLS: u32 = 10;

/// Pushes the numbers of a thread by its seat. It stops at a refusal.
fn push_all(alloc: Global, stack: &AnyShared<Stack>, seat: AnySeat<Stack>) -> Option<()>
    requires { IsSeatOf stack.now seat }
{
    let mut seat = seat;
    for value in 0..CALLS {
        seat.apply(alloc, stack, StackInv::Push(value)).ok()?;
    }
    Some(())
}

/// The last seat, and the others; `None` where there is none.
fn last_and_others(
    stack: &AnyShared<Stack>,
    seats: Vec<AnySeat<Stack>>,
) -> Option<(AnySeat<Stack>, Vec<AnySeat<Stack>>)>
    requires { All (IsSeatOf stack.now) seats.items }
    ensures { IfSome result (λ parted. IsSeatOf stack.now parted.0 × All (IsSeatOf stack.now) parted.1.items) }
{
    let mut others = seats;
    let last = others.pop()?;
    Some((last, others))
}

/// How many calls are in the last version after all threads have ended; `None` where memory was refused.
fn run<R: Threads + Sync>(rt: &R, alloc: Global) -> Option<u64> {
    let opened = AnyShared::open(alloc, Stack, THREADS + 1);
    let (stack, seats) = opened.ok()?;
    let (last, others) = last_and_others(&stack, seats)?;
    thread::map_vec(
        rt,
        others,
        &|seat: AnySeat<Stack>| -> Option<()>
            requires { IsSeatOf stack seat }
        { push_all(alloc, &stack, seat) },
    )
    .ok()?;
    let closed = stack.close_with(last);
    let mut calls: u64 = 0;
    for row in &closed.block().rows {
        calls = calls.wrapping_add(row.applied);
    }
    Some(calls)
}

fn main(rt: HostRuntime) -> io::Result<()> {
    match run(&rt, rt.alloc()) {
        Some(calls) => println!(rt; "{calls} calls are in the last version"),
        None => println!(rt; "out of memory"),
    }
}
