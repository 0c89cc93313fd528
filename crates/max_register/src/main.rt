//! A max-register that four threads share without a lock: an object of words. Each thread writes ten
//! numbers; the program prints the greatest of all, and how many calls the log has.
#![tactic(auto)]

ghost use Rattle.uni_words.specs.Belongs.{IsSeatOf};

mod object;

use crate::object::MaxRegister;
use std::alloc::Global;
use std::thread::Threads;
use std::{io, thread};
use universal::{WordLog, WordSeat, read_log};

/// How many threads there are.
const THREADS: u64 = 4;

/// How many numbers each of them writes.
const CALLS: u64 = 10;

/// Writes the numbers of a thread by its seat: how many calls it made.
fn write_all(register: &WordLog<MaxRegister>, seat: WordSeat) -> u64
    requires { IsSeatOf register.now seat }
{
    let mut seat = seat;
    for call in 0..CALLS {
        if seat.apply(register, call * 7).is_err() {
            return call;
        }
    }
    CALLS
}

/// The greatest number that was written, and how many calls the log has. `None` where memory was
/// refused.
fn run<R: Threads + Sync>(rt: &R, alloc: Global) -> Option<(u32, usize)> {
    let Ok((register, seats)) = WordLog::open(alloc, MaxRegister, THREADS + 1, CALLS) else {
        return None;
    };
    let mut seats = seats;
    let Some(own) = seats.pop() else {
        return None;
    };
    let mut own = own;
    thread::map_vec(
        rt,
        seats,
        &|seat: WordSeat| -> u64
            requires { IsSeatOf register seat }
        { write_all(&register, seat) },
    )
    .ok()?;
    let greatest = own.apply(&register, 0).ok()?.reply;
    let entries = read_log(alloc, &register.close_with(own)).ok()?;
    Some((greatest, entries.len()))
}

fn main(rt: HostRuntime) -> io::Result<()> {
    match run(&rt, rt.alloc()) {
        Some((greatest, calls)) => println!(rt; "the greatest is {greatest}, after {calls} calls"),
        None => println!(rt; "out of memory"),
    }
}
