//! A map from texts to numbers that four threads share without a lock. Each puts ten names into it, and one more that
//! they all put there. The program prints how many names there are then.
#![tactic(auto)]

ghost use Rattle.std.specs.Prelude.{All, IfSome};
ghost use Rattle.uni_any.specs.Seats.{IsSeatOf};

use ready_objects::{Amount, DirectoryInv, DirectoryObject, DirectoryResp, Name};
use std::alloc::Global;
use std::sync::atomic::{AtomicU8, Ordering};
use std::thread::Threads;
use std::{io, thread};
use uni_any::{AnySeat, AnyShared};

/// A thread's place at the map.
type Place = AnySeat<DirectoryObject>;

/// How many threads there are.
const THREADS: u64 = 4;

/// How many names of its own each of them puts.
const NAMES: u64 = 10;

/// The call that gives a name this number; `None` where it is no name.
fn put(name: &[u8], number: u64) -> Option<DirectoryInv> {
    Some(DirectoryInv::Put(Name::read(name)?, Amount::new(number)?))
}

/// Puts a thread's names, which begin with this letter, and the one of all threads. It stops at a refusal.
fn put_all(alloc: Global, map: &AnyShared<DirectoryObject>, seat: Place, letter: u8) -> Option<()>
    requires { IsSeatOf map.now seat }
{
    let mut seat = seat;
    for number in 0..NAMES {
        let own = put(&[letter, b'0' + number as u8], number)?;
        seat.apply(alloc, map, own).ok()?;
        let common = put(b"common", number)?;
        seat.apply(alloc, map, common).ok()?;
    }
    Some(())
}

/// The last seat, and the others; `None` where there is none.
fn last_and_others(
    map: &AnyShared<DirectoryObject>,
    seats: Vec<Place>,
) -> Option<(Place, Vec<Place>)>
    requires { All (IsSeatOf map.now) seats.items }
    ensures { IfSome result (λ parted. IsSeatOf map.now parted.0 × All (IsSeatOf map.now) parted.1.items) }
{
    let mut others = seats;
    let last = others.pop()?;
    Some((last, others))
}

/// Puts the names of threads with these seats; `None` where memory was refused to a thread's start.
fn put_in_threads<R: Threads + Sync>(
    rt: &R,
    alloc: Global,
    map: &AnyShared<DirectoryObject>,
    seats: Vec<Place>,
) -> Option<()>
    requires { All (IsSeatOf map.now) seats.items }
{
    let turns = AtomicU8::new(b'a');
    thread::map_vec(
        rt,
        seats,
        &|seat: Place| -> Option<()>
            requires { IsSeatOf map.now seat }
        { put_all(alloc, map, seat, turns.fetch_add(1, Ordering::SeqCst)) },
    )
    .ok()?;
    Some(())
}

/// How many names there are after all threads have ended; `None` where memory was refused.
fn run<R: Threads + Sync>(rt: &R, alloc: Global) -> Option<u64> {
    let opened = AnyShared::open(alloc, DirectoryObject, THREADS + 1);
    let (map, seats) = opened.ok()?;
    let (mut last, others) = last_and_others(&map, seats)?;
    put_in_threads(rt, alloc, &map, others)?;
    let answer = last.apply(alloc, &map, DirectoryInv::Size).ok()?;
    match answer.reply {
        DirectoryResp::Count(count) => Some(count),
        _ => None,
    }
}

fn main(rt: HostRuntime) -> io::Result<()> {
    match run(&rt, rt.alloc()) {
        Some(count) => println!(rt; "{count} names"),
        None => println!(rt; "out of memory"),
    }
}
