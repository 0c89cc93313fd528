//! Reads, which are no calls.

ghost use Rattle.std.specs.Prelude.{◌≡◌};
ghost use Rattle.uni_small.specs.Belongs.{IsSeatOf, invocation_width_of, reply_width_of};
ghost use Rattle.small_objects.specs.Typed.{IsTypedSeatOf};

use crate::small::{answers, last_two, opened, typed};
use small_objects::{MapCall, MapReply, SmallCounter, SmallMap, Told, TypedSeat, Words};
use std::process::Abort;
use std::thread::{Threads, join};
use uni_small::{SmallObject, SmallSeat, SmallShared};

/// What the seat reads: what a call of this word would be answered, and the version.
fn read<O: SmallObject>(
    rt: &impl Abort,
    shared: &SmallShared<O>,
    seat: &mut SmallSeat<O>,
    inv: u64,
) -> Told<u64>
    requires { IsSeatOf shared.now seat.old }
    ensures { IsSeatOf shared.now seat.new }
{
    assert!(rt; shared.invocation_width() == 1);
    assert!(rt; shared.reply_width() == 1);
    let mut reply = [0];
    let Ok(Some(version)) = seat.read(shared, &[inv], &mut reply) else {
        panic!(rt; "nothing is read")
    };
    Told {
        reply: reply[0],
        version,
    }
}

/// The state of a counter that the seat finds, and its version.
fn state(
    rt: &impl Abort,
    shared: &SmallShared<SmallCounter>,
    seat: &mut SmallSeat<SmallCounter>,
) -> (u64, u64)
    requires { IsSeatOf shared.now seat.old }
    ensures { IsSeatOf shared.now seat.new }
{
    let Ok(Some(version)) = seat.refresh(shared) else {
        panic!(rt; "nothing is found")
    };
    let words = seat.state();
    assert!(rt; words.len() == 1);
    (words[0], version)
}

#[test]
fn a_read_changes_nothing(rt: HostRuntime) {
    let (shared, mut seats) = opened(&rt, rt.alloc(), SmallCounter, 2);
    let (mut first, mut second) = last_two(&rt, &shared, &mut seats);
    assert!(rt; state(&rt, &shared, &mut first) == (0, 0));
    answers(&rt, &shared, &mut first, &[(5, 0), (3, 5)]);
    let eight = Told {
        reply: 8,
        version: 2,
    };
    assert!(rt; read(&rt, &shared, &mut second, 7) == eight);
    assert!(rt; read(&rt, &shared, &mut second, 0) == eight);
    answers(&rt, &shared, &mut second, &[(1, 8)]);
    let nine = Told {
        reply: 9,
        version: 3,
    };
    assert!(rt; read(&rt, &shared, &mut first, 4) == nine);
    assert!(rt; read(&rt, &shared, &mut second, 4) == nine);
    assert!(rt; state(&rt, &shared, &mut first) == (9, 3));
    assert!(rt; state(&rt, &shared, &mut second) == (9, 3));
    assert!(rt; first.made() == 2 && second.made() == 1);
    answers(&rt, &shared, &mut first, &[(2, 9)]);
    let eleven = Told {
        reply: 11,
        version: 4,
    };
    assert!(rt; read(&rt, &shared, &mut second, 0) == eleven);
    assert!(rt; read(&rt, &shared, &mut second, 0) == eleven);
    assert!(rt; state(&rt, &shared, &mut second) == (11, 4));
}

/// What a seat of a map reads: what the call would be answered, and the version.
fn told<C: Words, R: Words>(
    rt: &impl Abort,
    shared: &SmallShared<SmallMap>,
    seat: &mut TypedSeat<SmallMap, C, R>,
    call: C,
) -> Told<R>
    requires { IsTypedSeatOf C.words R.words shared.now seat.old }
    ensures { IsTypedSeatOf C.words R.words shared.now seat.new }
{
    let Ok(Some(told)) = seat.read(shared, &call) else {
        panic!(rt; "nothing is read")
    };
    told
}

/// How many numbers one thread adds, each of them 1.
const CALLS: u64 = 20_000;

/// Adds 1 so many times: how often it was answered.
fn adds(shared: &SmallShared<SmallCounter>, mut seat: SmallSeat<SmallCounter>) -> u64
    requires seat { IsSeatOf shared.now seat }
    requires call { invocation_width_of shared.now ≡ 1 }
    requires reply { reply_width_of shared.now ≡ 1 }
{
    let mut reply = [0];
    let mut answered = 0u64;
    for _ in 0..CALLS {
        if seat.apply(shared, &[1], &mut reply).is_ok() {
            answered = answered.wrapping_add(1);
        }
    }
    answered
}

/// What was read while another thread added.
#[derive(Debug, PartialEq, Drop)]
struct Found {
    /// How many reads found a number that isn't that of their version, or a smaller one than the read before.
    wrong: u64,
    /// What was read last, once the other thread had ended or there had been many reads.
    last: u64,
}

/// Reads until the other thread must have ended. Each version has one call more than the one before, as one thread
/// calls.
fn reads(shared: &SmallShared<SmallCounter>, mut seat: SmallSeat<SmallCounter>) -> Found
    requires seat { IsSeatOf shared.now seat }
    requires call { invocation_width_of shared.now ≡ 1 }
    requires reply { reply_width_of shared.now ≡ 1 }
{
    let mut reply = [0];
    let mut found = Found { wrong: 0, last: 0 };
    for _ in 0..2_000_000_000u64 {
        if found.last == CALLS {
            break;
        }
        if let Ok(Some(version)) = seat.read(shared, &[0], &mut reply) {
            if reply[0] != version || reply[0] < found.last {
                found.wrong = found.wrong.wrapping_add(1);
            }
            found.last = reply[0];
        }
    }
    found
}

/// One thread adds, and one reads.
fn in_two_threads<R: Threads + Sync>(
    rt: &R,
    shared: &SmallShared<SmallCounter>,
    seats: (SmallSeat<SmallCounter>, SmallSeat<SmallCounter>),
) -> (u64, Found)
    requires seats { IsSeatOf shared.now seats.0 × IsSeatOf shared.now seats.1 }
    requires wide { (invocation_width_of shared.now ≡ 1) × (reply_width_of shared.now ≡ 1) }
{
    let (first, second) = seats;
    join(
        rt,
        move || adds(shared, first),
        move || reads(shared, second),
    )
}

#[test]
fn a_reader_beside_a_writer(rt: HostRuntime) {
    let (shared, mut seats) = opened(&rt, rt.alloc(), SmallCounter, 2);
    let two = last_two(&rt, &shared, &mut seats);
    assert!(rt; shared.invocation_width() == 1);
    assert!(rt; shared.reply_width() == 1);
    let (answered, found) = in_two_threads(&rt, &shared, two);
    assert!(rt; answered == CALLS);
    assert!(rt;
        found
            == Found {
                wrong: 0,
                last: CALLS
            },
        "{found:?}"
    );
}

#[test]
fn a_map_is_read(rt: HostRuntime) {
    let (shared, mut seats) = opened(&rt, rt.alloc(), SmallMap { capacity: 2 }, 2);
    let (first, second) = last_two(&rt, &shared, &mut seats);
    let mut writer: TypedSeat<SmallMap, MapCall, MapReply> = typed(&rt, rt.alloc(), &shared, first);
    let mut reader: TypedSeat<SmallMap, MapCall, MapReply> = typed(
        &rt,
        rt.alloc(),
        &shared,
        second,
    );
    let put = told(&rt, &shared, &mut reader, MapCall::Insert(4, 40));
    assert!(rt; put.reply == MapReply::Absent);
    let none = told(&rt, &shared, &mut reader, MapCall::Get(4));
    assert!(rt; none.reply == MapReply::Absent);
    assert!(rt; writer.call(&shared, &MapCall::Insert(4, 41)).is_ok());
    let four = Told {
        reply: MapReply::Value(41),
        version: 1,
    };
    assert!(rt; told(&rt, &shared, &mut reader, MapCall::Get(4)) == four);
    assert!(rt; told(&rt, &shared, &mut writer, MapCall::Remove(4)) == four);
    assert!(rt; told(&rt, &shared, &mut writer, MapCall::Get(4)) == four);
}
