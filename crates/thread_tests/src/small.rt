//! Calls of seats in turn.

ghost use Rattle.std.specs.Prelude.{◌≡◌, All, length};
ghost use Rattle.uni_small.specs.Belongs.{IsSeatOf, width_of};
ghost use Rattle.small_objects.specs.Typed.{IsTypedSeatOf};

use crate::account::AccountObject;
use small_objects::{
    CountersCall, Encoded, MapCall, MapReply, RegisterCall, SmallCounter, SmallCounters, SmallMap,
    SmallQueue, SmallRegister, SmallStack, Told, TypedSeat, Words,
};
use std::alloc::Global;
use std::fmt::Debug;
use std::process::Abort;
use uni_small::{SmallObject, SmallOpenFault, SmallSeat, SmallShared};

/// An object of so many processes, and their seats.
pub(crate) fn opened<O: SmallObject>(
    rt: &impl Abort,
    alloc: Global,
    object: O,
    n: u64,
) -> (SmallShared<O>, Vec<SmallSeat<O>>)
    ensures count { length result.1.items ≡ n }
    ensures own { All (IsSeatOf result.0) result.1.items }
{
    let Ok(opened) = SmallShared::open(alloc, object, n) else {
        panic!(rt; "not opened")
    };
    opened
}

/// The last seat, taken out.
pub(crate) fn last<O: SmallObject>(
    rt: &impl Abort,
    shared: &SmallShared<O>,
    seats: &mut Vec<SmallSeat<O>>,
) -> SmallSeat<O>
    requires { All (IsSeatOf shared.now) seats.old.items }
    ensures rest { All (IsSeatOf shared.now) seats.new.items }
    ensures last { IsSeatOf shared.now result }
{
    let Some(seat) = seats.pop() else {
        panic!(rt; "no seat")
    };
    seat
}

/// The last two seats, taken out.
pub(crate) fn last_two<O: SmallObject>(
    rt: &impl Abort,
    shared: &SmallShared<O>,
    seats: &mut Vec<SmallSeat<O>>,
) -> (SmallSeat<O>, SmallSeat<O>)
    requires { All (IsSeatOf shared.now) seats.old.items }
    ensures rest { All (IsSeatOf shared.now) seats.new.items }
    ensures two { IsSeatOf shared.now result.0 × IsSeatOf shared.now result.1 }
{
    let second = last(rt, shared, seats);
    (last(rt, shared, seats), second)
}

/// The seat's next call, of an object whose invocations and replies are one word each.
fn answer<O: SmallObject>(
    rt: &impl Abort,
    shared: &SmallShared<O>,
    seat: &mut SmallSeat<O>,
    inv: u64,
) -> Told<u64>
    requires { IsSeatOf shared.now seat.old }
    ensures { IsSeatOf shared.now seat.new }
{
    assert!(rt; shared.invocation_width() == 1);
    assert!(rt; shared.reply_width() == 1);
    let mut reply = [0];
    let Ok(version) = seat.apply(shared, &[inv], &mut reply) else {
        panic!(rt; "calls are spent")
    };
    Told {
        reply: reply[0],
        version,
    }
}

/// The typed seat's next calls, each with its reply.
fn told<O: SmallObject, C: Words, R: Words + Debug + PartialEq>(
    rt: &impl Abort,
    shared: &SmallShared<O>,
    seat: &mut TypedSeat<O, C, R>,
    rows: &[(C, R)],
)
    requires { IsTypedSeatOf C.words R.words shared.now seat.old }
    ensures { IsTypedSeatOf C.words R.words shared.now seat.new }
{
    for row in rows {
        let Ok(answer) = seat.call(shared, &row.0) else {
            panic!(rt; "calls are spent")
        };
        assert!(rt;
            answer.reply == row.1,
            "not {:?}: {:?}",
            row.1,
            answer.reply
        );
    }
}

/// The seat's next calls, each with its invocation and its reply.
pub(crate) fn answers<O: SmallObject>(
    rt: &impl Abort,
    shared: &SmallShared<O>,
    seat: &mut SmallSeat<O>,
    rows: &[(u64, u64)],
)
    requires { IsSeatOf shared.now seat.old }
    ensures { IsSeatOf shared.now seat.new }
{
    for row in rows {
        let told = answer(rt, shared, seat, row.0);
        assert!(rt; told.reply == row.1, "with {row:?}: {told:?}");
    }
}

#[test]
fn two_seats_in_turn(rt: HostRuntime) {
    let (shared, mut seats) = opened(&rt, rt.alloc(), SmallCounter, 2);
    answers(&rt, &shared, &mut seats[0], &[(5, 0), (3, 5)]);
    answers(&rt, &shared, &mut seats[1], &[(1, 8), (2, 9), (0, 11)]);
}

#[test]
fn a_queue(rt: HostRuntime) {
    let (shared, mut seats) = opened(&rt, rt.alloc(), SmallQueue { capacity: 4 }, 2);
    answers(&rt, &shared, &mut seats[0], &[(0, 0), (8, 1), (9, 1)]);
    answers(
        &rt,
        &shared,
        &mut seats[1],
        &[(0, 8), (7, 1), (6, 1), (5, 1), (4, 0)],
    );
    answers(
        &rt,
        &shared,
        &mut seats[0],
        &[(0, 9), (0, 7), (0, 6), (0, 5), (0, 0)],
    );
}

#[test]
fn a_stack(rt: HostRuntime) {
    let (shared, mut seats) = opened(&rt, rt.alloc(), SmallStack { capacity: 2 }, 2);
    answers(
        &rt,
        &shared,
        &mut seats[1],
        &[(0, 0), (8, 1), (9, 1), (7, 0)],
    );
    answers(&rt, &shared, &mut seats[0], &[(0, 9), (0, 8), (0, 0)]);
}

/// A seat for calls of type `C`, which are answered with a value of type `R`.
pub(crate) fn typed<O: SmallObject, C: Words, R: Words>(
    rt: &impl Abort,
    alloc: Global,
    shared: &SmallShared<O>,
    seat: SmallSeat<O>,
) -> TypedSeat<O, C, R>
    requires { IsSeatOf shared.now seat }
    ensures { IsTypedSeatOf C.words R.words shared.now result }
{
    assert!(rt; shared.invocation_width() == C::count());
    assert!(rt; shared.reply_width() == R::count());
    let Ok(seat) = TypedSeat::new(alloc, shared, seat) else {
        panic!(rt; "out of memory")
    };
    seat
}

/// The last seat's calls, each with its reply. The seat is taken out, and dropped.
fn told_by_last<O: SmallObject, C: Words, R: Words + Debug + PartialEq>(
    rt: &impl Abort,
    alloc: Global,
    shared: &SmallShared<O>,
    seats: &mut Vec<SmallSeat<O>>,
    rows: &[(C, R)],
)
    requires { All (IsSeatOf shared.now) seats.old.items }
    ensures { All (IsSeatOf shared.now) seats.new.items }
{
    let seat = last(rt, shared, seats);
    let mut seat = typed(rt, alloc, shared, seat);
    told(rt, shared, &mut seat, rows);
}

/// An object of one process, after calls with these replies.
pub(crate) fn told_by_one<O: SmallObject, C: Words, R: Words + Debug + PartialEq>(
    rt: &impl Abort,
    alloc: Global,
    object: O,
    rows: &[(C, R)],
) -> SmallShared<O> {
    let (shared, mut seats) = opened(rt, alloc, object, 1);
    told_by_last(rt, alloc, &shared, &mut seats, rows);
    shared
}

#[test]
fn a_register(rt: HostRuntime) {
    let most = u64::MAX;
    let swap = RegisterCall::CompareExchange(most, 9);
    let rows = [
        (swap, 0),
        (RegisterCall::Write(most), 0),
        (swap, most),
        (RegisterCall::Read, 9),
    ];
    told_by_one(&rt, rt.alloc(), SmallRegister, &rows);
}

/// A call of counters.
fn add(counter: u64, operand: u64) -> CountersCall {
    CountersCall { counter, operand }
}

#[test]
fn counters(rt: HostRuntime) {
    let rows = [
        (add(2, 5), 0),
        (add(2, u64::MAX), 5),
        (add(0, 1), 0),
        (add(3, 7), 0),
        (add(2, 0), 4),
    ];
    told_by_one(&rt, rt.alloc(), SmallCounters { count: 3 }, &rows);
}

/// Calls of one seat of a map of two pairs.
const ONE: &[(MapCall, MapReply)] = &[
    (MapCall::Get(7), MapReply::Absent),
    (MapCall::Insert(7, 70), MapReply::Absent),
    (MapCall::Insert(0, u64::MAX), MapReply::Absent),
    (MapCall::Insert(9, 90), MapReply::Full),
    (MapCall::Insert(7, 71), MapReply::Value(70)),
];

/// Calls of another one after them.
const OTHER: &[(MapCall, MapReply)] = &[
    (MapCall::Get(0), MapReply::Value(u64::MAX)),
    (MapCall::Remove(7), MapReply::Value(71)),
    (MapCall::Remove(7), MapReply::Absent),
    (MapCall::Get(0), MapReply::Value(u64::MAX)),
    (MapCall::Insert(9, 90), MapReply::Absent),
    (MapCall::Remove(0), MapReply::Value(u64::MAX)),
    (MapCall::Get(9), MapReply::Value(90)),
];

#[test]
fn a_map(rt: HostRuntime) {
    let (shared, mut seats) = opened(&rt, rt.alloc(), SmallMap { capacity: 2 }, 2);
    told_by_last(&rt, rt.alloc(), &shared, &mut seats, ONE);
    told_by_last(&rt, rt.alloc(), &shared, &mut seats, OTHER);
    let mut state = [0; 5];
    assert!(rt; shared.width() == 5);
    shared.close(&mut state);
    assert!(rt; state == [1, 9, 90, 0, 0]);
}

#[test]
fn an_account(rt: HostRuntime) {
    let object = Encoded {
        object: AccountObject,
    };
    let (shared, mut seats) = opened(&rt, rt.alloc(), object, 2);
    answers(&rt, &shared, &mut seats[0], &[(10, 0), (7, 5)]);
    answers(&rt, &shared, &mut seats[1], &[(7, 2), (1, 2)]);
    let mut state = [0; 3];
    assert!(rt; shared.width() == 3);
    shared.close(&mut state);
    assert!(rt; state == [2, 2, 1]);
}

#[test]
fn a_version_is_followed(rt: HostRuntime) {
    let (shared, mut seats) = opened(&rt, rt.alloc(), SmallCounter, 2);
    let first = answer(&rt, &shared, &mut seats[0], 5);
    assert!(rt; first.version == 1);
    assert!(rt; seats[1].follows(&shared, first.version));
    assert!(rt; !seats[1].follows(&shared, first.version + 1));
    let second = answer(&rt, &shared, &mut seats[1], 3);
    assert!(rt; second.reply == 5 && second.version > first.version);
}

#[test]
fn what_is_not_opened(rt: HostRuntime) {
    for n in [0, 65] {
        let fault = SmallShared::open(rt.alloc(), SmallCounter, n).err();
        assert!(rt; fault == Some(SmallOpenFault::BadCount), "{n} processes");
    }
    let wide = SmallCounters { count: 65_537 };
    let fault = SmallShared::open(rt.alloc(), wide, 2).err();
    assert!(rt; fault == Some(SmallOpenFault::BadWidth));
}

/// The state of a counter that is closed with so many of these seats, the others dropped.
fn closed(
    rt: &impl Abort,
    shared: SmallShared<SmallCounter>,
    mut seats: Vec<SmallSeat<SmallCounter>>,
    kept: usize,
) -> u64
    requires { All (IsSeatOf shared) seats.items }
{
    seats.truncate(kept);
    let mut state = [0];
    assert!(rt; shared.width() == 1);
    shared.close_all(seats, &mut state);
    state[0]
}

/// A list of two seats of a counter.
fn both(
    rt: &impl Abort,
    alloc: Global,
    shared: &SmallShared<SmallCounter>,
    first: SmallSeat<SmallCounter>,
    second: SmallSeat<SmallCounter>,
) -> Vec<SmallSeat<SmallCounter>>
    requires { IsSeatOf shared.now first × IsSeatOf shared.now second }
    ensures { All (IsSeatOf shared.now) result.items }
{
    let Ok(seats) = Vec::from_array(alloc, [first, second]) else {
        panic!(rt; "out of memory")
    };
    seats
}

/// The state of a counter after two calls, closed with so many of its two seats, the others dropped.
fn closed_with(rt: &impl Abort, alloc: Global, kept: usize) -> u64 {
    let (shared, mut seats) = opened(rt, alloc, SmallCounter, 2);
    let (mut first, mut second) = last_two(rt, &shared, &mut seats);
    answers(rt, &shared, &mut first, &[(5, 0)]);
    answers(rt, &shared, &mut second, &[(3, 5)]);
    let seats = both(rt, alloc, &shared, first, second);
    closed(rt, shared, seats, kept)
}

#[test]
fn closed_with_all_with_one_and_with_none(rt: HostRuntime) {
    for kept in 0..3 {
        assert!(rt;
            closed_with(&rt, rt.alloc(), kept) == 8,
            "with {kept} seats"
        );
    }
}
