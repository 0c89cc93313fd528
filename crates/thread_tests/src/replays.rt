//! Calls that are made again in the order that their replies tell.

ghost use Rattle.std.specs.Prelude.{◌≡◌};
ghost use Rattle.uni_small.specs.Belongs.{IsSeatOf, invocation_width_of, reply_width_of};

use crate::small::{last_two, opened};
use seq_object::CallId;
use small_objects::{MapCall, MapReply, Placed, SmallCounter, SmallMap, Words, replay};
use std::alloc::Global;
use std::process::Abort;
use std::thread::{Threads, join};
use told_order::{InPlace, ReplayFault};
use uni_small::{SmallSeat, SmallShared};

/// A call of a counter, with what it was told.
type Told = (u64, InPlace<u64>);

/// A call with its place and its reply.
fn told(operand: u64, place: u64, reply: u64) -> Told {
    (operand, InPlace { place, reply })
}

/// The seat's next call of a counter that tells places.
fn made(
    rt: &impl Abort,
    shared: &SmallShared<Placed<SmallCounter>>,
    seat: &mut SmallSeat<Placed<SmallCounter>>,
    operand: u64,
) -> Told
    requires { IsSeatOf shared.now seat.old }
    ensures { IsSeatOf shared.now seat.new }
{
    assert!(rt; shared.invocation_width() == 1);
    assert!(rt; shared.reply_width() == 2);
    let mut reply = [0; 2];
    if seat.apply(shared, &[operand], &mut reply).is_err() {
        panic!(rt; "calls are spent")
    }
    told(operand, reply[0], reply[1])
}

#[test]
fn a_counter_tells_places(rt: HostRuntime) {
    let (shared, mut seats) = opened(&rt, rt.alloc(), Placed::new(SmallCounter), 2);
    assert!(rt; made(&rt, &shared, &mut seats[0], 5) == told(5, 0, 0));
    assert!(rt; made(&rt, &shared, &mut seats[1], 3) == told(3, 1, 5));
    assert!(rt; made(&rt, &shared, &mut seats[0], 1) == told(1, 2, 8));
    let mut state = [0; 2];
    assert!(rt; shared.width() == 2);
    shared.close(&mut state);
    assert!(rt; state == [3, 9]);
}

/// What comes of a replay of these calls of two processes, with this last sum; `None` where memory was refused.
fn replayed(
    alloc: Global,
    first: &[Told],
    second: &[Told],
    last: u64,
) -> Option<Result<(), ReplayFault>> {
    let lists = [first.to_vec(alloc).ok()?, second.to_vec(alloc).ok()?];
    Some(replay(alloc, &SmallCounter, &lists, &[last]))
}

#[test]
fn what_is_replayed(rt: HostRuntime) {
    let alloc = rt.alloc();
    let (first, second) = ([told(5, 0, 0), told(1, 2, 8)], [told(3, 1, 5)]);
    assert!(rt; replayed(alloc, &first, &second, 9) == Some(Ok(())));
    assert!(rt; replayed(alloc, &first, &second, 10) == Some(Err(ReplayFault::OtherState)));
    let call = CallId { process: 1, nth: 0 };
    let wrong = [told(3, 1, 6)];
    assert!(rt; replayed(alloc, &first, &wrong, 9) == Some(Err(ReplayFault::Differs(call))));
    let call = CallId { process: 0, nth: 1 };
    let elsewhere = [told(5, 0, 0), told(1, 3, 8)];
    assert!(rt; replayed(alloc, &elsewhere, &second, 9) == Some(Err(ReplayFault::Differs(call))));
}

/// A map that tells places.
type PlacedMap = Placed<SmallMap>;

/// Calls of a map, each with what it was told.
type Calls = Vec<(MapCall, InPlace<MapReply>)>;

/// How many calls each thread makes.
const CALLS: u64 = 5_000;

/// The call of a map that a word stands for: of one of ten keys.
fn drawn(word: u64) -> MapCall {
    let (key, value) = (word / 4 % 10, word / 64 % 1000);
    match word % 4 {
        0 => MapCall::Get(key),
        1 => MapCall::Remove(key),
        _ => MapCall::Insert(key, value),
    }
}

/// A thread makes its calls: fewer are told where memory was refused.
fn calls(
    alloc: Global,
    shared: &SmallShared<PlacedMap>,
    mut seat: SmallSeat<PlacedMap>,
    seed: u64,
) -> Calls
    requires seat { IsSeatOf shared.now seat }
    requires call { invocation_width_of shared.now ≡ 3 }
    requires reply { reply_width_of shared.now ≡ 3 }
{
    let mut all = Vec::new(alloc);
    let (mut invocation, mut reply) = ([0; 3], [0; 3]);
    let mut word = seed;
    for _ in 0..CALLS {
        word ^= word << 13;
        word ^= word >> 7;
        word ^= word << 17;
        let call = drawn(word);
        call.store(&mut invocation);
        if seat.apply(shared, &invocation, &mut reply).is_ok() {
            let told = InPlace {
                place: reply[0],
                reply: MapReply::load(&reply[1..]),
            };
            let _ = all.push((call, told));
        }
    }
    all
}

/// Two threads make their calls.
fn in_two_threads<R: Threads + Sync>(
    rt: &R,
    alloc: Global,
    shared: &SmallShared<PlacedMap>,
    seats: (SmallSeat<PlacedMap>, SmallSeat<PlacedMap>),
) -> (Calls, Calls)
    requires seats { IsSeatOf shared.now seats.0 × IsSeatOf shared.now seats.1 }
    requires wide { (invocation_width_of shared.now ≡ 3) × (reply_width_of shared.now ≡ 3) }
{
    let (first, second) = seats;
    join(
        rt,
        move || calls(alloc, shared, first, 0x9e37_79b9_7f4a_7c15),
        move || calls(alloc, shared, second, 0xc2b2_ae3d_27d4_eb4f),
    )
}

/// A map of eight pairs.
const MAP: SmallMap = SmallMap { capacity: 8 };

/// The calls of two threads on a map, which is closed then; its last state is written.
fn calls_and_state<R: Threads + Abort + Sync>(
    rt: &R,
    alloc: Global,
    state: &mut [u64],
) -> (Calls, Calls) {
    let (shared, mut seats) = opened(rt, alloc, Placed::new(MAP), 2);
    assert!(rt; shared.invocation_width() == 3);
    assert!(rt; shared.reply_width() == 3);
    assert!(rt; shared.width() == state.len() as u64);
    let pair = last_two(rt, &shared, &mut seats);
    let calls = in_two_threads(rt, alloc, &shared, pair);
    shared.close(state);
    calls
}

#[test]
fn two_threads_on_a_map(rt: HostRuntime) {
    let mut state = [0; 18];
    let (first, second) = calls_and_state(&rt, rt.alloc(), &mut state);
    assert!(rt; first.len() as u64 == CALLS && second.len() as u64 == CALLS);
    assert!(rt; state[0] == 2 * CALLS);
    assert!(rt; replay(rt.alloc(), &MAP, &[first, second], &state[1..]).is_ok());
}
