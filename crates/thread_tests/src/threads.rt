//! Calls of four threads at the same time, on a queue.

ghost use Rattle.std.specs.Prelude.{◌≡◌, length};
ghost use Rattle.uni_small.specs.Belongs.{IsSeatOf, invocation_width_of, reply_width_of, width_of};

use crate::small::{last_two, opened};
use small_objects::SmallQueue;
use std::alloc::Global;
use std::process::Abort;
use std::test::Fail;
use std::thread::{Threads, join};
use uni_small::{SmallSeat, SmallShared};

/// A seat, and the replies that it was given.
type Done = (SmallSeat<SmallQueue>, Vec<u64>);

/// How many values each thread puts in.
const VALUES: u64 = 5_000;

/// A thread puts its values in, the first of them this one, and takes a value out after each. The replies are
/// those of the puts and takes in turn: fewer where memory was refused.
fn calls(
    alloc: Global,
    shared: &SmallShared<SmallQueue>,
    mut seat: SmallSeat<SmallQueue>,
    first: u64,
) -> Done
    requires seat { IsSeatOf shared.now seat }
    requires call { invocation_width_of shared.now ≡ 1 }
    requires reply { reply_width_of shared.now ≡ 1 }
    ensures { IsSeatOf shared.now result.0 }
{
    let mut replies = Vec::new(alloc);
    let mut reply = [0];
    for i in 0..2 * VALUES {
        let inv = if i % 2 == 0 {
            first.wrapping_add(i / 2)
        } else {
            0
        };
        if seat.apply(shared, &[inv], &mut reply).is_ok() {
            let _ = replies.push(reply[0]);
        }
    }
    (seat, replies)
}

/// Two threads, whose first values are these.
fn in_two_threads<R: Threads + Sync>(
    rt: &R,
    alloc: Global,
    shared: &SmallShared<SmallQueue>,
    seats: (SmallSeat<SmallQueue>, SmallSeat<SmallQueue>),
    firsts: (u64, u64),
) -> (Done, Done)
    requires seats { IsSeatOf shared.now seats.0 × IsSeatOf shared.now seats.1 }
    requires wide { (invocation_width_of shared.now ≡ 1) × (reply_width_of shared.now ≡ 1) }
    ensures { IsSeatOf shared.now result.0.0 × IsSeatOf shared.now result.1.0 }
{
    let (first, second) = seats;
    join(
        rt,
        move || calls(alloc, shared, first, firsts.0),
        move || calls(alloc, shared, second, firsts.1),
    )
}

/// Four threads: the first value of thread t is `1 + t * VALUES`.
fn in_four_threads<R: Threads + Sync>(
    rt: &R,
    alloc: Global,
    shared: &SmallShared<SmallQueue>,
    first: (SmallSeat<SmallQueue>, SmallSeat<SmallQueue>),
    second: (SmallSeat<SmallQueue>, SmallSeat<SmallQueue>),
) -> ((Done, Done), (Done, Done))
    requires first { IsSeatOf shared.now first.0 × IsSeatOf shared.now first.1 }
    requires second { IsSeatOf shared.now second.0 × IsSeatOf shared.now second.1 }
    requires wide { (invocation_width_of shared.now ≡ 1) × (reply_width_of shared.now ≡ 1) }
    ensures first { IsSeatOf shared.now result.0.0.0 × IsSeatOf shared.now result.0.1.0 }
    ensures second { IsSeatOf shared.now result.1.0.0 × IsSeatOf shared.now result.1.1.0 }
{
    join(
        rt,
        move ||
            requires { IsSeatOf shared.now first.0 × IsSeatOf shared.now first.1
                × (invocation_width_of shared.now ≡ 1) × (reply_width_of shared.now ≡ 1) }
        { in_two_threads(rt, alloc, shared, first, (1, 1 + VALUES)) },
        move ||
            requires { IsSeatOf shared.now second.0 × IsSeatOf shared.now second.1
                × (invocation_width_of shared.now ≡ 1) × (reply_width_of shared.now ≡ 1) }
        { in_two_threads(rt, alloc, shared, second, (1 + 2 * VALUES, 1 + 3 * VALUES)) },
    )
}

/// Takes back the values whose puts were answered 0, since the queue was full.
fn unmark_refused(marks: &mut [bool], first: u64, replies: &[u64]) {
    for (i, reply) in replies.iter().enumerate() {
        if i % 2 == 0 && *reply == 0 {
            let at = first.wrapping_add(i as u64 / 2) as usize;
            if at < marks.len() {
                marks[at] = false;
            }
        }
    }
}

/// Unmarks a value that came out; whether it was marked.
fn unmark(marks: &mut [bool], value: u64) -> bool {
    let at = value as usize;
    if at >= marks.len() || !marks[at] {
        return false;
    }
    marks[at] = false;
    true
}

/// Unmarks the values that a thread took out. They were marked, and those that one thread put in come out in
/// the order in which they went in.
fn unmark_taken(marks: &mut [bool], replies: &[u64]) -> bool {
    let mut last = [0; 4];
    for (i, reply) in replies.iter().enumerate() {
        if i % 2 == 0 || *reply == 0 {
            continue;
        }
        let from = ((*reply - 1) / VALUES % 4) as usize;
        if *reply <= last[from] || !unmark(marks, *reply) {
            return false;
        }
        last[from] = *reply;
    }
    true
}

/// Unmarks the values that the queue's state has: they are in its slots, and 0 is in the others.
fn unmark_left(marks: &mut [bool], state: &[u64]) -> bool {
    let mut left = 0u64;
    for value in state.iter().skip(2) {
        if *value == 0 {
            continue;
        }
        if !unmark(marks, *value) {
            return false;
        }
        left = left.wrapping_add(1);
    }
    state.first() == Some(&left)
}

/// The replies that four threads are given on the queue, which is closed then with the seat of the first one; its
/// state is written.
fn replies_of<R: Threads + Sync>(
    rt: &R,
    alloc: Global,
    shared: SmallShared<SmallQueue>,
    first: (SmallSeat<SmallQueue>, SmallSeat<SmallQueue>),
    second: (SmallSeat<SmallQueue>, SmallSeat<SmallQueue>),
    state: &mut [u64],
) -> [Vec<u64>; 4]
    requires first { IsSeatOf shared first.0 × IsSeatOf shared first.1 }
    requires second { IsSeatOf shared second.0 × IsSeatOf shared second.1 }
    requires wide { (invocation_width_of shared ≡ 1) × (reply_width_of shared ≡ 1) }
    requires state { length state.old ≡ width_of shared }
{
    let ((a, b), (c, d)) = in_four_threads(rt, alloc, &shared, first, second);
    shared.close_with(a.0, state);
    [a.1, b.1, c.1, d.1]
}

/// The same of a new queue.
fn replies_and_state<R: Threads + Abort + Sync>(
    rt: &R,
    alloc: Global,
    state: &mut [u64],
) -> [Vec<u64>; 4] {
    let (shared, mut seats) = opened(rt, alloc, SmallQueue { capacity: 64 }, 4);
    assert!(rt; shared.invocation_width() == 1);
    assert!(rt; shared.reply_width() == 1);
    assert!(rt; shared.width() == state.len() as u64);
    let second = last_two(rt, &shared, &mut seats);
    let first = last_two(rt, &shared, &mut seats);
    replies_of(rt, alloc, shared, first, second, state)
}

/// Unmarks 0, and the values whose puts were answered 0.
fn unmark_all_refused(rt: &impl Abort, marks: &mut [bool], all: &[Vec<u64>]) {
    unmark(marks, 0);
    let mut from = 1u64;
    for replies in all {
        assert!(rt; replies.len() as u64 == 2 * VALUES);
        unmark_refused(marks, from, replies);
        from = from.wrapping_add(VALUES);
    }
}

/// Each value that went into the queue came out once, or is left.
#[test]
fn four_threads_on_a_queue(rt: HostRuntime) -> Result<(), Fail> {
    let mut state = [0; 66];
    let all = replies_and_state(&rt, rt.alloc(), &mut state);
    let mut marks = vec![in rt.alloc(); true; 1 + 4 * VALUES as usize]?;
    unmark_all_refused(&rt, &mut marks, &all);
    for replies in all.iter() {
        assert!(rt; unmark_taken(&mut marks, replies));
    }
    assert!(rt; unmark_left(&mut marks, &state));
    assert!(rt; !marks.contains(&true));
    Ok(())
}
