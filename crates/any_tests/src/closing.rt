//! Objects that are closed: the last version, its state, and its rows.

use crate::refusals::{Act, Turn, played};
use std::alloc::Global;
use std::cell::Cell;
use std::process::Abort;
use uni_any::{AnyFault, Block};

/// Whether the version is this one, of two processes: its number, its state, and how many calls of each are in.
fn is_version(block: &Block<u32, u32>, number: u64, state: u32, first: u64, second: u64) -> bool {
    block.number == number
        && block.state == state
        && block.rows.len() == 2
        && block.rows[0].applied == first
        && block.rows[1].applied == second
}

/// The first of two seats closes after these turns, where so many requests for memory are granted at first. The
/// version is this one, as `is_version` tells it.
fn closes(
    rt: &impl Abort,
    alloc: Global,
    granted: u64,
    turns: &[Turn],
    (number, state, calls, others): (u64, u32, u64, u64),
) {
    let granted = Cell::new(granted);
    let (shared, first, _second) = played(rt, alloc, &granted, 2, turns);
    assert!(rt;
        is_version(
            shared.close_with(first).block(),
            number,
            state,
            calls,
            others
        )
    );
}

/// Nothing was told then but the start.
#[test]
fn closed_before_any_call(rt: HostRuntime) {
    closes(&rt, rt.alloc(), u64::MAX, &[], (0, 9, 0, 0));
}

/// What the other process told lies in its buffer.
#[test]
fn closed_after_calls_of_another(rt: HostRuntime) {
    let granted = Cell::new(u64::MAX);
    let turns = [(1, Act::Calls(5, 9, 1)), (1, Act::Calls(6, 5, 2))];
    let (shared, first, second) = played(&rt, rt.alloc(), &granted, 2, &turns);
    drop(second);
    assert!(rt; is_version(shared.close_with(first).block(), 2, 6, 0, 2));
}

/// The version before is what the process brought in last as it told the last one, which lies in its own buffer.
#[test]
fn closed_after_own_calls(rt: HostRuntime) {
    let turns = [
        (1, Act::Calls(5, 9, 1)),
        (0, Act::Calls(6, 5, 2)),
        (0, Act::Calls(7, 6, 3)),
    ];
    closes(&rt, rt.alloc(), u64::MAX, &turns, (3, 7, 2, 1));
}

/// A call that was refused memory had looked into the buffers, so nothing lies there; and it isn't in.
#[test]
fn closed_with_a_pending_call(rt: HostRuntime) {
    let turns = [
        (1, Act::Calls(5, 9, 1)),
        (0, Act::Grants(0)),
        (0, Act::Refused(6, AnyFault::Memory)),
    ];
    closes(&rt, rt.alloc(), u64::MAX, &turns, (1, 5, 0, 1));
}

/// The call is pending, and another process has brought it in.
#[test]
fn closed_with_a_call_that_was_helped(rt: HostRuntime) {
    let turns = [
        (0, Act::Refused(5, AnyFault::Memory)),
        (1, Act::Calls(6, 5, 1)),
    ];
    closes(&rt, rt.alloc(), 1, &turns, (1, 6, 1, 1));
}

/// The other process has announced its next call since it brought the version in.
#[test]
fn closed_with_a_call_of_another_pending(rt: HostRuntime) {
    let turns = [
        (1, Act::Calls(5, 9, 1)),
        (1, Act::Grants(0)),
        (1, Act::Refused(6, AnyFault::Memory)),
    ];
    closes(&rt, rt.alloc(), u64::MAX, &turns, (1, 5, 0, 1));
}
