//! Calls of four threads at the same time, on a stack and on a map of texts in parts. A fifth seat closes.

ghost use Rattle.std.specs.Prelude.{All};
ghost use Rattle.uni_any.specs.Seats.{IsSeatOf};

use crate::calls::newest;
use crate::seats::{last, opened};
use parted_map::{MapInv, PartedMap, Text};
use stack::{Stack, StackInv, StackResp};
use std::alloc::Global;
use std::process::Abort;
use std::sync::atomic::{AtomicU64, Ordering};
use std::test::Fail;
use std::thread;
use std::thread::Threads;
use uni_any::{AnySeat, AnyShared};

/// How many threads there are.
const THREADS: u64 = 4;

/// How many calls each of them makes.
const CALLS: u64 = 500;

/// The number that a thread's calls begin with: the next multiple of `CALLS`.
fn next_first(turns: &AtomicU64) -> u64 {
    turns.fetch_add(1, Ordering::SeqCst).wrapping_mul(CALLS)
}

/// A thread pushes the numbers from this one on, and takes one after each: the replies, fewer where memory was refused.
fn pushes_and_pops(
    alloc: Global,
    shared: &AnyShared<Stack>,
    mut seat: AnySeat<Stack>,
    first: u64,
) -> Vec<StackResp>
    requires { IsSeatOf shared.now seat }
{
    let mut replies = Vec::new(alloc);
    for i in 0..CALLS {
        let inv = if i % 2 == 0 {
            StackInv::Push((first.wrapping_add(i) % 1_000_000) as u32)
        } else {
            StackInv::Pop
        };
        if let Ok(answer) = seat.apply(alloc, shared, inv) {
            let _ = replies.push(answer.reply);
        }
    }
    replies
}

/// What threads with these seats are answered; `None` where memory was refused.
fn on_a_stack<R: Threads + Sync>(
    rt: &R,
    alloc: Global,
    shared: &AnyShared<Stack>,
    seats: Vec<AnySeat<Stack>>,
) -> Option<Vec<Vec<StackResp>>>
    requires { All (IsSeatOf shared.now) seats.items }
{
    let turns = AtomicU64::new(0);
    thread::map_vec(
        rt,
        seats,
        &|seat: AnySeat<Stack>| -> Vec<StackResp>
            requires { IsSeatOf shared.now seat }
        { pushes_and_pops(alloc, shared, seat, next_first(&turns)) },
    )
    .ok()
}

/// Unmarks a number; whether it was marked.
fn unmark(marks: &mut [bool], number: u64) -> bool {
    let at = number as usize;
    if at >= marks.len() || !marks[at] {
        return false;
    }
    marks[at] = false;
    true
}

/// Unmarks the numbers that a thread took; whether each was marked, and there was one after each push.
fn unmark_popped(marks: &mut [bool], replies: &[StackResp]) -> bool {
    for (i, reply) in replies.iter().enumerate() {
        let is_right = match *reply {
            StackResp::Pushed => i % 2 == 0,
            StackResp::Popped(number) => i % 2 == 1 && unmark(marks, u64::from(number)),
            StackResp::Empty => false,
        };
        if !is_right {
            return false;
        }
    }
    true
}

/// A thread takes a number only after it has pushed one, so the stack is never empty then. Each number comes out
/// once, and none is left.
#[test]
fn four_threads_on_a_stack(rt: HostRuntime) -> Result<(), Fail> {
    let alloc = rt.alloc();
    let (shared, mut seats) = opened(&rt, alloc, Stack, THREADS + 1);
    let closer = last(&rt, &shared, &mut seats);
    let Some(all) = on_a_stack(&rt, alloc, &shared, seats) else {
        panic!(rt; "out of memory")
    };
    let mut marks = vec![in alloc; true; (THREADS * CALLS) as usize]?;
    for replies in all.iter() {
        assert!(rt; replies.len() as u64 == CALLS);
        assert!(rt; unmark_popped(&mut marks, replies));
    }
    // The numbers that were pushed are the even ones.
    for (number, is_left) in marks.iter().enumerate() {
        assert!(rt; *is_left == (number % 2 == 1));
    }
    let closed = shared.close_with(closer);
    let last = closed.block();
    assert!(rt; newest(alloc, &last.state)?.as_slice() == b"empty".as_slice());
    assert!(rt; last.rows.len() == 5);
    for (p, row) in last.rows.iter().enumerate() {
        assert!(rt; row.applied == if p < 4 { CALLS } else { 0 });
    }
    Ok(())
}

/// A thread gives one text the numbers from this one on: the number before each, fewer where memory was refused.
fn inserts(
    alloc: Global,
    shared: &AnyShared<PartedMap>,
    mut seat: AnySeat<PartedMap>,
    first: u64,
) -> Vec<Option<u64>>
    requires { IsSeatOf shared.now seat }
{
    let mut replies = Vec::new(alloc);
    for i in 0..CALLS {
        let Ok(text) = Text::of(alloc, b"shared") else {
            continue;
        };
        let inv = MapInv::Insert(text, first.wrapping_add(i));
        if let Ok(answer) = seat.apply(alloc, shared, inv) {
            let _ = replies.push(answer.reply);
        }
    }
    replies
}

/// What threads with these seats are answered; `None` where memory was refused.
fn on_a_map<R: Threads + Sync>(
    rt: &R,
    alloc: Global,
    shared: &AnyShared<PartedMap>,
    seats: Vec<AnySeat<PartedMap>>,
) -> Option<Vec<Vec<Option<u64>>>>
    requires { All (IsSeatOf shared.now) seats.items }
{
    let turns = AtomicU64::new(0);
    thread::map_vec(
        rt,
        seats,
        &|seat: AnySeat<PartedMap>| -> Vec<Option<u64>>
            requires { IsSeatOf shared.now seat }
        { inserts(alloc, shared, seat, next_first(&turns)) },
    )
    .ok()
}

/// Unmarks the numbers that were there before others; how many replies say that there was none. `None` where a number
/// wasn't marked.
fn unmark_before(marks: &mut [bool], replies: &[Option<u64>]) -> Option<u64> {
    let mut new = 0u64;
    for reply in replies {
        match *reply {
            None => new = new.saturating_add(1),
            Some(number) if unmark(marks, number) => {}
            Some(_) => return None,
        }
    }
    Some(new)
}

/// The text is new once. Each number is the one before another one, once, but for the one that is left.
#[test]
fn four_threads_on_a_map(rt: HostRuntime) -> Result<(), Fail> {
    let alloc = rt.alloc();
    let (shared, mut seats) = opened(&rt, alloc, PartedMap, THREADS + 1);
    let mut closer = last(&rt, &shared, &mut seats);
    let Some(all) = on_a_map(&rt, alloc, &shared, seats) else {
        panic!(rt; "out of memory")
    };
    let mut marks = vec![in alloc; true; (THREADS * CALLS) as usize]?;
    let mut new = 0u64;
    for replies in all.iter() {
        assert!(rt; replies.len() as u64 == CALLS);
        let Some(more) = unmark_before(&mut marks, replies) else {
            panic!(rt; "a number that was never there")
        };
        new = new.saturating_add(more);
    }
    assert!(rt; new == 1);
    let Ok(answer) = closer.apply(alloc, &shared, MapInv::Get(Text::of(alloc, b"shared")?)) else {
        panic!(rt; "no answer")
    };
    assert!(rt; unmark_before(&mut marks, &[answer.reply]) == Some(0));
    assert!(rt; !marks.contains(&true));
    assert!(rt; answer.version <= THREADS * CALLS + 1);
    Ok(())
}
