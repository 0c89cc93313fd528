//! Calls in the order that asking gives them, of seats in turn and of threads.

ghost use Rattle.std.specs.Prelude.{◌≡◌, ℕ, ◌<◌, All, IfSome};
ghost use Rattle.uni_model.specs.Eras.{StandsAt};
ghost use Rattle.uni_words.specs.Belongs.{IsSeatOf, calls_made, log_in, process_of};

use crate::words::{answer, answers, entries_of, last, last_two, opened};
use seq_object::CallId;
use std::alloc::{AllocError, Global};
use std::process::Abort;
use std::sync::atomic::{AtomicU64, Ordering};
use std::thread;
use std::thread::Threads;
use uni_words::{Answer, WordEntry, WordLog, WordObject, WordSeat, WordTally, Words};

/// A call of the first seat, and then, once the second one has asked about it, a call of that one, which
/// closes the log. `None` where one of them has made all its calls, or the second was answered `false`.
fn one_and_then_the_other<O: WordObject>(
    log: WordLog<O>,
    first: WordSeat,
    second: WordSeat,
    inv: u64,
) -> Option<Words>
    requires { IsSeatOf log first × IsSeatOf log second }
    ensures order { IfSome result (λ words. (place : ℕ)
        → StandsAt (log_in words) (process_of second) (calls_made second) place
        → (before : ℕ) × (before < place)
        × StandsAt (log_in words) (process_of first) (calls_made first) before) }
{
    let mut first = first;
    let mut second = second;
    let answer = first.apply(&log, inv).ok()?;
    if !second.follows(&log, answer.call) {
        return None;
    }
    second.apply(&log, inv).ok()?;
    Some(log.close_with(second))
}

/// The seat is told this of these calls, one after the other.
fn follows<O: WordObject>(
    rt: &impl Abort,
    log: &WordLog<O>,
    seat: &mut WordSeat,
    rows: &[(CallId, bool)],
)
    requires { IsSeatOf log.now seat.old }
    ensures { IsSeatOf log.now seat.new }
{
    for row in rows {
        assert!(rt; seat.follows(log, row.0) == row.1, "{row:?}");
    }
}

/// The call of a process with this number.
fn call(process: u32, nth: u64) -> CallId {
    CallId { process, nth }
}

#[test]
fn calls_are_asked_about(rt: HostRuntime) {
    let (log, mut seats) = opened(&rt, rt.alloc(), WordTally, 2, 1);
    let (mut first, mut second) = last_two(&rt, &log, &mut seats);
    follows(&rt, &log, &mut first, &[(call(1, 0), false)]);
    answers(&rt, &log, &mut second, &[(5, answer(1, 0, 2, 0))]);
    let rows = [
        // once it has returned, and again
        (call(1, 0), true),
        (call(1, 0), true),
        // a call that isn't made, one of no process, and one past its process's last
        (call(0, 0), false),
        (call(2, 0), false),
        (call(1, 1), false),
    ];
    follows(&rt, &log, &mut first, &rows);
    // by its own process
    follows(&rt, &log, &mut second, &[(call(1, 0), true)]);
    answers(&rt, &log, &mut first, &[(3, answer(0, 0, 3, 5))]);
}

/// How many threads there are, and how many calls each makes.
const THREADS: usize = 8;

const CALLS: u64 = 1250;

/// A call, and the one that its process asked about before it.
#[derive(Clone, Copy, Drop)]
struct Pair {
    earlier: CallId,
    later: Answer,
}

/// Why a thread ended early.
#[derive(Clone, Copy, Debug, PartialEq, Eq)]
enum Fault {
    /// Memory was refused.
    Memory,
    /// A call that had returned was not there.
    NotThere(CallId),
    /// The seat had made all its calls.
    Full,
}

/// The latest call of a process that has returned, as the list says; where there is none, this first one.
fn latest_of(returned: &[AtomicU64], process: usize, first: CallId) -> CallId {
    let count = match returned.get(process) {
        Some(count) => count.load(Ordering::SeqCst),
        None => 0,
    };
    if count == 0 {
        return first;
    }
    CallId {
        process: (process % THREADS) as u32,
        nth: count - 1,
    }
}

/// Asks about a call that has returned, and makes a call after it.
fn ask_and_call<O: WordObject>(
    log: &WordLog<O>,
    seat: &mut WordSeat,
    earlier: CallId,
) -> Result<Pair, Fault>
    requires { IsSeatOf log.now seat.old }
    ensures { IsSeatOf log.now seat.new }
{
    if !seat.follows(log, earlier) {
        return Err(Fault::NotThere(earlier));
    }
    match seat.apply(log, 1) {
        Ok(later) => Ok(Pair { earlier, later }),
        Err(_) => Err(Fault::Full),
    }
}

/// Makes the calls of a thread: each once it has asked about the latest call of another thread, by turns.
/// How many calls of each have returned is in the list that they share. The first call has returned.
fn ask_by_turns<O: WordObject>(
    alloc: Global,
    log: &WordLog<O>,
    seat: WordSeat,
    first: CallId,
    returned: &[AtomicU64],
) -> Result<Vec<Pair>, Fault>
    requires { IsSeatOf log.now seat }
{
    let mut seat = seat;
    let mut pairs = Vec::new(alloc);
    let mut earlier = first;
    for turn in 0..CALLS {
        let pair = ask_and_call(log, &mut seat, earlier)?;
        if pairs.push(pair).is_err() {
            return Err(Fault::Memory);
        }
        let process = pair.later.call.process as usize;
        if let Some(own) = returned.get(process) {
            own.store(turn + 1, Ordering::SeqCst);
        }
        let other = (process % THREADS + 1 + turn as usize % (THREADS - 1)) % THREADS;
        earlier = latest_of(returned, other, first);
    }
    Ok(pairs)
}

/// Whether the later call of a pair is the entry of its number, and the earlier one stands before it.
fn is_in_order(entries: &[WordEntry], pair: Pair) -> bool {
    let place = pair.later.number.saturating_sub(2) as usize;
    let Some(entry) = entries.get(place) else {
        return false;
    };
    if entry.call != pair.later.call {
        return false;
    }
    for back in 0..place {
        if let Some(before) = entries.get(place - 1 - back) {
            if before.call == pair.earlier {
                return true;
            }
        }
    }
    false
}

/// How many pairs of all threads are in order.
fn count_in_order(entries: &[WordEntry], threads: &[Result<Vec<Pair>, Fault>]) -> u64 {
    let mut count = 0u64;
    for thread in threads {
        if let Ok(pairs) = thread {
            for pair in pairs {
                if is_in_order(entries, *pair) {
                    count = count.saturating_add(1);
                }
            }
        }
    }
    count
}

/// A counter for each thread.
fn counters(alloc: Global) -> Result<Vec<AtomicU64>, AllocError> {
    let mut counters = Vec::new(alloc);
    for _ in 0..THREADS {
        counters.push(AtomicU64::new(0))?;
    }
    Ok(counters)
}

/// What threads with these seats come to, once another one has made a call; `None` where memory was refused.
fn run_threads<R: Threads + Sync, O: WordObject + Sync>(
    rt: &R,
    alloc: Global,
    log: &WordLog<O>,
    closer: &mut WordSeat,
    seats: Vec<WordSeat>,
) -> Option<Vec<Result<Vec<Pair>, Fault>>>
    requires closer { IsSeatOf log.now closer.old }
    requires seats { All (IsSeatOf log.now) seats.items }
    ensures { IsSeatOf log.now closer.new }
{
    let first = closer.apply(log, 1).ok()?.call;
    let returned = counters(alloc).ok()?;
    thread::map_vec(
        rt,
        seats,
        &|seat: WordSeat| -> Result<Vec<Pair>, Fault>
            requires { IsSeatOf log.now seat }
        { ask_by_turns(alloc, log, seat, first, &returned) },
    )
    .ok()
}

/// The threads' seats are dropped.
#[test]
fn eight_threads_ask_about_each_others_calls(rt: HostRuntime) {
    let (log, mut seats) = opened(&rt, rt.alloc(), WordTally, THREADS as u64 + 1, CALLS);
    let mut closer = last(&rt, &log, &mut seats);
    let Some(threads) = run_threads(&rt, rt.alloc(), &log, &mut closer, seats) else {
        panic!(rt; "out of memory")
    };
    let entries = entries_of(&rt, rt.alloc(), log, closer);
    assert!(rt; count_in_order(&entries, &threads) == 10_000);
}
