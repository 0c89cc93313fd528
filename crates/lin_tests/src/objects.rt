//! What is answered of histories of each object, which are read from lines.

use history_text::{ReadError, read_history};
use judged_objects::{Counter, Map, MapInv, Queue, Register, Set, Stack, Worded};
use lin_check::{Event, Verdict, check, good_prefix};
use std::alloc::{AllocError, Global};

/// What is found of a history.
#[derive(Clone, Copy, Debug, PartialEq, Eq)]
pub(crate) enum Found {
    /// It has an order.
    Good,
    /// It has none from the event at this place on.
    BadAt(usize),
    /// A line was refused.
    Refused,
    /// A search gave up.
    GaveUp,
}

/// What is found of the history that a text is.
pub(crate) fn found_in<O: Worded>(
    alloc: Global,
    object: &O,
    text: &str,
) -> Result<Found, AllocError> {
    let history = match read_history::<O>(alloc, text.as_bytes()) {
        Ok(history) => history,
        Err(ReadError::Refused(_)) => return Ok(Found::Refused),
        Err(ReadError::Memory) => return Err(AllocError),
    };
    let events = history.events.as_slice();
    match check(alloc, object, events, 1_000)? {
        Verdict::Linearizable(_) => Ok(Found::Good),
        Verdict::GaveUp => Ok(Found::GaveUp),
        Verdict::NotLinearizable => Ok(match good_prefix(alloc, object, events, 1_000)? {
            Some(place) => Found::BadAt(place),
            None => Found::GaveUp,
        }),
    }
}

/// A queue: what was put in first comes out first, whatever overlaps may take effect in either order, and a call that
/// never returned may have taken effect.
const QUEUES: [(&str, Found); 8] = [
    ("", Found::Good),
    (
        "call 0 enq 7\nreturn 0 ok\ncall 1 deq\nreturn 1 7",
        Found::Good,
    ),
    (
        "call 0 enq 7\nreturn 0 ok\ncall 1 deq\nreturn 1 empty",
        Found::BadAt(3),
    ),
    (
        "call 0 enq 7\ncall 1 deq\nreturn 1 empty\nreturn 0 ok",
        Found::Good,
    ),
    ("call 0 enq 7\ncall 1 deq\nreturn 1 7", Found::Good),
    (
        "call 0 enq 7\nlost 0\ncall 1 deq\nreturn 1 7\ncall 1 deq\nreturn 1 7",
        Found::BadAt(4),
    ),
    (
        "call 0 enq 1\nreturn 0 ok\ncall 0 enq 2\nreturn 0 ok\ncall 1 deq\nreturn 1 2\n# late\n\ncall 1 deq",
        Found::BadAt(5),
    ),
    (
        "0 enq 1 -> ok 1 4\n1 enq 2 -> ok 2 3\n2 deq -> 2 5 6\n2 deq -> ? 7",
        Found::Good,
    ),
];

#[test]
fn queues(rt: HostRuntime) -> Result<(), AllocError> {
    for (text, want) in &QUEUES {
        assert_eq!(rt; found_in(rt.alloc(), &Queue, text)?, *want, "{text}");
    }
    Ok(())
}

#[test]
fn stacks_and_counters(rt: HostRuntime) -> Result<(), AllocError> {
    let alloc = rt.alloc();
    let both = "0 push 1 -> ok 1 2\n0 push 2 -> ok 3 4\n1 pop -> ";
    for (reply, want) in [("2 5 6", Found::Good), ("1 5 6", Found::BadAt(5))] {
        let text = format!(in alloc; "{both}{reply}")?;
        assert_eq!(rt; found_in(alloc, &Stack, text.as_str())?, want);
    }
    let sums = "0 add 2 -> ok 1 2\n0 getadd 3 -> 2 3 4\n1 read -> ";
    for (reply, want) in [
        ("5 5 6", Found::Good),
        ("2 5 6", Found::BadAt(5)),
        ("2 3 6", Found::Good),
    ] {
        let text = format!(in alloc; "{sums}{reply}")?;
        assert_eq!(rt; found_in(alloc, &Counter, text.as_str())?, want);
    }
    Ok(())
}

#[test]
fn registers(rt: HostRuntime) -> Result<(), AllocError> {
    let alloc = rt.alloc();
    // A new value is read, and then the old one: by one reader no order explains that, by two that overlap one does.
    let new_old = "w write 1 -> ok 1 9\na read -> 1 2 3\na read -> 0 4 5";
    assert_eq!(rt; found_in(alloc, &Register, new_old)?, Found::BadAt(4));
    let two = "w write 1 -> ok 1 9\na read -> 1 2 5\nb read -> 0 3 6";
    assert_eq!(rt; found_in(alloc, &Register, two)?, Found::Good);
    // One of two exchanges from 0 finds another value.
    let raced = "a cas 0 1 -> true 1 3\nb cas 0 2 -> false 2 4\na read -> 1 5 6";
    assert_eq!(rt; found_in(alloc, &Register, raced)?, Found::Good);
    let both = "a cas 0 1 -> true 1 3\nb cas 0 2 -> true 2 4";
    assert_eq!(rt; found_in(alloc, &Register, both)?, Found::BadAt(3));
    Ok(())
}

#[test]
fn maps_and_sets(rt: HostRuntime) -> Result<(), AllocError> {
    let alloc = rt.alloc();
    let kept =
        "a put 1 5 -> ok 1 2\nb insert 1 6 -> 5 3 4\na get 1 -> 6 5 6\na remove 1 -> 6 7 8\na get 1 -> none 9 10";
    assert_eq!(rt; found_in(alloc, &Map, kept)?, Found::Good);
    let lost = "a put 1 5 -> ok 1 2\nb put 2 6 -> ok 3 4\na get 1 -> none 5 6";
    assert_eq!(rt; found_in(alloc, &Map, lost)?, Found::BadAt(5));
    let once =
        "a add 1 -> true 1 3\nb add 1 -> false 2 4\na contains 1 -> true 5 6\na remove 1 -> true 7 8";
    assert_eq!(rt; found_in(alloc, &Set, once)?, Found::Good);
    let twice = "a add 1 -> true 1 3\nb add 1 -> true 2 4";
    assert_eq!(rt; found_in(alloc, &Set, twice)?, Found::BadAt(3));
    Ok(())
}

/// The order that is found of the history that a text is; none, where none is found.
fn order_in<O: Worded>(alloc: Global, object: &O, text: &str) -> Result<Vec<usize>, AllocError> {
    if let Ok(history) = read_history::<O>(alloc, text.as_bytes()) {
        if let Verdict::Linearizable(order) = check(
            alloc,
            object,
            history.events.as_slice(),
            1_000,
        )? {
            return Ok(order);
        }
    }
    Ok(Vec::new(alloc))
}

#[test]
fn parts(rt: HostRuntime) -> Result<(), AllocError> {
    let alloc = rt.alloc();
    // Each key is judged alone, and the orders of both make one.
    let both = "a put 1 5 -> ok 1 8\nb put 2 6 -> ok 2 3\nb get 1 -> 5 4 5";
    assert!(rt; order_in(alloc, &Map, both)?.as_slice() == [0, 1, 3].as_slice());
    let other = "a put 1 5 -> ok 1 2\nb put 2 6 -> ok 3 4\nb get 2 -> 5 5 6";
    assert_eq!(rt; found_in(alloc, &Map, other)?, Found::BadAt(5));
    // A call of one key returns before one of another begins, by which a third is judged.
    let turned =
        "a add 1 -> true 1 2\na add 2 -> true 3 4\nb contains 2 -> true 5 6\nb contains 1 -> false 7 8";
    assert_eq!(rt; found_in(alloc, &Set, turned)?, Found::BadAt(7));
    // A process calls twice at once, of two keys.
    let twice = [
        Event::Call(0, MapInv::Get(1)),
        Event::Call(0, MapInv::Get(2)),
    ];
    assert!(rt; matches!(check(alloc, &Map, &twice, 1_000)?, Verdict::NotLinearizable));
    Ok(())
}

#[test]
fn guessed_queues(rt: HostRuntime) -> Result<(), AllocError> {
    let alloc = rt.alloc();
    // 1 and 2 are put in at one time, and 2 is taken first; then the queue is found empty.
    let turned =
        "a enq 1 -> ok 1 4\nb enq 2 -> ok 2 3\na deq -> 2 5 6\na deq -> 1 7 8\nb deq -> empty 9 10";
    assert!(rt; order_in(alloc, &Queue, turned)?.as_slice() == [1, 0, 4, 6, 8].as_slice());
    // The queue is found empty before 1 is put in, though both overlap; and a call that never returned took 1.
    let lost =
        "a enq 1 -> ok 1 4\nb deq -> empty 2 5\nc deq -> ? 3\na enq 2 -> ok 6 7\nb deq -> 2 8 9";
    assert!(rt; order_in(alloc, &Queue, lost)?.as_slice() == [1, 0, 2, 5, 7].as_slice());
    Ok(())
}

/// A history as Jepsen writes it: a call that failed had no effect, one of which nothing is known may have had one, and
/// the nemesis makes no call.
const JEPSEN: &str = "\
{:process 0, :type :invoke, :f :write, :value 1}
{:process :nemesis, :type :info, :f :start, :value nil}
{:process 1, :type :invoke, :f :cas, :value [0 2]}
{:process 1, :type :fail, :f :cas, :value [0 2], :error [:precondition {:was 1}]}
{:process 0, :type :info, :f :write, :value 1, :error :timeout}
{:process 1, :type :invoke, :f :read, :value nil}
{:process 1, :type :ok, :f :read, :value 1}";

#[test]
fn other_forms(rt: HostRuntime) -> Result<(), AllocError> {
    let alloc = rt.alloc();
    assert_eq!(rt; found_in(alloc, &Register, JEPSEN)?, Found::Good);
    // Of the five events left, the last has another value.
    let stale = format!(in alloc;
        "{JEPSEN}\n{{:process 1, :type :invoke, :f :read}}\n{{:process 1, :type :ok, :f :read, :value 2}}"
    )?;
    assert_eq!(rt;
        found_in(alloc, &Register, stale.as_str())?,
        Found::BadAt(4)
    );
    let drawn =
        "{\"type\":\"run\",\"history\":1,\"object\":\"queue\",\"processes\":2,\"state\":\"[]\"}
{\"process\":1,\"type\":\"invoke\",\"call\":\"1.0\",\"words\":\"enq 5\"}
{\"process\":0,\"type\":\"invoke\",\"call\":\"0.0\",\"words\":\"deq\"}
{\"process\":0,\"type\":\"ok\",\"call\":\"0.0\",\"reply\":\"5\"}";
    assert_eq!(rt; found_in(alloc, &Queue, drawn)?, Found::Good);
    Ok(())
}
