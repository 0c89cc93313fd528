//! Histories as others write them, and what is found of each, by hand.

use crate::objects::{Found, found_in};
use judged_objects::{Queue, Register};
use std::alloc::AllocError;

/// Of `recorders/examples/RightQueue.java`, three calls of each thread. Four numbers are put in at one time, and taken
/// one after the other.
const JAVA: &str = "\
T0 enq 0 -> ok 0 7
T0 deq -> 9 8 9
T0 enq 2 -> ok 10 11
T1 enq 3 -> ok 1 6
T1 deq -> 6 12 13
T1 enq 5 -> ok 14 15
T2 enq 6 -> ok 3 5
T2 deq -> 3 16 17
T2 enq 8 -> ok 18 19
T3 enq 9 -> ok 2 4
T3 deq -> 0 20 21
T3 enq 11 -> ok 22 23
";

/// Of `docs/teachers/MichaelScott.java`, four calls of each thread. At 12 the queue is found empty: 0, 4 and 12 were
/// put in by then, and nobody took them. Each time up to there is the place of its event.
const MICHAEL_SCOTT: &str = "\
T0 enq 0 -> ok 0 4
T0 deq -> empty 23 24
T0 enq 2 -> ok 25 26
T0 deq -> empty 27 28
T1 enq 4 -> ok 1 5
T1 deq -> 8 8 9
T1 enq 6 -> ok 10 29
T1 deq -> empty 30 31
T2 enq 8 -> ok 2 6
T2 deq -> empty 14 15
T2 enq 10 -> ok 16 17
T2 deq -> empty 18 19
T3 enq 12 -> ok 3 7
T3 deq -> empty 11 12
T3 enq 14 -> ok 13 20
T3 deq -> empty 21 22
";

/// Of `recorders/examples/events.c`, three calls of each thread, but for the last reply. 6 is put in by a call that
/// lasts nearly all the time.
const C: &str = "\
call 2 enq 6
call 0 enq 0
return 0 ok
call 0 deq
return 0 0
call 0 enq 2
return 0 ok
call 1 enq 3
return 1 ok
call 1 deq
return 1 2
call 1 enq 5
return 1 ok
call 3 enq 9
return 3 ok
call 3 deq
return 3 3
call 3 enq 11
return 3 ok
return 2 ok
call 2 deq
return 2 ";

/// Of `unidraw --history`, a stored case. The second call of process 1 is pending.
const UNIDRAW: &str = "\
{\"type\":\"run\",\"history\":1,\"object\":\"queue\",\"processes\":2,\"state\":\"[]\"}
{\"process\":0,\"type\":\"invoke\",\"call\":\"0.0\",\"words\":\"enq 5\"}
{\"process\":1,\"type\":\"invoke\",\"call\":\"1.0\",\"words\":\"deq\"}
{\"process\":1,\"type\":\"ok\",\"call\":\"1.0\",\"reply\":\"empty\"}
{\"process\":0,\"type\":\"ok\",\"call\":\"0.0\",\"reply\":\"ok\"}
{\"process\":0,\"type\":\"invoke\",\"call\":\"0.1\",\"words\":\"deq\"}
{\"process\":0,\"type\":\"ok\",\"call\":\"0.1\",\"reply\":\"5\"}
{\"process\":1,\"type\":\"invoke\",\"call\":\"1.1\",\"words\":\"enq 6\"}
";

/// With the keys that histories of Jepsen have: a process whose call timed out calls no more, and another comes in its
/// place. Written by hand.
const JEPSEN: &str = "\
{:index 0, :time 3206420, :type :invoke, :process 0, :f :write, :value 3}
{:index 1, :time 3318844, :type :invoke, :process 1, :f :read, :value nil}
{:index 2, :time 9107366, :type :ok, :process 1, :f :read, :value 3}
{:index 3, :time 9345201, :type :info, :process :nemesis, :f :start, :value [:isolated {\"n1\" #{\"n2\"}}]}
{:index 4, :time 9401533, :type :invoke, :process 1, :f :cas, :value [3 4]}
{:index 5, :time 12250117, :type :info, :process 0, :f :write, :value 3, :error :timeout}
{:index 6, :time 12302260, :type :ok, :process 1, :f :cas, :value [3 4]}
{:index 7, :time 12419983, :type :invoke, :process 5, :f :read, :value nil}
{:index 8, :time 12510012, :type :ok, :process 5, :f :read, :value ";

#[test]
fn recorded(rt: HostRuntime) -> Result<(), AllocError> {
    let alloc = rt.alloc();
    assert_eq!(rt; found_in(alloc, &Queue, JAVA)?, Found::Good);
    assert_eq!(rt; found_in(alloc, &Queue, MICHAEL_SCOTT)?, Found::BadAt(12));
    // 5 was put in before 9, and 6 whenever that fits.
    for (reply, want) in [
        ("5", Found::Good),
        ("6", Found::Good),
        ("9", Found::BadAt(21)),
        ("empty", Found::BadAt(21)),
    ] {
        let history = format!(in alloc; "{C}{reply}\n")?;
        assert_eq!(rt; found_in(alloc, &Queue, history.as_str())?, want);
    }
    assert_eq!(rt; found_in(alloc, &Queue, UNIDRAW)?, Found::Good);
    // Seven events are left without the nemesis and the time-out.
    for (reply, want) in [("4", Found::Good), ("3", Found::BadAt(6))] {
        let history = format!(in alloc; "{JEPSEN}{reply}}}\n")?;
        assert_eq!(rt; found_in(alloc, &Register, history.as_str())?, want);
    }
    Ok(())
}
