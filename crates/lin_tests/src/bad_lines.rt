//! Lines that no history of a queue has, and what is said of them.

use history_text::{ReadError, read_history};
use judged_objects::Queue;
use std::alloc::{AllocError, Global};

/// What is said of the first bad line of a text; nothing, where it has none.
fn said(alloc: Global, text: &str) -> Result<String, AllocError> {
    match read_history::<Queue>(alloc, text.as_bytes()) {
        Ok(_) => Ok(String::new(alloc)),
        Err(ReadError::Refused(fault)) => format!(in alloc; "{fault}"),
        Err(ReadError::Memory) => Err(AllocError),
    }
}

/// Whether this is said of a text.
fn is_said(alloc: Global, text: &str, want: &str) -> Result<bool, AllocError> {
    Ok(said(alloc, text)?.as_str() == want)
}

/// Bad lines in their own form.
const OWN: [(&str, &str); 21] = [
    (
        "start 0 enq 7",
        "line 1, column 1: no history begins so: see 'unicheck --help'",
    ),
    (
        "# a note\n\n7",
        "line 3, column 1: no history begins so: see 'unicheck --help'",
    ),
    (
        "call 0 deq\nreply 0 7",
        "line 2, column 1: unknown event: there are call, return and lost",
    ),
    ("call", "line 1, column 5: a word is missing: call P CALL"),
    ("call 0", "line 1, column 7: a word is missing: call P CALL"),
    (
        "return 0",
        "line 1, column 9: a word is missing: return P REPLY",
    ),
    ("lost", "line 1, column 5: a word is missing: lost P"),
    ("lost 0 1", "line 1, column 8: a word too many: lost P"),
    (
        "call x deq",
        "line 1, column 6: a process is a number from 0 to 65535",
    ),
    (
        "call 65536 deq",
        "line 1, column 6: a process is a number from 0 to 65535",
    ),
    (
        "call 00 deq",
        "line 1, column 6: a process is a number from 0 to 65535",
    ),
    (
        "call 0 push 7",
        "line 1, column 8: no such call: there are enq V, deq",
    ),
    (
        "call 0 enq 1000000000000",
        "line 1, column 8: no such call: there are enq V, deq",
    ),
    (
        "call 0 deq\nreturn 0 full",
        "line 2, column 10: no such reply: there are ok, empty, V",
    ),
    (
        "call  0 deq",
        "line 1, column 6: two spaces: there is one between two words",
    ),
    (
        "call 0 deq ",
        "line 1, column 12: a space last: a line ends with its last word",
    ),
    (
        "call 0 deq\n return 0 7",
        "line 2, column 1: a space first: a line begins with its first word",
    ),
    (
        "call 0 deq\r\n",
        "line 1, column 11: a carriage return: the file has Windows line ends",
    ),
    (
        "call 0 deq\nreturn\t0 7",
        "line 2, column 7: a tab: between two words there is one space",
    ),
    (
        "call 0 deq\nreturn 0 \u{e9}",
        "line 2, column 10: byte 195 isn't from 32 to 126",
    ),
    (
        "call 0 deq\n# fine\nreturn 0",
        "line 3, column 9: a word is missing: return P REPLY",
    ),
];

/// Lines that can be read, of what a process can't do.
const TURNS: [(&str, &str); 6] = [
    (
        "call 0 deq\ncall 0 deq",
        "line 2, column 6: the process has a call that hasn't returned",
    ),
    ("return 0 7", "line 1, column 8: the process has no call"),
    (
        "call 0 deq\nreturn 0 7\nreturn 0 7",
        "line 3, column 8: the process has no call",
    ),
    (
        "call 0 deq\nlost 0\ncall 0 deq",
        "line 3, column 6: the process was lost before",
    ),
    (
        "lost 12\nreturn 12 7",
        "line 2, column 8: the process was lost before",
    ),
    (
        "a deq -> 7 1 3\na deq -> 7 3 4",
        "line 2, column 1: the process has a call that hasn't returned",
    ),
];

/// Bad lines of whole calls.
const STAMPED: [(&str, &str); 11] = [
    (
        "a deq -> 7",
        "line 1, column 11: a word is missing: NAME CALL -> REPLY BEGIN END",
    ),
    (
        "a deq ->",
        "line 1, column 9: a word is missing: NAME CALL -> REPLY BEGIN END",
    ),
    (
        "a deq -> 7 1",
        "line 1, column 13: a word is missing: NAME CALL -> REPLY BEGIN END",
    ),
    (
        "a deq -> 7 1 2\nb deq 7 1 2",
        "line 2, column 12: no arrow: NAME CALL -> REPLY BEGIN END",
    ),
    (
        "a/b deq -> 7 1 2",
        "line 1, column 1: a process is 1 to 20 letters, digits, _ and -",
    ),
    (
        "a take -> 7 1 2",
        "line 1, column 3: no such call: there are enq V, deq",
    ),
    (
        "a deq -> nothing 1 2",
        "line 1, column 10: no such reply: there are ok, empty, V",
    ),
    (
        "a deq -> 7 2 1",
        "line 1, column 14: the call ends before it begins",
    ),
    (
        "a deq -> 7 x 1",
        "line 1, column 12: a time stamp is a number from 0 to 18446744073709551615",
    ),
    (
        "a deq -> 7 1 -1",
        "line 1, column 14: a time stamp is a number from 0 to 18446744073709551615",
    ),
    (
        "a deq -> ? x",
        "line 1, column 12: a time stamp is a number from 0 to 18446744073709551615",
    ),
];

/// Bad lines of maps.
const MAPS: [(&str, &str); 10] = [
    (
        "{:process 0, :type :invoke, :f :dequeue",
        "line 1, column 1: a bracket or a quotation mark is left open",
    ),
    (
        "{:process 0, :type :invoke, :f \"dequeue}",
        "line 1, column 32: a bracket or a quotation mark is left open",
    ),
    (
        "{:type :run} {}",
        "line 1, column 14: one map stands on a line",
    ),
    (
        "{:type :run}\n:process 0",
        "line 2, column 1: a map begins with an open brace",
    ),
    ("{:process 0}", "line 1, column 1: the map has no type"),
    ("{:type :ok}", "line 1, column 1: the map has no process"),
    (
        "{:process 0, :type :begin}",
        "line 1, column 21: a type is invoke, ok, fail or info",
    ),
    (
        "{:process 0, :type :invoke, :f :take}",
        "line 1, column 21: no such call: there are enq V, deq",
    ),
    (
        "{:process 0, :type :ok, :f :dequeue, :value x}",
        "line 1, column 21: no such reply: there are ok, empty, V",
    ),
    (
        "{:process 0, :type :fail, :f :dequeue}",
        "line 1, column 1: the process has no call",
    ),
];

#[test]
fn bad_lines(rt: HostRuntime) -> Result<(), AllocError> {
    for table in [OWN.as_slice(), &TURNS, &STAMPED, &MAPS] {
        for (text, want) in table {
            assert!(rt; is_said(rt.alloc(), text, want)?, "{text}");
        }
    }
    Ok(())
}

#[test]
fn good_lines(rt: HostRuntime) -> Result<(), AllocError> {
    for text in [
        "",
        "# a note\n",
        "call 0 deq\nlost 0\nlost 0",
        "call 65535 enq 999999999999\nreturn 65535 ok",
        "T-1_a deq -> ? 18446744073709551615",
    ] {
        assert!(rt; is_said(rt.alloc(), text, "")?, "{text}");
    }
    Ok(())
}
