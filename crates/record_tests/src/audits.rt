//! Lists whose verdicts were worked out by hand.

use crate::acts::call;
use seq_object::{CallId, SeqObject, SwapRegister};
use std::alloc::{AllocError, Global};
use uni_log::Entry;
use uni_record::{Return, Verdict, audit};

/// Is refused memory for each invocation, of which the response would be 9.
#[derive(Drop)]
struct Refused;

impl SeqObject for Refused {
    ghost use Rattle.seq_object.specs.Exact.{nat_eq_exact};

    type State = u32;

    type Inv = u32;

    type Resp = u32;

    ghost sequential = { λ _. record { initial = 9; next = λ state _. state; answer = λ _ _. 9 } };

    ghost same_inv = { nat_eq_exact };

    ghost same_resp = { nat_eq_exact };

    fn start(&self, _alloc: Global) -> Result<u32, AllocError> {
        Ok(9)
    }

    fn apply(&self, _alloc: Global, _state: &u32, _number: &u32) -> Result<(u32, u32), AllocError> {
        Err(AllocError)
    }

    fn copy_inv(_alloc: Global, number: &u32) -> Result<u32, AllocError> {
        Ok(*number)
    }
}

/// Entries of calls that ask for 7: each by its process, its number and its reply.
type Calls = &'static [(u32, u64, Option<u32>)];

/// Calls that returned: each by its process, its number and its reply.
type Returned = &'static [(u32, u64, u32)];

/// What a row is about, its entries and its returns, and the verdict on them.
type Row = (&'static str, Calls, Returned, Verdict);

/// The entries of these calls, in this order.
fn entries_of(alloc: Global, calls: Calls) -> Result<Vec<Entry<u32, u32>>, AllocError> {
    let mut entries = Vec::new(alloc);
    let mut seq = 2u64;
    for row in calls {
        entries.push(Entry {
            seq,
            call: call(row.0, row.1),
            inv: 7,
            reply: row.2,
        })?;
        seq = seq.wrapping_add(1);
    }
    Ok(entries)
}

/// The returns of these calls, in this order.
fn returns_of(alloc: Global, calls: Returned) -> Result<Vec<Return<u32>>, AllocError> {
    let mut returns = Vec::new(alloc);
    for row in calls {
        returns.push(Return {
            call: call(row.0, row.1),
            reply: row.2,
        })?;
    }
    Ok(returns)
}

/// The verdict on the entries and the returns of a row, of a register that starts with 9.
fn verdict(alloc: Global, row: &Row) -> Result<Verdict, AllocError> {
    let entries = entries_of(alloc, row.1)?;
    let returns = returns_of(alloc, row.2)?;
    audit(alloc, &SwapRegister { start: 9 }, &entries, &returns)
}

/// Call 0.0.
pub(crate) const FIRST: CallId = CallId { process: 0, nth: 0 };

/// The greatest name that a call can have.
const GREATEST: CallId = CallId {
    process: 4_294_967_295,
    nth: 18_446_744_073_709_551_615,
};

/// Calls 3.0, 1.0 and 3.1, in this order.
const IN_TURN: Calls = &[(3, 0, Some(9)), (1, 0, Some(7)), (3, 1, Some(7))];

/// Lists, each with its verdict.
const ROWS: &[Row] = &[
    // Lists that agree.
    ("nothing", &[], &[], Verdict::Agrees),
    (
        "one call",
        &[(0, 0, Some(9))],
        &[(0, 0, 9)],
        Verdict::Agrees,
    ),
    (
        "last entry needs no reply",
        &[(0, 0, Some(9)), (1, 0, None)],
        &[(0, 0, 9)],
        Verdict::Agrees,
    ),
    (
        "state goes on from entry to entry",
        &[(0, 0, Some(9)), (1, 0, Some(7))],
        &[],
        Verdict::Agrees,
    ),
    // Entries that are wrong.
    (
        "reply that the object does not give",
        &[(0, 0, Some(5))],
        &[(0, 0, 9)],
        Verdict::BadReply(0),
    ),
    (
        "state goes on from entry to entry",
        &[(0, 0, Some(9)), (1, 0, Some(9))],
        &[],
        Verdict::BadReply(1),
    ),
    (
        "call that is not the next one",
        &[(0, 1, Some(9))],
        &[(0, 0, 9)],
        Verdict::BadCall(0),
    ),
    (
        "call that has two entries",
        &[(3, 0, Some(9)), (1, 0, Some(7)), (3, 0, Some(7))],
        &[],
        Verdict::BadCall(2),
    ),
    // Returns that are wrong.
    ("no entry", &[], &[(0, 0, 9)], Verdict::Missing(FIRST)),
    (
        "entry that has no reply",
        &[(0, 0, None)],
        &[(0, 0, 9)],
        Verdict::Missing(FIRST),
    ),
    (
        "another reply",
        &[(0, 0, Some(9))],
        &[(0, 0, 5)],
        Verdict::BadReturn(FIRST),
    ),
    (
        "twice",
        &[(0, 0, Some(9))],
        &[(0, 0, 9), (0, 0, 9)],
        Verdict::Twice(FIRST),
    ),
    // Lists that are wrong in two ways.
    (
        "on one entry the call comes before the reply",
        &[(0, 1, Some(5))],
        &[],
        Verdict::BadCall(0),
    ),
    (
        "on one return the second time comes before the reply, which is wrong there",
        &[(0, 0, Some(9))],
        &[(0, 0, 9), (0, 0, 5)],
        Verdict::Twice(FIRST),
    ),
    (
        "entries come before returns",
        &[(0, 0, Some(5))],
        &[(0, 0, 9), (0, 0, 9)],
        Verdict::BadReply(0),
    ),
    // What returned of calls 3.0, 1.0 and 3.1 in another order.
    (
        "the last one first",
        IN_TURN,
        &[(3, 1, 7), (1, 0, 7), (3, 0, 9)],
        Verdict::Agrees,
    ),
    (
        "one of them twice",
        IN_TURN,
        &[(1, 0, 7), (3, 1, 7), (1, 0, 7)],
        Verdict::Twice(CallId { process: 1, nth: 0 }),
    ),
    // Returns of calls that aren't among them.
    (
        "process 3",
        IN_TURN,
        &[(3, 2, 7)],
        Verdict::Missing(CallId { process: 3, nth: 2 }),
    ),
    (
        "process 1",
        IN_TURN,
        &[(1, 1, 7)],
        Verdict::Missing(CallId { process: 1, nth: 1 }),
    ),
    (
        "process 2",
        IN_TURN,
        &[(2, 0, 7)],
        Verdict::Missing(CallId { process: 2, nth: 0 }),
    ),
    (
        "the greatest process and number",
        IN_TURN,
        &[(4_294_967_295, 18_446_744_073_709_551_615, 7)],
        Verdict::Missing(GREATEST),
    ),
];

#[test]
fn lists_have_their_verdicts(rt: HostRuntime) {
    for row in ROWS {
        assert!(rt; verdict(rt.alloc(), row) == Ok(row.3), "{}", row.0);
    }
}

/// The verdict on one entry, of process 0's call with this number, where no invocation can be applied.
fn verdict_without_memory(alloc: Global, nth: u64) -> Option<Verdict> {
    let entries = [Entry {
        seq: 2,
        call: call(0, nth),
        inv: 7,
        reply: Some(9),
    }];
    audit(alloc, &Refused, &entries, &[]).ok()
}

#[test]
fn refused_memory_is_no_verdict(rt: HostRuntime) {
    let alloc = rt.alloc();
    assert!(rt; verdict_without_memory(alloc, 0) == None);
    // a call is checked before its entry is replayed
    assert!(rt; verdict_without_memory(alloc, 1) == Some(Verdict::BadCall(0)));
    assert!(rt; audit(alloc, &Refused, &[], &[]).ok() == Some(Verdict::Agrees));
}
