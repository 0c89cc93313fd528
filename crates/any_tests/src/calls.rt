//! Calls of two seats in turn, and what only reads.

ghost use Rattle.uni_any.specs.Seats.{IsSeatOf};

use crate::seats::{is_row, last_two, opened};
use parted_map::{MapInv, PartedMap, Text};
use ready_objects::Spoken;
use seq_object::SeqObject;
use stack::{Stack, StackInv, StackResp, StackState};
use std::alloc::{AllocError, Global};
use std::process::Abort;
use std::test::Fail;
use uni_any::{AnyResumeFault, AnySeat, AnyShared};

/// The seat's next call, which is answered so.
fn answers<O: SeqObject>(
    rt: &impl Abort,
    alloc: Global,
    shared: &AnyShared<O>,
    seat: &mut AnySeat<O>,
    inv: O::Inv,
    reply: O::Resp,
    version: u64,
)
    requires { IsSeatOf shared.now seat.old }
    ensures { IsSeatOf shared.now seat.new }
{
    let Ok(answer) = seat.apply(alloc, shared, inv) else {
        panic!(rt; "no answer")
    };
    assert!(rt; answer.reply == reply, "another reply");
    assert!(rt; answer.version == version, "version {}", answer.version);
}

/// The newest number of a stack, as a text.
pub(crate) fn newest(alloc: Global, state: &StackState) -> Result<Vec<u8>, AllocError> {
    let mut text = Vec::new(alloc);
    Stack::push_state(&mut text, state)?;
    Ok(text)
}

#[test]
fn two_seats_in_turn(rt: HostRuntime) -> Result<(), Fail> {
    let alloc = rt.alloc();
    let (shared, mut seats) = opened(&rt, alloc, Stack, 2);
    let (mut first, mut second) = last_two(&rt, &shared, &mut seats);
    answers(
        &rt,
        alloc,
        &shared,
        &mut first,
        StackInv::Push(7),
        StackResp::Pushed,
        1,
    );
    answers(
        &rt,
        alloc,
        &shared,
        &mut second,
        StackInv::Push(8),
        StackResp::Pushed,
        2,
    );
    answers(
        &rt,
        alloc,
        &shared,
        &mut first,
        StackInv::Pop,
        StackResp::Popped(8),
        3,
    );
    answers(
        &rt,
        alloc,
        &shared,
        &mut second,
        StackInv::Push(5),
        StackResp::Pushed,
        4,
    );
    answers(
        &rt,
        alloc,
        &shared,
        &mut first,
        StackInv::Push(6),
        StackResp::Pushed,
        5,
    );
    assert!(rt; first.resume(alloc, &shared) == Err(AnyResumeFault::NothingPending));
    answers(
        &rt,
        alloc,
        &shared,
        &mut second,
        StackInv::Pop,
        StackResp::Popped(6),
        6,
    );
    let closed = shared.close_with(first);
    let last = closed.block();
    assert!(rt; newest(alloc, &last.state)?.as_slice() == b"5".as_slice());
    assert!(rt; is_row(&last.rows, 0, 3, Some(StackResp::Pushed)));
    assert!(rt; is_row(&last.rows, 1, 3, Some(StackResp::Popped(6))));
    Ok(())
}

/// `a` and `A` are in the same part.
#[test]
fn a_map_in_parts(rt: HostRuntime) -> Result<(), Fail> {
    let alloc = rt.alloc();
    let (shared, mut seats) = opened(&rt, alloc, PartedMap, 2);
    let (mut first, mut second) = last_two(&rt, &shared, &mut seats);
    let inv = MapInv::Get(Text::of(alloc, b"a")?);
    answers(&rt, alloc, &shared, &mut first, inv, None, 1);
    let inv = MapInv::Insert(Text::of(alloc, b"a")?, 7);
    answers(&rt, alloc, &shared, &mut first, inv, None, 2);
    let inv = MapInv::Insert(Text::of(alloc, b"A")?, 8);
    answers(&rt, alloc, &shared, &mut second, inv, None, 3);
    let inv = MapInv::Insert(Text::of(alloc, b"a")?, 9);
    answers(&rt, alloc, &shared, &mut second, inv, Some(7), 4);
    let inv = MapInv::Insert(Text::of(alloc, b"")?, 0);
    answers(&rt, alloc, &shared, &mut first, inv, None, 5);
    let inv = MapInv::Remove(Text::of(alloc, b"A")?);
    answers(&rt, alloc, &shared, &mut second, inv, Some(8), 6);
    let inv = MapInv::Remove(Text::of(alloc, b"A")?);
    answers(&rt, alloc, &shared, &mut second, inv, None, 7);
    let inv = MapInv::Get(Text::of(alloc, b"a")?);
    answers(&rt, alloc, &shared, &mut first, inv, Some(9), 8);
    let inv = MapInv::Get(Text::of(alloc, b"")?);
    answers(&rt, alloc, &shared, &mut first, inv, Some(0), 9);
    assert!(rt; second.refresh(&shared) == Ok(9));
    let map = &second.version(&shared).state;
    assert!(rt; map.number_of(&Text::of(alloc, b"a")?) == Some(9));
    assert!(rt; map.number_of(&Text::of(alloc, b"A")?) == None);
    Ok(())
}

#[test]
fn versions_are_followed(rt: HostRuntime) {
    let alloc = rt.alloc();
    let (shared, mut seats) = opened(&rt, alloc, Stack, 2);
    let (mut first, mut second) = last_two(&rt, &shared, &mut seats);
    assert!(rt; second.follows(&shared, 0) == Ok(true));
    assert!(rt; second.follows(&shared, 1) == Ok(false));
    answers(
        &rt,
        alloc,
        &shared,
        &mut first,
        StackInv::Push(7),
        StackResp::Pushed,
        1,
    );
    assert!(rt; second.follows(&shared, 1) == Ok(true));
    assert!(rt; second.follows(&shared, 2) == Ok(false));
    answers(
        &rt,
        alloc,
        &shared,
        &mut second,
        StackInv::Pop,
        StackResp::Popped(7),
        2,
    );
    assert!(rt; first.follows(&shared, 2) == Ok(true));
    assert!(rt; first.follows(&shared, u64::MAX) == Ok(false));
}

/// A seat keeps the version that it found, whatever the others do, until it looks again.
#[test]
fn reading_is_no_call(rt: HostRuntime) -> Result<(), Fail> {
    let alloc = rt.alloc();
    let (shared, mut seats) = opened(&rt, alloc, Stack, 2);
    let (mut first, mut second) = last_two(&rt, &shared, &mut seats);
    assert!(rt; newest(alloc, &second.version(&shared).state)?.as_slice() == b"empty".as_slice());
    assert!(rt; second.refresh(&shared) == Ok(0));
    let inv = StackInv::Push(7);
    answers(&rt, alloc, &shared, &mut first, inv, StackResp::Pushed, 1);
    assert!(rt; newest(alloc, &second.version(&shared).state)?.as_slice() == b"empty".as_slice());
    for _ in 0..3 {
        assert!(rt; second.refresh(&shared) == Ok(1));
        assert!(rt; newest(alloc, &second.version(&shared).state)?.as_slice() == b"7".as_slice());
    }
    assert!(rt; is_row(&second.version(&shared).rows, 0, 1, Some(StackResp::Pushed)));
    assert!(rt; is_row(&second.version(&shared).rows, 1, 0, None));
    let inv = StackInv::Push(8);
    answers(&rt, alloc, &shared, &mut second, inv, StackResp::Pushed, 2);
    assert!(rt; first.refresh(&shared) == Ok(2));
    assert!(rt; newest(alloc, &first.version(&shared).state)?.as_slice() == b"8".as_slice());
    Ok(())
}
