//! A register's calls, two machines by their tables, and tables that are refused.

use std::process::Abort;
use std::test::Fail;
use uni_words::WordObject;
use word_objects::{MachineFault, WordMachine, WordRegister};

/// The calls of an object, from the start on, answer what the rows say beside each.
fn answers<O: WordObject>(rt: &impl Abort, object: &O, rows: &[(u64, u32)]) {
    let mut state = object.start();
    for row in rows {
        assert!(rt; object.answer(state, row.0) == row.1, "at {row:?}");
        state = object.next(state, row.0);
    }
}

#[test]
fn a_register(rt: HostRuntime) {
    let rows = [
        (WordRegister::write(5), 0),
        (WordRegister::read(), 5),
        (WordRegister::swap(9), 5),
        (WordRegister::fetch_add(WordRegister::GREATEST), 9),
        (WordRegister::fetch_max(3), 8),
        (WordRegister::compare_exchange(7, 1), 8),
        (WordRegister::compare_exchange(8, 1), 8),
        (WordRegister::fetch_max(6), 1),
        (WordRegister::read(), 6),
    ];
    answers(&rt, &WordRegister, &rows);
}

/// Red, green and amber: 0 asks for the light, and each greater invocation goes on to the next.
#[test]
fn a_traffic_light(rt: HostRuntime) -> Result<(), Fail> {
    let next = [0, 1, 1, 2, 2, 0].to_vec(rt.alloc())?;
    let reply = [0, 0, 1, 1, 2, 2].to_vec(rt.alloc())?;
    let light = WordMachine::new(3, 2, next, reply)?;
    answers(
        &rt,
        &light,
        &[(0, 0), (1, 0), (0, 1), (1, 1), (0, 2), (9, 2), (0, 0)],
    );
    Ok(())
}

/// A buffer of two places for zeros and ones, in the order in which they were put. Invocations 0 and 1
/// put a number, and 2 takes one out; the reply is the number that was taken, 2 where the buffer is
/// full or empty, and 3 where a number was put. The states are no number, 0, 1, 00, 01, 10 and 11.
#[test]
fn a_buffer_of_two_places(rt: HostRuntime) -> Result<(), Fail> {
    let next = [
        1, 2, 0, 3, 4, 0, 5, 6, 0, 3, 3, 1, 4, 4, 2, 5, 5, 1, 6, 6, 2,
    ]
    .to_vec(rt.alloc())?;
    let reply = [
        3, 3, 2, 3, 3, 0, 3, 3, 1, 2, 2, 0, 2, 2, 0, 2, 2, 1, 2, 2, 1,
    ]
    .to_vec(rt.alloc())?;
    let buffer = WordMachine::new(7, 3, next, reply)?;
    answers(
        &rt,
        &buffer,
        &[
            (2, 2),
            (1, 3),
            (0, 3),
            (1, 2),
            (2, 1),
            (1, 3),
            (2, 0),
            (2, 1),
            (2, 2),
        ],
    );
    Ok(())
}

#[test]
fn tables_that_are_refused(rt: HostRuntime) -> Result<(), Fail> {
    let rows: [(u32, u32, &[u32], &[u32], MachineFault); 6] = [
        (0, 0, &[], &[], MachineFault::BadStates),
        (2, 0, &[], &[], MachineFault::NoInvocation),
        (2, 1, &[0], &[0], MachineFault::NextSize),
        (2, 1, &[0, 1], &[0, 1, 2], MachineFault::ReplySize),
        (
            2,
            1,
            &[1, 2],
            &[0, 2_147_483_648],
            MachineFault::NextOutside(1),
        ),
        (
            2,
            1,
            &[1, 0],
            &[0, 2_147_483_648],
            MachineFault::ReplyOutside(1),
        ),
    ];
    for (states, invocations, next, reply, fault) in rows {
        let next = next.to_vec(rt.alloc())?;
        let reply = reply.to_vec(rt.alloc())?;
        let made = WordMachine::new(states, invocations, next, reply);
        assert!(rt; made.err() == Some(fault), "not {fault:?}");
    }
    Ok(())
}
