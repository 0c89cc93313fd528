//! What is answered of histories of a register that each call swaps, 0 at first.

use lin_check::{Event, OrderVerdict, Verdict, check, check_order};
use seq_object::SwapRegister;
use std::alloc::AllocError;

/// The register, 0 at first.
fn register() -> SwapRegister {
    SwapRegister { start: 0 }
}

/// A process begins to swap a value in.
fn call(process: usize, value: u32) -> Event<u32, u32> {
    Event::Call(process, value)
}

/// Its call returns with the value before.
fn answered(process: usize, value: u32) -> Event<u32, u32> {
    Event::Return(process, value)
}

/// Whether a verdict is this order.
fn is_order(verdict: &Verdict, want: &[usize]) -> bool {
    match verdict {
        Verdict::Linearizable(order) => order.as_slice() == want,
        _ => false,
    }
}

#[test]
fn linearizable(rt: HostRuntime) -> Result<(), AllocError> {
    let alloc = rt.alloc();
    let in_turn = [call(0, 5), answered(0, 0), call(1, 7), answered(1, 5)];
    assert!(rt; is_order(&check(alloc, &register(), &in_turn, 100)?, &[0, 2]));
    assert!(rt; is_order(&check(alloc, &register(), &in_turn[..0], 0)?, &[]));
    // Calls overlap: the answers say which one took effect first.
    let first = [call(0, 5), call(1, 7), answered(0, 0), answered(1, 5)];
    assert!(rt; is_order(&check(alloc, &register(), &first, 100)?, &[0, 1]));
    let second = [call(0, 5), call(1, 7), answered(0, 7), answered(1, 0)];
    assert!(rt; is_order(&check(alloc, &register(), &second, 100)?, &[1, 0]));
    // A call that never returned took effect.
    let pending = [call(0, 5), call(1, 7), answered(1, 5)];
    assert!(rt; is_order(&check(alloc, &register(), &pending, 100)?, &[0, 1]));
    Ok(())
}

#[test]
fn not_linearizable(rt: HostRuntime) -> Result<(), AllocError> {
    let alloc = rt.alloc();
    // An answer is stale; two calls are both first; a return is of no call; a process calls twice at once.
    let stale = [call(0, 5), answered(0, 0), call(1, 7), answered(1, 0)];
    let both = [call(0, 5), call(1, 7), answered(0, 0), answered(1, 0)];
    for history in [
        stale.as_slice(),
        &both,
        &[answered(0, 0)],
        &[call(0, 5), call(0, 7)],
    ] {
        assert!(rt;
            matches!(
                check(alloc, &register(), history, 100)?,
                Verdict::NotLinearizable
            )
        );
    }
    Ok(())
}

#[test]
fn given_up(rt: HostRuntime) -> Result<(), AllocError> {
    let alloc = rt.alloc();
    let both = [call(0, 5), call(1, 7), answered(0, 0), answered(1, 0)];
    assert!(rt; matches!(check(alloc, &register(), &both, 0)?, Verdict::GaveUp));
    assert!(rt;
        matches!(
            check(alloc, &register(), &[call(65536, 5)], 100)?,
            Verdict::GaveUp
        )
    );
    Ok(())
}

#[test]
fn orders(rt: HostRuntime) -> Result<(), AllocError> {
    let alloc = rt.alloc();
    let history = [
        call(0, 5),
        call(1, 7),
        answered(0, 7),
        answered(1, 0),
        call(2, 9),
    ];
    for order in [[1, 0].as_slice(), &[1, 0, 4]] {
        assert!(rt; check_order(alloc, &register(), &history, order)? == OrderVerdict::Right);
    }
    // Another order; a call that returned is left out, or stands twice; a place of a return, or of nothing.
    for order in [[0, 1].as_slice(), &[1], &[1, 1, 0], &[1, 0, 2], &[1, 0, 5]] {
        assert!(rt; check_order(alloc, &register(), &history, order)? == OrderVerdict::Wrong);
    }
    let many = [call(65536, 5)];
    assert!(rt; check_order(alloc, &register(), &many, &[0])? == OrderVerdict::TooManyProcesses);
    Ok(())
}
