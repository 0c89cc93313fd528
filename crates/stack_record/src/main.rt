//! A recorded stack: three calls, a trim, a call more, and an audit of all four. The program prints the
//! number of the trim's anchor, how many events are stored, and what the audit says.
#![tactic(auto)]

use stack::{Stack, StackInv};
use std::alloc::Global;
use std::io;
use universal::{Progress, Recorded, Verdict};

/// By so many steps each call of two processes has returned: 10 * 2 + 12.
const MOST_STEPS: u64 = 32;

/// Process `p` makes a call. `None` where it was refused.
fn call(stack: &mut Recorded<Stack>, alloc: Global, p: u64, inv: StackInv) -> Option<()> {
    stack.begin(alloc, p, &inv).ok()?;
    for _ in 0..MOST_STEPS {
        if let Progress::Done(_) = stack.step(alloc, p).ok()? {
            return Some(());
        }
    }
    None
}

/// Three calls, a trim and a call more: the number of the trim's anchor. `None` where one was refused.
fn calls(stack: &mut Recorded<Stack>, alloc: Global) -> Option<u64> {
    call(stack, alloc, 0, StackInv::Push(5))?;
    call(stack, alloc, 1, StackInv::Push(3))?;
    call(stack, alloc, 0, StackInv::Pop)?;
    let anchor = stack.trim(alloc).ok()?;
    call(stack, alloc, 1, StackInv::Pop)?;
    Some(anchor)
}

/// That number, how many events the record has, and what its audit says. `None` where memory was refused.
fn run(alloc: Global) -> Option<(u64, usize, Verdict)> {
    let mut stack = Recorded::open(alloc, Stack, 2, 8, 1000).ok()?;
    let anchor = calls(&mut stack, alloc)?;
    let verdict = stack.audit(alloc).ok()?;
    Some((anchor, stack.events().len(), verdict))
}

fn main(rt: HostRuntime) -> io::Result<()> {
    match run(rt.alloc()) {
        Some((anchor, events, verdict)) => {
            println!(rt;
                "the trim left number {anchor}\n{events} events\nthe audit says {verdict:?}"
            )
        }
        None => println!(rt; "out of memory"),
    }
}
