//! A stack that two processes share, step by step. Process 1 announces a push and stops; process 0 makes
//! a call of its own, and does the other one's on the way. The program prints the log.
#![tactic(auto)]

use stack::{Stack, StackInv, StackResp};
use std::alloc::Global;
use std::io;
use uni_core::{Progress, World};
use uni_log::{Entry, Log};

/// By so many steps each call of two processes has returned: 10 * 2 + 12.
const MOST_STEPS: u64 = 32;

/// Process `p` takes steps until its call has returned: its response. `None` where a step was refused.
fn finish(world: &mut World<Stack>, alloc: Global, p: u64) -> Option<StackResp> {
    for _ in 0..MOST_STEPS {
        if let Progress::Done(reply) = world.step(alloc, p).ok()? {
            return Some(reply);
        }
    }
    None
}

/// The log after the run. `None` where memory was refused.
fn log_of_run(alloc: Global) -> Option<Vec<Entry<StackInv, StackResp>>> {
    let mut world = World::open(alloc, Stack, 2, 8).ok()?;
    world.begin(alloc, 1, &StackInv::Push(5)).ok()?;
    world.step(alloc, 1).ok()?;
    world.begin(alloc, 0, &StackInv::Pop).ok()?;
    finish(&mut world, alloc, 0)?;
    Log::of(&world).entries(alloc).ok()
}

fn main(rt: HostRuntime) -> io::Result<()> {
    let Some(entries) = log_of_run(rt.alloc()) else {
        return println!(rt; "out of memory");
    };
    for entry in &entries {
        println!(rt;
            "{} {} {:?} -> {:?}",
            entry.seq, entry.call, entry.inv, entry.reply
        )?;
    }
    Ok(())
}
