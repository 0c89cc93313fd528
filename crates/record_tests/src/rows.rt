//! Two rows of the worked table through lists of commands, of a world and of a record: a stopped process is helped,
//! and a call that is in the list has no reply yet.

use crate::acts::call;
use crate::records::{entries_of, record_of_queue};
use crate::seat_calls::enq;
use ready_objects::{QueueInv, QueueObject, QueueResp};
use seq_object::CallId;
use std::alloc::{AllocError, Global};
use std::process::Abort;
use std::test::Fail;
use uni_core::{Command, Outcome, World};
use uni_log::{Entry, Log};
use uni_record::{Command as RecordCommand, Outcome as RecordOutcome, Recorded};

/// An entry of a log: its number, its call, and its reply where that is settled.
type Row = (u64, CallId, Option<QueueResp>);

/// A world of a queue of so many processes, with rows of eight calls.
fn world_of_queue(rt: &impl Abort, alloc: Global, n: u64) -> World<QueueObject> {
    let Ok(world) = World::open(alloc, QueueObject, n, 8) else {
        panic!(rt; "no world was opened")
    };
    world
}

/// Entries are these.
fn are(rt: &impl Abort, entries: &[Entry<QueueInv, QueueResp>], rows: &[Row]) {
    assert!(rt; entries.len() == rows.len(), "other entries");
    for (entry, row) in entries.iter().zip(rows) {
        assert!(rt;
            (entry.seq, entry.call, entry.reply) == *row,
            "another entry"
        );
    }
}

/// The numbers of the heads are these, by process.
fn heads_are(rt: &impl Abort, world: &World<QueueObject>, heads: &[u64]) {
    for (p, seq) in heads.iter().enumerate() {
        let p = p as u64;
        assert!(rt;
            p < world.processes() && world.head_seq(p) == *seq,
            "another head"
        );
    }
}

/// A world has this log.
fn has_log(rt: &impl Abort, alloc: Global, world: &World<QueueObject>, rows: &[Row]) {
    let Ok(entries) = Log::of(world).entries(alloc) else {
        panic!(rt; "out of memory")
    };
    are(rt, &entries, rows);
}

/// Process `p` calls with a number, and takes so many steps.
fn call_and_steps(
    alloc: Global,
    p: u64,
    number: u32,
    steps: u64,
) -> Result<Vec<Command<QueueInv>>, AllocError> {
    let mut commands = Vec::new(alloc);
    commands.push(Command::Call(p, enq(number)))?;
    for _ in 0..steps {
        commands.push(Command::Step(p))?;
    }
    Ok(commands)
}

/// What `a_stopped_process_is_helped_in_a_world` looks at.
fn is_helped_in_a_world(
    rt: &impl Abort,
    alloc: Global,
    world: &mut World<QueueObject>,
) -> Result<(), AllocError> {
    let stopped = world.run(alloc, &call_and_steps(alloc, 1, 5, 1)?)?;
    assert!(rt; stopped.as_slice() == [Outcome::Called(call(1, 0)), Outcome::Went].as_slice());
    let helps = world.run(alloc, &call_and_steps(alloc, 0, 6, 24)?)?;
    assert!(rt; helps.len() == 25);
    assert!(rt; helps.get(23) == Some(&Outcome::Went));
    assert!(rt; helps.get(24) == Some(&Outcome::Returned(call(0, 0), QueueResp::Added)));
    heads_are(rt, world, &[3, 1]);
    let added = Some(QueueResp::Added);
    has_log(
        rt,
        alloc,
        world,
        &[(2, call(1, 0), added), (3, call(0, 0), added)],
    );
    Ok(())
}

#[test]
fn a_stopped_process_is_helped_in_a_world(rt: HostRuntime) -> Result<(), Fail> {
    let mut world = world_of_queue(&rt, rt.alloc(), 2);
    is_helped_in_a_world(&rt, rt.alloc(), &mut world)?;
    Ok(())
}

/// What `a_call_in_the_list_has_no_reply_yet` looks at.
fn has_no_reply_yet(
    rt: &impl Abort,
    alloc: Global,
    world: &mut World<QueueObject>,
) -> Result<(), AllocError> {
    let linked = world.run(alloc, &call_and_steps(alloc, 0, 7, 8)?)?;
    assert!(rt; linked.len() == 9 && linked.get(8) == Some(&Outcome::Went));
    has_log(rt, alloc, world, &[(2, call(0, 0), None)]);
    let settled = world.run(alloc, &[Command::Step(0)])?;
    assert!(rt; settled.as_slice() == [Outcome::Went].as_slice());
    has_log(rt, alloc, world, &[(2, call(0, 0), Some(QueueResp::Added))]);
    heads_are(rt, world, &[1]);
    Ok(())
}

#[test]
fn a_call_in_the_list_has_no_reply_yet(rt: HostRuntime) -> Result<(), Fail> {
    let mut world = world_of_queue(&rt, rt.alloc(), 1);
    has_no_reply_yet(&rt, rt.alloc(), &mut world)?;
    Ok(())
}

/// The commands of the row in which a stopped process is helped.
fn commands_with_help(alloc: Global) -> Result<Vec<RecordCommand<QueueInv>>, AllocError> {
    let mut commands = Vec::new(alloc);
    commands.push(RecordCommand::Call(1, enq(5)))?;
    commands.push(RecordCommand::Step(1))?;
    commands.push(RecordCommand::Call(0, enq(6)))?;
    for _ in 0..24 {
        commands.push(RecordCommand::Step(0))?;
    }
    Ok(commands)
}

/// What `a_stopped_process_is_helped_in_a_record` looks at.
fn is_helped_in_a_record(
    rt: &impl Abort,
    alloc: Global,
    recorded: &mut Recorded<QueueObject>,
) -> Result<(), AllocError> {
    let outcomes = recorded.run(alloc, &commands_with_help(alloc)?)?;
    assert!(rt; outcomes.len() == 27 && recorded.events().len() == 27);
    assert!(rt; outcomes.get(26) == Some(&RecordOutcome::Returned(call(0, 0), QueueResp::Added)));
    heads_are(rt, recorded.world(), &[3, 1]);
    let added = Some(QueueResp::Added);
    are(
        rt,
        &entries_of(rt, alloc, recorded),
        &[(2, call(1, 0), added), (3, call(0, 0), added)],
    );
    Ok(())
}

#[test]
fn a_stopped_process_is_helped_in_a_record(rt: HostRuntime) -> Result<(), Fail> {
    let mut recorded = record_of_queue(&rt, rt.alloc(), 2, 8, 1000);
    is_helped_in_a_record(&rt, rt.alloc(), &mut recorded)?;
    Ok(())
}
