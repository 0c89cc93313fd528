//! Worlds, where no script says it: which are opened, the kind and the place of each step, what a world shows, what it
//! answers to commands, and numbers up to the greatest.

ghost use Rattle.std.specs.Prelude.{◌≤◌};

use crate::acts::{Act, Fact, call, does_all, goes, next, opened, opened_at, plays};
use cell_arena::CellId;
use seq_object::SwapRegister;
use std::alloc::Global;
use std::process::Abort;
use uni_core::{
    BeginFault, Command, OpenFault, Outcome, Place, Refusal, ReshapeFault, StepKind, TrimFault,
    World, reshape, trim,
};

/// Why no world is opened from this number, if none is.
fn refused_at(alloc: Global, n: u64, k: u64, seq: u64) -> Option<OpenFault>
    requires { 1 ≤ seq }
{
    World::open_at(alloc, SwapRegister { start: 0 }, n, k, 5, seq).err()
}

#[test]
fn what_cannot_be_opened_is_refused_in_order(rt: HostRuntime) {
    let alloc = rt.alloc();
    for (n, k, fault) in [
        (0, 0, OpenFault::BadCount),
        (65, 8, OpenFault::BadCount),
        (2, 0, OpenFault::BadRow),
        (2, 4097, OpenFault::BadRow),
    ] {
        let refused = World::open(alloc, SwapRegister { start: 0 }, n, k).err();
        assert!(rt; refused == Some(fault), "{n} processes with rows of {k}");
    }
    let full = Some(OpenFault::SeqFull);
    assert!(rt; refused_at(alloc, 1, 1, 281_474_976_710_655) == full);
    assert!(rt; refused_at(alloc, 2, 4, 281_474_976_710_648) == full);
    assert!(rt; refused_at(alloc, 2, 4, 281_474_976_710_647).is_none());
}

/// A process takes steps of these kinds, at these places.
fn steps_are(
    rt: &impl Abort,
    alloc: Global,
    world: &mut World<SwapRegister>,
    p: u64,
    steps: &[(StepKind, Place)],
) {
    for step in steps {
        assert!(rt; next(world, p) == Some(*step), "before {step:?}");
        assert!(rt; goes(alloc, world, p, 1), "after {step:?}");
    }
}

#[test]
fn each_step_has_its_kind_and_place(rt: HostRuntime) {
    let mut world = opened(&rt, rt.alloc(), 1, 8);
    let before = [Act::Shows(Fact::Next(0, None)), Act::Begins(call(0, 0), 7)];
    does_all(&rt, rt.alloc(), &mut world, &before);
    let anchor = CellId::anchor();
    let mine = CellId::of(1, 0, 0);
    let steps = [
        (StepKind::Announce, Place::Announced(0)),
        (StepKind::ScanHead, Place::HeadOf(0)),
        (StepKind::ScanSeq, Place::SeqOf(anchor)),
        (StepKind::WriteScan, Place::HeadOf(0)),
        (StepKind::Test, Place::SeqOf(mine)),
        (StepKind::ReadAnnounce, Place::Announced(0)),
        (StepKind::ReadHelpSeq, Place::SeqOf(mine)),
        (StepKind::DecideAfter, Place::AfterOf(anchor)),
        (StepKind::DecideNew, Place::NewOf(mine)),
        (StepKind::WriteBefore, Place::BeforeOf(mine)),
        (StepKind::WriteSeq, Place::SeqOf(mine)),
        (StepKind::WriteHead, Place::HeadOf(0)),
        (StepKind::Test, Place::SeqOf(mine)),
    ];
    steps_are(&rt, rt.alloc(), &mut world, 0, &steps);
    let after = [
        Act::Shows(Fact::Next(0, Some((StepKind::Finish, Place::HeadOf(0))))),
        Act::Ends(0, 0),
        Act::Shows(Fact::Next(0, None)),
    ];
    does_all(&rt, rt.alloc(), &mut world, &after);
}

#[test]
fn a_world_shows_its_list(rt: HostRuntime) {
    let mine = CellId::of(2, 1, 0);
    let acts = [
        Act::Shows(Fact::Pending(None)),
        Act::Shows(Fact::Last(CellId::anchor(), None)),
        Act::Begins(call(1, 0), 5),
        Act::Shows(Fact::Pending(Some(1))),
        Act::Shows(Fact::Current(1, Some(call(1, 0)))),
        Act::Shows(Fact::Last(CellId::anchor(), None)),
        Act::Ends(1, 0),
        Act::Shows(Fact::Pending(None)),
        Act::Shows(Fact::Current(1, None)),
        Act::Shows(Fact::Last(mine, Some(call(1, 0)))),
        Act::Shows(Fact::LastSeq(2)),
        Act::Shows(Fact::CellOf(call(1, 0), Some(mine))),
        Act::Shows(Fact::CellOf(call(1, 1), None)),
        Act::Shows(Fact::CellOf(call(2, 0), None)),
    ];
    plays(&rt, rt.alloc(), 2, 8, &acts);
}

/// Whether a world that is given these commands answers these.
fn answers(
    alloc: Global,
    world: &mut World<SwapRegister>,
    commands: &[Command<u32>],
    told: &[Outcome<u32>],
) -> bool {
    match world.run(alloc, commands) {
        Ok(outcomes) => outcomes.as_slice() == told,
        Err(_) => false,
    }
}

/// What `a_run_passes_over_what_is_refused` looks at.
fn a_run_passes_over_what_is_refused_in(
    rt: &impl Abort,
    alloc: Global,
    world: &mut World<SwapRegister>,
) {
    let begun = [
        Command::Step(1),
        Command::Step(9),
        Command::Call(9, 5),
        Command::Call(0, 5),
        Command::Call(0, 5),
    ];
    let told = [
        Outcome::Refused(Refusal::Idle(1)),
        Outcome::Refused(Refusal::BadProcess),
        Outcome::Refused(Refusal::BadProcess),
        Outcome::Called(call(0, 0)),
        Outcome::Refused(Refusal::Busy(0)),
    ];
    assert!(rt; answers(alloc, world, &begun, &told));
    assert!(rt; goes(alloc, world, 0, 14));
    let ended = [
        Command::Step(0),
        Command::Step(0),
        Command::Step(0),
        Command::Call(0, 5),
    ];
    let told = [
        Outcome::Went,
        Outcome::Returned(call(0, 0), 0),
        Outcome::Refused(Refusal::Idle(0)),
        Outcome::Refused(Refusal::RowFull(0)),
    ];
    assert!(rt; answers(alloc, world, &ended, &told));
}

#[test]
fn a_run_passes_over_what_is_refused(rt: HostRuntime) {
    let mut world = opened(&rt, rt.alloc(), 2, 1);
    a_run_passes_over_what_is_refused_in(&rt, rt.alloc(), &mut world);
}

#[test]
fn an_era_ends(rt: HostRuntime) {
    let acts = [
        Act::Shows(Fact::Among(1, 0)),
        Act::Begins(call(1, 0), 5),
        Act::Shows(Fact::Among(0, 0)),
        Act::Shows(Fact::Among(1, 2)),
        Act::Ends(1, 0),
        Act::Renews,
        Act::Shows(Fact::Heads(2, 2, 2)),
        Act::Shows(Fact::Last(CellId::anchor(), None)),
        Act::Shows(Fact::Begun(1, 1)),
        Act::Shows(Fact::CellOf(call(1, 0), None)),
        Act::Begins(call(1, 1), 6),
        Act::Shows(Fact::CellOf(call(1, 1), Some(CellId::of(2, 1, 0)))),
        Act::Ends(1, 5),
        Act::Shows(Fact::Last(CellId::of(2, 1, 0), Some(call(1, 1)))),
        Act::Shows(Fact::LastSeq(3)),
    ];
    plays(&rt, rt.alloc(), 2, 8, &acts);
}

#[test]
fn an_era_ends_for_others(rt: HostRuntime) {
    let acts = [
        Act::Begins(call(1, 0), 5),
        Act::Ends(1, 0),
        Act::RenewsFor(3),
        Act::Shows(Fact::Size(3, 8)),
        Act::Shows(Fact::Heads(2, 2, 2)),
        Act::Shows(Fact::Counts(1, 16, 1)),
        Act::Shows(Fact::Among(1, 2)),
        Act::Begins(call(2, 0), 6),
        Act::Ends(2, 5),
        Act::Shows(Fact::Counts(2, 18, 1)),
        Act::Shows(Fact::Among(2, 3)),
        Act::RenewsFor(1),
        Act::NotBegun(1, BeginFault::BadProcess),
        Act::RenewsFor(2),
        Act::Begins(call(1, 1), 7),
    ];
    plays(&rt, rt.alloc(), 2, 8, &acts);
}

/// What `numbers_that_would_pass_the_greatest_are_refused` looks at.
fn numbers_that_would_pass_the_greatest_are_refused_in(
    rt: &impl Abort,
    alloc: Global,
    world: &mut World<SwapRegister>,
) {
    does_all(
        rt,
        alloc,
        world,
        &[Act::Begins(call(0, 0), 9), Act::Ends(0, 5)],
    );
    assert!(rt; trim(world) == Err(TrimFault::SeqFull));
    assert!(rt; reshape(alloc, world, 2) == Err(ReshapeFault::SeqFull));
    assert!(rt; world.pending().is_none());
    assert!(rt; world.last() == CellId::of(2, 0, 0));
    assert!(rt; reshape(alloc, world, 1) == Ok(281_474_976_710_648));
}

#[test]
fn numbers_that_would_pass_the_greatest_are_refused(rt: HostRuntime) {
    let mut world = opened_at(&rt, rt.alloc(), 2, 4, 5, 281_474_976_710_647);
    numbers_that_would_pass_the_greatest_are_refused_in(&rt, rt.alloc(), &mut world);
}
