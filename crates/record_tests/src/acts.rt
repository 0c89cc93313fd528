//! What is done with a world of a register, and what has to come of it: the rows of which the tests of worlds and of
//! their logs are made.

ghost use Rattle.std.specs.Prelude.{◌≤◌};

use cell_arena::CellId;
use seq_object::{CallId, SwapRegister};
use std::alloc::{AllocError, Global};
use std::process::Abort;
use uni_core::{BeginFault, Place, Progress, StepKind, World};
use uni_log::Log;

/// What is done with a world, and what has to come of it.
#[derive(Clone, Copy)]
pub(crate) enum Act {
    /// A call begins, which asks for this.
    Begins(CallId, u32),
    /// This process's call isn't begun.
    NotBegun(u64, BeginFault),
    /// This process takes so many steps, after each of which its call goes on.
    Goes(u64, u64),
    /// This process takes steps to the end of its call, whose response is this.
    Ends(u64, u32),
    /// The era ends, for as many processes.
    Renews,
    /// The era ends, for this many processes.
    RenewsFor(u64),
    /// The world is as told.
    Shows(Fact),
}

/// What is read of a world.
#[derive(Clone, Copy)]
pub(crate) enum Fact {
    /// How many processes it has, and how many calls of each in an era.
    Size(u64, u64),
    /// The own steps and the turns of this process's latest call.
    Counts(u64, u64, u64),
    /// How many calls this process has begun.
    Begun(u64, u64),
    /// Among how many processes this process's latest call ran.
    Among(u64, u64),
    /// The pending call of this process.
    Current(u64, Option<CallId>),
    /// The kind and the place of this process's next step.
    Next(u64, Option<(StepKind, Place)>),
    /// The numbers of the heads of processes 0 and 1, and the frontier.
    Heads(u64, u64, u64),
    /// The least process whose call is pending.
    Pending(Option<u64>),
    /// The last cell, and its call.
    Last(CellId, Option<CallId>),
    /// The number of the last cell.
    LastSeq(u64),
    /// The cell of a call.
    CellOf(CallId, Option<CellId>),
    /// The log has one entry, with this number, call and response.
    OneEntry(u64, CallId, u32),
    /// The place of a call in the log.
    PlaceOf(CallId, Option<u64>),
    /// The state that is settled at a place of the log.
    State(u64, Option<u32>),
    /// The index of the cell that is so many cells after the anchor, and of the one as many before the
    /// last.
    Cells(u64, Option<u32>, Option<u32>),
}

/// The name of a call.
pub(crate) fn call(process: u32, nth: u64) -> CallId {
    CallId { process, nth }
}

/// Whether a process takes so many steps, after each of which its call goes on.
pub(crate) fn goes(alloc: Global, world: &mut World<SwapRegister>, p: u64, count: u64) -> bool {
    for _ in 0..count {
        let Ok(Progress::Going) = world.step(alloc, p) else {
            return false;
        };
    }
    true
}

/// Takes steps of a process to the end of its call, and answers the response.
fn finishes(alloc: Global, world: &mut World<SwapRegister>, p: u64) -> Option<u32> {
    for _ in 0..200 {
        match world.step(alloc, p) {
            Ok(Progress::Going) => {}
            Ok(Progress::Done(response)) => return Some(response),
            Err(_) => return None,
        }
    }
    None
}

/// Whether an era ends in a world where its numbers are low, for so many processes, or as many as
/// before.
fn renews(alloc: Global, world: &mut World<SwapRegister>, m: Option<u64>) -> bool {
    world.shape();
    let processes = m.unwrap_or(world.processes());
    let fits = processes >= 1
        && processes <= 64
        && world.seq(world.last()) <= 281_474_976_710_655 - processes * world.row();
    if !fits || world.pending().is_some() {
        return false;
    }
    match m {
        Some(m) => world.renew_for(alloc, m).is_ok(),
        None => {
            world.renew();
            true
        }
    }
}

/// The kind and the place of a process's next step.
pub(crate) fn next(world: &World<SwapRegister>, p: u64) -> Option<(StepKind, Place)> {
    if p >= world.processes() {
        return None;
    }
    match (world.next_kind(p), world.next_place(p)) {
        (Some(kind), Some(place)) => Some((kind, place)),
        _ => None,
    }
}

/// Whether this is the last cell, with this call.
fn has_last(world: &World<SwapRegister>, cell: CellId, call: Option<CallId>) -> bool {
    let last = world.last();
    last == cell && world.call_of(last) == call
}

/// Whether the world shows this of a process.
fn shows_of(world: &World<SwapRegister>, fact: &Fact) -> bool {
    let n = world.processes();
    match *fact {
        Fact::Counts(p, steps, turns) => p < n
            && world.steps(p) == steps
            && world.turns(p) == turns,
        Fact::Begun(p, begun) => p < n && world.begun(p) == begun,
        Fact::Among(p, among) => p < n && world.among(p) == among,
        Fact::Current(p, current) => p < n && world.current(p) == current,
        Fact::Heads(first, second, frontier) => {
            n >= 2
                && world.head_seq(0) == first
                && world.head_seq(1) == second
                && world.frontier() == frontier
        }
        _ => false,
    }
}

/// Whether the log has one entry, with this number, call and response.
fn has_one_entry(
    alloc: Global,
    log: &Log<'_, SwapRegister>,
    seq: u64,
    call: CallId,
    reply: u32,
) -> bool {
    let Ok(entries) = log.entries(alloc) else {
        return false;
    };
    match entries.as_slice() {
        [entry] => entry.seq == seq && entry.call == call && entry.reply == Some(reply),
        _ => false,
    }
}

/// Whether the cell at a place has this index; `None` where there is none there.
fn is_at(cells: Result<Vec<CellId>, AllocError>, place: u64, index: Option<u32>) -> bool {
    let Ok(cells) = cells else {
        return false;
    };
    match cells.get(place as usize) {
        Some(cell) => Some(cell.index()) == index,
        None => index.is_none(),
    }
}

/// Whether the cells forward from the anchor, and those back from the last one, which has a number,
/// have these indices at a place.
fn has_cells(
    alloc: Global,
    world: &World<SwapRegister>,
    place: u64,
    forward: Option<u32>,
    back: Option<u32>,
) -> bool {
    let last = world.last();
    world.seq(last) >= 1
        && is_at(Log::of(world).cells_forward(alloc), place, forward)
        && is_at(Log::of(world).cells_back(alloc, last), place, back)
}

/// Whether the log of a world shows this.
fn shows_log(alloc: Global, world: &World<SwapRegister>, fact: &Fact) -> bool {
    let log = Log::of(world);
    match *fact {
        Fact::OneEntry(seq, call, reply) => has_one_entry(alloc, &log, seq, call, reply),
        Fact::PlaceOf(call, place) => log.place_of(call) == place,
        Fact::State(place, state) => log.state_at(place).copied() == state,
        Fact::Cells(place, forward, back) => has_cells(alloc, world, place, forward, back),
        _ => false,
    }
}

/// Whether the world shows this.
fn shows(alloc: Global, world: &World<SwapRegister>, fact: &Fact) -> bool {
    match *fact {
        Fact::Size(n, k) => world.processes() == n && world.row() == k,
        Fact::Next(p, step) => next(world, p) == step,
        Fact::Pending(p) => world.pending() == p,
        Fact::Last(cell, call) => has_last(world, cell, call),
        Fact::LastSeq(seq) => world.seq(world.last()) == seq,
        Fact::CellOf(call, cell) => world.cell_of(call) == cell,
        _ => shows_of(world, fact) || shows_log(alloc, world, fact),
    }
}

/// Whether the world does as it should.
fn does(alloc: Global, world: &mut World<SwapRegister>, act: &Act) -> bool {
    match act {
        Act::Begins(call, inv) => world.begin(alloc, u64::from(call.process), inv) == Ok(*call),
        Act::NotBegun(p, fault) => world.begin(alloc, *p, &5) == Err(*fault),
        Act::Goes(p, count) => goes(alloc, world, *p, *count),
        Act::Ends(p, response) => finishes(alloc, world, *p) == Some(*response),
        Act::Renews => renews(alloc, world, None),
        Act::RenewsFor(m) => renews(alloc, world, Some(*m)),
        Act::Shows(fact) => shows(alloc, world, fact),
    }
}

/// Does these with a world, one after the other.
pub(crate) fn does_all(
    rt: &impl Abort,
    alloc: Global,
    world: &mut World<SwapRegister>,
    acts: &[Act],
) {
    for (at, act) in acts.iter().enumerate() {
        assert!(rt; does(alloc, world, act), "at act {at}");
    }
}

/// A world of so many processes with rows of so many cells.
pub(crate) fn opened(rt: &impl Abort, alloc: Global, n: u64, k: u64) -> World<SwapRegister> {
    let Ok(world) = World::open(alloc, SwapRegister { start: 0 }, n, k) else {
        panic!(rt; "no world was opened")
    };
    world
}

/// The same, with this start state and this number of the anchor.
pub(crate) fn opened_at(
    rt: &impl Abort,
    alloc: Global,
    n: u64,
    k: u64,
    state: u32,
    seq: u64,
) -> World<SwapRegister>
    requires { 1 ≤ seq }
{
    let Ok(world) = World::open_at(alloc, SwapRegister { start: 0 }, n, k, state, seq) else {
        panic!(rt; "no world was opened")
    };
    world
}

/// Does these, one after the other, with a new world, which `opened` opens.
pub(crate) fn plays(rt: &impl Abort, alloc: Global, n: u64, k: u64, acts: &[Act]) {
    does_all(rt, alloc, &mut opened(rt, alloc, n, k), acts);
}
