//! An object that is refused memory at one of its requests: the call that meets the refusal answers it
//! and changes nothing, and asked again it goes on as without it.

ghost use Rattle.std.specs.Prelude.{◌≡◌, IfOk, nat_eq};
ghost use Rattle.std.specs.Cmp.{nat_eq_equiv, partial_equiv_from_equiv};
ghost use Rattle.seq_object.specs.Exact.{nat_eq_exact};
ghost use Rattle.seq_object.specs.SwapRegister.{swap_register};

use seq_object::SeqObject;
use std::alloc::{AllocError, Global};
use std::cell::Cell;
use std::marker::Model;
use std::process::Abort;
use std::test::Fail;
use uni_core::{BeginFault, OpenFault, Place, Progress, StepFault, World};
use uni_log::{Entry, Log};
use uni_record::{
    Counts, RecordBeginFault, RecordOpenFault, RecordReshapeFault, RecordStepFault,
    RecordTrimFault, Recorded, Verdict, audit,
};

/// Counts a request for memory down, and refuses the one that finds nothing left.
fn request(granted: &Cell<u64>) -> Result<(), AllocError> {
    let left = granted.get();
    granted.set(left.wrapping_sub(1));
    if left == 0 { Err(AllocError) } else { Ok(()) }
}

/// What a call asks for, whose copies are requests too. Its meaning and `==` ignore the counter.
#[derive(Drop)]
pub(crate) struct Asked<'a> {
    number: u32,
    granted: &'a Cell<u64>,
}

impl<'a> Model for Asked<'a> {
    ghost use Rattle.std.specs.Prelude.{ℕ};

    ghost Value = { ℕ };

    ghost view = { λ asked. asked.number };
}

impl Asked<'_> {
    /// One that asks for this number.
    pub(crate) fn new(number: u32, granted: &Cell<u64>) -> Asked<'_> {
        Asked { number, granted }
    }
}

impl PartialEq for Asked<'_> {
    ghost eq = { nat_eq };

    ghost laws = { partial_equiv_from_equiv nat_eq_equiv };

    fn eq(&self, other: &Asked<'_>) -> bool {
        self.number == other.number
    }
}

impl Eq for Asked<'_> {
    ghost laws = { nat_eq_equiv };
}

/// A register that answers the number before, at first 9. One request for memory is refused: for a
/// start state, a next one, or a copy of what a call asks for.
#[derive(Drop)]
pub(crate) struct Scarce<'a> {
    /// How many requests are granted before the one that is refused.
    pub(crate) granted: &'a Cell<u64>,
}

impl<'a> SeqObject for Scarce<'a> {
    type State = u32;

    type Inv = Asked<'a>;

    type Resp = u32;

    ghost sequential = { λ _. swap_register 9 };

    ghost same_inv = { nat_eq_exact };

    ghost same_resp = { nat_eq_exact };

    fn start(&self, _alloc: Global) -> Result<u32, AllocError> {
        request(self.granted)?;
        Ok(9)
    }

    fn apply(
        &self,
        _alloc: Global,
        before: &u32,
        asked: &Asked<'a>,
    ) -> Result<(u32, u32), AllocError> {
        request(self.granted)?;
        Ok((asked.number, *before))
    }

    fn copy_inv(_alloc: Global, asked: &Asked<'a>) -> Result<Asked<'a>, AllocError>
        ensures { IfOk result (λ copy. copy ≡ asked.now) }
    {
        request(asked.granted)?;
        Ok(Asked {
            number: asked.number,
            granted: asked.granted,
        })
    }
}

/// Asserts that the requests were so many where none was refused, and more where one was, since it was
/// asked again.
pub(crate) fn were_made(rt: &impl Abort, granted: &Cell<u64>, refused: u64, requests: u64) {
    assert!(rt; (granted.get() == 0) == (refused == requests), "{refused}");
}

/// A world of two processes; asked again where its start state was refused.
fn world(alloc: Global, granted: &Cell<u64>) -> Result<World<Scarce<'_>>, Fail> {
    match World::open(alloc, Scarce { granted }, 2, 8) {
        Ok(world) => return Ok(world),
        Err(OpenFault::Memory) => {}
        Err(_) => return Err(Fail::from("only memory should be refused")),
    }
    match World::open(alloc, Scarce { granted }, 2, 8) {
        Ok(opened) => Ok(opened),
        Err(_) => Err(Fail::from("asked again, a world should be opened")),
    }
}

/// The calls, the own steps, the turns and the next place of a process, where there is one.
fn standing(world: &World<Scarce<'_>>, p: u64) -> Option<(u64, u64, u64, Option<Place>)> {
    if p < world.processes() {
        Some((
            world.begun(p),
            world.steps(p),
            world.turns(p),
            world.next_place(p),
        ))
    } else {
        None
    }
}

/// A process begins a call; asked again where it is refused memory, which changes nothing.
fn begins_once<'a>(
    alloc: Global,
    world: &mut World<Scarce<'a>>,
    p: u64,
    asked: &Asked<'a>,
) -> Result<(), Fail> {
    let before = standing(world, p);
    match world.begin(alloc, p, asked) {
        Ok(_) => return Ok(()),
        Err(BeginFault::Memory) if standing(world, p) == before => {}
        Err(_) => return Err(Fail::from("a refused call should change nothing")),
    }
    match world.begin(alloc, p, asked) {
        Ok(_) => Ok(()),
        Err(_) => Err(Fail::from("asked again, the call should begin")),
    }
}

/// A process takes a step; asked again where it is refused memory, which changes nothing.
fn steps_once(alloc: Global, world: &mut World<Scarce<'_>>, p: u64) -> Result<Progress<u32>, Fail> {
    let before = standing(world, p);
    match world.step(alloc, p) {
        Ok(progress) => return Ok(progress),
        Err(StepFault::Memory) if standing(world, p) == before => {}
        Err(_) => return Err(Fail::from("a refused step should change nothing")),
    }
    match world.step(alloc, p) {
        Ok(progress) => Ok(progress),
        Err(_) => Err(Fail::from("asked again, the step should be taken")),
    }
}

/// A process begins a call where there is an invocation, and takes so many steps. The answer is the
/// reply that the last one gives.
fn takes<'a>(
    alloc: Global,
    world: &mut World<Scarce<'a>>,
    p: u64,
    asked: Option<Asked<'a>>,
    count: u64,
) -> Result<Option<u32>, Fail> {
    if let Some(asked) = asked {
        begins_once(alloc, world, p, &asked)?;
    }
    let mut reply = None;
    for _ in 0..count {
        reply = match steps_once(alloc, world, p)? {
            Progress::Going => None,
            Progress::Done(number) => Some(number),
        };
    }
    Ok(reply)
}

/// An entry of a log: its number, its process and the call's number there, what it asks for, its reply.
type Row = (u64, u32, u64, u32, u32);

/// Asserts that entries are these.
fn are_entries<'a>(rt: &impl Abort, entries: &[Entry<Asked<'a>, u32>], want: &[Row]) {
    assert!(rt; entries.len() == want.len());
    for (entry, (seq, process, nth, number, reply)) in entries.iter().zip(want) {
        assert!(rt; entry.seq == *seq && entry.inv.number == *number, "{seq}");
        assert!(rt;
            entry.call.process == *process && entry.call.nth == *nth,
            "{seq}"
        );
        assert!(rt; entry.reply == Some(*reply), "{seq}");
    }
}

/// The steps of the run in which the bound is met exactly.
fn meets_the_bound<'a>(
    rt: &impl Abort,
    alloc: Global,
    world: &mut World<Scarce<'a>>,
    granted: &'a Cell<u64>,
) -> Result<(), Fail> {
    for (p, number, count, reply) in [
        (0, Some(10), 10, None),
        (1, Some(7), 14, None),
        (0, None, 6, Some(9)),
        (0, Some(20), 1, None),
        (1, None, 18, Some(20)),
    ] {
        let asked = number.map(|number| Asked::new(number, granted));
        assert!(rt; takes(alloc, world, p, asked, count)? == reply, "{p}");
    }
    assert!(rt; standing(world, 1) == Some((1, 32, 3, None)));
    Ok(())
}

/// The log after that run; asked again where a copy is refused.
fn has_its_log<'a>(
    rt: &impl Abort,
    alloc: Global,
    world: &World<Scarce<'a>>,
) -> Result<(), AllocError> {
    let entries = match Log::of(world).entries(alloc) {
        Ok(entries) => entries,
        Err(_) => Log::of(world).entries(alloc)?,
    };
    let want = [(2, 0, 0, 10, 9), (3, 0, 1, 20, 10), (4, 1, 0, 7, 20)];
    are_entries(rt, &entries, &want);
    Ok(())
}

#[test]
fn worlds_whose_object_is_refused(rt: HostRuntime) -> Result<(), Fail> {
    // The start state, a copy for each of three calls, their next states, and the copies of the log.
    for refused in 0..11 {
        let granted = Cell::new(refused);
        let mut world = world(rt.alloc(), &granted)?;
        meets_the_bound(&rt, rt.alloc(), &mut world, &granted)?;
        has_its_log(&rt, rt.alloc(), &world)?;
        were_made(&rt, &granted, refused, 10);
    }
    Ok(())
}

/// A record of two processes; asked again where its start state was refused.
fn record(alloc: Global, granted: &Cell<u64>) -> Result<Recorded<Scarce<'_>>, Fail> {
    match Recorded::open(alloc, Scarce { granted }, 2, 8, 1000) {
        Ok(recorded) => return Ok(recorded),
        Err(RecordOpenFault::Memory) => {}
        Err(_) => return Err(Fail::from("only memory should be refused")),
    }
    match Recorded::open(alloc, Scarce { granted }, 2, 8, 1000) {
        Ok(opened) => Ok(opened),
        Err(_) => Err(Fail::from("asked again, a record should be opened")),
    }
}

/// A process of a record begins a call; asked again where it is refused memory, which stores nothing.
fn stores_call<'a>(
    alloc: Global,
    recorded: &mut Recorded<Scarce<'a>>,
    p: u64,
    asked: &Asked<'a>,
) -> Result<(), Fail> {
    let before = recorded.events().len();
    match recorded.begin(alloc, p, asked) {
        Ok(_) => return Ok(()),
        Err(RecordBeginFault::Memory) if recorded.events().len() == before => {}
        Err(_) => return Err(Fail::from("a refused call should store nothing")),
    }
    match recorded.begin(alloc, p, asked) {
        Ok(_) => Ok(()),
        Err(_) => Err(Fail::from("asked again, the call should begin")),
    }
}

/// A process of a record takes a step; asked again where it is refused memory, which stores nothing.
fn stores_step(
    alloc: Global,
    recorded: &mut Recorded<Scarce<'_>>,
    p: u64,
) -> Result<Progress<u32>, Fail> {
    let before = recorded.events().len();
    match recorded.step(alloc, p) {
        Ok(progress) => return Ok(progress),
        Err(RecordStepFault::Memory) if recorded.events().len() == before => {}
        Err(_) => return Err(Fail::from("a refused step should store nothing")),
    }
    match recorded.step(alloc, p) {
        Ok(progress) => Ok(progress),
        Err(_) => Err(Fail::from("asked again, the step should be taken")),
    }
}

/// The same as `takes`, of a record.
fn stores<'a>(
    alloc: Global,
    recorded: &mut Recorded<Scarce<'a>>,
    p: u64,
    asked: Option<Asked<'a>>,
    count: u64,
) -> Result<Option<u32>, Fail> {
    if let Some(asked) = asked {
        stores_call(alloc, recorded, p, &asked)?;
    }
    let mut reply = None;
    for _ in 0..count {
        reply = match stores_step(alloc, recorded, p)? {
            Progress::Going => None,
            Progress::Done(number) => Some(number),
        };
    }
    Ok(reply)
}

/// What the end of an era answers; asked again where it is refused memory, which stores nothing.
fn trims(alloc: Global, recorded: &mut Recorded<Scarce<'_>>) -> Result<u64, RecordTrimFault> {
    let before = recorded.events().len();
    match recorded.trim(alloc) {
        Err(RecordTrimFault::Memory) if recorded.events().len() == before => recorded.trim(alloc),
        answer => answer,
    }
}

/// The same of an end of an era after which there are so many processes.
fn reshapes(
    alloc: Global,
    recorded: &mut Recorded<Scarce<'_>>,
    m: u64,
) -> Result<u64, RecordReshapeFault> {
    let before = recorded.events().len();
    match recorded.reshape(alloc, m) {
        Err(RecordReshapeFault::Memory) if recorded.events().len() == before => {
            recorded.reshape(alloc, m)
        }
        answer => answer,
    }
}

/// The steps of the run in which a stopped process is helped, the end of its era at last, a call more and
/// an era for three processes.
fn helps_and_ends<'a>(
    rt: &impl Abort,
    alloc: Global,
    recorded: &mut Recorded<Scarce<'a>>,
    granted: &'a Cell<u64>,
) -> Result<(), Fail> {
    let five = Some(Asked::new(5, granted));
    assert!(rt; stores(alloc, recorded, 1, five, 1)? == None);
    let six = Some(Asked::new(6, granted));
    assert!(rt; stores(alloc, recorded, 0, six, 24)? == Some(5));
    assert!(rt; trims(alloc, recorded) == Err(RecordTrimFault::Pending(1)));
    assert!(rt; stores(alloc, recorded, 1, None, 7)? == Some(9));
    assert!(rt; trims(alloc, recorded) == Ok(3));
    let eight = Some(Asked::new(8, granted));
    assert!(rt; stores(alloc, recorded, 0, eight, 16)? == Some(6));
    assert!(rt; reshapes(alloc, recorded, 3) == Ok(4));
    Ok(())
}

/// The own steps and turns of the calls of that run.
const HELPED_COUNTS: &[Counts] = &[
    Counts {
        steps: 24,
        turns: 2,
    },
    Counts { steps: 8, turns: 0 },
    Counts {
        steps: 16,
        turns: 1,
    },
];

/// That run, where one request is refused.
fn helped_is_recorded<'a>(
    rt: &impl Abort,
    alloc: Global,
    granted: &'a Cell<u64>,
) -> Result<Recorded<Scarce<'a>>, Fail> {
    let mut recorded = record(alloc, granted)?;
    helps_and_ends(rt, alloc, &mut recorded, granted)?;
    assert!(rt; recorded.counts() == HELPED_COUNTS, "other counts");
    Ok(recorded)
}

/// The entries after that run; asked again where a copy is refused.
fn has_helped_entries<'a>(
    rt: &impl Abort,
    alloc: Global,
    recorded: &Recorded<Scarce<'a>>,
) -> Result<(), AllocError> {
    let entries = match recorded.entries(alloc) {
        Ok(entries) => entries,
        Err(_) => recorded.entries(alloc)?,
    };
    let want = [(2, 1, 0, 5, 9), (3, 0, 0, 6, 5), (4, 0, 1, 8, 6)];
    are_entries(rt, &entries, &want);
    Ok(())
}

#[test]
fn records_whose_object_is_refused(rt: HostRuntime) -> Result<(), Fail> {
    // The start state, two copies for each of three calls, their next states, and the copies of the
    // entries, two and one where an era ends, and all three at last.
    for refused in 0..17 {
        let granted = Cell::new(refused);
        let recorded = helped_is_recorded(&rt, rt.alloc(), &granted)?;
        has_helped_entries(&rt, rt.alloc(), &recorded)?;
        were_made(&rt, &granted, refused, 16);
    }
    Ok(())
}

/// An audit of four requests, one of which is refused, answers so, and agrees when it is asked again.
fn agrees_again<'a>(
    rt: &impl Abort,
    alloc: Global,
    recorded: &Recorded<Scarce<'a>>,
    entries: &[Entry<Asked<'a>, u32>],
    refused: u64,
) {
    let object = recorded.world().object();
    let want = if refused < 4 {
        Err(AllocError)
    } else {
        Ok(Verdict::Agrees)
    };
    object.granted.set(refused);
    let told = audit(alloc, object, entries, recorded.returns());
    assert!(rt; told == want, "{refused}");
    object.granted.set(4);
    let again = audit(alloc, object, entries, recorded.returns());
    assert!(rt; again == Ok(Verdict::Agrees), "{refused}");
}

#[test]
fn audits_whose_object_is_refused(rt: HostRuntime) -> Result<(), Fail> {
    let granted = Cell::new(16);
    let recorded = helped_is_recorded(&rt, rt.alloc(), &granted)?;
    let entries = recorded.entries(rt.alloc())?;
    for refused in 0..5 {
        agrees_again(&rt, rt.alloc(), &recorded, &entries, refused);
    }
    Ok(())
}
