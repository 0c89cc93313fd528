//! An object that is refused memory at one of its requests: the call that meets the refusal is pending then, and
//! resumed it goes on as without it.

ghost use Rattle.std.specs.Prelude.{◌≡◌, IfOk, All, nat_eq};
ghost use Rattle.std.specs.Cmp.{nat_eq_equiv, partial_equiv_from_equiv};
ghost use Rattle.seq_object.specs.Exact.{nat_eq_exact};
ghost use Rattle.seq_object.specs.SwapRegister.{swap_register};
ghost use Rattle.uni_any.specs.Seats.{IsSeatOf};

use crate::seats::{last_two, opened};
use seq_object::SeqObject;
use std::alloc::{AllocError, Global};
use std::cell::Cell;
use std::marker::Model;
use std::process::Abort;
use uni_any::{AnyAnswer, AnyFault, AnyOpenFault, AnyResumeFault, AnySeat, AnyShared, CallPending};

/// What a call asks for.
#[derive(Drop)]
pub(crate) struct Asked {
    number: u32,
}

impl Model for Asked {
    ghost use Rattle.std.specs.Prelude.{ℕ};

    ghost Value = { ℕ };

    ghost view = { λ asked. asked.number };
}

impl PartialEq for Asked {
    ghost eq = { nat_eq };

    ghost laws = { partial_equiv_from_equiv nat_eq_equiv };

    fn eq(&self, other: &Asked) -> bool {
        self.number == other.number
    }
}

impl Eq for Asked {
    ghost laws = { nat_eq_equiv };
}

/// A register that answers the number before, at first 9. One request for memory is refused: for a start state or
/// a next one.
#[derive(Drop)]
pub(crate) struct Scarce<'a> {
    /// How many requests are granted before the one that is refused.
    granted: &'a Cell<u64>,
}

impl Scarce<'_> {
    /// Counts a request for memory down, and refuses the one that finds nothing left.
    fn request(&self) -> Result<(), AllocError> {
        let left = self.granted.get();
        self.granted.set(left.wrapping_sub(1));
        if left == 0 { Err(AllocError) } else { Ok(()) }
    }
}

impl<'a> SeqObject for Scarce<'a> {
    type State = u32;

    type Inv = Asked;

    type Resp = u32;

    ghost sequential = { λ _. swap_register 9 };

    ghost same_inv = { nat_eq_exact };

    ghost same_resp = { nat_eq_exact };

    fn start(&self, _alloc: Global) -> Result<u32, AllocError> {
        self.request()?;
        Ok(9)
    }

    fn apply(&self, _alloc: Global, before: &u32, asked: &Asked) -> Result<(u32, u32), AllocError> {
        self.request()?;
        Ok((asked.number, *before))
    }

    fn copy_inv(_alloc: Global, asked: &Asked) -> Result<Asked, AllocError>
        ensures { IfOk result (λ copy. copy ≡ asked.now) }
    {
        Ok(Asked {
            number: asked.number,
        })
    }
}

/// The seat's call of this number, resumed where it was refused memory: its reply, and its version.
fn called<'a>(
    rt: &impl Abort,
    alloc: Global,
    shared: &AnyShared<Scarce<'a>>,
    seat: &mut AnySeat<Scarce<'a>>,
    number: u32,
) -> (u32, u64)
    requires { IsSeatOf shared.now seat.old }
    ensures { IsSeatOf shared.now seat.new }
{
    match seat.apply(alloc, shared, Asked { number }) {
        Ok(answer) => return (answer.reply, answer.version),
        Err(fault) => assert!(rt; fault == AnyFault::Memory),
    }
    let Ok(answer) = seat.resume(alloc, shared) else {
        panic!(rt; "not resumed")
    };
    (answer.reply, answer.version)
}

/// What is done with a seat, and what has to come of it.
#[derive(Clone, Copy)]
pub(crate) enum Act {
    /// From here on so many requests for memory are granted before one is refused.
    Grants(u64),
    /// A call of this number, resumed where it was refused memory: its reply, and its version.
    Calls(u32, u32, u64),
    /// A call of this number, which is refused.
    Refused(u32, AnyFault),
    /// The pending call is resumed: its reply, and its version.
    Resumes(u32, u64),
    /// No call is pending.
    HasNothing,
    /// A call is pending, so nothing is looked at.
    LooksAtNothing,
}

/// Whether what has to come of it comes.
fn does<'a>(
    rt: &impl Abort,
    alloc: Global,
    shared: &AnyShared<Scarce<'a>>,
    seat: &mut AnySeat<Scarce<'a>>,
    act: &Act,
) -> bool
    requires { IsSeatOf shared.now seat.old }
    ensures { IsSeatOf shared.now seat.new }
{
    match *act {
        Act::Grants(_) => true,
        Act::Calls(number, reply, version) => {
            called(rt, alloc, shared, seat, number) == (reply, version)
        }
        Act::Refused(number, fault) => { seat.apply(alloc, shared, Asked { number }) == Err(fault) }
        Act::Resumes(reply, version) => {
            seat.resume(alloc, shared) == Ok(AnyAnswer { reply, version })
        }
        Act::HasNothing => seat.resume(alloc, shared) == Err(AnyResumeFault::NothingPending),
        Act::LooksAtNothing => {
            seat.follows(shared, 0) == Err(CallPending) && seat.refresh(shared) == Err(CallPending)
        }
    }
}

/// What is done with one of two seats, by its place.
pub(crate) type Turn = (usize, Act);

/// Whether what has to come of a turn comes.
fn takes<'a>(
    rt: &impl Abort,
    alloc: Global,
    shared: &AnyShared<Scarce<'a>>,
    first: &mut AnySeat<Scarce<'a>>,
    second: &mut AnySeat<Scarce<'a>>,
    turn: &Turn,
) -> bool
    requires { IsSeatOf shared.now first.old × IsSeatOf shared.now second.old }
    ensures { IsSeatOf shared.now first.new × IsSeatOf shared.now second.new }
{
    if turn.0 == 0 {
        does(rt, alloc, shared, first, &turn.1)
    } else {
        does(rt, alloc, shared, second, &turn.1)
    }
}

/// An object of so many processes, and their last two seats, which took these turns.
pub(crate) fn played<'a>(
    rt: &impl Abort,
    alloc: Global,
    granted: &'a Cell<u64>,
    n: u64,
    turns: &[Turn],
) -> (
    AnyShared<Scarce<'a>>,
    AnySeat<Scarce<'a>>,
    AnySeat<Scarce<'a>>,
)
    ensures { IsSeatOf result.0 result.1 }
{
    let (shared, mut seats) = opened(rt, alloc, Scarce { granted }, n);
    let (mut first, mut second) = last_two(rt, &shared, &mut seats);
    for (at, turn) in turns.iter().enumerate() {
        if let Act::Grants(count) = turn.1 {
            granted.set(count);
        }
        assert!(rt;
            takes(rt, alloc, &shared, &mut first, &mut second, turn),
            "at turn {at}"
        );
    }
    (shared, first, second)
}

/// Four calls of two seats.
const CALLS: &[Turn] = &[
    (0, Act::Calls(5, 9, 1)),
    (1, Act::Calls(6, 5, 2)),
    (0, Act::Calls(7, 6, 3)),
    (1, Act::Calls(8, 7, 4)),
];

/// Four calls of two seats, with this request refused: how many requests there were.
fn calls_with(rt: &impl Abort, alloc: Global, refused: u64) -> u64 {
    let granted = Cell::new(refused);
    let fault = AnyShared::open(alloc, Scarce { granted: &granted }, 2).err();
    assert!(rt;
        fault
            == if refused == 0 {
                Some(AnyOpenFault::Memory)
            } else {
                None
            }
    );
    granted.set(refused);
    if refused == 0 {
        granted.set(u64::MAX);
    }
    played(rt, alloc, &granted, 2, CALLS);
    refused.wrapping_sub(granted.get())
}

#[test]
fn each_request_is_refused_in_turn(rt: HostRuntime) {
    let alloc = rt.alloc();
    // The start and four next states; a state that was refused is asked for again.
    for refused in 1..5 {
        assert!(rt; calls_with(&rt, alloc, refused) == 6);
    }
    assert!(rt; calls_with(&rt, alloc, 5) == 5);
    calls_with(&rt, alloc, 0);
}

/// What is done with a seat whose call is refused memory, and with another one, which helps.
const HELPED: &[Turn] = &[
    (0, Act::Refused(5, AnyFault::Memory)),
    (0, Act::Refused(8, AnyFault::Pending)),
    (0, Act::LooksAtNothing),
    (1, Act::Calls(6, 5, 1)),
    (0, Act::Resumes(9, 1)),
    (0, Act::HasNothing),
    (1, Act::Calls(7, 6, 2)),
];

#[test]
fn a_call_that_was_refused_is_helped(rt: HostRuntime) {
    played(&rt, rt.alloc(), &Cell::new(1), 2, HELPED);
}

#[test]
fn counts_that_are_refused(rt: HostRuntime) {
    let alloc = rt.alloc();
    for n in [0, 65, u64::MAX] {
        let granted = Cell::new(u64::MAX);
        let fault = AnyShared::open(alloc, Scarce { granted: &granted }, n).err();
        assert!(rt; fault == Some(AnyOpenFault::BadCount));
        assert!(rt; granted.get() == u64::MAX);
    }
}

/// Three calls of the last two seats.
const OF_SIXTY_FOUR: &[Turn] = &[
    (1, Act::Calls(5, 9, 1)),
    (0, Act::Calls(6, 5, 2)),
    (1, Act::Calls(7, 6, 3)),
];

#[test]
fn the_last_of_sixty_four_processes(rt: HostRuntime) {
    played(&rt, rt.alloc(), &Cell::new(u64::MAX), 64, OF_SIXTY_FOUR);
}
