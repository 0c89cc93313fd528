//! Threads that make calls on one object without a lock, each with a copy of its state.

ghost use Rattle.std.specs.Prelude.{◌≡◌, ◌++◌, ◌∷◌, ◌<◌, ◌^◌, ◌↔◌};
ghost use Rattle.std.specs.Prelude.{◌≤◌, ⊤, [], IfOk, IsErrOf, IsTrue, None, OnOk, length, map, true, vec_len};
ghost use Rattle.std.specs.List.{sum_by};
ghost use Rattle.uni_any.specs.Invariant.{most_calls};
ghost use Rattle.uni_any.specs.Seats.{IsSeatOf, calls_made, known_calls, object_of, own_calls};
ghost use Rattle.uni_any.specs.Seats.{pending_call, process_of, processes_of, version_of};
ghost use Rattle.unibench_run.specs.Draws.{call_in};
ghost use Rattle.unibench_run.specs.Any.{HasAnyRun, HasAnyRunOn, HasClosed, HasMadeAny, IsAnyRun};
ghost use Rattle.unibench_run.specs.Threads.{AreDone, IsThreadsPlan, has_form};
ghost use Rattle.unibench_run.specs.declared.request.Form.TheVariants.{Any};

use crate::request::{Plan, ThreadsObject};
use crate::threads::{Done, Seated, ThreadsFault, make_all_calls, parted};
use crate::watch::Watch;
use ready_objects::{BookObject, DirectoryObject, QueueObject, Spoken, StickyObject};
use seq_object::SeqObject;
use std::alloc::{AllocError, Global};
use std::thread::Threads;
use told_order::{Counted, CountedState, InPlace, state_in_order};
use uni_any::{AnyAnswer, AnyFault, AnyOpenFault, AnySeat, AnyShared};
use uni_record::Verdict;

/// A call with what was told of it.
type ToldOf<O> = (<O as SeqObject>::Inv, InPlace<<O as SeqObject>::Resp>);

/// Such a seat, with what its thread was told.
type DoneOn<O> = Done<AnySeat<Counted<O>>, ToldOf<O>>;

/// Makes a call by a seat that has none pending. The error says that memory was refused.
fn make_any_call<O: Spoken>(
    alloc: Global,
    shared: &AnyShared<Counted<O>>,
    seat: &mut AnySeat<Counted<O>>,
    inv: O::Inv,
) -> Result<AnyAnswer<InPlace<O::Resp>>, AllocError>
    requires seat { IsSeatOf shared.now seat.old × (pending_call seat.old ≡ None) }
    requires few { calls_made seat.old < most_calls }
    ensures kept { OnOk result (IsSeatOf shared.now seat.new × (pending_call seat.new ≡ None)) }
    ensures process { process_of seat.new ≡ process_of seat.old }
    ensures own { IfOk result (λ answer. own_calls seat.new ≡ own_calls seat.old ++ record {
      inv = inv;
      reply = answer.reply;
      after = version_of seat.old;
      version = answer.version;
    } ∷ []) }
{
    match seat.apply(alloc, shared, inv) {
        Ok(answer) => Ok(answer),
        Err(AnyFault::Memory) => Err(AllocError),
        Err(AnyFault::Pending) => unreachable!(),
        Err(AnyFault::Spent) => unreachable!(),
    }
}

impl<O: Spoken> Seated for AnyShared<Counted<O>> {
    type Seat = AnySeat<Counted<O>>;

    type Call = O::Inv;

    type Told = ToldOf<O>;

    type Room = ();

    ghost is_fit = { λ shared calls. calls ≤ 10000000 };

    ghost is_room = { λ shared room. ⊤ };

    ghost has_made = { HasMadeAny };

    ghost call_in = { call_in };

    ghost call_of_word = { O.language.inv_of_word };

    fn room(&self, _alloc: Global) -> Result<(), AllocError> {
        Ok(())
    }

    fn make_call(
        &self,
        alloc: Global,
        seat: &mut AnySeat<Counted<O>>,
        _room: &mut (),
        word: u64,
    ) -> Result<ToldOf<O>, AllocError> {
        let answer = make_any_call(alloc, self, seat, O::drawn(word))?;
        Ok((O::drawn(word), answer.reply))
    }
}

/// Whether bytes are the same.
fn same(one: &[u8], other: &[u8]) -> bool
    ensures { IsTrue result ↔ (one.now ≡ other.now) }
{
    *one == *other
}

/// Whether a state has counted so many calls, and is written as another one is.
fn is_last<O: Spoken>(
    alloc: Global,
    last: &CountedState<O::State>,
    calls: u64,
    reached: &O::State,
) -> Result<bool, AllocError>
    ensures { IfOk result (λ is. IsTrue is
        ↔ ((last.now.calls ≡ calls) × (O.state_text last.now.state ≡ O.state_text reached.now))) }
{
    let mut last_text = Vec::new(alloc);
    O::push_state(&mut last_text, &last.state)?;
    let mut reached_text = Vec::new(alloc);
    O::push_state(&mut reached_text, reached)?;
    Ok(last.calls == calls && same(&last_text, &reached_text))
}

/// Closes an object with this seat, and makes the calls of these lists again on the plain object, in the order that
/// they were told: they are so many, and lead to the last state.
fn close_and_replay<O: Spoken>(
    alloc: Global,
    object: &O,
    shared: AnyShared<Counted<O>>,
    seat: AnySeat<Counted<O>>,
    lists: &[Vec<ToldOf<O>>],
    calls: u64,
) -> Result<(), ThreadsFault>
    requires object { (object_of shared).object ≡ object.now }
    requires seat { IsSeatOf shared seat }
    requires few { (length lists.now < 2 ^ 32) × (sum_by vec_len lists.now < 2 ^ 64) }
    ensures closed { OnOk result (HasClosed (O.sequential object.now) O.state_text (processes_of shared) calls
        (known_calls seat) (map (λ own. own.items) lists.now)) }
    ensures others { (IsErrOf result ThreadsFault.NoSuchObject → ⊥)
        × (IsErrOf result ThreadsFault.CallsTooMany → ⊥) × (IsErrOf result ThreadsFault.Write → ⊥) }
    ensures audited { (verdict : Verdict) → IsErrOf result (ThreadsFault.Audit verdict) → ⊥ }
{
    let closed = shared.close_with(seat);
    let last = closed.block();
    let reached = state_in_order(alloc, object, lists)?;
    if !is_last::<O>(alloc, &last.state, calls, &reached)? {
        return Err(ThreadsFault::LastState);
    }
    Ok(())
}

/// Closes an object with the seat of process 0, where all its seats have made the calls of a plan, and makes these
/// again: the lists of what the threads were told, with which the object agrees.
fn close_any<O: Spoken>(
    alloc: Global,
    object: &O,
    shared: AnyShared<Counted<O>>,
    done: Vec<DoneOn<O>>,
    plan: &Plan,
) -> Result<Vec<Vec<ToldOf<O>>>, ThreadsFault>
    requires object { (object_of shared).object ≡ object.now }
    requires plan { IsThreadsPlan plan.now × (processes_of shared ≡ plan.now.processes) }
    requires done { AreDone (HasMadeAny shared) call_in O.language.inv_of_word plan.now.processes plan.now.calls
        plan.now.seed done.items }
    ensures told { IfOk result (λ lists. IsAnyRun (O.sequential object.now) O.language.inv_of_word O.state_text
        plan.now.processes plan.now.calls plan.now.seed (map (λ own. own.items) lists.items)) }
    ensures others { (IsErrOf result ThreadsFault.NoSuchObject → ⊥)
        × (IsErrOf result ThreadsFault.CallsTooMany → ⊥) × (IsErrOf result ThreadsFault.Write → ⊥) }
    ensures audited { (verdict : Verdict) → IsErrOf result (ThreadsFault.Audit verdict) → ⊥ }
{
    let Ok((mut seats, lists)) = parted(alloc, done) else {
        drop(shared);
        return Err(ThreadsFault::Memory);
    };
    let first = seats.swap_remove(0);
    close_and_replay(
        alloc,
        object,
        shared,
        first,
        &lists,
        plan.processes * plan.calls,
    )?;
    Ok(lists)
}

/// Makes the calls of a plan on an object, each seat's in a thread of its own where one can be made:
/// how many replies the threads were given. They agree with the object.
fn run_spoken<R: Threads + Watch + Sync, O: Spoken + Copy + Send + Sync>(
    rt: &R,
    alloc: Global,
    object: O,
    plan: &Plan,
) -> Result<u64, ThreadsFault>
where
    O::State: Send + Sync,
    O::Inv: Send + Sync,
    O::Resp: Send + Sync,
    requires plan { IsThreadsPlan plan.now }
    ensures run { IfOk result (HasAnyRunOn (O.sequential object) O.language.inv_of_word O.state_text
        plan.now.processes plan.now.calls plan.now.seed) }
    ensures others { (IsErrOf result ThreadsFault.NoSuchObject → ⊥)
        × (IsErrOf result ThreadsFault.CallsTooMany → ⊥) × (IsErrOf result ThreadsFault.Write → ⊥) }
    ensures audited { (verdict : Verdict) → IsErrOf result (ThreadsFault.Audit verdict) → ⊥ }
{
    let (shared, seats) = match AnyShared::open(alloc, Counted { object }, plan.processes) {
        Ok(opened) => opened,
        Err(AnyOpenFault::Memory) => return Err(ThreadsFault::Memory),
        Err(AnyOpenFault::BadCount) => unreachable!(),
    };
    let Ok(done) = make_all_calls(rt, alloc, &shared, seats, plan) else {
        drop(shared);
        return Err(ThreadsFault::Memory);
    };
    drop(close_any(alloc, &object, shared, done, plan)?);
    Ok(plan.processes * plan.calls)
}

/// Makes the calls of a plan on the object that it names: how many replies the threads were given.
pub(crate) fn run_any<R: Threads + Watch + Sync>(
    rt: &R,
    alloc: Global,
    plan: &Plan,
) -> Result<u64, ThreadsFault>
    requires plan { IsThreadsPlan plan.now }
    requires there { has_form Any plan.now.object ≡ true }
    ensures run { IfOk result (HasAnyRun plan.now.object plan.now.processes plan.now.calls plan.now.seed) }
    ensures others { (IsErrOf result ThreadsFault.NoSuchObject → ⊥)
        × (IsErrOf result ThreadsFault.CallsTooMany → ⊥) × (IsErrOf result ThreadsFault.Write → ⊥) }
    ensures audited { (verdict : Verdict) → IsErrOf result (ThreadsFault.Audit verdict) → ⊥ }
{
    match plan.object {
        ThreadsObject::Queue => run_spoken(rt, alloc, QueueObject, plan),
        ThreadsObject::Directory => run_spoken(rt, alloc, DirectoryObject, plan),
        ThreadsObject::Book => run_spoken(rt, alloc, BookObject, plan),
        ThreadsObject::Sticky => run_spoken(rt, alloc, StickyObject, plan),
        _ => unreachable!(),
    }
}
