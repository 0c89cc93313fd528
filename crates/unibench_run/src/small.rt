//! Threads that make calls on one object of several words.

ghost use Rattle.std.specs.Prelude.{◌≡◌, ◌+◌, ◌++◌, ◌∷◌, ◌<◌, ◌≤◌, ◌^◌};
ghost use Rattle.std.specs.Prelude.{ℕ, List, [], All, IfOk, IsErrOf, OnOk};
ghost use Rattle.std.specs.Prelude.{drop, flat_map, length, map, suc, true, vec_len};
ghost use Rattle.std.specs.List.{sum_by};
ghost use Rattle.small_objects.specs.Placed.{placed};
ghost use Rattle.told_order.specs.Replay.{IsReplayed};
ghost use Rattle.uni_small.specs.Belongs.{IsSeatOf, calls_made, invocation_width_of, known_calls, object_of, own_calls};
ghost use Rattle.uni_small.specs.Belongs.{process_of, processes_of, reply_width_of, width_of};
ghost use Rattle.uni_small.specs.Final.{HasHistory};
ghost use Rattle.uni_small.specs.Invariant.{most_calls};
ghost use Rattle.uni_small.specs.View.{Returned};
ghost use Rattle.unibench_run.specs.Draws.{call_in};
ghost use Rattle.unibench_run.specs.Small.{HasMadeSmall, HasRunOn, HasSmallRun, IsSmallRun, IsWide};
ghost use Rattle.unibench_run.specs.Small.{in_words_of, read_in_place};
ghost use Rattle.unibench_run.specs.Threads.{AreDone, IsThreadsPlan, has_form};
ghost use Rattle.unibench_run.specs.declared.request.Form.TheVariants.{Small};

use crate::request::{Plan, ThreadsObject};
use crate::small_calls::DrawnCalls;
use crate::threads::{Done, Seated, ThreadsFault, make_all_calls, parted};
use crate::watch::Watch;
use ready_objects::StickyObject;
use small_objects::{
    Encoded, Placed, SmallBook, SmallCounter, SmallCounters, SmallMap, SmallRegister,
    SmallScriptQueue, SmallStack, Words, replay,
};
use std::alloc::{AllocError, Global};
use std::thread::Threads;
use told_order::{InPlace, ReplayFault};
use uni_record::Verdict;
use uni_small::{SmallOpenFault, SmallSeat, SmallShared};

/// The most calls of all threads: what each was told is kept.
pub(crate) const MOST_KEPT_CALLS: u64 = 40_000_000;

impl From<ReplayFault> for ThreadsFault {
    ghost use Rattle.std.specs.Prelude.{◌≡◌};
    ghost use Rattle.unibench_run.specs.Small.{fault_of_replay};

    ghost from_gives = { λ replay fault. fault ≡ fault_of_replay replay };

    fn from(fault: ReplayFault) -> ThreadsFault {
        match fault {
            ReplayFault::Differs(call) => ThreadsFault::Differs(call),
            ReplayFault::OtherState => ThreadsFault::LastState,
            ReplayFault::Memory => ThreadsFault::Memory,
        }
    }
}

/// Makes a call by a seat of an object whose replies tell places, with room for its words: what it was told.
fn make_call<O: DrawnCalls>(
    shared: &SmallShared<Placed<O>>,
    seat: &mut SmallSeat<Placed<O>>,
    call: O::Call,
    invocation: &mut Vec<u64>,
    reply: &mut Vec<u64>,
) -> InPlace<O::Reply>
    requires seat { IsSeatOf shared.now seat.old }
    requires wide { IsWide shared.now O.Call.words O.Reply.words invocation.old.items reply.old.items }
    requires few { calls_made seat.old < most_calls }
    ensures kept { IsSeatOf shared.now seat.new × (process_of seat.new ≡ process_of seat.old) }
    ensures made { calls_made seat.new ≡ calls_made seat.old + 1 }
    ensures wide { IsWide shared.now O.Call.words O.Reply.words invocation.new.items reply.new.items }
    ensures told { (returned : Returned) × (own_calls seat.new ≡ own_calls seat.old ++ returned ∷ [])
        × (in_words_of O.Call.encode (call, result) ≡ read_in_place O.Reply.decode returned) }
{
    call.store(invocation);
    let Ok(_) = seat.apply(shared, invocation, reply) else {
        unreachable!()
    };
    InPlace {
        place: reply[0],
        reply: O::Reply::load(&reply[1..]),
    }
}

impl<O: DrawnCalls> Seated for SmallShared<Placed<O>> {
    type Seat = SmallSeat<Placed<O>>;

    type Call = O::Call;

    type Told = (O::Call, InPlace<O::Reply>);

    type Room = (Vec<u64>, Vec<u64>);

    ghost is_fit = { λ shared calls. (calls ≤ 10000000) × (invocation_width_of shared ≡ O.Call.words)
        × (reply_width_of shared ≡ suc O.Reply.words) };

    ghost is_room = { λ shared room. IsWide shared O.Call.words O.Reply.words room.0.items room.1.items };

    ghost has_made = { λ shared. HasMadeSmall shared O.Call.encode O.Reply.decode };

    ghost call_in = { call_in };

    ghost call_of_word = { O.call_of_word };

    fn room(&self, alloc: Global) -> Result<(Vec<u64>, Vec<u64>), AllocError> {
        let invocation = vec![in alloc; 0u64; self.invocation_width() as usize]?;
        let reply = vec![in alloc; 0u64; self.reply_width() as usize]?;
        Ok((invocation, reply))
    }

    fn make_call(
        &self,
        _alloc: Global,
        seat: &mut SmallSeat<Placed<O>>,
        room: &mut (Vec<u64>, Vec<u64>),
        word: u64,
    ) -> Result<(O::Call, InPlace<O::Reply>), AllocError> {
        let call = O::drawn_call(word);
        Ok((call, make_call(self, seat, call, &mut room.0, &mut room.1)))
    }
}

/// Closes an object with these seats, and makes the calls of these lists again on the plain object, in the order that
/// they were told.
fn close_and_replay<O: DrawnCalls>(
    alloc: Global,
    object: &O,
    shared: SmallShared<Placed<O>>,
    seats: Vec<SmallSeat<Placed<O>>>,
    lists: &[Vec<(O::Call, InPlace<O::Reply>)>],
) -> Result<(), ThreadsFault>
    requires object { (object_of shared).object ≡ object.now }
    requires words { ((O.meaning object.now).invocation ≡ O.Call.words)
        × ((O.meaning object.now).reply ≡ O.Reply.words) }
    requires width { width_of shared ≡ suc (length (O.meaning object.now).object.initial) }
    requires seats { All (IsSeatOf shared) seats.items }
    requires few { (length lists.now < 2 ^ 32) × (sum_by vec_len lists.now < 2 ^ 64) }
    ensures closed { OnOk result ((last : List ℕ)
        × HasHistory (placed (O.meaning object.now)).object (processes_of shared)
        (flat_map known_calls seats.items) last
        × IsReplayed (O.meaning object.now).object O.Call.encode O.Reply.encode (map (λ own. own.items) lists.now)
        (drop 1 last)) }
    ensures others { (IsErrOf result ThreadsFault.NoSuchObject → ⊥)
        × (IsErrOf result ThreadsFault.CallsTooMany → ⊥) × (IsErrOf result ThreadsFault.Write → ⊥) }
    ensures audited { (verdict : Verdict) → IsErrOf result (ThreadsFault.Audit verdict) → ⊥ }
{
    let mut last = vec![in alloc; 0u64; shared.width() as usize]?;
    shared.close_all(seats, &mut last);
    replay(alloc, object, lists, &last[1..])?;
    Ok(())
}

/// Closes an object with the seats of all its processes, which have made the calls of a plan, and makes these again:
/// the lists of what the threads were told, with which the object agrees.
fn close_small<O: DrawnCalls>(
    alloc: Global,
    object: &O,
    shared: SmallShared<Placed<O>>,
    done: Vec<Done<SmallSeat<Placed<O>>, (O::Call, InPlace<O::Reply>)>>,
    plan: &Plan,
) -> Result<Vec<Vec<(O::Call, InPlace<O::Reply>)>>, ThreadsFault>
    requires object { (object_of shared).object ≡ object.now }
    requires words { ((O.meaning object.now).invocation ≡ O.Call.words)
        × ((O.meaning object.now).reply ≡ O.Reply.words) }
    requires width { width_of shared ≡ suc (length (O.meaning object.now).object.initial) }
    requires plan { IsThreadsPlan plan.now × (processes_of shared ≡ plan.now.processes) }
    requires done { AreDone (HasMadeSmall shared O.Call.encode O.Reply.decode) call_in O.call_of_word plan.now.processes
        plan.now.calls plan.now.seed done.items }
    ensures told { IfOk result (λ lists. IsSmallRun (O.meaning object.now) O.Call.encode O.Reply.encode O.Reply.decode
        O.call_of_word plan.now.processes plan.now.calls plan.now.seed (map (λ own. own.items) lists.items)) }
    ensures others { (IsErrOf result ThreadsFault.NoSuchObject → ⊥)
        × (IsErrOf result ThreadsFault.CallsTooMany → ⊥) × (IsErrOf result ThreadsFault.Write → ⊥) }
    ensures audited { (verdict : Verdict) → IsErrOf result (ThreadsFault.Audit verdict) → ⊥ }
{
    let (seats, lists) = parted(alloc, done)?;
    close_and_replay(alloc, object, shared, seats, &lists)?;
    Ok(lists)
}

/// Makes the calls of a plan on an object of several words, each seat's in a thread of its own where one can be
/// made: how many replies the threads were given. They agree with the object.
fn run_small<R: Threads + Watch + Sync, O: DrawnCalls + Copy + Sync>(
    rt: &R,
    alloc: Global,
    object: O,
    plan: &Plan,
) -> Result<u64, ThreadsFault>
where
    O::Call: Send,
    O::Reply: Send,
    requires state { length (O.meaning object).object.initial < 65536 }
    requires words { ((O.meaning object).invocation ≡ O.Call.words) × ((O.meaning object).reply ≡ O.Reply.words) }
    requires call { (O.meaning object).invocation ≤ 65536 }
    requires reply { (O.meaning object).reply < 65536 }
    requires plan { IsThreadsPlan plan.now }
    ensures run { IfOk result (HasRunOn (O.meaning object) O.Call.encode O.Reply.encode O.Reply.decode O.call_of_word
        plan.now.processes plan.now.calls plan.now.seed) }
    ensures others { (IsErrOf result ThreadsFault.NoSuchObject → ⊥)
        × (IsErrOf result ThreadsFault.CallsTooMany → ⊥) × (IsErrOf result ThreadsFault.Write → ⊥) }
    ensures audited { (verdict : Verdict) → IsErrOf result (ThreadsFault.Audit verdict) → ⊥ }
{
    let (shared, seats) = match SmallShared::open(alloc, Placed::new(object), plan.processes) {
        Ok(opened) => opened,
        Err(SmallOpenFault::Memory) => return Err(ThreadsFault::Memory),
        Err(_) => unreachable!(),
    };
    let done = make_all_calls(rt, alloc, &shared, seats, plan)?;
    drop(close_small(alloc, &object, shared, done, plan)?);
    Ok(plan.processes * plan.calls)
}

/// Makes the calls of a plan on the object of several words that it names: how many replies the threads were given.
pub(crate) fn run_named<R: Threads + Watch + Sync>(
    rt: &R,
    alloc: Global,
    plan: &Plan,
) -> Result<u64, ThreadsFault>
    requires plan { IsThreadsPlan plan.now }
    requires there { has_form Small plan.now.object ≡ true }
    ensures run { IfOk result (HasSmallRun plan.now.object plan.now.processes plan.now.calls plan.now.seed) }
    ensures others { (IsErrOf result ThreadsFault.NoSuchObject → ⊥)
        × (IsErrOf result ThreadsFault.CallsTooMany → ⊥) × (IsErrOf result ThreadsFault.Write → ⊥) }
    ensures audited { (verdict : Verdict) → IsErrOf result (ThreadsFault.Audit verdict) → ⊥ }
{
    match plan.object {
        ThreadsObject::Counter => run_small(rt, alloc, SmallCounter, plan),
        ThreadsObject::Counters => run_small(rt, alloc, SmallCounters { count: 16 }, plan),
        ThreadsObject::Register => run_small(rt, alloc, SmallRegister, plan),
        ThreadsObject::Stack => run_small(rt, alloc, SmallStack { capacity: 64 }, plan),
        ThreadsObject::Map => run_small(rt, alloc, SmallMap { capacity: 64 }, plan),
        ThreadsObject::Queue => run_small(rt, alloc, SmallScriptQueue { capacity: 1000 }, plan),
        ThreadsObject::Book => run_small(rt, alloc, SmallBook, plan),
        ThreadsObject::Sticky => {
            let sticky = Encoded {
                object: StickyObject,
            };
            run_small(rt, alloc, sticky, plan)
        }
        _ => unreachable!(),
    }
}
