//! Calls that are made again in the order that their replies tell.

ghost use Rattle.std.specs.Prelude.{◌≡◌, ◌<◌, ◌^◌, ◌↔◌, ℕ, List, None, Some};
ghost use Rattle.std.specs.Prelude.{IfOk, IfSome, IsErrOf, IsNone, IsSome, IsTrue, OnOk, length, map, replicate};
ghost use Rattle.std.specs.Prelude.{slice_index, vec_len};
ghost use Rattle.std.specs.List.{sum_by};
ghost use Rattle.seq_object.specs.Sequential.{Sequential};
ghost use Rattle.told_order.specs.Replay.{IsFirstDifference, IsReplayed, NoneTellsPlace, next_of};

use crate::in_place::InPlace;
use seq_object::CallId;
use std::alloc::{AllocError, Global};

/// Why calls aren't those of an object in the order that their replies tell.
#[derive(Clone, Copy, Debug, PartialEq, Eq)]
pub enum ReplayFault {
    /// The reply to this call isn't the object's; or it is the first call, by process, that is left where no call
    /// that comes next tells the next place.
    Differs(CallId),
    /// All replies are the object's, and the state after them isn't the last one.
    OtherState,
    /// Memory was refused.
    Memory,
}

impl From<AllocError> for ReplayFault {
    ghost use Rattle.std.specs.Prelude.{◌≡◌};
    ghost use Rattle.told_order.specs.declared.order.ReplayFault.TheVariants.{Memory};

    ghost from_gives = { λ _ fault. fault ≡ Memory };

    fn from(_: AllocError) -> ReplayFault {
        ReplayFault::Memory
    }
}

/// An object on which calls are made again, with the state after those that were made.
pub trait Replaying {
    /// A call.
    type Call;

    /// A reply to a call.
    type Reply;

    /// The states of the object.
    ghost State: { Type 0 };

    /// Its invocations.
    ghost Inv: { Type 0 };

    /// Its responses.
    ghost Resp: { Type 0 };

    /// The object.
    ghost object: { Self → Sequential State Inv Resp };

    /// The state after the calls that were made.
    ghost state: { Self → State };

    /// Calls can be made.
    ghost IsReady: { Self → Type 0 };

    /// The invocation that a call is.
    ghost asks: { Self.Call → Inv };

    /// The response that a reply is.
    ghost tells: { Self.Reply → Resp };

    /// Makes a call: whether the object's reply is this one.
    ///
    /// An `Err` says that memory was refused.
    fn make(&mut self, call: &Self::Call, reply: &Self::Reply) -> Result<bool, AllocError>
        requires { IsReady self.old }
        ensures ready { IsReady self.new }
        ensures object { object self.new ≡ object self.old }
        ensures state { OnOk result (state self.new ≡ (object self.old).next (state self.old) (asks call.now)) }
        ensures told { IfOk result (λ same. IsTrue same
            ↔ (tells reply.now ≡ (object self.old).answer (state self.old) (asks call.now))) };
}

/// How many calls there are in all lists.
fn calls_in<A>(lists: &[Vec<A>]) -> u64
    requires { sum_by vec_len lists.now < 2 ^ 64 }
    ensures { result ≡ sum_by vec_len lists.now }
{
    let mut calls = 0;
    for own in lists {
        calls += own.len() as u64;
    }
    calls
}

/// The next call of a process, with what it was told, where so many of each list were made.
fn next_of<'a, A>(lists: &'a [Vec<A>], made: &[usize], p: usize) -> Option<&'a A>
    requires { (p < length lists.now) × (length made.now ≡ length lists.now) }
    ensures some { IfSome result (λ call. next_of (map (λ own. own.items) lists.now) made.now p ≡ Some call.now) }
    ensures none { IsNone result → next_of (map (λ own. own.items) lists.now) made.now p ≡ None }
{
    lists[p].get(made[p])
}

/// The first process whose next call was told this place, with that call, where so many of each list were made.
fn next_at<'a, C, R>(
    lists: &'a [Vec<(C, InPlace<R>)>],
    made: &[usize],
    place: u64,
) -> Option<(usize, &'a (C, InPlace<R>))>
    requires { length made.now ≡ length lists.now }
    ensures some { IfSome result (λ next. (next_of (map (λ own. own.items) lists.now) made.now next.0
        ≡ Some next.1.now) × (next.1.now.1.place ≡ place)) }
    ensures none { IsNone result → NoneTellsPlace (map (λ own. own.items) lists.now) made.now place }
{
    for p in 0..lists.len() {
        if let Some(call) = next_of(lists, made, p) {
            if call.1.place == place {
                return Some((p, call));
            }
        }
    }
    None
}

/// The first call, by process, that is left, where so many of each list were made.
fn first_left<A>(lists: &[Vec<A>], made: &[usize]) -> CallId
    requires long { (length made.now ≡ length lists.now) × (length lists.now < 2 ^ 32) }
    requires left { ¬ ((p : ℕ) → next_of (map (λ own. own.items) lists.now) made.now p ≡ None) }
    ensures nth { result.nth ≡ slice_index made.now result.process }
    ensures left { IsSome (next_of (map (λ own. own.items) lists.now) made.now result.process) }
{
    for p in 0..lists.len() {
        if next_of(lists, made, p).is_some() {
            return CallId {
                process: p as u32,
                nth: made[p] as u64,
            };
        }
    }
    unreachable!()
}

/// Makes the calls of these lists, as `make_in_order` does, where none is made yet.
fn make_calls<M: Replaying>(
    replaying: &mut M,
    lists: &[Vec<(M::Call, InPlace<M::Reply>)>],
    made: &mut [usize],
) -> Result<(), ReplayFault>
    requires few { (length lists.now < 2 ^ 32) × (sum_by vec_len lists.now < 2 ^ 64) }
    requires made { made.old ≡ replicate (length lists.now) 0 }
    requires ready { M.IsReady replaying.old }
    requires start { M.state replaying.old ≡ (M.object replaying.old).initial }
    ensures object { M.object replaying.new ≡ M.object replaying.old }
    ensures agrees { OnOk result (IsReplayed (M.object replaying.old) M.asks M.tells
        (map (λ own. own.items) lists.now) (M.state replaying.new)) }
    ensures differs { (call : CallId) → IsErrOf result (ReplayFault.Differs call)
        → IsFirstDifference (M.object replaying.old) M.asks M.tells (map (λ own. own.items) lists.now) call }
    ensures other { IsErrOf result ReplayFault.OtherState → ⊥ }
{
    for place in 0..calls_in(lists) {
        let Some((p, call)) = next_at(lists, made, place) else {
            return Err(ReplayFault::Differs(first_left(lists, made)));
        };
        if !replaying.make(&call.0, &call.1.reply)? {
            return Err(ReplayFault::Differs(CallId {
                process: p as u32,
                nth: made[p] as u64,
            }));
        }
        made[p] += 1;
    }
    Ok(())
}

/// Makes the calls of these lists one after another on an object, from its start state, in the order that they were
/// told. List p has the calls of process p, each with its place and the reply that it was given.
///
/// Errors: `Differs` for the first call that wasn't told the object's reply, or for the first, by process, that is
/// left where no call that comes next was told the next place; `Memory`.
pub fn make_in_order<M: Replaying>(
    alloc: Global,
    replaying: &mut M,
    lists: &[Vec<(M::Call, InPlace<M::Reply>)>],
) -> Result<(), ReplayFault>
    requires few { (length lists.now < 2 ^ 32) × (sum_by vec_len lists.now < 2 ^ 64) }
    requires ready { M.IsReady replaying.old }
    requires start { M.state replaying.old ≡ (M.object replaying.old).initial }
    ensures object { M.object replaying.new ≡ M.object replaying.old }
    ensures agrees { OnOk result (IsReplayed (M.object replaying.old) M.asks M.tells
        (map (λ own. own.items) lists.now) (M.state replaying.new)) }
    ensures differs { (call : CallId) → IsErrOf result (ReplayFault.Differs call)
        → IsFirstDifference (M.object replaying.old) M.asks M.tells (map (λ own. own.items) lists.now) call }
    ensures other { IsErrOf result ReplayFault.OtherState → ⊥ }
{
    let mut made = vec![in alloc; 0usize; lists.len()]?;
    make_calls(replaying, lists, &mut made)
}
