//! Calls that are made again on a sequential object.

ghost use Rattle.std.specs.Prelude.{◌<◌, ◌^◌, IfOk, IsErrOf, length, map, vec_len};
ghost use Rattle.std.specs.List.{sum_by};
ghost use Rattle.told_order.specs.Replay.{IsFirstDifference, IsReplayed, itself};

use crate::in_place::InPlace;
use crate::order::{ReplayFault, Replaying, make_in_order};
use seq_object::{CallId, SeqObject};
use std::alloc::{AllocError, Global};

/// A sequential object on which calls are made again.
#[derive(Drop)]
struct Plain<'a, O: SeqObject> {
    alloc: Global,
    object: &'a O,
    state: O::State,
}

impl<'a, O: SeqObject> Replaying for Plain<'a, O> {
    type Call = O::Inv;

    type Reply = O::Resp;

    ghost State = { O.State };

    ghost Inv = { O.Inv };

    ghost Resp = { O.Resp };

    ghost object = { λ plain. O.sequential plain.object.now };

    ghost state = { λ plain. plain.state };

    ghost IsReady = { λ _. Unit {0} };

    ghost asks = { itself };

    ghost tells = { itself };

    fn make(&mut self, call: &O::Inv, reply: &O::Resp) -> Result<bool, AllocError> {
        let (state, own) = self.object.apply(self.alloc, &self.state, call)?;
        self.state = state;
        Ok(own == *reply)
    }
}

/// The state after the calls of these lists, which are made one after another on an object, in the order that they were
/// told. List p has the calls of process p, each with its place and the reply that it was given.
///
/// Errors: `Differs` for the first call that wasn't told the object's reply, or for the first, by process, that is
/// left where no call that comes next was told the next place; `Memory`.
pub fn state_in_order<O: SeqObject>(
    alloc: Global,
    object: &O,
    lists: &[Vec<(O::Inv, InPlace<O::Resp>)>],
) -> Result<O::State, ReplayFault>
    requires few { (length lists.now < 2 ^ 32) × (sum_by vec_len lists.now < 2 ^ 64) }
    ensures agrees { IfOk result (IsReplayed (O.sequential object.now) itself itself
        (map (λ own. own.items) lists.now)) }
    ensures differs { (call : CallId) → IsErrOf result (ReplayFault.Differs call)
        → IsFirstDifference (O.sequential object.now) itself itself (map (λ own. own.items) lists.now) call }
    ensures other { IsErrOf result ReplayFault.OtherState → ⊥ }
{
    let state = object.start(alloc)?;
    let mut plain = Plain {
        alloc,
        object,
        state,
    };
    make_in_order(alloc, &mut plain, lists)?;
    Ok(plain.state)
}
