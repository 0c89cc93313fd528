//! One call takes effect.

ghost use Rattle.std.specs.Prelude.{◌≡◌, ◌≢◌, ◌≤◌, IfNone, IfOk, IfSome, Some, false, length};
ghost use Rattle.std.specs.Prelude.{slice_get, true};
ghost use Rattle.lin_check.specs.Histories.{IsWithin, replies_of};
ghost use Rattle.lin_check.specs.Search.{IsReady, IsFailing, FailsAt, Leads};

use crate::checkable::Checkable;
use crate::event::Event;
use crate::node::{Node, Slot};
use crate::passing::advance;
use seq_object::SeqObject;
use std::alloc::{AllocError, Global};

/// A node, and the event of the call that led to it.
#[derive(Drop)]
pub(crate) struct Child<S: Drop> {
    pub(crate) call: usize,
    pub(crate) node: Node<S>,
}

/// Whether an answer is the response that the call gets in the end, if it gets one.
pub(crate) fn fits<O: SeqObject>(replies: &[Option<O::Resp>], call: usize, answer: O::Resp) -> bool
    ensures fits { result ≡ true → (r : O.Resp) → slice_get replies.now call ≡ Some (Some r) → answer ≡ r }
    ensures unfit { result ≡ false
        → (r : O.Resp) × (slice_get replies.now call ≡ Some (Some r)) × (answer ≢ r) }
{
    let Some(entry) = replies.get(call) else {
        return true;
    };
    let Some(reply) = *entry else {
        return true;
    };
    answer == reply
}

/// Lets the pending call of process `q` take effect; `None` where nothing comes of it.
pub(crate) fn child_of<O: SeqObject>(
    alloc: Global,
    object: &O,
    history: &[Event<O::Inv, O::Resp>],
    replies: &[Option<O::Resp>],
    node: &Node<O::State>,
    q: usize,
) -> Result<Option<Child<O::State>>, AllocError>
    requires within { IsWithin (length node.now.slots.items) history.now }
    requires at { node.now.at ≤ length history.now }
    requires replies { replies.now ≡ replies_of history.now }
    ensures none { IfOk result (λ found. IfNone found (IsFailing (O.sequential object.now) history.now node.now q)) }
    ensures some { IfOk result (λ found. IfSome found (λ child.
        Leads (O.sequential object.now) history.now node.now q child.call child.node)) }
{
    let Some(slot) = node.slots.get(q) else {
        return Ok(None);
    };
    let Slot::Open(call) = *slot else {
        return Ok(None);
    };
    let Some(event) = history.get(call) else {
        return Ok(None);
    };
    let Event::Call(_, inv) = event else {
        return Ok(None);
    };
    let (state, answer) = object.apply(alloc, &node.state, inv)?;
    if !fits::<O>(replies, call, answer) {
        return Ok(None);
    }
    let mut slots = Vec::from_slice(alloc, &node.slots)?;
    slots[q] = Slot::Done;
    let mut next = Node {
        at: node.at,
        slots,
        state,
    };
    if advance(object, history, &mut next) {
        Ok(Some(Child { call, node: next }))
    } else {
        Ok(None)
    }
}
