//! Whether a history is linearizable in a given order.

ghost use Rattle.std.specs.Prelude.{◌≡◌, IfOk, IfSome, IfNone, length};
ghost use Rattle.lin_check.specs.Histories.{IsWithin, replies_of};
ghost use Rattle.lin_check.specs.Verdicts.{AnswersOrder};
ghost use Rattle.lin_check.specs.Search.{Follows, IsNoNext, IsReady};

use crate::child::fits;
use crate::event::Event;
use crate::failed::is_same_slot;
use crate::node::{Node, Slot};
use crate::passing::advance;
use crate::replies::replies;
use crate::search::{processes, root_of};
use seq_object::SeqObject;
use std::alloc::{AllocError, Global};

/// What a check of an order finds.
#[derive(Clone, Copy, Debug, PartialEq, Eq)]
pub enum OrderVerdict {
    /// The history is linearizable in this order.
    Right,
    /// It is not.
    Wrong,
    /// A process has the number 65,536 or a greater one: nothing was checked.
    TooManyProcesses,
}

/// Lets the call that begins at a place take effect next, and passes the events up to the next choice; `None` where
/// nothing comes of it.
fn follow<O: SeqObject>(
    alloc: Global,
    object: &O,
    history: &[Event<O::Inv, O::Resp>],
    replies: &[Option<O::Resp>],
    node: Node<O::State>,
    place: usize,
) -> Result<Option<Node<O::State>>, AllocError>
    requires within { IsWithin (length node.slots.items) history.now }
    requires ready { IsReady history.now node }
    requires replies { replies.now ≡ replies_of history.now }
    ensures none { IfOk result (λ found. IfNone found (IsNoNext (O.sequential object.now) history.now node place)) }
    ensures some { IfOk result (λ found. IfSome found (λ next.
        Follows (O.sequential object.now) history.now node place next)) }
{
    let Some(event) = history.get(place) else {
        return Ok(None);
    };
    let Event::Call(p, inv) = event else {
        return Ok(None);
    };
    let slot = node.slots[*p];
    if !is_same_slot(slot, Slot::Open(place)) {
        return Ok(None);
    }
    let (state, answer) = object.apply(alloc, &node.state, inv)?;
    if !fits::<O>(replies, place, answer) {
        return Ok(None);
    }
    let mut slots = node.slots;
    slots[*p] = Slot::Done;
    let mut next = Node {
        at: node.at,
        slots,
        state,
    };
    if advance(object, history, &mut next) {
        Ok(Some(next))
    } else {
        Ok(None)
    }
}

/// Whether the history is linearizable in an order, in which a call is named by the place of its event and a call that
/// isn't named never takes effect. Each event and each call of the order is looked at once.
///
/// An `Err` says that memory was refused.
pub fn check_order<O: SeqObject>(
    alloc: Global,
    object: &O,
    history: &[Event<O::Inv, O::Resp>],
    order: &[usize],
) -> Result<OrderVerdict, AllocError>
    ensures { IfOk result (AnswersOrder (O.sequential object.now) history.now order.now) }
{
    let Some(n) = processes(history) else {
        return Ok(OrderVerdict::TooManyProcesses);
    };
    let replies = replies(alloc, history, n)?;
    let mut node = root_of(alloc, object, n)?;
    if !advance(object, history, &mut node) {
        return Ok(OrderVerdict::Wrong);
    }
    for place in order {
        match follow(alloc, object, history, &replies, node, *place)? {
            Some(next) => node = next,
            None => return Ok(OrderVerdict::Wrong),
        }
    }
    if node.at == history.len() {
        Ok(OrderVerdict::Right)
    } else {
        Ok(OrderVerdict::Wrong)
    }
}
