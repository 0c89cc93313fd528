//! The search, depth first.

ghost use Rattle.std.specs.Prelude.{◌≡◌, ◌<◌, ◌≤◌, [], ℕ, IfNone, IfOk, IfSome, List, Some};
ghost use Rattle.std.specs.Prelude.{length, map};
ghost use Rattle.std.specs.List.{All};
ghost use Rattle.lin_check.specs.Histories.{IsWithin, replies_of};
ghost use Rattle.lin_check.specs.Verdicts.{Answers, IsLinearizable, IsOrder};
ghost use Rattle.lin_check.specs.Search.{FailsFor, IsChoice, IsReached, FailsAt, Finds, AreTried, candidate, slot_at};

use crate::checkable::Checkable;
use crate::child::{Child, child_of};
use crate::event::Event;
use crate::failed::{Failed, add, has};
use crate::node::{Frame, Node, Slot};
use crate::order::order_in;
use crate::passing::advance;
use crate::replies::replies;
use seq_object::SeqObject;
use std::alloc::{AllocError, Global};

/// The fewest buckets of the nodes that fail: a short history can have many.
const LEAST_BUCKETS: usize = 16_384;

/// What a check finds.
#[derive(Drop)]
pub enum Verdict {
    /// The history is linearizable: its calls take effect in this order. A call is named by the place of its event.
    Linearizable(Vec<usize>),
    /// It is not.
    NotLinearizable,
    /// Neither was found within the limit, or a process is 65,536 or more. It says nothing of the history.
    GaveUp,
}

/// A child, and how many candidates of its node are tried where nothing comes of it.
#[derive(Drop)]
pub(crate) struct Found<S: Drop> {
    pub(crate) next: usize,
    pub(crate) child: Child<S>,
}

/// The candidate at a place: the processes that are tried first, and then each process.
fn candidate_at(order: &[usize], place: usize) -> usize
    ensures { result ≡ candidate order.now place }
{
    if place < order.len() {
        order[place]
    } else {
        place - order.len()
    }
}

/// The next child of a node that is not known to fail.
fn next_child<O: Checkable>(
    alloc: Global,
    object: &O,
    history: &[Event<O::Inv, O::Resp>],
    replies: &[Option<O::Resp>],
    failed: &Failed<O::State>,
    node: &Node<O::State>,
    order: &[usize],
    from: usize,
) -> Result<Option<Found<O::State>>, AllocError>
    requires within { IsWithin (length node.now.slots.items) history.now }
    requires choice { IsChoice history.now node.now.at node.now.slots.items }
    requires replies { replies.now ≡ replies_of history.now }
    requires tried { AreTried (O.sequential object.now) history.now node.now order.now from }
    requires failed { All (FailsAt (O.sequential object.now) history.now) failed.now.nodes.items }
    ensures none { IfOk result (λ found. IfNone found (FailsAt (O.sequential object.now) history.now node.now)) }
    ensures some { IfOk result (λ found. IfSome found (λ found.
        Finds (O.sequential object.now) history.now node.now order.now found.next found.child.call found.child.node)) }
{
    for j in from..order.len() + node.slots.len() {
        let q = candidate_at(order, j);
        match child_of(alloc, object, history, replies, node, q)? {
            Some(child) => {
                if !has::<O>(failed, &child.node) {
                    return Ok(Some(Found { next: j + 1, child }));
                }
            }
            None => {}
        }
    }
    Ok(None)
}

/// The calls along the path.
fn order_of<S: Drop>(alloc: Global, stack: &[Frame<S>]) -> Result<Vec<usize>, AllocError>
    ensures { IfOk result (λ order. order.items ≡ map (λ frame. frame.call) stack.now) }
{
    let mut order = Vec::new(alloc);
    for frame in stack {
        order.push(frame.call)?;
    }
    Ok(order)
}

/// Searches from a node at a choice.
fn search<O: Checkable>(
    alloc: Global,
    object: &O,
    history: &[Event<O::Inv, O::Resp>],
    replies: &[Option<O::Resp>],
    ranks: &[u64],
    root: Node<O::State>,
    limit: u64,
) -> Result<Verdict, AllocError>
    requires within { IsWithin (length root.slots.items) history.now }
    requires choice { IsChoice history.now root.at root.slots.items }
    requires replies { replies.now ≡ replies_of history.now }
    requires reached { IsReached (O.sequential object.now) history.now root [] }
    requires sound { FailsAt (O.sequential object.now) history.now root
        → ¬ (IsLinearizable (O.sequential object.now) history.now) }
    ensures { IfOk result (Answers (O.sequential object.now) history.now) }
{
    let mut failed = Failed::new(alloc, history.len().max(LEAST_BUCKETS))?;
    let mut stack: Vec<Frame<O::State>> = Vec::new(alloc);
    let mut order = order_in(alloc, ranks, &root)?;
    let mut node = root;
    let mut next = 0;
    for _ in 0..limit {
        match next_child(
            alloc, object, history, replies, &failed, &node, &order, next,
        )? {
            Some(found) => {
                stack.push(Frame {
                    node,
                    order,
                    next: found.next,
                    call: found.child.call,
                })?;
                node = found.child.node;
                order = order_in(alloc, ranks, &node)?;
                next = 0;
                if node.at == history.len() {
                    return Ok(Verdict::Linearizable(order_of(alloc, &stack)?));
                }
            }
            None => {
                add::<O>(&mut failed, node)?;
                match stack.pop() {
                    Some(frame) => {
                        node = frame.node;
                        order = frame.order;
                        next = frame.next;
                    }
                    None => return Ok(Verdict::NotLinearizable),
                }
            }
        }
    }
    Ok(Verdict::GaveUp)
}

/// A number that is at least `n`, and greater than `p`.
fn at_least(n: usize, p: usize) -> usize
    requires { p < 65536 }
    ensures kept { n ≤ result }
    ensures greater { p < result }
{
    if p < n { n } else { p + 1 }
}

/// How many processes there are, one more than the greatest; `None` where one is 65,536 or more.
pub(crate) fn processes<I: Drop, R: Drop>(history: &[Event<I, R>]) -> Option<usize>
    ensures some { IfSome result (λ n. IsWithin n history.now) }
    ensures none { IfNone result (¬ (IsWithin 65536 history.now)) }
{
    let mut n = 0;
    for event in history {
        let p = event.process();
        if p >= 65536 {
            return None;
        }
        n = at_least(n, p);
    }
    Some(n)
}

/// Idle slots.
fn idle_slots(alloc: Global, n: usize) -> Result<Vec<Slot>, AllocError>
    ensures idle { IfOk result (λ slots. (p : ℕ) → slot_at slots.items p ≡ Slot.Idle) }
    ensures many { IfOk result (λ slots. length slots.items ≡ n) }
{
    let mut slots = Vec::new(alloc);
    while slots.len() < n {
        slots.push(Slot::Idle)?;
    }
    Ok(slots)
}

/// The node before all events.
pub(crate) fn root_of<O: SeqObject>(
    alloc: Global,
    object: &O,
    n: usize,
) -> Result<Node<O::State>, AllocError>
    ensures reached { IfOk result (λ root. (history : List (Event O.Inv O.Resp)) →
        IsReached (O.sequential object.now) history root []) }
    ensures sound { IfOk result (λ root. (history : List (Event O.Inv O.Resp)) →
        FailsAt (O.sequential object.now) history root → ¬ (IsLinearizable (O.sequential object.now) history)) }
    ensures ordered { IfOk result (λ root. (history : List (Event O.Inv O.Resp)) (places : List ℕ) →
        FailsFor (O.sequential object.now) history (Some places) root.at root.slots.items root.state
        → ¬ (IsOrder (O.sequential object.now) history places)) }
    ensures slots { IfOk result (λ root. length root.slots.items ≡ n) }
    ensures at { IfOk result (λ root. root.at ≡ 0) }
{
    Ok(Node {
        at: 0,
        slots: idle_slots(alloc, n)?,
        state: object.start(alloc)?,
    })
}

/// Whether the history is linearizable, by a search of at most `limit` rounds.
///
/// An `Err` says that memory was refused.
pub(crate) fn search_whole<O: Checkable>(
    alloc: Global,
    object: &O,
    history: &[Event<O::Inv, O::Resp>],
    limit: u64,
) -> Result<Verdict, AllocError>
    ensures { IfOk result (Answers (O.sequential object.now) history.now) }
{
    let Some(n) = processes(history) else {
        return Ok(Verdict::GaveUp);
    };
    let replies = replies(alloc, history, n)?;
    let ranks = O::ranks(alloc, history)?;
    let mut root = root_of(alloc, object, n)?;
    if !advance(object, history, &mut root) {
        return Ok(Verdict::NotLinearizable);
    }
    if root.at == history.len() {
        return Ok(Verdict::Linearizable(Vec::new(alloc)));
    }
    search(alloc, object, history, &replies, &ranks, root, limit)
}
