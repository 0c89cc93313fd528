//! Whether a history is linearizable: by a guess, by its parts, or by a search.

ghost use Rattle.std.specs.Prelude.{IfOk};
ghost use Rattle.lin_check.specs.Histories.{IsWithin};
ghost use Rattle.lin_check.specs.Verdicts.{Answers};

use crate::checkable::Checkable;
use crate::cut::{cut, in_turn, is_of_one_part};
use crate::event::Event;
use crate::ordered::{OrderVerdict, check_order};
use crate::part::part_of;
use crate::search::{Verdict, processes, search_whole};
use std::alloc::{AllocError, Global};

/// Whether an order is right: then it is the answer.
fn confirmed<O: Checkable>(
    alloc: Global,
    object: &O,
    history: &[Event<O::Inv, O::Resp>],
    order: Vec<usize>,
) -> Result<Verdict, AllocError>
    ensures { IfOk result (Answers (O.sequential object.now) history.now) }
{
    match check_order(alloc, object, history, order.as_slice())? {
        OrderVerdict::Right => Ok(Verdict::Linearizable(order)),
        _ => Ok(Verdict::GaveUp),
    }
}

/// Whether the history is linearizable, by a guess or a search of the whole.
fn check_whole<O: Checkable>(
    alloc: Global,
    object: &O,
    history: &[Event<O::Inv, O::Resp>],
    limit: u64,
) -> Result<Verdict, AllocError>
    ensures { IfOk result (Answers (O.sequential object.now) history.now) }
{
    if let Some(order) = O::guess(alloc, history)? {
        if let Verdict::Linearizable(order) = confirmed(alloc, object, history, order)? {
            return Ok(Verdict::Linearizable(order));
        }
    }
    search_whole(alloc, object, history, limit)
}

/// Not linearizable, where this part isn't.
fn refuted_by<O: Checkable>(
    alloc: Global,
    object: &O,
    history: &[Event<O::Inv, O::Resp>],
    n: usize,
    part: u64,
    limit: u64,
) -> Result<Verdict, AllocError>
    requires { IsWithin n history.now }
    ensures { IfOk result (Answers (O.sequential object.now) history.now) }
{
    let events = part_of::<O>(alloc, history, n, part)?;
    match check_whole(alloc, object, events.as_slice(), limit)? {
        Verdict::NotLinearizable => Ok(Verdict::NotLinearizable),
        _ => Ok(Verdict::GaveUp),
    }
}

/// Whether the history is linearizable, by its parts: one that isn't refutes the whole, and their orders make one of
/// the whole. Where that is wrong, as in an ill-formed history, the whole is searched.
fn check_parts<O: Checkable>(
    alloc: Global,
    object: &O,
    history: &[Event<O::Inv, O::Resp>],
    n: usize,
    limit: u64,
) -> Result<Verdict, AllocError>
    requires { IsWithin n history.now }
    ensures { IfOk result (Answers (O.sequential object.now) history.now) }
{
    let parts = cut::<O>(alloc, history)?;
    let mut points = Vec::new(alloc);
    let mut gave_up = false;
    for part in &parts {
        match check_whole(alloc, object, part.events.as_slice(), limit)? {
            Verdict::Linearizable(order) => part.add_points(&mut points, order.as_slice())?,
            Verdict::NotLinearizable => {
                return refuted_by(alloc, object, history, n, part.number, limit);
            }
            Verdict::GaveUp => gave_up = true,
        }
    }
    if gave_up {
        return Ok(Verdict::GaveUp);
    }
    match confirmed(alloc, object, history, in_turn(alloc, points)?)? {
        Verdict::Linearizable(order) => Ok(Verdict::Linearizable(order)),
        _ => check_whole(alloc, object, history, limit),
    }
}

/// Whether the history is linearizable: an order of its calls, or that there is none, or that the judge gave up. It is
/// judged from the object's start state; a pending call that the order doesn't name never takes effect.
///
/// The object's guess is checked first; then comes a search, of at most `limit` rounds. Where calls are of several
/// parts, each part is judged so, and the whole too where the orders of the parts make none of it: each search has its
/// own `limit`. A history that isn't well-formed isn't linearizable. It gives up past the limit, and where a process is
/// 65,536 or more: that it does for no other reason is in no clause, so a judge that always gave up would meet it. An
/// `Err` says that memory was refused.
pub fn check<O: Checkable>(
    alloc: Global,
    object: &O,
    history: &[Event<O::Inv, O::Resp>],
    limit: u64,
) -> Result<Verdict, AllocError>
    ensures { IfOk result (Answers (O.sequential object.now) history.now) }
{
    let Some(n) = processes(history) else {
        return Ok(Verdict::GaveUp);
    };
    if is_of_one_part::<O>(history) {
        check_whole(alloc, object, history, limit)
    } else {
        check_parts(alloc, object, history, n, limit)
    }
}
