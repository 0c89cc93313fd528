//! The history of a part of an object.

ghost use Rattle.std.specs.Prelude.{◌≡◌, ◌<◌, IfOk, List, ℕ, length};
ghost use Rattle.lin_check.specs.Histories.{IsWithin, process_of};
ghost use Rattle.lin_check.specs.Parts.{IsPartByPart, part_in, part_of, parts_after};

use crate::checkable::Checkable;
use crate::event::Event;
use std::alloc::{AllocError, Global};

/// A well-formed history of an object that is made of parts is linearizable exactly where the history of each part is
/// (Herlihy and Wing 1990, theorem 1).
pub fn is_part_by_part<O: Checkable>()
    ensures { (object : O) (history : List (Event O.Inv O.Resp)) →
        IsPartByPart (O.sequential object) O.part history }
{}

/// A copy of an event.
pub(crate) fn copied<O: Checkable>(
    alloc: Global,
    event: &Event<O::Inv, O::Resp>,
) -> Result<Event<O::Inv, O::Resp>, AllocError>
    ensures { IfOk result (λ copy. copy ≡ event.now) }
{
    match event {
        Event::Call(p, inv) => Ok(Event::Call(*p, O::copy_inv(alloc, inv)?)),
        Event::Return(p, response) => Ok(Event::Return(*p, *response)),
    }
}

/// The part of an event; notes the part of its process's last call.
fn pass_part<O: Checkable>(event: &Event<O::Inv, O::Resp>, latest: &mut Vec<u64>) -> u64
    requires { process_of event.now < length latest.old.items }
    ensures part { result ≡ part_in O.part event.now latest.old.items }
    ensures latest { latest.new.items ≡ parts_after O.part event.now latest.old.items }
{
    match event {
        Event::Call(p, inv) => {
            let part = O::part_of(inv);
            latest[*p] = part;
            part
        }
        Event::Return(p, _) => latest[*p],
    }
}

/// The history of a part.
///
/// An `Err` says that memory was refused.
pub(crate) fn part_of<O: Checkable>(
    alloc: Global,
    history: &[Event<O::Inv, O::Resp>],
    n: usize,
    part: u64,
) -> Result<Vec<Event<O::Inv, O::Resp>>, AllocError>
    requires { IsWithin n history.now }
    ensures { IfOk result (λ events. events.items ≡ part_of O.part part history.now) }
{
    let mut latest: Vec<u64> = vec![in alloc; 0; n]?;
    let mut events = Vec::new(alloc);
    for event in history {
        if pass_part::<O>(event, &mut latest) == part {
            events.push(copied::<O>(alloc, event)?)?;
        }
    }
    Ok(events)
}
