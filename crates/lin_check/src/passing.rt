//! Events that leave no choice.

ghost use Rattle.std.specs.Prelude.{◌≡◌, ◌<◌, ◌≤◌, false, length, true};
ghost use Rattle.lin_check.specs.Histories.{IsWithin, process_of};
ghost use Rattle.lin_check.specs.Search.{IsReady, IsDead, Passes, passing_of, slots_after};

use crate::event::Event;
use crate::node::{Node, Slot};
use seq_object::SeqObject;

/// What an event does to what a search knows.
#[derive(Clone, Copy, Debug, PartialEq, Eq)]
pub(crate) enum Passing {
    /// It passes.
    Passed,
    /// It is the return of a call that has not taken effect: there is a choice.
    Stops,
    /// It can't come.
    Dead,
}

/// Passes an event, where it leaves no choice.
fn pass<I: Drop, R: Drop>(event: &Event<I, R>, at: usize, slots: &mut Vec<Slot>) -> Passing
    requires { process_of event.now < length slots.old.items }
    ensures passing { result ≡ passing_of event.now slots.old.items }
    ensures slots { slots.new.items ≡ slots_after at event.now slots.old.items }
{
    match event {
        Event::Call(p, _) => match slots[*p] {
            Slot::Idle => {
                slots[*p] = Slot::Open(at);
                Passing::Passed
            }
            _ => Passing::Dead,
        },
        Event::Return(p, _) => match slots[*p] {
            Slot::Done => {
                slots[*p] = Slot::Idle;
                Passing::Passed
            }
            Slot::Open(_) => Passing::Stops,
            Slot::Idle => Passing::Dead,
        },
    }
}

/// Passes events up to a choice or the end. The answer is whether they can come.
pub(crate) fn advance<O: SeqObject>(
    object: &O,
    history: &[Event<O::Inv, O::Resp>],
    node: &mut Node<O::State>,
) -> bool
    requires within { IsWithin (length node.old.slots.items) history.now }
    requires at { node.old.at ≤ length history.now }
    ensures dead { result ≡ false → IsDead (O.sequential object.now) history.now node.old }
    ensures passes { result ≡ true → Passes (O.sequential object.now) history.now node.old node.new }
    ensures ready { result ≡ true → IsReady history.now node.new }
    ensures slots { length node.new.slots.items ≡ length node.old.slots.items }
{
    while node.at < history.len() {
        match pass(&history[node.at], node.at, &mut node.slots) {
            Passing::Passed => node.at += 1,
            Passing::Stops => return true,
            Passing::Dead => return false,
        }
    }
    true
}
