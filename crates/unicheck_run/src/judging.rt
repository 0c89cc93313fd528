//! What is found of a history.

ghost use Rattle.std.specs.Prelude.{◌≡◌, IfOk};
ghost use Rattle.unicheck_run.specs.Found.{IsFound};

use crate::watch::{Stage, Watch};
use judged_objects::Worded;
use lin_check::{Event, Verdict, check, good_prefix};
use std::alloc::{AllocError, Global};

/// What is found of a history.
#[derive(Drop)]
pub enum Finding {
    /// It is linearizable, and its calls take effect in this order. A call is named by the place of its event.
    Linearizable(Vec<usize>),
    /// It is not: with the event at this place no order is left. `None` where a search for that gave up.
    NotLinearizable(Option<usize>),
    /// Neither was found.
    GaveUp,
}

/// Judges a history, in at most so many rounds of each search, and tells how far it is.
///
/// An `Err` says that memory was refused.
pub fn judge<O: Worded, P: Watch>(
    alloc: Global,
    object: &O,
    history: &[Event<O::Inv, O::Resp>],
    rounds: u64,
    watch: &P,
) -> Result<Finding, AllocError>
    ensures { IfOk result (IsFound (O.sequential object.now) history.now) }
{
    watch.comes_to(Stage::Order(history.len()));
    let verdict = check(alloc, object, history, rounds)?;
    match verdict {
        Verdict::Linearizable(order) => Ok(Finding::Linearizable(order)),
        Verdict::NotLinearizable => {
            watch.comes_to(Stage::FirstBad);
            let first = good_prefix(alloc, object, history, rounds)?;
            Ok(Finding::NotLinearizable(first))
        }
        Verdict::GaveUp => Ok(Finding::GaveUp),
    }
}
