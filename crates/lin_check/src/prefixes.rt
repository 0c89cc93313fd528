//! The longest prefix that is linearizable.

ghost use Rattle.std.specs.Prelude.{◌≡◌, ◌+◌, ◌<◌, ◌≤◌, IfOk, IfSome, length, take};
ghost use Rattle.lin_check.specs.Verdicts.{IsLinearizable};

use crate::checkable::Checkable;
use crate::checking::check;
use crate::event::Event;
use crate::search::Verdict;
use std::alloc::{AllocError, Global};

/// How many events of a history can come before it stops being linearizable: the first k events are linearizable, and
/// the first k + 1 are not. `None` where a search on the way gave up. An `Err` says that memory was refused.
pub fn good_prefix<O: Checkable>(
    alloc: Global,
    object: &O,
    history: &[Event<O::Inv, O::Resp>],
    limit: u64,
) -> Result<Option<usize>, AllocError>
    requires { ¬ (IsLinearizable (O.sequential object.now) history.now) }
    ensures within { IfOk result (λ found. IfSome found (λ k. k < length history.now)) }
    ensures good { IfOk result (λ found. IfSome found (λ k.
        IsLinearizable (O.sequential object.now) (take k history.now))) }
    ensures bad { IfOk result (λ found. IfSome found (λ k.
        ¬ (IsLinearizable (O.sequential object.now) (take (k + 1) history.now)))) }
{
    let mut good = 0;
    let mut bad = history.len();
    while good + 1 < bad {
        let middle = good + (bad - good) / 2;
        match check(alloc, object, &history[..middle], limit)? {
            Verdict::Linearizable(_) => good = middle,
            Verdict::NotLinearizable => bad = middle,
            Verdict::GaveUp => return Ok(None),
        }
    }
    Ok(Some(good))
}
