//! The plan of a run: the calls of each of its processes.

ghost use Rattle.std.specs.Prelude.{◌≡◌, ◌<◌, IfOk};
ghost use Rattle.uni_record.specs.Event.{events_shown};
ghost use Rattle.run_play.specs.Plans.{calls_of, has_one_era, AreCallsOf};

use run_graph::Plan;
use seq_object::SeqObject;
use std::alloc::{AllocError, Global};
use uni_record::{Event, Recorded};

/// Whether no event ends an era.
pub(crate) fn has_one_era<O: SeqObject>(recorded: &Recorded<O>) -> bool
    ensures { result ≡ has_one_era (events_shown recorded.now.events) }
{
    for event in recorded.events() {
        match event {
            Event::Call(..) | Event::Step(_) => {}
            Event::Trim | Event::Reshape(_) => return false,
        }
    }
    true
}

/// The calls of process `p`, in order.
///
/// An `Err` says that memory was refused.
fn calls_of<O: SeqObject>(
    alloc: Global,
    recorded: &Recorded<O>,
    p: u64,
) -> Result<Vec<O::Inv>, AllocError>
    ensures { IfOk result (λ calls. calls.items ≡ calls_of p (events_shown recorded.now.events)) }
{
    let mut calls = Vec::new(alloc);
    for event in recorded.events() {
        if let Event::Call(q, inv) = event {
            if q == p {
                calls.push(O::copy_inv(alloc, inv)?)?;
            }
        }
    }
    Ok(calls)
}

/// The plan of a run.
///
/// An `Err` says that memory was refused.
pub(crate) fn plan_of<O: SeqObject + Copy>(
    alloc: Global,
    recorded: &Recorded<O>,
) -> Result<Plan<O>, AllocError>
    ensures object { IfOk result (λ plan. plan.object ≡ recorded.now.world.object) }
    ensures processes { IfOk result (λ plan. plan.processes ≡ recorded.now.processes) }
    ensures row { IfOk result (λ plan. plan.row ≡ recorded.now.world.row) }
    ensures calls { IfOk result (λ plan. AreCallsOf recorded.now.processes (events_shown recorded.now.events)
        plan.calls.items) }
{
    let mut calls = Vec::new(alloc);
    for p in 0..recorded.processes() {
        calls.push(calls_of(alloc, recorded, p)?)?;
    }
    Ok(Plan {
        object: *recorded.world().object(),
        processes: recorded.processes(),
        row: recorded.world().row(),
        calls,
    })
}
