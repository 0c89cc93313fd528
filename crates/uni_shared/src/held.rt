//! All that one hold of the lock does: at most one event.

ghost use Rattle.std.specs.Prelude.{◌≡◌, ◌≢◌, ◌<◌, ◌↔◌, ◌++◌, ◌∷◌, [], IfOk, IfErr};
ghost use Rattle.std.specs.Prelude.{OnErr, OnOk, IsErrOf, IsSome, Some, None};
ghost use Rattle.uni_model.specs.Worlds.{world_after};
ghost use Rattle.uni_model.specs.Worlds.{Event as model};
ghost use Rattle.uni_core.specs.World.{world_of, current_of, MayNeedMemory};
ghost use Rattle.uni_core.specs.Ends.{last_number};
ghost use Rattle.uni_record.specs.declared.event.Event.TheVariants as event;
ghost use Rattle.uni_record.specs.Recorded.{KeepsOpening};
ghost use Rattle.uni_record.specs.Refusals.{standing_of, CanBegin, CanEnd, IsBeginRefused, IsEndRefused};
ghost use Rattle.uni_shared.specs.Held.{Replies, Tells};

use seq_object::{CallId, SeqObject};
use std::alloc::Global;
use thiserror::Error;
use uni_core::{Place, Progress};
use uni_record::{RecordBeginFault, RecordTrimFault, Recorded};

/// What a hold of the lock leaves of a call.
#[derive(Clone, Copy, Debug)]
pub struct Held<R> {
    /// The call.
    pub call: CallId,
    /// Its reply, where it ended in this hold.
    pub reply: Option<R>,
    /// How many own steps it has taken.
    pub steps: u64,
    /// How many turns it has taken.
    pub turns: u64,
    /// The place that its next step touches; `None` where it has ended.
    pub place: Option<Place>,
}

/// Why a hold took no step. Where both hold, the first is told.
#[derive(Clone, Copy, Debug, PartialEq, Eq, Error)]
pub enum StepHeldFault {
    /// The call isn't its process's pending one.
    #[error("the call isn't its process's pending one")]
    NotIts,
    /// Memory was refused to the object.
    #[error("out of memory")]
    Memory,
}

/// What a record says of a call's process, beside the call and its reply.
fn told<O: SeqObject>(recorded: &Recorded<O>, call: CallId, reply: Option<O::Resp>) -> Held<O::Resp>
    requires { call.process < (world_of recorded.now.world).n }
    ensures call { result.call ≡ call }
    ensures reply { result.reply ≡ reply }
    ensures tells { Tells (world_of recorded.now.world) call.process result }
{
    let world = recorded.world();
    let p = u64::from(call.process);
    Held {
        call,
        reply,
        steps: world.steps(p),
        turns: world.turns(p),
        place: world.next_place(p),
    }
}

/// Process `p` begins a call, which is one event: `Recorded::begin`. The answer names the call, and
/// tells of its process what the record says then.
///
/// Errors: those of `Recorded::begin`. After each the record is as it was.
pub fn begin_held<O: SeqObject>(
    alloc: Global,
    recorded: &mut Recorded<O>,
    p: u64,
    inv: &O::Inv,
) -> Result<Held<O::Resp>, RecordBeginFault>
    ensures refused { IfErr result (IsBeginRefused (standing_of recorded.old) p) }
    ensures allowed { OnOk result (CanBegin (standing_of recorded.old) p) }
    ensures call { IfOk result (λ held. (held.call.process ≡ p)
        × (held.call.nth ≡ (world_of recorded.old.world).begun p)) }
    ensures reply { IfOk result (λ held. held.reply ≡ None) }
    ensures tells { IfOk result (λ held. Tells (world_of recorded.new.world) p held) }
    ensures place { IfOk result (λ held. IsSome held.place) }
    ensures event { OnOk result (recorded.new.events ≡ recorded.old.events ++ event.Call p inv.now ∷ []) }
    ensures begun { OnOk result (world_of recorded.new.world
        ≡ world_after (O.sequential recorded.old.world.object) (world_of recorded.old.world) (model.Call p inv.now)) }
    ensures fixed { KeepsOpening recorded.old recorded.new }
    ensures unchanged { OnErr result (recorded.new ≡ recorded.old) }
{
    let call = recorded.begin(alloc, p, inv)?;
    Ok(told(recorded, call, None))
}

/// The process of a call takes the call's next step, which is one event: `Recorded::step`. The answer
/// has the call's reply where that was its last step, and tells of its process what the record says
/// then.
///
/// Errors, in this order: `NotIts` where the call isn't its process's pending one, or there is no such
/// process; `Memory` only at a step that decides a state, where the object's apply was refused it (that it was is in no
/// clause). After each the record is as it was.
pub fn step_held<O: SeqObject>(
    alloc: Global,
    recorded: &mut Recorded<O>,
    call: CallId,
) -> Result<Held<O::Resp>, StepHeldFault>
    ensures not_its { IsErrOf result StepHeldFault.NotIts
        ↔ (current_of (world_of recorded.old.world) call.process ≢ Some call) }
    ensures memory { IsErrOf result StepHeldFault.Memory → MayNeedMemory (world_of recorded.old.world) call.process }
    ensures allowed { OnOk result (current_of (world_of recorded.old.world) call.process ≡ Some call) }
    ensures call { IfOk result (λ held. held.call ≡ call) }
    ensures reply { IfOk result (Replies (world_of recorded.old.world) call) }
    ensures tells { IfOk result (λ held. Tells (world_of recorded.new.world) call.process held) }
    ensures event { OnOk result (recorded.new.events ≡ recorded.old.events ++ event.Step call.process ∷ []) }
    ensures step { OnOk result (world_of recorded.new.world
        ≡ world_after (O.sequential recorded.old.world.object) (world_of recorded.old.world)
        (model.Step call.process)) }
    ensures fixed { KeepsOpening recorded.old recorded.new }
    ensures unchanged { OnErr result (recorded.new ≡ recorded.old) }
{
    recorded.world().shape();
    let p = u64::from(call.process);
    if p >= recorded.world().processes() {
        return Err(StepHeldFault::NotIts);
    }
    let Some(now) = recorded.world().current(p) else {
        return Err(StepHeldFault::NotIts);
    };
    if now.nth != call.nth {
        return Err(StepHeldFault::NotIts);
    }
    match recorded.step(alloc, p) {
        Ok(Progress::Going) => Ok(told(recorded, call, None)),
        Ok(Progress::Done(reply)) => Ok(told(recorded, call, Some(reply))),
        Err(_) => Err(StepHeldFault::Memory),
    }
}

/// Ends the era, which is one event: `Recorded::trim`. The answer is the number of the new anchor.
///
/// Errors: those of `Recorded::trim`. After each the record is as it was.
pub fn trim_held<O: SeqObject>(
    alloc: Global,
    recorded: &mut Recorded<O>,
) -> Result<u64, RecordTrimFault>
    ensures refused { IfErr result (IsEndRefused (standing_of recorded.old) (world_of recorded.old.world).n) }
    ensures allowed { OnOk result (CanEnd (standing_of recorded.old) (world_of recorded.old.world).n) }
    ensures number { IfOk result (λ number. number ≡ last_number (world_of recorded.old.world)) }
    ensures event { OnOk result (recorded.new.events ≡ recorded.old.events ++ event.Trim ∷ []) }
    ensures trimmed { OnOk result (world_of recorded.new.world
        ≡ world_after (O.sequential recorded.old.world.object) (world_of recorded.old.world) model.Trim) }
    ensures fixed { KeepsOpening recorded.old recorded.new }
    ensures unchanged { OnErr result (recorded.new ≡ recorded.old) }
{
    recorded.trim(alloc)
}
