//! A world of processes that share an object.

ghost use Rattle.std.specs.Prelude.{◌≡◌, ◌≢◌, ◌≤◌, IfOk, OnOk, OnErr, IfErr, IsErrOf};
ghost use Rattle.uni_model.specs.Bound.{IsBounded};
ghost use Rattle.uni_model.specs.Worlds.{opened_world, world_after};
ghost use Rattle.uni_model.specs.Worlds.Event.{Call, Step};
ghost use Rattle.uni_model.specs.Settled.{PlacesBesideAreSettled};
ghost use Rattle.uni_core.specs.World.{world_of, IsSimulated, IsProgress, GoesOn, KeepsFixed};
ghost use Rattle.uni_core.specs.Refusals.{CanOpen, CanCall, CanGo, IsOpenRefused, IsBeginRefused, IsStepRefused};

use crate::fault::{BeginFault, OpenFault, Progress, StepFault};
use crate::local::Local;
use crate::shared::SharedEntries;
use crate::stage::{Pending, Stage};
use crate::transition::Machine;
use seq_object::{CallId, SeqObject};
use std::alloc::Global;
use std::marker::Model;
use uni_model::{MAX_PROCESSES, MAX_ROW, MAX_SEQ};

/// Processes that share an object, of which each takes its steps one at a time.
///
/// A contract sees it through `world_of`, as a world of the definitions.
#[derive(Drop)]
pub struct World<O: SeqObject> {
    pub(crate) machine: Machine<O>,
    pub(crate) row: u64,
    pub(crate) locals: Vec<Local>,
}

impl<O: SeqObject> Model for World<O> {
    ghost use Rattle.uni_core.specs.World.{WorldParts, IsWorld};

    ghost Value = { WorldParts O O.State O.Inv O.Resp };

    ghost view = { λ w. record {
      object = w.machine.object;
      row = w.row;
      shared = w.machine.shared;
      locals = w.locals.items;
    } };

    ghost invariant = { λ w. IsWorld (O.sequential w.machine.object)
        (record { object = w.machine.object; row = w.row; shared = w.machine.shared; locals = w.locals.items }) };
}

/// Whether a world of `n` processes with rows of `k` calls can be opened from number `seq`. It takes no memory.
///
/// Errors, in this order: `BadCount` where `n` isn't from 1 to 64; `BadRow` where `k` isn't from 1 to 4096; `SeqFull`
/// where `seq + n * k` passes 2^48 - 1. `Memory` never comes.
pub fn counts_fit(n: u64, k: u64, seq: u64) -> Result<(), OpenFault>
    ensures refused { IfErr result (IsOpenRefused n k seq) }
    ensures other { IfErr result (λ e. e ≢ OpenFault.Memory) }
    ensures allowed { OnOk result (CanOpen n k seq) }
{
    if n < 1 || n > MAX_PROCESSES {
        return Err(OpenFault::BadCount);
    }
    if k < 1 || k > MAX_ROW {
        return Err(OpenFault::BadRow);
    }
    if seq > MAX_SEQ - n * k {
        return Err(OpenFault::SeqFull);
    }
    Ok(())
}

impl<O: SeqObject> World<O> {
    /// A world of `n` processes over the object's start state. The first cell of its list, the anchor, has the number 1;
    /// each process can make `k` calls in an era, which lasts until a trim cuts the list down to its last cell.
    ///
    /// Errors, in this order: `BadCount` where `n` isn't from 1 to 64; `BadRow` where `k` isn't from 1
    /// to 4096; `SeqFull` never, since 1 is low enough; `Memory`, where memory was refused (in no clause: by the clauses
    /// it may come wherever no other error does). After each the object is dropped.
    pub fn open(alloc: Global, object: O, n: u64, k: u64) -> Result<World<O>, OpenFault>
        ensures refused { IfErr result (IsOpenRefused n k 1) }
        ensures allowed { OnOk result (CanOpen n k 1) }
        ensures fits { IsErrOf result OpenFault.SeqFull → ⊥ }
        ensures opened { IfOk result (λ w. world_of w ≡ opened_world n ((O.sequential object).initial) 1) }
        ensures fixed { IfOk result (λ w. (w.object ≡ object) × (w.row ≡ k)) }
    {
        World::open_from(alloc, object, n, k, 1)
    }

    /// What `open` does, with an anchor of number `seq`, which is at least 1.
    ///
    /// Errors, in this order: `BadCount` where `n` isn't from 1 to 64; `BadRow` where `k` isn't from 1
    /// to 4096; `SeqFull` where `seq + n * k` passes 2^48 - 1; `Memory`, as of `open`. After each the object is
    /// dropped.
    pub fn open_from(
        alloc: Global,
        object: O,
        n: u64,
        k: u64,
        seq: u64,
    ) -> Result<World<O>, OpenFault>
        requires { 1 ≤ seq }
        ensures refused { IfErr result (IsOpenRefused n k seq) }
        ensures allowed { OnOk result (CanOpen n k seq) }
        ensures opened { IfOk result (λ w. world_of w ≡ opened_world n ((O.sequential object).initial) seq) }
        ensures fixed { IfOk result (λ w. (w.object ≡ object) × (w.row ≡ k)) }
    {
        counts_fit(n, k, seq)?;
        let Ok(state) = object.start(alloc) else {
            return Err(OpenFault::Memory);
        };
        World::open_at(alloc, object, n, k, state, seq)
    }

    /// A world of `n` processes over a state, with an anchor of number `seq`, which is at least 1; each process can
    /// make `k` calls in an era.
    ///
    /// Errors, in this order: `BadCount` where `n` isn't from 1 to 64; `BadRow` where `k` isn't from 1
    /// to 4096; `SeqFull` where `seq + n * k` passes 2^48 - 1; `Memory`, as of `open`. After each the object and the
    /// state are dropped.
    pub fn open_at(
        alloc: Global,
        object: O,
        n: u64,
        k: u64,
        state: O::State,
        seq: u64,
    ) -> Result<World<O>, OpenFault>
        requires { 1 ≤ seq }
        ensures refused { IfErr result (IsOpenRefused n k seq) }
        ensures allowed { OnOk result (CanOpen n k seq) }
        ensures opened { IfOk result (λ w. world_of w ≡ opened_world n state seq) }
        ensures fixed { IfOk result (λ w. (w.object ≡ object) × (w.row ≡ k)) }
    {
        counts_fit(n, k, seq)?;
        let Ok(locals) = vec![in alloc; Local::new(); n as usize] else {
            return Err(OpenFault::Memory);
        };
        let Ok(shared) = SharedEntries::opened(alloc, n, k, state, seq) else {
            return Err(OpenFault::Memory);
        };
        Ok(World {
            machine: Machine { object, shared },
            row: k,
            locals,
        })
    }

    /// Process `p` begins a call: it makes a cell that no other process knows yet. The answer names
    /// the call.
    ///
    /// Errors, in this order: `BadProcess` where there is no process `p`; `Busy(p)` where it has a
    /// call pending; `RowFull(p)` where it has made as many calls in this era as a row has; `Memory`
    /// only where the copy of the invocation was refused memory, since the cells of an era are
    /// reserved when it opens (in no clause: by the clauses `Memory` may come of any call that could begin). After each
    /// nothing is changed.
    pub fn begin(&mut self, alloc: Global, p: u64, inv: &O::Inv) -> Result<CallId, BeginFault>
        ensures refused { IfErr result (IsBeginRefused (world_of self.old) self.old.row p) }
        ensures allowed { OnOk result (CanCall (world_of self.old) self.old.row p) }
        ensures id { IfOk result (λ call. (call.process ≡ p) × (call.nth ≡ (world_of self.old).begun p)) }
        ensures begun { OnOk result (world_of self.new
            ≡ world_after (O.sequential self.old.object) (world_of self.old) (Call p inv.now)) }
        ensures simulated { OnOk result (IsSimulated (O.sequential self.old.object) (world_of self.old)
            (Call p inv.now)) }
        ensures fixed { KeepsFixed self.old self.new }
        ensures unchanged { OnErr result (self.new ≡ self.old) }
    {
        let n = self.machine.shared.processes();
        if p >= n {
            return Err(BeginFault::BadProcess);
        }
        let local = self.locals[p as usize];
        if local.call.is_some() {
            return Err(BeginFault::Busy(p));
        }
        if self.machine.shared.room(p) == 0 {
            return Err(BeginFault::RowFull(p));
        }
        let Ok(inv) = O::copy_inv(alloc, inv) else {
            return Err(BeginFault::Memory);
        };
        let mine = self.machine.shared.make(alloc, p, inv);
        self.locals[p as usize] = Local {
            call: Some(Pending {
                mine,
                stage: Stage::Announce,
            }),
            begun: local.begun + 1,
            among: n,
            steps: 0,
            turns: 0,
        };
        Ok(CallId {
            process: p as u32,
            nth: local.begun,
        })
    }

    /// Process `p` takes the next step of its pending call: the world is the model's next one, in which one shared
    /// place is touched (`step`). The process's calls stay within the bound (`bounded`). The places that the model's
    /// step reads beside that one are settled (`beside`, a fact of the world before); which memory the code reads is in
    /// no clause. Of an `Ok`, `step` and `progress` say all that it does to the world, `allowed` when it can come, and
    /// `fixed` that the object and the row stay; `pending`, `simulated`, `bounded` and `beside` follow, with what every
    /// world keeps.
    ///
    /// Errors, in this order: `BadProcess` where there is no process `p`; `Idle(p)` where it has no
    /// call pending; `Memory`, only at the step that decides the state and the response of a cell
    /// that has none yet, where the object's apply was refused memory (that it was is in no clause: by the clauses
    /// `Memory` may come at each such step). After each nothing is changed, and the step may be asked again.
    pub fn step(&mut self, alloc: Global, p: u64) -> Result<Progress<O::Resp>, StepFault>
        ensures refused { IfErr result (IsStepRefused (world_of self.old) p) }
        ensures allowed { OnOk result (CanGo (world_of self.old) p) }
        ensures step { OnOk result (world_of self.new
            ≡ world_after (O.sequential self.old.object) (world_of self.old) (Step p)) }
        ensures progress { IfOk result (IsProgress (world_of self.old) p) }
        ensures pending { IfOk result (GoesOn (world_of self.new) p) }
        ensures simulated { OnOk result (IsSimulated (O.sequential self.old.object) (world_of self.old) (Step p)) }
        ensures bounded { OnOk result (IsBounded (world_of self.new)) }
        ensures beside { OnOk result (PlacesBesideAreSettled (world_of self.old) p) }
        ensures fixed { KeepsFixed self.old self.new }
        ensures unchanged { OnErr result (self.new ≡ self.old) }
    {
        if p >= self.machine.shared.processes() {
            return Err(StepFault::BadProcess);
        }
        let local = &mut self.locals[p as usize];
        let Some(call) = local.call.as_mut() else {
            return Err(StepFault::Idle(p));
        };
        let Ok(response) = self.machine.take_step(alloc, p, call.mine, &mut call.stage) else {
            return Err(StepFault::Memory);
        };
        local.advance(response.is_some());
        Ok(match response {
            None => Progress::Going,
            Some(response) => Progress::Done(response),
        })
    }
}
