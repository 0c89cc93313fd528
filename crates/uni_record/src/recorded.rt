//! A world with the list of its events.

ghost use Rattle.std.specs.Prelude.{◌≡◌, ◌+◌, ◌*◌, ◌<◌, ◌≤◌, ◌↔◌, ◌^◌, ◌⊎◌};
ghost use Rattle.std.specs.Prelude.{◌++◌, ◌∷◌, [], IfOk, IfErr, OnErr, OnOk, IsErrOf, length};
ghost use Rattle.uni_model.specs.Worlds.{world_after};
ghost use Rattle.uni_model.specs.Worlds.{Event as model};
ghost use Rattle.uni_core.specs.World.{world_of, IsProgress};
ghost use Rattle.uni_core.specs.Refusals.{CanGo};
ghost use Rattle.uni_record.specs.declared.event.Event.TheVariants as event;
ghost use Rattle.uni_record.specs.Recorded.{share, set_aside, untrimmed_world, KeepsOpening, HasOpened};
ghost use Rattle.uni_record.specs.Refusals.{standing_of};
ghost use Rattle.uni_record.specs.Refusals.{CanRecord, IsOpenRefused, CanBegin, IsBeginRefused, IsStepRefused};
ghost use Rattle.uni_record.specs.Recorded.{IsPromised};

use crate::counts::Counts;
use crate::event::Event;
use crate::events::PackedEvents;
use crate::fault::{RecordBeginFault, RecordOpenFault, RecordStepFault};
use crate::room::{is_history, make_room, set_aside};
use seq_object::{CallId, SeqObject};
use std::alloc::Global;
use std::marker::Model;
use uni_audit::Return;
use uni_core::{Progress, World, counts_fit};
use uni_log::Entry;

/// A world and the stored list of its events: the world is the replay of the events from its opening.
///
/// A contract sees it as a `Recording`; `promise` tells what every record keeps.
#[derive(Drop)]
pub struct Recorded<O: SeqObject> {
    pub(crate) world: World<O>,
    pub(crate) processes: u64,
    pub(crate) first: u64,
    pub(crate) limit: u64,
    pub(crate) events: PackedEvents<O::Inv>,
    pub(crate) returns: Vec<Return<O::Resp>>,
    pub(crate) counts: Vec<Counts>,
    pub(crate) ended: Vec<Entry<O::Inv, O::Resp>>,
}

impl<O: SeqObject> Model for Recorded<O> {
    ghost use Rattle.std.specs.Prelude.{length, vec_capacity};
    ghost use Rattle.uni_core.specs.World.{world_of};
    ghost use Rattle.uni_record.specs.Recorded.{Recording, IsRecording, HasRoom};

    ghost Value = { Recording O O.State O.Inv O.Resp };

    ghost view = { λ r. record {
      world = r.world;
      processes = r.processes;
      first = r.first;
      limit = r.limit;
      events = r.events.events;
      returns = r.returns.items;
      counts = r.counts.items;
      ended = r.ended.items;
    } };

    ghost invariant = { λ r. IsRecording O.sequential
        (record {
          world = r.world;
          processes = r.processes;
          first = r.first;
          limit = r.limit;
          events = r.events.events;
          returns = r.returns.items;
          counts = r.counts.items;
          ended = r.ended.items;
        })
        × HasRoom (world_of r.world) (length r.events.events) r.events.room (length r.returns.items)
        (vec_capacity r.returns) (length r.counts.items) (vec_capacity r.counts) };
}

impl<O: SeqObject> Recorded<O> {
    /// What `open_at` does, from number 1. `SeqFull` never comes, since 1 is low enough.
    pub fn open(
        alloc: Global,
        object: O,
        n: u64,
        k: u64,
        h: u64,
    ) -> Result<Recorded<O>, RecordOpenFault>
        ensures refused { IfErr result (IsOpenRefused n k 1 h) }
        ensures allowed { OnOk result (CanRecord n k 1 h) }
        ensures numbers { IsErrOf result RecordOpenFault.SeqFull → ⊥ }
        ensures opened { IfOk result (HasOpened O.sequential object n k 1 h) }
    {
        Recorded::open_at(alloc, object, n, k, 1, h)
    }

    /// A world of `n` processes over the object's start state, from number `seq`, which is at least 1,
    /// with no event; each process can make `k` calls in an era, and there can be `h` events.
    ///
    /// Errors, in this order: `BadCount` where `n` isn't from 1 to 64; `BadRow` where `k` isn't from 1
    /// to 4096; `SeqFull` where `seq + n * k` passes 2^48 - 1; `BadHistory` where `h` isn't from 1 to
    /// 16,777,216; `Memory`, which is asked for last (in no clause: by the clauses it may come wherever no other error
    /// does). After each the object is dropped. Room for `h` events isn't reserved.
    pub fn open_at(
        alloc: Global,
        object: O,
        n: u64,
        k: u64,
        seq: u64,
        h: u64,
    ) -> Result<Recorded<O>, RecordOpenFault>
        requires { 1 ≤ seq }
        ensures refused { IfErr result (IsOpenRefused n k seq h) }
        ensures allowed { OnOk result (CanRecord n k seq h) }
        ensures opened { IfOk result (HasOpened O.sequential object n k seq h) }
    {
        counts_fit(n, k, seq)?;
        if !is_history(h) {
            return Err(RecordOpenFault::BadHistory);
        }
        let world = World::open_from(alloc, object, n, k, seq)?;
        Ok(Recorded {
            world,
            processes: n,
            first: seq,
            limit: h,
            events: PackedEvents::new(alloc),
            returns: Vec::new(alloc),
            counts: Vec::new(alloc),
            ended: Vec::new(alloc),
        })
    }

    /// Process `p` begins a call: `World::begin`, whose event is stored. It sets aside `10 n + 13`
    /// events, its own among them, and makes the room of all that its call's steps and its return will
    /// store. Without the trims among the events the call has the same number (`untrimmed`).
    ///
    /// Errors, in this order: `BadProcess` where there is no process `p`; `Busy(p)` where it has a call
    /// pending; `RowFull(p)` where it has made as many calls in this era as a row has; `HistoryFull`
    /// where the stored events, those that pending calls still have set aside, and `10 n + 13` are more
    /// than the history can have; `Memory`. After each nothing is changed.
    pub fn begin(&mut self, alloc: Global, p: u64, inv: &O::Inv) -> Result<CallId, RecordBeginFault>
        ensures refused { IfErr result (IsBeginRefused (standing_of self.old) p) }
        ensures allowed { OnOk result (CanBegin (standing_of self.old) p) }
        ensures id { IfOk result (λ call. (call.process ≡ p) × (call.nth ≡ (world_of self.old.world).begun p)) }
        ensures event { OnOk result (self.new.events ≡ self.old.events ++ event.Call p inv.now ∷ []) }
        ensures begun { OnOk result (world_of self.new.world
            ≡ world_after (O.sequential self.old.world.object) (world_of self.old.world) (model.Call p inv.now)) }
        ensures untrimmed { IfOk result (λ call. call.nth ≡ (untrimmed_world O.sequential self.old).begun p) }
        ensures promised { OnOk result (IsPromised O.sequential self.new) }
        ensures fixed { KeepsOpening self.old self.new }
        ensures unchanged { OnErr result (self.new ≡ self.old) }
    {
        self.promise();
        self.world.shape();
        let more = self.room_of_call(p)?;
        let n = self.world.processes();
        let Ok(copy) = O::copy_inv(alloc, inv) else {
            return Err(RecordBeginFault::Memory);
        };
        let Ok(()) = self.events.reserve_call(more) else {
            return Err(RecordBeginFault::Memory);
        };
        let Ok(()) = make_room(&mut self.returns, &mut self.counts, n) else {
            return Err(RecordBeginFault::Memory);
        };
        let Ok(call) = self.world.begin(alloc, p, inv) else {
            return Err(RecordBeginFault::Memory);
        };
        self.events.push(Event::Call(p, copy));
        self.promise();
        Ok(call)
    }

    /// Events for which there has to be room where process `p` begins a call: at least those that are set
    /// aside, and the call's. Pending calls are gone over only where what all processes could set aside
    /// passes the limit or the room. Errors: those of `begin`, but for `Memory`.
    fn room_of_call(&self, p: u64) -> Result<u64, RecordBeginFault>
        ensures refused { IfErr result (IsBeginRefused (standing_of self.now) p) }
        ensures allowed { OnOk result (CanBegin (standing_of self.now) p) }
        ensures room { IfOk result (λ more. set_aside (world_of self.now.world) + share (world_of self.now.world).n
            ≤ more) }
    {
        self.world.shape();
        let n = self.world.processes();
        if p >= n {
            return Err(RecordBeginFault::BadProcess);
        }
        if self.world.current(p).is_some() {
            return Err(RecordBeginFault::Busy(p));
        }
        if self.world.calls_in_era(p) == self.world.row() {
            return Err(RecordBeginFault::RowFull(p));
        }
        let stored = self.events.len() as u64;
        let most = n * (10 * n + 12) + 10 * n + 13;
        if stored + most <= self.limit && stored + most <= self.events.room() as u64 {
            return Ok(most);
        }
        let more = set_aside(&self.world) + 10 * n + 13;
        if self.limit < stored + more {
            return Err(RecordBeginFault::HistoryFull);
        }
        Ok(more)
    }

    /// Process `p` takes the next step of its pending call: `World::step`, whose event is stored, and
    /// the call's return where it is the last one. It takes no memory for them, since `begin` has made
    /// their room (in no clause). Without the trims among the events it answers the same (`untrimmed`).
    ///
    /// Errors, in this order: `BadProcess` where there is no process `p`; `Idle(p)` where it has no
    /// call pending; `Memory`, only at a step that decides a state, where the object's apply was refused it (that it
    /// was is in no clause). After each nothing is changed. The history is never too full for a step, by the bound of
    /// own steps.
    pub fn step(&mut self, alloc: Global, p: u64) -> Result<Progress<O::Resp>, RecordStepFault>
        ensures refused { IfErr result (IsStepRefused (standing_of self.old) p) }
        ensures allowed { OnOk result (CanGo (world_of self.old.world) p) }
        ensures event { OnOk result (self.new.events ≡ self.old.events ++ event.Step p ∷ []) }
        ensures step { OnOk result (world_of self.new.world
            ≡ world_after (O.sequential self.old.world.object) (world_of self.old.world) (model.Step p)) }
        ensures progress { IfOk result (IsProgress (world_of self.old.world) p) }
        ensures untrimmed { IfOk result (IsProgress (untrimmed_world O.sequential self.old) p) }
        ensures promised { OnOk result (IsPromised O.sequential self.new) }
        ensures fixed { KeepsOpening self.old self.new }
        ensures unchanged { OnErr result (self.new ≡ self.old) }
    {
        self.promise();
        self.world.shape();
        if p >= self.world.processes() {
            return Err(RecordStepFault::BadProcess);
        }
        let Some(call) = self.world.current(p) else {
            return Err(RecordStepFault::Idle(p));
        };
        match self.world.step(alloc, p) {
            Ok(Progress::Going) => {
                self.events.push(Event::Step(p));
                self.promise();
                Ok(Progress::Going)
            }
            Ok(Progress::Done(reply)) => {
                self.events.push(Event::Step(p));
                self.returns.push_reserved(Return { call, reply });
                self.counts.push_reserved(Counts {
                    steps: self.world.steps(p),
                    turns: self.world.turns(p),
                });
                self.promise();
                Ok(Progress::Done(reply))
            }
            Err(_) => Err(RecordStepFault::Memory),
        }
    }
}
