//! The ends of eras, recorded.

ghost use Rattle.std.specs.Prelude.{◌≡◌, ◌+◌, ◌<◌, ◌≤◌, ◌++◌, ◌∷◌, [], IfOk, IfErr};
ghost use Rattle.std.specs.Prelude.{OnErr, OnOk, length, map, vec_capacity};
ghost use Rattle.uni_model.specs.Worlds.{world_after};
ghost use Rattle.uni_model.specs.Worlds.{Event as model};
ghost use Rattle.uni_model.specs.History.{log};
ghost use Rattle.uni_core.specs.World.{world_of};
ghost use Rattle.uni_log.specs.Entry.{entry_shown};
ghost use Rattle.uni_core.specs.Ends.{last_number};
ghost use Rattle.uni_record.specs.declared.event.Event.TheVariants as event;
ghost use Rattle.uni_record.specs.Recorded.{KeepsOpening, untrimmed_world};
ghost use Rattle.uni_record.specs.Refusals.{standing_of, CanEnd, IsEndRefused};
ghost use Rattle.uni_record.specs.Recorded.{IsPromised};
ghost use Rattle.uni_record.specs.Refusals.{IsReshapeRefused};
ghost use Rattle.uni_core.specs.Refusals.{IsCount};

use crate::event::Event;
use crate::events::PackedEvents;
use crate::fault::{RecordReshapeFault, RecordTrimFault};
use crate::recorded::Recorded;
use seq_object::SeqObject;
use std::alloc::{AllocError, Global};
use uni_core::{World, next_number};
use uni_log::{Entry, Log};
use uni_model::MAX_PROCESSES;

/// The entries of the present era of a world, with room made for them behind those of the ended eras,
/// and for one event more.
///
/// An `Err` says that memory was refused; what is stored stays as it is.
fn prepare_end<O: SeqObject>(
    alloc: Global,
    world: &World<O>,
    events: &mut PackedEvents<O::Inv>,
    ended: &mut Vec<Entry<O::Inv, O::Resp>>,
) -> Result<Vec<Entry<O::Inv, O::Resp>>, AllocError>
    ensures events { (events.new.events ≡ events.old.events) × (events.old.room ≤ events.new.room) }
    ensures ended { ended.new.items ≡ ended.old.items }
    ensures event_fits { OnOk result (length events.old.events + 1 ≤ events.new.room) }
    ensures entries_fit { IfOk result (λ entries. length ended.old.items + length entries.items
        ≤ vec_capacity ended.new) }
    ensures log { IfOk result (λ entries. map entry_shown entries.items ≡ log (world_of world.now)) }
{
    let entries = Log::of(world).entries(alloc)?;
    ended.try_reserve(entries.len())?;
    events.reserve(1)?;
    Ok(entries)
}

impl<O: SeqObject> Recorded<O> {
    /// The number that the anchor of the next era has, where the era can end for `m` processes, at most
    /// 64. Errors: those of `trim`, but for `Memory`.
    fn next_anchor(&self, m: u64) -> Result<u64, RecordTrimFault>
        requires { m ≤ 64 }
        ensures refused { IfErr result (IsEndRefused (standing_of self.now) m) }
        ensures allowed { OnOk result (CanEnd (standing_of self.now) m) }
        ensures number { IfOk result (λ number. number ≡ last_number (world_of self.now.world)) }
    {
        if let Some(p) = self.world.pending() {
            return Err(RecordTrimFault::Pending(p));
        }
        let Some(number) = next_number(&self.world, m) else {
            return Err(RecordTrimFault::SeqFull);
        };
        if self.events.len() as u64 >= self.limit {
            return Err(RecordTrimFault::HistoryFull);
        }
        Ok(number)
    }

    /// The same for any `m`. Errors: those of `reshape`, but for `Memory`.
    fn next_anchor_for(&self, m: u64) -> Result<u64, RecordReshapeFault>
        ensures refused { IfErr result (IsReshapeRefused (standing_of self.now) m) }
        ensures allowed { OnOk result (IsCount m × CanEnd (standing_of self.now) m) }
        ensures number { IfOk result (λ number. number ≡ last_number (world_of self.now.world)) }
    {
        if m < 1 || m > MAX_PROCESSES {
            return Err(RecordReshapeFault::BadCount);
        }
        match self.next_anchor(m) {
            Ok(number) => Ok(number),
            Err(RecordTrimFault::Pending(p)) => Err(RecordReshapeFault::Pending(p)),
            Err(RecordTrimFault::SeqFull) => Err(RecordReshapeFault::SeqFull),
            Err(RecordTrimFault::HistoryFull) => Err(RecordReshapeFault::HistoryFull),
            Err(RecordTrimFault::Memory) => Err(RecordReshapeFault::Memory),
        }
    }

    /// Ends the era, as `uni_core::trim` does, whose event is stored; the entries of the ended era are
    /// kept. The answer is the number of the new anchor.
    ///
    /// Errors, in this order: `Pending(p)` where a process has a call pending, with the least of such;
    /// `SeqFull` where `last + n * k` passes 2^48 - 1, with the last number; `HistoryFull` where the
    /// stored events and 1 are more than the history can have; `Memory`, where memory was refused (in no clause). After
    /// each nothing is changed.
    pub fn trim(&mut self, alloc: Global) -> Result<u64, RecordTrimFault>
        ensures refused { IfErr result (IsEndRefused (standing_of self.old) (world_of self.old.world).n) }
        ensures allowed { OnOk result (CanEnd (standing_of self.old) (world_of self.old.world).n) }
        ensures number { IfOk result (λ number. number ≡ last_number (world_of self.old.world)) }
        ensures event { OnOk result (self.new.events ≡ self.old.events ++ event.Trim ∷ []) }
        ensures trimmed { OnOk result (world_of self.new.world
            ≡ world_after (O.sequential self.old.world.object) (world_of self.old.world) model.Trim) }
        ensures untrimmed { OnOk result (untrimmed_world O.sequential self.new
            ≡ untrimmed_world O.sequential self.old) }
        ensures promised { OnOk result (IsPromised O.sequential self.new) }
        ensures fixed { KeepsOpening self.old self.new }
        ensures unchanged { OnErr result (self.new ≡ self.old) }
    {
        self.world.shape();
        let number = self.next_anchor(self.world.processes())?;
        let Ok(mut entries) = prepare_end(alloc, &self.world, &mut self.events, &mut self.ended)
        else {
            return Err(RecordTrimFault::Memory);
        };
        self.world.renew();
        let Ok(()) = self.ended.append(&mut entries) else {
            unreachable!()
        };
        self.events.push(Event::Trim);
        self.promise();
        Ok(number)
    }

    /// Ends the era as `trim` does, and makes the number of processes `m`: `uni_core::reshape`. The
    /// answer is the number of the new anchor.
    ///
    /// Errors, in this order: `BadCount` where `m` isn't from 1 to 64; `Pending(p)` where a process has
    /// a call pending, with the least of such; `SeqFull` where `last + m * k` passes 2^48 - 1, with the
    /// last number; `HistoryFull` where the stored events and 1 are more than the history can have;
    /// `Memory`. After each nothing is changed.
    pub fn reshape(&mut self, alloc: Global, m: u64) -> Result<u64, RecordReshapeFault>
        ensures refused { IfErr result (IsReshapeRefused (standing_of self.old) m) }
        ensures allowed { OnOk result (IsCount m × CanEnd (standing_of self.old) m) }
        ensures number { IfOk result (λ number. number ≡ last_number (world_of self.old.world)) }
        ensures event { OnOk result (self.new.events ≡ self.old.events ++ event.Reshape m ∷ []) }
        ensures reshaped { OnOk result (world_of self.new.world
            ≡ world_after (O.sequential self.old.world.object) (world_of self.old.world) (model.Reshape m)) }
        ensures promised { OnOk result (IsPromised O.sequential self.new) }
        ensures fixed { KeepsOpening self.old self.new }
        ensures unchanged { OnErr result (self.new ≡ self.old) }
    {
        self.world.shape();
        let number = self.next_anchor_for(m)?;
        let Ok(mut entries) = prepare_end(alloc, &self.world, &mut self.events, &mut self.ended)
        else {
            return Err(RecordReshapeFault::Memory);
        };
        let Ok(()) = self.world.renew_for(alloc, m) else {
            return Err(RecordReshapeFault::Memory);
        };
        let Ok(()) = self.ended.append(&mut entries) else {
            unreachable!()
        };
        self.events.push(Event::Reshape(m));
        self.promise();
        Ok(number)
    }
}
