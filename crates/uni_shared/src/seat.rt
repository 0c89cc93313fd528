//! Seats: calls from threads, a hold of the lock for each event.

ghost use Rattle.std.specs.Prelude.{◌≡◌, ◌-◌, ◌<◌, ◌≤◌, ◌↔◌, ◌⊎◌, IfOk, IfErr, OnErr};
ghost use Rattle.std.specs.Prelude.{OnOk, IsSome, IsErrOf, IsTrue, None, Some, length, slice_get};
ghost use Rattle.std.specs.Borrow.{sem};
ghost use Rattle.uni_shared.specs.Seat.{first_seat, HasEnded, HasBegun, HasStopped, IsLeftByApply, IsReceiptOf};
ghost use Rattle.uni_shared.specs.Seat.{IsCause, IsNextCallOf, call_of};
ghost use Rattle.uni_shared.specs.Ending.{EndsApplied, EndsResumed};

use crate::fault::ApplyFault;
use crate::gate::Gate;
use crate::held::{Held, StepHeldFault, begin_held, step_held};
use crate::receipt::{PendingCall, Receipt};
use crate::shared::Shared;
use seq_object::{CallId, SeqObject};
use std::alloc::Global;
use std::marker::Model;
use std::sync::Wait;
use uni_core::Place;
use uni_record::RecordBeginFault;

/// The seat of a process, with the receipts of its calls. It can't be copied, and nobody else adds to
/// its receipts.
#[derive(Drop)]
pub struct Seat<O: SeqObject> {
    process: u64,
    processes: u64,
    pending: Option<PendingCall<O::Inv>>,
    receipts: Vec<Receipt<O::Inv, O::Resp>>,
}

impl<O: SeqObject> Model for Seat<O> {
    ghost use Rattle.std.specs.Prelude.{vec_len, vec_capacity};
    ghost use Rattle.uni_shared.specs.Seat.{SeatOf, IsSeat};

    ghost Value = { SeatOf O.Inv O.Resp };

    ghost view = { λ s. record {
      process = s.process;
      processes = s.processes;
      pending = s.pending;
      receipts = s.receipts.items;
    } };

    ghost invariant = { λ s. IsSeat s.pending s.process s.processes (vec_len s.receipts) (vec_capacity s.receipts) };
}

/// Why a call was left pending.
#[derive(Clone, Copy)]
enum Cause {
    GaveUp,
    Stranger,
    Memory,
}

impl Cause {
    /// The same, as the fault of a call.
    fn fault(self) -> ApplyFault
        ensures { IsCause result }
    {
        match self {
            Cause::GaveUp => ApplyFault::GaveUp,
            Cause::Stranger => ApplyFault::Stranger,
            Cause::Memory => ApplyFault::Memory,
        }
    }
}

/// A call that was left pending, and the place that its next step touches, as it was seen last.
#[derive(Clone, Copy)]
struct Pause {
    cause: Cause,
    place: Place,
}

/// What a call that has returned came to.
#[derive(Clone, Copy)]
struct Returned<R> {
    reply: R,
    steps: u64,
    turns: u64,
}

/// What a step left.
#[derive(Clone, Copy)]
enum AfterStep<R> {
    /// The call goes on: its next step touches this place.
    Continues(Place),
    /// It has returned.
    Returns(Returned<R>),
}

/// A call that was left pending at a place.
fn paused(cause: Cause, place: &Place) -> Pause {
    Pause {
        cause,
        place: *place,
    }
}

/// One hold of the lock: one step.
fn hold<O: SeqObject, R: Wait>(
    rt: &R,
    alloc: Global,
    shared: &Shared<O>,
    call: CallId,
) -> Result<Held<O::Resp>, Cause> {
    let mut guard = shared.recorded.lock(rt);
    match step_held(alloc, &mut guard, call) {
        Ok(held) => Ok(held),
        Err(StepHeldFault::NotIts) => Err(Cause::Stranger),
        Err(StepHeldFault::Memory) => Err(Cause::Memory),
    }
}

/// What a hold left: the end of the call, or the place of its next step.
fn after_held<R: Copy>(held: Held<R>) -> Option<AfterStep<R>> {
    let Held {
        reply,
        steps,
        turns,
        place,
        ..
    } = held;
    if let Some(reply) = reply {
        return Some(AfterStep::Returns(Returned {
            reply,
            steps,
            turns,
        }));
    }
    Some(AfterStep::Continues(place?))
}

/// One step: the gate is asked first, and then the lock is held once.
fn pass<O: SeqObject, G: Gate, R: Wait>(
    rt: &R,
    alloc: Global,
    shared: &Shared<O>,
    call: CallId,
    place: &Place,
    gate: &G,
) -> Result<AfterStep<O::Resp>, Pause> {
    if gate.before(u64::from(call.process), *place).is_err() {
        return Err(paused(Cause::GaveUp, place));
    }
    match hold(rt, alloc, shared, call) {
        Ok(held) => match after_held(held) {
            Some(passed) => Ok(passed),
            None => Err(paused(Cause::Stranger, place)),
        },
        Err(cause) => Err(paused(cause, place)),
    }
}

/// One step after the other, until the call ends, at most so many.
fn drive<O: SeqObject, G: Gate, R: Wait>(
    rt: &R,
    alloc: Global,
    shared: &Shared<O>,
    call: CallId,
    most: u64,
    first: &Place,
    gate: &G,
) -> Result<Returned<O::Resp>, Pause> {
    let mut place = *first;
    for _ in 0..most {
        match pass(rt, alloc, shared, call, &place, gate)? {
            AfterStep::Continues(next) => place = next,
            AfterStep::Returns(end) => return Ok(end),
        }
    }
    Err(paused(Cause::Stranger, &place))
}

impl<O: SeqObject> Seat<O> {
    /// The seat of process `process`, of so many.
    pub(crate) fn new(alloc: Global, process: u64, processes: u64) -> Seat<O>
        requires below { process < processes }
        requires few { processes ≤ 64 }
        ensures { result ≡ first_seat processes process }
    {
        Seat {
            process,
            processes,
            pending: None,
            receipts: Vec::new(alloc),
        }
    }

    /// Which process's seat it is, below 64.
    pub fn process(&self) -> u64
        ensures value { result ≡ self.now.process }
        ensures few { result < 64 }
    {
        self.process
    }

    /// The receipts of its calls that have ended, in order.
    pub fn receipts(&self) -> &[Receipt<O::Inv, O::Resp>]
        ensures { result.now ≡ self.now.receipts }
    {
        self.receipts.as_slice()
    }

    /// Whether it has a call pending.
    pub fn pending(&self) -> bool
        ensures { IsTrue result ↔ IsSome self.now.pending }
    {
        self.pending.is_some()
    }

    /// The latest receipt.
    fn latest(&self) -> &Receipt<O::Inv, O::Resp>
        requires { 1 ≤ length self.now.receipts }
        ensures { slice_get self.now.receipts (length self.now.receipts - 1) ≡ Some result.now }
    {
        &self.receipts[self.receipts.len() - 1]
    }

    /// Begins a call, in one hold of the lock.
    fn start<R: Wait>(
        &mut self,
        rt: &R,
        alloc: Global,
        shared: &Shared<O>,
        inv: O::Inv,
    ) -> Result<(), ApplyFault>
        ensures begun { OnOk result (HasBegun self.old inv self.new) }
        ensures next { OnOk result ((call : _) × IsNextCallOf self.old call × (call_of self.new ≡ Some call)) }
        ensures left { IfErr result (λ fault. IsLeftByApply self.old inv fault self.new) }
        ensures seat_pending { IsErrOf result ApplyFault.SeatPending ↔ IsSome self.old.pending }
        ensures none_pending { IsErrOf result ApplyFault.NothingPending → ⊥ }
    {
        if self.pending.is_some() {
            return Err(ApplyFault::SeatPending);
        }
        if self.receipts.try_reserve(1).is_err() {
            return Err(ApplyFault::Memory);
        }
        let held = {
            let mut guard = shared.recorded.lock(rt);
            begin_held(alloc, &mut guard, self.process, &inv)
        };
        match held {
            Ok(held) => {
                let Held { call, place, .. } = held;
                let Some(place) = place else { unreachable!() };
                self.pending = Some(PendingCall { call, inv, place });
                if call.nth != self.receipts.len() as u64 {
                    return Err(ApplyFault::Stranger);
                }
                Ok(())
            }
            Err(RecordBeginFault::RowFull(_)) => Err(ApplyFault::RowFull),
            Err(RecordBeginFault::HistoryFull) => Err(ApplyFault::HistoryFull),
            Err(RecordBeginFault::Memory) => Err(ApplyFault::Memory),
            Err(_) => Err(ApplyFault::Stranger),
        }
    }

    /// Goes on with the pending call, and adds its receipt.
    fn go<G: Gate, R: Wait>(
        &mut self,
        rt: &R,
        alloc: Global,
        shared: &Shared<O>,
        gate: &G,
    ) -> Result<(), ApplyFault>
        ensures ended { OnOk result ((x : _) × IsReceiptOf self.old x × HasEnded self.old x self.new) }
        ensures stopped { OnErr result (HasStopped self.old self.new) }
        ensures none_pending { IsErrOf result ApplyFault.NothingPending ↔ (self.old.pending ≡ None) }
        ensures others { IfErr result (λ fault. (fault ≡ ApplyFault.NothingPending) ⊎ IsCause fault) }
    {
        let Some(asked) = self.pending.take() else {
            return Err(ApplyFault::NothingPending);
        };
        let most = 10 * self.processes + 12;
        match drive(rt, alloc, shared, asked.call, most, &asked.place, gate) {
            Ok(end) => {
                let PendingCall { call, inv, .. } = asked;
                self.receipts.push_reserved(Receipt {
                    call,
                    inv,
                    reply: end.reply,
                    steps: end.steps,
                    turns: end.turns,
                });
                Ok(())
            }
            Err(pause) => {
                let PendingCall { call, inv, .. } = asked;
                self.pending = Some(PendingCall {
                    call,
                    inv,
                    place: pause.place,
                });
                Err(pause.cause.fault())
            }
        }
    }

    /// Makes a call: one hold of the lock for its begin, and one for each step, before which the gate
    /// is asked. The answer is its receipt, which is added to those of the seat.
    ///
    /// The clauses tell of the seat alone: a body that took no lock and made up the reply would meet them. `close`
    /// compares each receipt with the record's history, and `begin_held` and `step_held` say what one hold does to the
    /// record. That the gate is asked is in no clause. Nor is it that the seat is of this record: with another one the
    /// call is made there, where the process and the number fit.
    ///
    /// `ends`, read out: once the receipt is given back, the seat is as `HasEnded self.old receipt self.new` says;
    /// after an error, as `IsLeftByApply self.old inv fault self.new` does. In no clause: which number a call has that
    /// is left pending, and when faults but `SeatPending` come. A body that answered `Memory` wherever the seat
    /// has no call pending, and left the seat as it was, would meet the clauses.
    ///
    /// Errors: `SeatPending` where the seat has a call pending; `Memory` where the room for the receipt
    /// was refused; then at the begin `Stranger` where there is no such process, or it has a call
    /// pending, and `RowFull`, `HistoryFull` and `Memory` as `begin_held` has them; after it `Stranger` where the
    /// call isn't the one after those that the seat has receipts of; then before each step `GaveUp` where the
    /// gate gave up, and at it `Stranger` where the call isn't its process's pending one, and `Memory`.
    /// `Stranger` comes too where the call hasn't ended after `10 n + 12` steps, by the seat's number of
    /// processes. Where the call had begun, the seat has it pending after an error; else the seat is as
    /// it was, and `inv` is dropped.
    pub fn apply<G: Gate, R: Wait>(
        &mut self,
        rt: &R,
        alloc: Global,
        shared: &Shared<O>,
        inv: O::Inv,
        gate: &G,
    ) -> Result<&Receipt<O::Inv, O::Resp>, ApplyFault>
        ensures* ends { sem 𝓛 (EndsApplied O.row O.State.row O.Inv.row O.Resp.row O.SeqObject O.Inv.PartialEq
            O.Resp.PartialEq inv self.entry result) }
        ensures call { IfOk result (λ receipt. IsNextCallOf self.old receipt.now.call) }
        ensures inv { IfOk result (λ receipt. receipt.now.inv ≡ inv) }
        ensures seat_pending { IsErrOf result ApplyFault.SeatPending ↔ IsSome self.old.pending }
        ensures none_pending { IsErrOf result ApplyFault.NothingPending → ⊥ }
    {
        self.start(rt, alloc, shared, inv)?;
        self.go(rt, alloc, shared, gate)?;
        Ok(self.latest())
    }

    /// Goes on with the pending call, as `apply` does after the begin. The answer is its receipt, which is added to
    /// those of the seat.
    ///
    /// `ends`, read out: once the receipt is given back, the seat is as `HasEnded self.old receipt self.new` says;
    /// after an error, as `HasStopped self.old self.new` does. The clauses tell of the seat alone, as those of `apply`
    /// do: the reply and the counts are in none, nor when faults but `NothingPending` come. A body that answered
    /// `GaveUp` wherever a call is pending, and left the seat as it was, would meet them.
    ///
    /// Errors: `NothingPending` where the seat has no call pending; then those of `apply` at its steps. After each the
    /// seat has the call pending that it had, or none where it had none.
    pub fn resume<G: Gate, R: Wait>(
        &mut self,
        rt: &R,
        alloc: Global,
        shared: &Shared<O>,
        gate: &G,
    ) -> Result<&Receipt<O::Inv, O::Resp>, ApplyFault>
        ensures* ends { sem 𝓛 (EndsResumed O.row O.State.row O.Inv.row O.Resp.row O.SeqObject O.Inv.PartialEq
            O.Resp.PartialEq self.entry result) }
        ensures receipt { IfOk result (λ receipt. IsReceiptOf self.old receipt.now) }
        ensures none_pending { IsErrOf result ApplyFault.NothingPending ↔ (self.old.pending ≡ None) }
        ensures others { IfErr result (λ fault. (fault ≡ ApplyFault.NothingPending) ⊎ IsCause fault) }
    {
        self.go(rt, alloc, shared, gate)?;
        Ok(self.latest())
    }
}
