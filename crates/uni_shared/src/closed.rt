//! Records whose lock is no more, with the receipts of their seats.

ghost use Rattle.std.specs.Prelude.{◌≡◌, ◌<◌, IfErr, IfOk};
ghost use Rattle.std.specs.List.{Contains};
ghost use Rattle.uni_record.specs.Recorded.{IsRecording, Recording, meaning, opening};
ghost use Rattle.uni_shared.specs.Agreement.{Agrees, IsClosed, IsFaultOfClosing};

use crate::agreement::first_fault;
use crate::receipt::Receipt;
use crate::seat::Seat;
use crate::shared::Shared;
use seq_object::{CallId, SeqObject};
use std::alloc::Global;
use std::marker::Model;
use std::sync::Mutex;
use thiserror::Error;
use uni_record::Recorded;

/// Why nothing was closed. Where several hold, the first of these is told.
#[derive(Clone, Copy, Debug, PartialEq, Eq, Error)]
pub enum CloseFault {
    /// This process, the least of such, doesn't have its seat there exactly once; or, where each has,
    /// the least other process that has a seat there.
    #[error("process {0} has no seat there, or several, or one that isn't of this record")]
    MissingSeat(u64),
    /// The record under the lock isn't of as many processes as it was opened for. It never comes; but a
    /// lock tells nothing of what it gives back, so closing looks.
    #[error("the record is another one")]
    Stranger,
    /// This process, the least of such, has a call pending, in its seat or in the world.
    #[error("process {0} has a call pending")]
    PendingSeat(u64),
    /// The receipts differ from the history at this call, the first of such by process and then by
    /// number.
    #[error("the receipts differ from the history at call {0}")]
    Mismatch(CallId),
    /// Memory was refused. It never comes, since closing takes none.
    #[error("out of memory")]
    Memory,
}

/// A record whose lock is no more, with its seats: each process has one seat, and its receipts are its
/// calls in the history.
#[derive(Drop)]
pub struct Closed<O: SeqObject> {
    recorded: Recorded<O>,
    seats: Vec<Seat<O>>,
}

impl<O: SeqObject> Model for Closed<O> {
    ghost use Rattle.uni_shared.specs.Agreement.{ClosedOf, IsClosed};

    ghost Value = { ClosedOf O O.State O.Inv O.Resp };

    ghost view = { λ c. record { recorded = c.recorded; seats = c.seats.items } };

    ghost invariant = { λ c. IsClosed O.sequential c.recorded c.seats.items };
}

/// What wasn't closed, and why.
#[derive(Drop)]
pub struct Refused<O: SeqObject> {
    /// Why it wasn't closed.
    pub fault: CloseFault,
    /// The record under its lock.
    pub shared: Shared<O>,
    /// The seats that were handed in.
    pub seats: Vec<Seat<O>>,
}

impl<O: SeqObject> Shared<O> {
    /// Ends the lock, where each process's seat is handed in once and no other, no call is pending, and
    /// the receipts of each process are, in order, its calls in the history: each with what it asked
    /// for, with the reply of its return, and with its own steps and turns.
    ///
    /// Errors, in this order: `MissingSeat`, `Stranger`, `PendingSeat`, `Mismatch`. After each what was
    /// handed in is handed back. `Memory` never comes (`fault`). That `Stranger` doesn't is in no clause.
    ///
    /// A lock tells nothing of what is under it. So `closed` speaks of the record that is handed out, and `fault` of
    /// some record. In no clause: that it is the record that was under the lock, that its object is the one that it was
    /// opened with, and that a refused `shared` still has it. A body that refused with `Mismatch` wherever each
    /// process's seat is there once, none has a call pending, and one has a receipt, would meet the clauses.
    pub fn close(self, _alloc: Global, seats: Vec<Seat<O>>) -> Result<Closed<O>, Refused<O>>
        ensures closed { IfOk result (λ closed. IsClosed O.sequential closed.recorded closed.seats) }
        ensures processes { IfOk result (λ closed. closed.recorded.processes ≡ self.processes) }
        ensures seats { IfOk result (λ closed. closed.seats ≡ seats.items) }
        ensures fault { IfErr result (λ refused. (recorded : Recording O O.State O.Inv O.Resp)
            × IsRecording O.sequential recorded
            × IsFaultOfClosing O.sequential self.processes recorded seats.items refused.fault) }
        ensures handed_back { IfErr result (λ refused. refused.seats.items ≡ seats.items) }
        ensures kept { IfErr result (λ refused. refused.shared.processes ≡ self.processes) }
    {
        let Shared {
            processes,
            recorded,
        } = self;
        let recorded = recorded.into_inner();
        recorded.promise();
        match first_fault(&recorded, &seats, processes) {
            None => Ok(Closed { recorded, seats }),
            Some(fault) => Err(Refused {
                fault,
                shared: Shared {
                    processes,
                    recorded: Mutex::new(recorded),
                },
                seats,
            }),
        }
    }
}

impl<O: SeqObject> Closed<O> {
    /// The record, with the history.
    pub fn recorded(&self) -> &Recorded<O>
        ensures { result.now ≡ self.now.recorded }
    {
        &self.recorded
    }

    /// The receipts of process `p`, one of those of the opening, in order.
    pub fn receipts(&self, p: u64) -> &[Receipt<O::Inv, O::Resp>]
        requires { p < self.now.recorded.processes }
        ensures seat { (seat : _) × Contains self.now.seats seat × (seat.process ≡ p)
            × (result.now ≡ seat.receipts) }
        ensures agree { Agrees (meaning O.sequential self.now.recorded)
            (opening O.sequential self.now.recorded) self.now.recorded.events p result.now }
    {
        for seat in &self.seats {
            if seat.process() == p {
                return seat.receipts();
            }
        }
        unreachable!()
    }
}
