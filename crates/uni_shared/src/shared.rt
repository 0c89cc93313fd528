//! The record under its lock.

ghost use Rattle.std.specs.Prelude.{◌≡◌, ◌≤◌, IfOk, IfErr, OnOk, IsErrOf};
ghost use Rattle.uni_record.specs.Recorded.{HasOpened};
ghost use Rattle.uni_record.specs.Refusals.{CanRecord, IsOpenRefused};
ghost use Rattle.uni_shared.specs.Seat.{first_seats};

use crate::held::trim_held;
use crate::seat::Seat;
use seq_object::SeqObject;
use std::alloc::{AllocError, Global};
use std::marker::Model;
use std::sync::{Mutex, Wait};
use uni_record::{RecordOpenFault, RecordTrimFault, Recorded};

/// A record under a lock. Whenever the lock is free, the world of the record is the replay of its
/// events, since every record is.
///
/// A contract sees how many processes it was opened for, which is kept beside the lock.
#[derive(Drop)]
pub struct Shared<O: SeqObject> {
    pub(crate) processes: u64,
    pub(crate) recorded: Mutex<Recorded<O>>,
}

impl<O: SeqObject> Model for Shared<O> {
    ghost use Rattle.uni_shared.specs.Agreement.{SharedOf};

    ghost Value = { SharedOf };

    ghost view = { λ s. record { processes = s.processes } };
}

impl<O: SeqObject> Shared<O> {
    /// A record of `n` processes over the object's start state under a lock, and their seats in order;
    /// each process can make `k` calls in an era, which lasts until the next trim, and there can be `h` events. Of the
    /// record itself no clause says anything, since a lock tells nothing of what is under it. The clauses tell when
    /// opening can succeed, how many processes there are, and the seats.
    ///
    /// Errors: those of `Recorded::open`; `Memory` too where the list of the seats was refused it (in no
    /// clause: by the clauses it may come wherever no other error does). After each the object is dropped.
    pub fn open(
        alloc: Global,
        object: O,
        n: u64,
        k: u64,
        h: u64,
    ) -> Result<(Shared<O>, Vec<Seat<O>>), RecordOpenFault>
        ensures refused { IfErr result (IsOpenRefused n k 1 h) }
        ensures allowed { OnOk result (CanRecord n k 1 h) }
        ensures numbers { IsErrOf result RecordOpenFault.SeqFull → ⊥ }
        ensures processes { IfOk result (λ opened. opened.0.processes ≡ n) }
        ensures seats { IfOk result (λ opened. opened.1.items ≡ first_seats n) }
    {
        let (recorded, seats) = opened(alloc, object, n, k, h)?;
        let shared = Shared {
            processes: n,
            recorded: Mutex::new(recorded),
        };
        Ok((shared, seats))
    }
}

/// The record that `Shared::open` puts under a lock, with the seats.
///
/// Errors: those of `Shared::open`.
fn opened<O: SeqObject>(
    alloc: Global,
    object: O,
    n: u64,
    k: u64,
    h: u64,
) -> Result<(Recorded<O>, Vec<Seat<O>>), RecordOpenFault>
    ensures refused { IfErr result (IsOpenRefused n k 1 h) }
    ensures allowed { OnOk result (CanRecord n k 1 h) }
    ensures numbers { IsErrOf result RecordOpenFault.SeqFull → ⊥ }
    ensures opened { IfOk result (λ opened. HasOpened O.sequential object n k 1 h opened.0) }
    ensures seats { IfOk result (λ opened. opened.1.items ≡ first_seats n) }
{
    let recorded = Recorded::open(alloc, object, n, k, h)?;
    let Ok(seats) = seats_of(alloc, n) else {
        return Err(RecordOpenFault::Memory);
    };
    Ok((recorded, seats))
}

/// The seats of so many processes, at most 64, in order.
///
/// An `Err` says that memory was refused.
fn seats_of<O: SeqObject>(alloc: Global, n: u64) -> Result<Vec<Seat<O>>, AllocError>
    requires { n ≤ 64 }
    ensures { IfOk result (λ seats. seats.items ≡ first_seats n) }
{
    let mut seats = Vec::new(alloc);
    for p in 0..n {
        seats.push(Seat::new(alloc, p, n))?;
    }
    Ok(seats)
}

/// Ends the era of the record, in one hold of the lock: `trim_held`. The answer is the number of the
/// new anchor.
///
/// Errors: those of `Recorded::trim`. After each the record is as it was. No clause says any of it, since a lock tells
/// nothing of what is under it; `trim_held` has the clauses.
pub fn trim<O: SeqObject, R: Wait>(
    rt: &R,
    alloc: Global,
    shared: &Shared<O>,
) -> Result<u64, RecordTrimFault> {
    let mut guard = shared.recorded.lock(rt);
    trim_held(alloc, &mut guard)
}
