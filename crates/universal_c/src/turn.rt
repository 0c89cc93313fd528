//! Taking a seat, and a call by it.
ghost use Rattle.std.specs.Prelude.{◌≡◌, ◌≢◌, ◌↔◌, ◌⊎◌, ◌+◌, vec_len};
ghost use Rattle.std.specs.declared.option.Option.TheVariants.{None, Some};
ghost use Rattle.universal_c.specs.Calls.{HasAsked, HasCalled, HasSeat, IsFull, left_in, log_in, seat_in};

use crate::Reply;
use crate::handle::Handle;
use crate::held::{Held, Opened, Seated};
use crate::status::{DONE, FULL, MEMORY, NO_SEAT, WRONG_HANDLE};
use seq_object::CallId;
use std::alloc::Global;
use std::sync::Arc;

/// Puts the next seat of a log into a handle. Memory is asked for before the seat is taken.
fn give(alloc: Global, opened: &mut Opened, seat: &mut Handle, process: &mut u64) -> u32
    ensures same { opened.new.log ≡ opened.old.log }
    ensures status { (result ≡ 0) ⊎ (result ≡ 3) ⊎ (result ≡ 5) }
    ensures given { (result ≡ 5) ↔ (vec_len opened.old.seats ≡ 0) }
    ensures left { result ≡ 0 →
        (vec_len opened.new.seats ≡ process.new) × (vec_len opened.old.seats ≡ process.new + 1) }
    ensures unchanged { result ≢ 0 → (vec_len opened.new.seats ≡ vec_len opened.old.seats)
        × (seat.new ≡ seat.old) × (process.new ≡ process.old) }
    ensures first { result ≡ 0 → HasSeat seat.new.value process.new
        × (log_in seat.new.value ≡ Some opened.old.log.value) }
{
    if opened.seats.is_empty() {
        return NO_SEAT;
    }
    let Ok(mut room) = Box::new(alloc, Held::Nothing) else {
        return MEMORY;
    };
    let Ok(log) = Arc::try_clone(&opened.log) else {
        return MEMORY;
    };
    let Some(next) = opened.seats.pop() else {
        return NO_SEAT;
    };
    let given = Seated { log, seat: next };
    *room = Held::Seat(given);
    *seat = Handle::of(room);
    *process = opened.seats.len() as u64;
    DONE
}

/// Gives out the next seat of a log, that of the greatest process that has none yet, and its process.
/// 7: the handle has no log. 5: all seats are given out. 3: memory was refused, and no seat is lost.
/// After each all is as before; else what the seat's handle had is dropped.
#[unsafe(no_mangle)]
pub extern "C" fn universal_seat(
    alloc: Global,
    log: &mut Handle,
    seat: &mut Handle,
    process: &mut u64,
) -> u32
    ensures same { log_in log.new.value ≡ log_in log.old.value }
    ensures wrong { (result ≡ 7) ↔ (left_in log.old.value ≡ None) }
    ensures given { (result ≡ 5) ↔ (left_in log.old.value ≡ Some 0) }
    ensures left { result ≡ 0 →
        (left_in log.new.value ≡ Some process.new) × (left_in log.old.value ≡ Some (process.new + 1)) }
    ensures status { (result ≡ 0) ⊎ (result ≡ 3) ⊎ (result ≡ 5) ⊎ (result ≡ 7) }
    ensures unchanged { result ≢ 0 → (left_in log.new.value ≡ left_in log.old.value)
        × (seat.new ≡ seat.old) × (process.new ≡ process.old) }
    ensures kept { result ≡ 7 → log.new.value ≡ log.old.value }
    ensures first { result ≡ 0 → HasSeat seat.new.value process.new
        × (log_in seat.new.value ≡ log_in log.old.value) }
{
    let Some(mut held) = log.take(alloc) else {
        return WRONG_HANDLE;
    };
    let status = match &mut *held {
        Held::Log(opened) => give(alloc, opened, seat, process),
        _ => WRONG_HANDLE,
    };
    *log = Handle::of(held);
    status
}

/// A call by a seat. It takes no lock and no memory; no clause says so.
/// 0: it is done. 4: the seat has made its k calls. 7: the handle has no seat. After 4 and 7 nothing is
/// changed, and there is no other status.
#[unsafe(no_mangle)]
pub extern "C" fn universal_apply(
    alloc: Global,
    seat: &mut Handle,
    inv: u64,
    answer: &mut Reply,
) -> u32
    ensures same { log_in seat.new.value ≡ log_in seat.old.value }
    ensures status { (result ≡ 0) ⊎ (result ≡ 4) ⊎ (result ≡ 7) }
    ensures wrong { (result ≡ 7) ↔ (seat_in seat.old.value ≡ None) }
    ensures full { (result ≡ 4) ↔ IsFull seat.old.value }
    ensures kept { result ≡ 7 → seat.new.value ≡ seat.old.value }
    ensures unchanged { result ≢ 0 → (seat_in seat.new.value ≡ seat_in seat.old.value)
        × (answer.new ≡ answer.old) }
    ensures called { result ≡ 0 → HasCalled seat.old.value seat.new.value inv answer.new.reply answer.new.turns }
{
    let Some(mut held) = seat.take(alloc) else {
        return WRONG_HANDLE;
    };
    let status = match &mut *held {
        Held::Seat(seated) => match seated.seat.apply(&seated.log, inv) {
            Ok(given) => {
                answer.reply = given.reply;
                answer.turns = given.turns;
                DONE
            }
            Err(_) => FULL,
        },
        _ => WRONG_HANDLE,
    };
    *seat = Handle::of(held);
    status
}

/// Asks whether the call `nth` of a process stands in the log: 1 or 0, by one load. 1 says that all later
/// calls of this seat come after it. A call that has returned is answered 1: the law of the words says so
/// (`returned_is_there` of `uni_words`), and no clause of this call.
/// 0: it is done. 7: the handle has no seat, and nothing is changed.
#[unsafe(no_mangle)]
pub extern "C" fn universal_follows(
    alloc: Global,
    seat: &mut Handle,
    process: u64,
    nth: u64,
    is_there: &mut u32,
) -> u32
    ensures same { log_in seat.new.value ≡ log_in seat.old.value }
    ensures status { (result ≡ 0) ⊎ (result ≡ 7) }
    ensures wrong { (result ≡ 7) ↔ (seat_in seat.old.value ≡ None) }
    ensures kept { result ≡ 7 → (seat.new.value ≡ seat.old.value) × (is_there.new ≡ is_there.old) }
    ensures asked { result ≡ 0 → HasAsked seat.old.value seat.new.value process nth is_there.new }
{
    let Some(mut held) = seat.take(alloc) else {
        return WRONG_HANDLE;
    };
    let status = match &mut *held {
        Held::Seat(seated) => {
            *is_there = match u32::try_from(process) {
                Ok(process) if seated.seat.follows(&seated.log, CallId { process, nth }) => 1,
                _ => 0,
            };
            DONE
        }
        _ => WRONG_HANDLE,
    };
    *seat = Handle::of(held);
    status
}
