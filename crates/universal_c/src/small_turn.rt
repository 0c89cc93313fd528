//! Taking a seat of a small object, and a call by it.
ghost use Rattle.std.specs.Prelude.{◌≡◌, ◌≢◌, ◌↔◌, ◌⊎◌, ◌+◌, vec_len};
ghost use Rattle.std.specs.declared.option.Option.TheVariants.{None, Some};
ghost use Rattle.universal_c.specs.SmallCalls.{HasAskedVersion, HasCalledSmall, HasFirstPlace, HasOtherWidths};
ghost use Rattle.universal_c.specs.SmallCalls.{HasWidths, IsSpent, place_in, shared_in, small_left_in};
ghost use Rattle.universal_c.specs.SmallOrphans.{TellsCalls};

use crate::handle::Handle;
use crate::held::{Held, SmallOpened, SmallPlace};
use crate::status::{BAD_WIDTH, DONE, FULL, MEMORY, NO_SEAT, WRONG_HANDLE};
use std::alloc::Global;
use std::sync::Arc;

/// How a call begins.
#[derive(Clone, Copy, Drop)]
enum Beginning {
    /// By a direct attempt, and by its announcement only after that failed.
    Direct,
    /// By its announcement.
    Announced,
}

/// Puts the next seat of a small object into a handle. Memory is asked for before the seat is taken.
fn give(alloc: Global, opened: &mut SmallOpened, seat: &mut Handle, process: &mut u64) -> u32
    ensures same { opened.new.shared ≡ opened.old.shared }
    ensures status { (result ≡ 0) ⊎ (result ≡ 3) ⊎ (result ≡ 5) }
    ensures given { (result ≡ 5) ↔ (vec_len opened.old.seats ≡ 0) }
    ensures left { result ≡ 0 →
        (vec_len opened.new.seats ≡ process.new) × (vec_len opened.old.seats ≡ process.new + 1) }
    ensures unchanged { result ≢ 0 → (vec_len opened.new.seats ≡ vec_len opened.old.seats)
        × (seat.new ≡ seat.old) × (process.new ≡ process.old) }
    ensures first { result ≡ 0 → HasFirstPlace seat.new.value process.new
        × (shared_in seat.new.value ≡ Some opened.old.shared.value) }
{
    if opened.seats.is_empty() {
        return NO_SEAT;
    }
    let Ok(mut room) = Box::new(alloc, Held::Nothing) else {
        return MEMORY;
    };
    let Ok(shared) = Arc::try_clone(&opened.shared) else {
        return MEMORY;
    };
    let Some(next) = opened.seats.pop() else {
        return NO_SEAT;
    };
    let given = SmallPlace { shared, seat: next };
    *room = Held::Place(given);
    *seat = Handle::of(room);
    *process = opened.seats.len() as u64;
    DONE
}

/// Gives out the next seat of a small object, that of the greatest process that has none yet, and its process.
/// 7: the handle has no small object. 5: all seats are given out. 3: memory was refused, and no seat is lost.
/// After each all is as before; else what the seat's handle had is dropped.
#[unsafe(no_mangle)]
pub extern "C" fn universal_small_seat(
    alloc: Global,
    object: &mut Handle,
    seat: &mut Handle,
    process: &mut u64,
) -> u32
    ensures same { shared_in object.new.value ≡ shared_in object.old.value }
    ensures wrong { (result ≡ 7) ↔ (small_left_in object.old.value ≡ None) }
    ensures given { (result ≡ 5) ↔ (small_left_in object.old.value ≡ Some 0) }
    ensures left { result ≡ 0 → (small_left_in object.new.value ≡ Some process.new)
        × (small_left_in object.old.value ≡ Some (process.new + 1)) }
    ensures status { (result ≡ 0) ⊎ (result ≡ 3) ⊎ (result ≡ 5) ⊎ (result ≡ 7) }
    ensures unchanged { result ≢ 0 → (small_left_in object.new.value ≡ small_left_in object.old.value)
        × (seat.new ≡ seat.old) × (process.new ≡ process.old) }
    ensures kept { result ≡ 7 → object.new.value ≡ object.old.value }
    ensures first { result ≡ 0 → HasFirstPlace seat.new.value process.new
        × (shared_in seat.new.value ≡ shared_in object.old.value) }
{
    let Some(mut held) = object.take(alloc) else {
        return WRONG_HANDLE;
    };
    let status = match &mut *held {
        Held::Small(opened) => give(alloc, opened, seat, process),
        _ => WRONG_HANDLE,
    };
    *object = Handle::of(held);
    status
}

/// A call by a seat of a small object, which begins so, with the statuses of `universal_small_apply`.
fn apply(
    alloc: Global,
    seat: &mut Handle,
    beginning: Beginning,
    invocation: &[u64],
    reply: &mut [u64],
    version: &mut u64,
) -> u32
    ensures same { shared_in seat.new.value ≡ shared_in seat.old.value }
    ensures wrong { (result ≡ 7) ↔ (place_in seat.old.value ≡ None) }
    ensures width { (result ≡ 11) ↔ HasOtherWidths seat.old.value invocation.now reply.old }
    ensures spent { (result ≡ 4) ↔ (HasWidths seat.old.value invocation.now reply.old × IsSpent seat.old.value) }
    ensures status { (result ≡ 0) ⊎ (result ≡ 4) ⊎ (result ≡ 7) ⊎ (result ≡ 11) }
    ensures kept { result ≡ 7 → seat.new.value ≡ seat.old.value }
    ensures unchanged { result ≢ 0 → (place_in seat.new.value ≡ place_in seat.old.value)
        × (reply.new ≡ reply.old) × (version.new ≡ version.old) }
    ensures called { result ≡ 0 →
        HasCalledSmall seat.old.value seat.new.value invocation.now reply.new version.new }
    ensures announced { beginning ≡ Beginning.Announced → result ≡ 0 → TellsCalls seat.new.value }
{
    let Some(mut held) = seat.take(alloc) else {
        return WRONG_HANDLE;
    };
    let status = match &mut *held {
        Held::Place(place) if !place.has_widths(invocation, reply) => BAD_WIDTH,
        Held::Place(place) => {
            let shared = &*place.shared;
            let called = match beginning {
                Beginning::Direct => place.seat.apply(shared, invocation, reply),
                Beginning::Announced => place.seat.apply_announced(shared, invocation, reply),
            };
            match called {
                Ok(present) => {
                    *version = present;
                    DONE
                }
                Err(_) => FULL,
            }
        }
        _ => WRONG_HANDLE,
    };
    *seat = Handle::of(held);
    status
}

/// A call by a seat of a small object. It takes no lock and no memory; no clause says so.
/// 0: it is done, the reply is written, and the version is one in which the call is. 7: the handle has no seat of
/// a small object. 11: the invocation or the reply hasn't as many words as those of the object. 4: the seat has
/// made 2^50 calls. In this order; after each but 0 nothing is changed, and there is no other status.
#[unsafe(no_mangle)]
pub extern "C" fn universal_small_apply(
    alloc: Global,
    seat: &mut Handle,
    invocation: &[u64],
    reply: &mut [u64],
    version: &mut u64,
) -> u32
    ensures same { shared_in seat.new.value ≡ shared_in seat.old.value }
    ensures wrong { (result ≡ 7) ↔ (place_in seat.old.value ≡ None) }
    ensures width { (result ≡ 11) ↔ HasOtherWidths seat.old.value invocation.now reply.old }
    ensures spent { (result ≡ 4) ↔ (HasWidths seat.old.value invocation.now reply.old × IsSpent seat.old.value) }
    ensures status { (result ≡ 0) ⊎ (result ≡ 4) ⊎ (result ≡ 7) ⊎ (result ≡ 11) }
    ensures kept { result ≡ 7 → seat.new.value ≡ seat.old.value }
    ensures unchanged { result ≢ 0 → (place_in seat.new.value ≡ place_in seat.old.value)
        × (reply.new ≡ reply.old) × (version.new ≡ version.old) }
    ensures called { result ≡ 0 →
        HasCalledSmall seat.old.value seat.new.value invocation.now reply.new version.new }
{
    apply(alloc, seat, Beginning::Direct, invocation, reply, version)
}

/// A call by a seat of a small object, which is announced at once: a seat that may be taken over in the midst of a
/// call makes its calls by this one. It takes no lock and no memory; no clause says so.
/// 0: it is done, the reply is written, and the version is one in which the call is. 7: the handle has no seat of
/// a small object. 11: the invocation or the reply hasn't as many words as those of the object. 4: the seat has
/// made 2^50 calls. In this order; after each but 0 nothing is changed, and there is no other status.
#[unsafe(no_mangle)]
pub extern "C" fn universal_small_apply_announced(
    alloc: Global,
    seat: &mut Handle,
    invocation: &[u64],
    reply: &mut [u64],
    version: &mut u64,
) -> u32
    ensures same { shared_in seat.new.value ≡ shared_in seat.old.value }
    ensures wrong { (result ≡ 7) ↔ (place_in seat.old.value ≡ None) }
    ensures width { (result ≡ 11) ↔ HasOtherWidths seat.old.value invocation.now reply.old }
    ensures spent { (result ≡ 4) ↔ (HasWidths seat.old.value invocation.now reply.old × IsSpent seat.old.value) }
    ensures status { (result ≡ 0) ⊎ (result ≡ 4) ⊎ (result ≡ 7) ⊎ (result ≡ 11) }
    ensures kept { result ≡ 7 → seat.new.value ≡ seat.old.value }
    ensures unchanged { result ≢ 0 → (place_in seat.new.value ≡ place_in seat.old.value)
        × (reply.new ≡ reply.old) × (version.new ≡ version.old) }
    ensures called { result ≡ 0 →
        HasCalledSmall seat.old.value seat.new.value invocation.now reply.new version.new }
    ensures announced { result ≡ 0 → TellsCalls seat.new.value }
{
    apply(
        alloc,
        seat,
        Beginning::Announced,
        invocation,
        reply,
        version,
    )
}

/// Asks whether a version of a small object has come: 1 or 0, by one load. 1 says that all later calls of this
/// seat come after all calls that are in that version. A version that an answer had is answered 1: the law of the
/// words says so (`returned_has_come` of `uni_small`), and no clause of this call.
/// 0: it is done. 7: the handle has no seat of a small object, and nothing is changed.
#[unsafe(no_mangle)]
pub extern "C" fn universal_small_follows(
    alloc: Global,
    seat: &mut Handle,
    version: u64,
    has_come: &mut u32,
) -> u32
    ensures same { shared_in seat.new.value ≡ shared_in seat.old.value }
    ensures status { (result ≡ 0) ⊎ (result ≡ 7) }
    ensures wrong { (result ≡ 7) ↔ (place_in seat.old.value ≡ None) }
    ensures kept { result ≡ 7 → (seat.new.value ≡ seat.old.value) × (has_come.new ≡ has_come.old) }
    ensures asked { result ≡ 0 → HasAskedVersion seat.old.value seat.new.value version has_come.new }
{
    let Some(mut held) = seat.take(alloc) else {
        return WRONG_HANDLE;
    };
    let status = match &mut *held {
        Held::Place(place) => {
            *has_come = if place.seat.follows(&place.shared, version) {
                1
            } else {
                0
            };
            DONE
        }
        _ => WRONG_HANDLE,
    };
    *seat = Handle::of(held);
    status
}
