//! Reading the present state of a small object, without a call.
ghost use Rattle.std.specs.Prelude.{◌≡◌, ◌≢◌, ◌↔◌, ◌⊎◌};
ghost use Rattle.std.specs.declared.option.Option.TheVariants.{None, Some};
ghost use Rattle.universal_c.specs.SmallCalls.{HasMissedState, HasOtherWidths, HasReadSmall, HasWidths, IsSpent};
ghost use Rattle.universal_c.specs.SmallCalls.{place_in, shared_in};

use crate::handle::Handle;
use crate::held::Held;
use crate::status::{BAD_WIDTH, CHANGED, DONE, FULL, WRONG_HANDLE};
use std::alloc::Global;

/// Reads the present state of a small object by a seat, without a call: what a call of this invocation would be
/// answered there. It stores nothing in a shared word, and takes no lock and no memory; no clause says so. 0: the
/// reply is written, and the version is the one that has that state; the seat has it then, and all calls of the seat
/// are in it. 7: the handle has no seat of a small object. 11: the invocation or the reply hasn't as many words as
/// those of the object. 4: the seat has made 2^50 calls. 28: another version came meanwhile, and nothing is known of
/// the state; ask again. In this order; after 7, 11 and 4 nothing is changed, after 28 the reply, the version, and the
/// calls of the seat and its version stay, and there is no other status.
#[unsafe(no_mangle)]
pub extern "C" fn universal_small_read(
    alloc: Global,
    seat: &mut Handle,
    invocation: &[u64],
    reply: &mut [u64],
    version: &mut u64,
) -> u32
    ensures same { shared_in seat.new.value ≡ shared_in seat.old.value }
    ensures wrong { (result ≡ 7) ↔ (place_in seat.old.value ≡ None) }
    ensures width { (result ≡ 11) ↔ HasOtherWidths seat.old.value invocation.now reply.old }
    ensures spent { (result ≡ 4) ↔ (HasWidths seat.old.value invocation.now reply.old × IsSpent seat.old.value) }
    ensures status { (result ≡ 0) ⊎ (result ≡ 4) ⊎ (result ≡ 7) ⊎ (result ≡ 11) ⊎ (result ≡ 28) }
    ensures kept { result ≡ 7 → seat.new.value ≡ seat.old.value }
    ensures unchanged { result ≢ 0 → result ≢ 28 → place_in seat.new.value ≡ place_in seat.old.value }
    ensures unwritten { result ≢ 0 → (reply.new ≡ reply.old) × (version.new ≡ version.old) }
    ensures read { result ≡ 0 →
        HasReadSmall seat.old.value seat.new.value invocation.now reply.new version.new }
    ensures missed { result ≡ 28 → HasMissedState seat.old.value seat.new.value }
{
    let Some(mut held) = seat.take(alloc) else {
        return WRONG_HANDLE;
    };
    let status = match &mut *held {
        Held::Place(place) if !place.has_widths(invocation, reply) => BAD_WIDTH,
        Held::Place(place) => match place.seat.read(&place.shared, invocation, reply) {
            Ok(Some(present)) => {
                *version = present;
                DONE
            }
            Ok(None) => CHANGED,
            Err(_) => FULL,
        },
        _ => WRONG_HANDLE,
    };
    *seat = Handle::of(held);
    status
}
