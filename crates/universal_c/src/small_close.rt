//! Closing a small object.
ghost use Rattle.std.specs.Prelude.{◌≡◌, ◌≢◌, ◌↔◌, ◌⊎◌};
ghost use Rattle.std.specs.declared.option.Option.TheVariants.{None, Some};
ghost use Rattle.universal_c.specs.SmallCalls.{HasEnded, HasOtherWidth, place_in, shared_in, small_left_in};

use crate::handle::Handle;
use crate::held::{Held, SmallOpened, SmallPlace};
use crate::status::{BAD_WIDTH, BUSY, DONE, WRONG_HANDLE};
use std::alloc::Global;
use std::mem::replace;
use std::sync::Arc;

/// Closes a small object, by the last handle that has it, which is its own or that of a seat, and writes its last
/// state. It takes no memory.
/// 0: it is done, and the handle has nothing. 7: the handle has no small object. 11: a state hasn't so many
/// words. 6: another handle has the object. In this order; after each but 0 all is as before.
#[unsafe(no_mangle)]
pub extern "C" fn universal_small_close(
    alloc: Global,
    handle: &mut Handle,
    state: &mut [u64],
) -> u32
    ensures wrong { (result ≡ 7) ↔ (shared_in handle.old.value ≡ None) }
    ensures width { (result ≡ 11) ↔ HasOtherWidth handle.old.value state.old }
    ensures status { (result ≡ 0) ⊎ (result ≡ 6) ⊎ (result ≡ 7) ⊎ (result ≡ 11) }
    ensures kept { result ≡ 7 → handle.new.value ≡ handle.old.value }
    ensures unchanged { result ≢ 0 → (shared_in handle.new.value ≡ shared_in handle.old.value)
        × (place_in handle.new.value ≡ place_in handle.old.value)
        × (small_left_in handle.new.value ≡ small_left_in handle.old.value) × (state.new ≡ state.old) }
    ensures ended { result ≡ 0 → HasEnded handle.old.value state.new }
    ensures nothing { result ≡ 0 → handle.new.value ≡ None }
{
    let Some(mut held) = handle.take(alloc) else {
        return WRONG_HANDLE;
    };
    let words = state.len() as u64;
    let (back, status) = match replace(&mut *held, Held::Nothing) {
        Held::Place(place) => {
            if place.shared.width() != words {
                (Held::Place(place), BAD_WIDTH)
            } else {
                let SmallPlace { shared, seat } = place;
                match Arc::try_unwrap(shared) {
                    Ok(shared) => {
                        shared.close_with(seat, state);
                        return DONE;
                    }
                    Err(shared) => (Held::Place(SmallPlace { shared, seat }), BUSY),
                }
            }
        }
        Held::Small(opened) => {
            if opened.shared.width() != words {
                (Held::Small(opened), BAD_WIDTH)
            } else {
                let SmallOpened { shared, seats } = opened;
                match Arc::try_unwrap(shared) {
                    Ok(shared) => {
                        shared.close(state);
                        return DONE;
                    }
                    Err(shared) => (Held::Small(SmallOpened { shared, seats }), BUSY),
                }
            }
        }
        other => (other, WRONG_HANDLE),
    };
    *held = back;
    *handle = Handle::of(held);
    status
}
