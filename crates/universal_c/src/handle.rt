//! What C holds of a log, of a seat or of entries: the pointer of a box.
ghost use Rattle.std.specs.Prelude.{◌≡◌};
ghost use Rattle.std.specs.Option.{MatchOption};
ghost use Rattle.std.specs.declared.option.Option.TheVariants.{None, Some};
ghost use Rattle.std.specs.declared.option.Option.{Option};
ghost use Rattle.universal_c.specs.declared.held.Held.{Held};

use crate::held::Held;
use crate::loose::Loose;
use std::alloc::Global;
use std::marker::Model;
use std::mem::replace;
use std::ptr::null_mut;

/// A box that C holds, or none. For C it is one pointer, which is null where it has none.
#[repr(C)]
pub struct Handle {
    at: *mut u8,
    heap: Global,
    pub ghost value: { Option Held },
}

impl Model for Handle {
    ghost use Rattle.universal_c.specs.Owned.{owned};
    ghost use Rattle.universal_c.specs.contracts.held.Held.{the_row};

    ghost also_owns = { λ h. owned the_row h.heap h.at h.value };
}

impl Handle {
    /// The handle that has none.
    pub(crate) fn empty(alloc: Global) -> Handle
        ensures { result.value ≡ None }
    {
        Handle {
            at: null_mut(),
            heap: alloc,
        }
    }

    fn of_loose(body: Loose<Held, Global>) -> Handle
        ensures { result.value ≡ Some body.value }
    {
        let Loose { at, heap } = body;
        Handle {
            at: at.cast::<u8>(),
            heap,
        }
    }

    fn into_loose(self) -> Option<Loose<Held, Global>>
        ensures { MatchOption result (self.value ≡ None) (λ body. self.value ≡ Some body.value) }
    {
        let Handle { at, heap } = self;
        if at.is_null() {
            None
        } else {
            Some(Loose {
                at: at.cast::<Held>(),
                heap,
            })
        }
    }

    /// The handle of a box.
    pub(crate) fn of(held: Box<Held>) -> Handle
        ensures { result.value ≡ Some held.value }
    {
        Handle::of_loose(Loose::of(held))
    }

    /// The box of a handle, if it has one.
    fn into_box(self) -> Option<Box<Held>>
        ensures { MatchOption result (self.value ≡ None) (λ held. self.value ≡ Some held.value) }
    {
        match self.into_loose() {
            Some(body) => Some(body.into_box()),
            None => None,
        }
    }

    /// Takes the box out of a handle, if it has one: it has none then.
    pub(crate) fn take(&mut self, alloc: Global) -> Option<Box<Held>>
        ensures taken { MatchOption result (self.old.value ≡ None) (λ held. self.old.value ≡ Some held.value) }
        ensures none { self.new.value ≡ None }
    {
        replace(self, Handle::empty(alloc)).into_box()
    }
}

impl Drop for Handle {
    fn drop(self) {
        if let Some(held) = self.into_box() {
            drop(held);
        }
    }
}

unsafe impl Send for Handle {}

/// What may go to another thread.
fn goes<T: Send>(_it: &T) {}

/// A handle may go to another thread.
pub fn handle_goes(handle: &Handle) {
    goes(handle);
}
