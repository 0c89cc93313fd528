//! A box as its pointer.
ghost use Rattle.std.specs.Prelude.{◌≡◌};
ghost use Rattle.std_alloc.specs.Box.Ownership.{box_owns};

use std::alloc::Allocator;
use std::marker::Model;

/// The pointer of a box, with the allocator that frees it.
pub(crate) struct Loose<T, A: Allocator> {
    pub(crate) at: *mut T,
    pub(crate) heap: A,
    pub(crate) ghost value: { T },
}

impl<T, A: Allocator> Model for Loose<T, A> {
    ghost also_owns = { λ l. box_owns (A.dealloc_token l.heap) T.row l.at l.value };
}

impl<T: Drop, A: Allocator> Loose<T, A> {
    /// Takes a box apart.
    pub(crate) fn of(boxed: Box<T, A>) -> Loose<T, A>
        ensures { result.value ≡ boxed.value }
    {
        let (at, heap) = Box::into_raw_with_allocator(boxed);
        Loose { at, heap }
    }

    /// The box again.
    pub(crate) fn into_box(self) -> Box<T, A>
        ensures { result.value ≡ self.value }
    {
        let Loose { at, heap } = self;
        unsafe { Box::from_raw(heap, at) }
    }
}
