//! What is closed.
ghost use Rattle.std.specs.Prelude.{◌≡◌, None, slice_index_or};
ghost use Rattle.std.specs.Mem.Slots.{IsFull, slots_items};
ghost use Rattle.triple_buffers.specs.Laid.{IsLaid};

use crate::layout::Layout;
use atomic_table::Closed;
use std::alloc::Global;

/// Words and buffers that are closed, for the party that closed them. What isn't taken is dropped with them.
pub struct ClosedBuffers<T> {
    pub(crate) layout: Layout,
    pub(crate) party: u64,
    pub(crate) table: Closed<Option<T>, Global>,
    pub ghost laid: { IsLaid layout party table },
}

/// Frees a closed table: what was in this slot, or none where there is no such slot.
pub(crate) fn free_but<T: Drop>(closed: Closed<Option<T>, Global>, slot: usize) -> Option<T>
    requires full { IsFull closed.slots }
    ensures { result ≡ slice_index_or (slots_items closed.slots) slot None }
{
    let mut closed = closed;
    let mut kept = None;
    for place in 0..closed.slot_count() {
        let value = closed.take(place);
        if place == slot {
            kept = value;
        }
    }
    closed.free();
    kept
}

impl<T> ClosedBuffers<T> {
    /// Its parts.
    pub(crate) fn apart(self) -> (Layout, u64, Closed<Option<T>, Global>)
        ensures { result ≡ (self.layout, self.party, self.table) }
    {
        let ClosedBuffers {
            layout,
            party,
            table,
        } = self;
        (layout, party, table)
    }
}

impl<T: Drop> Drop for ClosedBuffers<T> {
    fn drop(self) {
        let (_, _, table) = self.apart();
        let _value = free_but(table, 0);
    }
}
