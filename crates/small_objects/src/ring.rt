//! Steps on a ring of words: how many values there are, the slot of the oldest one, and then the slots.
ghost use Rattle.std.specs.Prelude.{◌-◌, ◌<◌, ◌≡◌, ◌≤◌, length, slice_index};
ghost use Rattle.small_objects.specs.Ring.{IsRing, around, end_slot, first_slot, with_last, without_first};

/// The slot that a place is, which is one of the first round or the next.
fn slot_of(place: u64, slots: u64) -> u64
    ensures { result ≡ around slots place }
{
    if place < slots { place } else { place - slots }
}

/// The word of the oldest value.
pub(crate) fn first_of(state: &[u64]) -> u64
    requires { IsRing state.now }
    ensures word { result ≡ first_slot state.now }
    ensures inside { result ≤ length state.now }
{
    2 + state[1]
}

/// The word behind the newest value, where the next one goes in.
pub(crate) fn end_of(state: &[u64]) -> u64
    requires { IsRing state.now }
    ensures word { result ≡ end_slot state.now }
    ensures inside { result ≤ length state.now }
{
    2 + slot_of(state[1] + state[0], state.len() as u64 - 2)
}

/// Puts a value behind the others.
pub(crate) fn put_last(state: &mut [u64], value: u64)
    requires ring { IsRing state.old }
    requires room { slice_index state.old 0 < length state.old - 2 }
    ensures { state.new ≡ with_last state.old value }
{
    let count = state[0];
    let end = end_of(state) as usize;
    state[end] = value;
    state[0] = count + 1;
}

/// Takes the oldest value out.
pub(crate) fn take_first(state: &mut [u64]) -> u64
    requires ring { IsRing state.old }
    requires some { 1 ≤ slice_index state.old 0 }
    ensures state { state.new ≡ without_first state.old }
    ensures first { result ≡ slice_index state.old (first_slot state.old) }
{
    let (count, start) = (state[0], state[1]);
    let first = first_of(state) as usize;
    let value = state[first];
    state[first] = 0;
    state[1] = slot_of(start + 1, state.len() as u64 - 2);
    state[0] = count - 1;
    value
}
