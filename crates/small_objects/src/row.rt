//! Steps on a row of words.
ghost use Rattle.std.specs.Prelude.{ℕ, ◌+◌, ◌<◌, ◌^◌, ◌≡◌, ◌≢◌, ◌≤◌, slice_index};
ghost use Rattle.uni_small.specs.Touched.{IsUntouched};

use uni_small::Touched;

/// Writes 0 to each word.
pub(crate) fn clear(state: &mut [u64])
    ensures { (i : ℕ) → slice_index state.new i ≡ 0 }
{
    for i in 0..state.len() {
        state[i] = 0;
    }
}

/// What a call changes that puts a value into a word, or takes it out: the first words, and that one.
pub(crate) fn touching(head: u64, place: u64) -> Touched
    requires { place + 1 < 2 ^ 64 }
    ensures { (i : ℕ) → IsUntouched result i → (head ≤ i) × (i ≢ place) }
{
    Touched {
        head,
        from: place,
        to: place + 1,
    }
}
