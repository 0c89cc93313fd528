//! Lists whose elements have keys, in rising order of these.

ghost use Rattle.std.specs.Prelude.{◌≡◌, ℕ, IfOk, filter};
ghost use Rattle.judged_objects.specs.Sorted.{is_on, placed};

use std::alloc::{AllocError, Global};

/// An element that has a key.
pub(crate) trait Keyed: Copy {
    /// Its key.
    ghost key_of: { Self → ℕ };

    /// Its key.
    fn key(&self) -> u64
        ensures { result ≡ key_of self.now };
}

impl Keyed for u64 {
    ghost key_of = { λ number. number };

    fn key(&self) -> u64 {
        *self
    }
}

/// A side of a number.
#[derive(Clone, Copy)]
pub(crate) enum Side {
    /// The numbers below it.
    Below,
    /// Those below it and those above it.
    Beside,
    /// Those above it.
    Above,
}

/// Whether a number is on this side of another.
fn is_on(side: Side, number: u64, other: u64) -> bool
    ensures { result ≡ is_on side number other }
{
    match side {
        Side::Below => number < other,
        Side::Beside => number != other,
        Side::Above => other < number,
    }
}

/// The elements whose keys are on one side of a number.
pub(crate) fn on_side<T: Keyed>(
    alloc: Global,
    items: &[T],
    side: Side,
    key: u64,
) -> Result<Vec<T>, AllocError>
    ensures { IfOk result (λ some. some.items ≡ filter (λ item. is_on side (T.key_of item) key) items.now) }
{
    items
        .iter()
        .copied()
        .filter(|item| is_on(side, item.key(), key))
        .collect(alloc)
}

/// The elements with one more, after those below its key and before those above it.
pub(crate) fn placed<T: Keyed>(
    alloc: Global,
    items: &[T],
    key: u64,
    item: T,
) -> Result<Vec<T>, AllocError>
    ensures { IfOk result (λ more. more.items ≡ placed T.key_of items.now key item) }
{
    let mut more = on_side(alloc, items, Side::Below, key)?;
    more.push(item)?;
    more.extend_from_slice(on_side(alloc, items, Side::Above, key)?.as_slice())?;
    Ok(more)
}
