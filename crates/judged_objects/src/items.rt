//! A list as a state.

ghost use Rattle.std.specs.Prelude.{◌≡◌, ◌++◌, IfOk};

use std::alloc::{AllocError, Global};
use std::marker::Model;

/// Items in an order.
#[derive(Drop)]
pub struct Items<T: Drop> {
    items: Vec<T>,
}

impl<T: Drop> Model for Items<T> {
    ghost use Rattle.std.specs.Prelude.{List};

    ghost Value = { List T };

    ghost view = { λ state. state.items.items };
}

/// Numbers in an order.
pub type Numbers = Items<u64>;

impl<T: Drop> Items<T> {
    /// These items.
    pub fn of(items: Vec<T>) -> Items<T>
        ensures { result ≡ items.items }
    {
        Items { items }
    }

    /// The items.
    pub fn as_slice(&self) -> &[T]
        ensures { result.now ≡ self.now }
    {
        self.items.as_slice()
    }
}

impl<T: Copy> Items<T> {
    /// The same items.
    ///
    /// An `Err` says that memory was refused.
    pub fn copied(alloc: Global, items: &[T]) -> Result<Items<T>, AllocError>
        ensures { IfOk result (λ copy. copy ≡ items.now) }
    {
        Ok(Items::of(Vec::from_slice(alloc, items)?))
    }

    /// Some items, and others after them.
    ///
    /// An `Err` says that memory was refused.
    pub(crate) fn joined(alloc: Global, items: &[T], more: &[T]) -> Result<Items<T>, AllocError>
        ensures { IfOk result (λ both. both ≡ items.now ++ more.now) }
    {
        let mut both = Vec::from_slice(alloc, items)?;
        both.extend_from_slice(more)?;
        Ok(Items::of(both))
    }
}

/// A key for numbers.
pub(crate) fn key_of(numbers: &[u64]) -> u64 {
    let mut key = 0;
    for number in numbers {
        key = mixed(key, *number);
    }
    key
}

/// A key with one more number.
pub(crate) fn mixed(key: u64, number: u64) -> u64 {
    (key ^ number)
        .wrapping_mul(0x9E37_79B9_7F4A_7C15)
        .rotate_left(29)
}
