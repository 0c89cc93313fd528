//! A register that one process writes.

ghost use Rattle.std.specs.Prelude.{◌≡◌};

use std::marker::Model;

/// A register: one process writes it, and each may read it.
///
/// A contract sees its value.
#[derive(Clone, Copy, Debug)]
pub struct Own<T> {
    value: T,
}

impl<T> Model for Own<T> {
    ghost Value = { T };

    ghost view = { λ own. own.value };

    ghost inverse = { λ value. record { value = value } };
}

impl<T: Copy> Own<T> {
    /// A register with this value.
    pub fn new(value: T) -> Self
        ensures { result ≡ value }
    {
        Own { value }
    }

    /// Reads the value.
    pub fn read(&self) -> T
        ensures { result ≡ self.now }
    {
        self.value
    }

    /// Writes a value, in place of the one before.
    pub fn write(&mut self, value: T)
        ensures { self.new ≡ value }
    {
        self.value = value;
    }
}
