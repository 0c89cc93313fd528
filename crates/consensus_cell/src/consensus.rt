//! Consensus on one value.

ghost use Rattle.std.specs.Prelude.{◌≡◌, None, Some, unwrap_or};
ghost use Rattle.std.specs.Option.{option_copied};
ghost use Rattle.std.specs.Borrow.{sem};
ghost use Rattle.consensus_cell.specs.Consensus.{EndsAs};

use std::marker::Model;

/// A consensus object: the first value that is proposed is settled, for good; those that are
/// proposed later are dropped (Herlihy 1991, section 2).
///
/// A contract sees what is settled, as an option.
#[derive(Debug, Drop)]
pub struct Settle<T> {
    value: Option<T>,
}

impl<T> Model for Settle<T> {
    ghost use Rattle.std.specs.Prelude.{Option};

    ghost Value = { Option T };

    ghost view = { λ settle. settle.value };

    ghost inverse = { λ value. record { value = value } };
}

impl<T> Settle<T> {
    /// Nothing is settled yet.
    pub fn new() -> Self
        ensures { result ≡ None }
    {
        Settle { value: None }
    }

    /// Proposes a value: it is settled where nothing is settled yet, and dropped otherwise.
    /// The answer is what is settled then.
    pub fn decide(&mut self, proposal: T) -> &T
    where
        T: Drop,
        ensures answer { result.now ≡ unwrap_or self.old proposal }
        ensures* settled { sem 𝓛 (EndsAs T.row self.entry (Some (unwrap_or self.old proposal))) }
    {
        self.value.get_or_insert(proposal)
    }

    /// What is settled, or `None`.
    pub fn get(&self) -> Option<&T>
        ensures { option_copied result ≡ self.now }
    {
        self.value.as_ref()
    }

    /// Takes out what is settled, or `None`.
    pub fn into_inner(self) -> Option<T>
        ensures { result ≡ self }
    {
        let Settle { value } = self;
        value
    }
}
