//! Accounts.

ghost use Rattle.std.specs.Prelude.{◌≡◌, ℕ, ◌<◌, ◌%◌, Some};
ghost use Rattle.std.specs.Fmt.{decimal};
ghost use Rattle.std.specs.Option.{SomeIff};
ghost use Rattle.ready_objects.specs.Number.{number_below};

use crate::number::Amount;
use std::fmt;
use std::marker::Model;

/// An account: a number from 0 to 15. It is printed in decimal.
#[derive(Clone, Copy, Debug, PartialEq, Eq)]
pub struct Account(u8);

impl Model for Account {
    ghost Value = { ℕ };

    ghost view = { λ account. account.0 };

    ghost invariant = { λ account. account.0 < 16 };

    ghost inverse = { λ n. record { 0 = n } };
}

impl Account {
    /// The account of this number; `None` where there is none.
    pub fn new(number: u64) -> Option<Account>
        ensures { SomeIff result (number < 16) number }
    {
        if number < 16 {
            Some(Account(number as u8))
        } else {
            None
        }
    }

    /// The number of this account.
    pub fn number(self) -> usize
        ensures same { result ≡ self }
        ensures bound { result < 16 }
    {
        usize::from(self.0)
    }

    /// Reads a number from 0 to 15. `None` where the word isn't one.
    pub fn read(word: &[u8]) -> Option<Account>
        ensures { result ≡ number_below 16 word.now }
    {
        Account::new(Amount::read(word)?.number())
    }

    /// The account of a number's last part below 16.
    pub(crate) fn below_sixteen(number: u64) -> Account
        ensures { result ≡ number % 16 }
    {
        Account((number % 16) as u8)
    }
}

impl fmt::Display for Account {
    ghost output = { λ account. Some (decimal account) };

    fn fmt<W: fmt::Write>(&self, f: &mut fmt::Formatter<W>) -> fmt::Result {
        write!(f, "{}", self.0)
    }
}
