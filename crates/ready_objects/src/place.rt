//! Places.

ghost use Rattle.std.specs.Prelude.{◌≡◌, ℕ, ◌<◌, ◌%◌, Some};
ghost use Rattle.std.specs.Fmt.{decimal};
ghost use Rattle.std.specs.Option.{SomeIff};
ghost use Rattle.ready_objects.specs.Number.{number_below};

use crate::number::Amount;
use std::fmt;
use std::marker::Model;

/// A place: a number from 0 to 255. It is printed in decimal.
#[derive(Clone, Copy, Debug, PartialEq, Eq)]
pub struct Place(u8);

impl Model for Place {
    ghost Value = { ℕ };

    ghost view = { λ place. place.0 };

    ghost invariant = { λ place. place.0 < 256 };

    ghost inverse = { λ n. record { 0 = n } };
}

impl Place {
    /// The place of this number; `None` where there is none.
    pub fn new(number: u64) -> Option<Place>
        ensures { SomeIff result (number < 256) number }
    {
        if number < 256 {
            Some(Place(number as u8))
        } else {
            None
        }
    }

    /// The number of this place.
    pub fn number(self) -> usize
        ensures same { result ≡ self }
        ensures bound { result < 256 }
    {
        usize::from(self.0)
    }

    /// Reads a number from 0 to 255. `None` where the word isn't one.
    pub fn read(word: &[u8]) -> Option<Place>
        ensures { result ≡ number_below 256 word.now }
    {
        Place::new(Amount::read(word)?.number())
    }

    /// The place of a number's last digit.
    pub(crate) fn below_ten(number: u64) -> Place
        ensures { result ≡ number % 10 }
    {
        Place((number % 10) as u8)
    }
}

impl fmt::Display for Place {
    ghost output = { λ place. Some (decimal place) };

    fn fmt<W: fmt::Write>(&self, f: &mut fmt::Formatter<W>) -> fmt::Result {
        write!(f, "{}", self.0)
    }
}
