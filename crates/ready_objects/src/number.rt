//! Numbers, and the words that stand for them.

ghost use Rattle.std.specs.Prelude.{◌≡◌, ℕ, ◌+◌, ◌-◌, ◌≤◌, ◌%◌, ◌++◌, true, Some, OnOk};
ghost use Rattle.std.specs.Prelude.{length};
ghost use Rattle.std.specs.Fmt.{decimal};
ghost use Rattle.std.specs.Option.{SomeIff};
ghost use Rattle.std.specs.Char.{is_ascii_digit};
ghost use Rattle.std.specs.List.{list_all};
ghost use Rattle.std.specs.Str.Parse.{digits_value};
ghost use Rattle.ready_objects.specs.Number.{is_number, number_of_word, numbers_text};

use crate::spoken::push_gap;
use itoa::Buffer;
use std::alloc::AllocError;
use std::fmt;
use std::marker::Model;

/// An amount, or a value that an object keeps: a number from 0 to 999,999,999,999.
/// It is printed in decimal.
#[derive(Clone, Copy, Debug, PartialEq, Eq)]
pub struct Amount(u64);

impl Model for Amount {
    ghost Value = { ℕ };

    ghost view = { λ amount. amount.0 };

    ghost invariant = { λ amount. amount.0 ≤ 999999999999 };

    ghost inverse = { λ n. record { 0 = n } };
}

impl Amount {
    /// The number of the greatest amount.
    pub const GREATEST: u64 = 999_999_999_999;

    /// The least amount.
    pub const ZERO: Amount = Amount(0);

    /// The amount of this number; `None` where the number is above the greatest.
    pub fn new(number: u64) -> Option<Amount>
        ensures { SomeIff result (number ≤ 999999999999) number }
    {
        if number <= Amount::GREATEST {
            Some(Amount(number))
        } else {
            None
        }
    }

    /// The number of this amount.
    pub fn number(self) -> u64
        ensures same { result ≡ self }
        ensures bound { result ≤ 999999999999 }
    {
        self.0
    }

    /// The sum of two amounts; `None` where it is above the greatest.
    pub fn checked_add(self, other: Amount) -> Option<Amount>
        ensures { SomeIff result (self + other ≤ 999999999999) (self + other) }
    {
        Amount::new(self.0 + other.0)
    }

    /// This amount less another; `None` where the other is greater.
    pub fn checked_sub(self, other: Amount) -> Option<Amount>
        ensures { SomeIff result (other ≤ self) (self - other) }
    {
        Some(Amount(self.0.checked_sub(other.0)?))
    }

    /// The amount of a number's last three digits.
    pub(crate) fn below_thousand(number: u64) -> Amount
        ensures { result ≡ number % 1000 }
    {
        Amount(number % 1000)
    }

    /// Reads a word of 1 to 12 decimal digits, without a leading zero unless the word is `0`.
    /// `None` where the word isn't one.
    pub fn read(word: &[u8]) -> Option<Amount>
        ensures { result ≡ number_of_word word.now }
    {
        if is_number(word) {
            Amount::new(digits_value(word))
        } else {
            None
        }
    }
}

impl fmt::Display for Amount {
    ghost output = { λ amount. Some (decimal amount) };

    fn fmt<W: fmt::Write>(&self, f: &mut fmt::Formatter<W>) -> fmt::Result {
        write!(f, "{}", self.0)
    }
}

/// Writes a number after a text, in decimal.
///
/// An `Err` says that memory was refused.
pub fn push_number(text: &mut Vec<u8>, number: u64) -> Result<(), AllocError>
    ensures { OnOk result (text.new.items ≡ text.old.items ++ decimal number) }
{
    let mut digits = Buffer::new();
    text.extend_from_slice(digits.format(number).as_bytes())
}

/// Writes a word and a number after a text.
///
/// An `Err` says that memory was refused.
pub(crate) fn push_with_number(
    text: &mut Vec<u8>,
    word: &[u8],
    number: u64,
) -> Result<(), AllocError>
    ensures { OnOk result (text.new.items ≡ text.old.items ++ word.now ++ decimal number) }
{
    text.extend_from_slice(word)?;
    push_number(text, number)
}

/// Writes a list of numbers after a text, as `[3 5]`.
///
/// An `Err` says that memory was refused.
pub(crate) fn push_numbers(text: &mut Vec<u8>, numbers: &[Amount]) -> Result<(), AllocError>
    ensures { OnOk result (text.new.items ≡ text.old.items ++ numbers_text numbers.now) }
{
    text.push(b'[')?;
    for (place, number) in numbers.iter().enumerate() {
        push_gap(text, place)?;
        push_number(text, number.number())?;
    }
    text.push(b']')?;
    Ok(())
}

/// Tells whether a word is 1 to 12 decimal digits, without a leading zero unless it is `0`.
fn is_number(word: &[u8]) -> bool
    ensures { result ≡ is_number word.now }
{
    !word.is_empty() && word.len() <= 12 && is_digits(word) && (word[0] != b'0' || word.len() == 1)
}

/// Tells whether each byte of a word is a decimal digit.
fn is_digits(word: &[u8]) -> bool
    ensures { result ≡ list_all is_ascii_digit word.now }
{
    word.iter().all(u8::is_ascii_digit)
}

/// The number that the digits of a word write.
fn digits_value(word: &[u8]) -> u64
    requires digits { list_all is_ascii_digit word.now ≡ true }
    requires short { length word.now ≤ 12 }
    ensures value { result ≡ digits_value 10 word.now }
    ensures bound { result ≤ 999999999999 }
{
    let mut value = 0;
    for digit in word {
        value = value * 10 + u64::from(*digit - b'0');
    }
    value
}
