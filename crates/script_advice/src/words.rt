//! The words of a line, and what one may be.

use crate::forms::Field;
use ready_objects::{Amount, Name};
use std::alloc::{AllocError, Global};
use uni_script::object_of;

/// A word of a line.
#[derive(Clone, Copy)]
pub(crate) struct Word<'a> {
    /// How many bytes of the line stand before it.
    pub(crate) start: usize,
    /// Its bytes.
    pub(crate) bytes: &'a [u8],
}

/// The words of a line, cut at each space.
///
/// An `Err` says that memory was refused.
pub(crate) fn words_of(alloc: Global, line: &[u8]) -> Result<Vec<Word<'_>>, AllocError> {
    let mut words = Vec::new(alloc);
    let mut start: usize = 0;
    for bytes in line.split(|byte| *byte == b' ') {
        words.push(Word { start, bytes })?;
        start = start.saturating_add(bytes.len()).saturating_add(1);
    }
    Ok(words)
}

/// Whether a word is digits alone, of which the first of several is a zero.
pub(crate) fn has_leading_zero(word: &[u8]) -> bool {
    match word {
        [b'0', _, ..] => word.iter().all(|byte| byte.is_ascii_digit()),
        _ => false,
    }
}

/// Whether a word can stand in a field.
pub(crate) fn fits(field: Field, word: &[u8]) -> bool {
    match field {
        Field::Version => matches!(word, b"1" | b"2"),
        Field::Object => object_of(word).is_some(),
        Field::Name => Name::read(word).is_some(),
        Field::Words => true,
        _ => match (field.range(), Amount::read(word)) {
            (Some((least, most)), Some(number)) => {
                least <= number.number() && number.number() <= most
            }
            _ => false,
        },
    }
}
