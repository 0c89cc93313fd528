//! What is wrong with a line, and where.

use crate::forms::{Field, Form};
use crate::words::{Word, fits, has_leading_zero, words_of};
use std::alloc::{AllocError, Global};
use strsim::jaro;
use uni_script::{ObjectName, is_note, object_of};

/// Why a line is bad.
#[derive(Clone, Copy)]
pub enum Cause {
    /// It is line 100001.
    TooMany,
    /// It has more than 200 bytes.
    TooLong,
    /// Its last byte is 13, as in a file of Windows.
    CarriageReturn,
    /// It has a tab.
    Tab,
    /// It has this byte.
    Byte(u8),
    /// It begins with a space.
    SpaceFirst,
    /// Two spaces stand side by side.
    TwoSpaces,
    /// It ends with a space.
    SpaceLast,
    /// A note stands after other words.
    Note,
    /// It stands where the header does, and isn't one.
    NoHeader,
    /// It is a header, where there is one before it.
    SecondHeader,
    /// It is a command of version 2, in a script of version 1.
    Newer,
    /// No command has its name; the nearest has this one.
    Near(&'static str),
    /// No command of version 1 has its name, nor is one near.
    NoCommand,
    /// No command of version 2 has its name, nor is one near.
    NoNewerCommand,
    /// The object has no such call.
    NoCall(ObjectName),
    /// It lacks a word of this form.
    Missing(Form),
    /// It has a word more than this form.
    Extra(Form),
    /// A number has a leading zero.
    LeadingZero,
    /// A word can't stand in this field of this form.
    Unfit(Form, Field),
}

/// The bytes of a line that are shown.
#[derive(Clone, Copy)]
pub struct Place {
    /// How many bytes of the line stand before them.
    pub start: usize,
    /// How many they are.
    pub length: usize,
}

/// What is wrong with a line.
#[derive(Clone, Copy)]
pub struct Advice {
    /// Why the line is bad.
    pub cause: Cause,
    /// Where; `None` where no word of the line is to be shown.
    pub place: Option<Place>,
}

/// The advice that has a place.
fn at(cause: Cause, start: usize, length: usize) -> Option<Advice> {
    Some(Advice {
        cause,
        place: Some(Place { start, length }),
    })
}

/// The advice on a word.
fn on(cause: Cause, word: &Word<'_>) -> Option<Advice> {
    at(cause, word.start, word.bytes.len())
}

/// What a script's header says of its further lines.
#[derive(Clone, Copy)]
struct Language {
    is_newer: bool,
    object: ObjectName,
}

/// What a header says; `None` where it is none.
fn language_of(words: &[Word<'_>]) -> Option<Language> {
    match words {
        [_, version, object, ..] => Some(Language {
            is_newer: version.bytes == b"2".as_slice(),
            object: object_of(object.bytes)?,
        }),
        _ => None,
    }
}

/// What is wrong with the bytes of a line; `None` where a line can have them.
fn bad_byte(line: &[u8]) -> Option<Advice> {
    for (start, byte) in line.iter().enumerate() {
        if *byte < 32 || *byte > 126 {
            let cause = match *byte {
                9 => Cause::Tab,
                13 if start == line.len() - 1 => Cause::CarriageReturn,
                byte => Cause::Byte(byte),
            };
            return at(cause, start, 1);
        }
    }
    None
}

/// What is wrong where a line has a space first, or a note after other words; `None` where it has neither.
fn bad_note(words: &[Word<'_>]) -> Option<Advice> {
    for (index, word) in words.iter().enumerate() {
        match word.bytes {
            [] if index == 0 => return at(Cause::SpaceFirst, 0, 1),
            [b'#', ..] => return on(Cause::Note, word),
            _ => {}
        }
    }
    None
}

/// What is wrong with the spaces of a line that begins with a word; `None` where nothing is.
fn bad_space(words: &[Word<'_>]) -> Option<Advice> {
    for (index, word) in words.iter().enumerate() {
        if word.bytes.is_empty() {
            return if index.saturating_add(1) == words.len() {
                at(Cause::SpaceLast, word.start.saturating_sub(1), 1)
            } else {
                at(Cause::TwoSpaces, word.start, 1)
            };
        }
    }
    None
}

/// What is wrong with the words after the name of a line of this form; `None` where nothing is. The line has so many
/// bytes.
fn bad_field(form: Form, words: &[Word<'_>], length: usize) -> Option<Advice> {
    let fields = form.fields();
    for (index, field) in fields.iter().enumerate() {
        match words.get(index) {
            None => return at(Cause::Missing(form), length, 1),
            Some(word) => {
                if has_leading_zero(word.bytes) && field.range().is_some() {
                    return on(Cause::LeadingZero, word);
                }
                if !fits(*field, word.bytes) {
                    return on(Cause::Unfit(form, *field), word);
                }
            }
        }
    }
    words
        .get(fields.len())
        .and_then(|word| on(Cause::Extra(form), word))
}

/// What is wrong with a line that is to be the header; `None` where nothing is.
fn bad_header(words: &[Word<'_>], length: usize) -> Option<Advice> {
    let [name, rest @ ..] = words else {
        return None;
    };
    if name.bytes != b"universal".as_slice() {
        return on(Cause::NoHeader, name);
    }
    let form = match rest {
        [version, ..] => Form::header(version.bytes),
        [] => Form::HeaderOne,
    };
    bad_field(form, rest, length)
}

/// What is wrong with the words after `call`, on an object; `None` where nothing is.
fn bad_call(object: ObjectName, words: &[Word<'_>], length: usize) -> Option<Advice> {
    let [_, name, rest @ ..] = words else {
        return bad_field(Form::Call, words, length);
    };
    if let Some(found) = bad_field(Form::Call, &words[..2], length) {
        return Some(found);
    }
    match Form::call(object, name.bytes) {
        Some(form) => bad_field(form, rest, length),
        None => on(Cause::NoCall(object), name),
    }
}

/// The names of the commands.
const COMMANDS: [&str; 7] = ["call", "step", "finish", "trim", "log", "heads", "reshape"];

/// Why a word is the name of no command: the nearest name is the one with the greatest score of Jaro above 0.7.
///
/// An `Err` says that memory was refused.
fn unknown(alloc: Global, is_newer: bool, word: &[u8]) -> Result<Cause, AllocError> {
    let mut cause = if is_newer {
        Cause::NoNewerCommand
    } else {
        Cause::NoCommand
    };
    let mut best = 0.7;
    let text = str::from_utf8(word).unwrap_or("");
    for name in COMMANDS {
        let score = jaro(alloc, text, name)?;
        if score > best {
            best = score;
            cause = Cause::Near(name);
        }
    }
    Ok(cause)
}

/// What is wrong with a line that comes after the header; `None` where nothing is.
///
/// An `Err` says that memory was refused.
fn bad_command(
    alloc: Global,
    language: Language,
    words: &[Word<'_>],
    length: usize,
) -> Result<Option<Advice>, AllocError> {
    let [name, rest @ ..] = words else {
        return Ok(None);
    };
    match name.bytes {
        b"universal" => return Ok(on(Cause::SecondHeader, name)),
        b"reshape" if !language.is_newer => return Ok(on(Cause::Newer, name)),
        b"call" => return Ok(bad_call(language.object, rest, length)),
        _ => {}
    }
    match Form::command(name.bytes, rest.len()) {
        Some(form) => Ok(bad_field(form, rest, length)),
        None => Ok(on(unknown(alloc, language.is_newer, name.bytes)?, name)),
    }
}

/// What is wrong with the words of a line, in a script with this header or, where there is none yet, for its header;
/// `None` where nothing is.
///
/// An `Err` says that memory was refused.
fn bad_words(
    alloc: Global,
    header: Option<&[u8]>,
    words: &[Word<'_>],
    length: usize,
) -> Result<Option<Advice>, AllocError> {
    if let Some(found) = bad_note(words) {
        return Ok(Some(found));
    }
    if let Some(found) = bad_space(words) {
        return Ok(Some(found));
    }
    match header {
        None => Ok(bad_header(words, length)),
        Some(header) => match language_of(words_of(alloc, header)?.as_slice()) {
            Some(language) => bad_command(alloc, language, words, length),
            None => Ok(None),
        },
    }
}

/// What is wrong with a line that comes after this header, or, where there is none yet, with one that is to be the
/// header or a note; `None` where nothing is. Of several things it is the one that a reader mends first.
///
/// An `Err` says that memory was refused.
pub fn advice_on(
    alloc: Global,
    header: Option<&[u8]>,
    line: &[u8],
) -> Result<Option<Advice>, AllocError> {
    if line.len() > 200 {
        return Ok(Some(Advice {
            cause: Cause::TooLong,
            place: None,
        }));
    }
    if let Some(found) = bad_byte(line) {
        return Ok(Some(found));
    }
    if is_note(line) {
        return Ok(None);
    }
    bad_words(alloc, header, words_of(alloc, line)?.as_slice(), line.len())
}
