//! The tokens of a line of maps: brackets, texts in quotation marks, and words.
//!
//! Blanks, commas and colons stand between tokens, so that a map of Clojure and an object of JSON are read alike.

ghost use Rattle.std.specs.Prelude.{◌<◌, length};

use crate::fault::{ReadError, Reason, Spot};
use std::alloc::{AllocError, Global};

/// What a token is.
#[derive(Clone, Copy, Debug, PartialEq, Eq)]
pub(crate) enum Kind {
    /// A bracket that opens.
    Open,
    /// A bracket that closes.
    Close,
    /// A text, without its quotation marks.
    Text,
    /// A word.
    Word,
}

/// A token.
#[derive(Clone, Copy)]
pub(crate) struct Token<'a> {
    /// What it is.
    pub(crate) kind: Kind,
    /// Its bytes.
    pub(crate) bytes: &'a [u8],
    /// At which byte of the line it begins, from 0.
    pub(crate) start: usize,
}

/// Whether a byte stands between tokens.
fn is_blank(byte: u8) -> bool {
    matches!(byte, b' ' | b'\t' | b'\r' | b',' | b':')
}

/// Whether a word ends before this byte.
fn ends_word(byte: u8) -> bool {
    is_blank(byte) || matches!(byte, b'{' | b'}' | b'[' | b']' | b'(' | b')' | b'"')
}

/// The first place from here on with a quotation mark, or else with a byte that ends a word.
fn ends_at(line: &[u8], from: usize, is_quote: bool) -> Option<usize> {
    for at in from..line.len() {
        if (is_quote && line[at] == b'"') || (!is_quote && ends_word(line[at])) {
            return Some(at);
        }
    }
    None
}

/// The token that begins at a place, and where it has ended; `None` where a text isn't closed.
fn token_at(line: &[u8], start: usize) -> Option<(Token<'_>, usize)>
    requires { start < length line.now }
{
    let after = start + 1;
    let (kind, from, to, end) = match line[start] {
        b'{' | b'[' | b'(' => (Kind::Open, start, after, after),
        b'}' | b']' | b')' => (Kind::Close, start, after, after),
        b'"' => {
            let end = ends_at(line, after, true)?;
            (Kind::Text, after, end, end.saturating_add(1))
        }
        _ => {
            let end = ends_at(line, start, false).unwrap_or(line.len());
            (Kind::Word, start, end, end)
        }
    };
    let bytes = line.get(from..to).unwrap_or(&[]);
    Some((Token { kind, bytes, start }, end))
}

/// The tokens of the line with this number.
///
/// An `Err` says that a text isn't closed, or that memory was refused.
pub(crate) fn tokens_of(
    alloc: Global,
    line: &[u8],
    number: u64,
) -> Result<Vec<Token<'_>>, ReadError> {
    let mut tokens = Vec::new(alloc);
    let mut after = 0;
    for start in 0..line.len() {
        if start < after || is_blank(line[start]) {
            continue;
        }
        let Some((token, end)) = token_at(line, start) else {
            let reason = Reason::Open;
            return Err(Spot { start, reason }.on(number));
        };
        tokens.push(token).map_err(AllocError::from)?;
        after = end;
    }
    Ok(tokens)
}
