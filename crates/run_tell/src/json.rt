//! The text of objects and lists.

ghost use Rattle.std.specs.Prelude.{◌++◌, ◌<◌, ◌≡◌, IfOk, OnOk, decimal, flat_map, map};
ghost use Rattle.run_tell.specs.Json.{after_comma, code_text, escaped, escaped_byte, hex_digit, list_text};
ghost use Rattle.run_tell.specs.Json.{member_shown, member_text, object_text, quoted, separated, value_shown};
ghost use Rattle.run_tell.specs.Json.{value_text};

use crate::value::{Member, Value};
use std::alloc::{AllocError, Global};
use std::io::Write;

/// Adds an object with these members, in order. An `Err` says that memory was refused.
#[tactic(auto, unfolding(crate::specs::Json::object_text))]
pub fn push_object(text: &mut Vec<u8>, members: &[Member<'_>]) -> Result<(), AllocError>
    ensures { OnOk result (text.new.items ≡ text.old.items ++ object_text (map member_shown members.now)) }
{
    text.push(b'{')?;
    push_members(text, members)?;
    text.extend_from_slice(b"}")
}

/// The text of an object with these members. An `Err` says that memory was refused.
pub fn object_of(alloc: Global, members: &[Member<'_>]) -> Result<Vec<u8>, AllocError>
    ensures { IfOk result (λ text. text.items ≡ object_text (map member_shown members.now)) }
{
    let mut text = Vec::new(alloc);
    push_object(&mut text, members)?;
    Ok(text)
}

/// Adds members with commas between them. An `Err` says that memory was refused.
pub fn push_members(text: &mut Vec<u8>, members: &[Member<'_>]) -> Result<(), AllocError>
    ensures { OnOk result (text.new.items
        ≡ text.old.items ++ separated (map member_text (map member_shown members.now))) }
{
    let Some((first, more)) = members.split_first() else {
        return Ok(());
    };
    push_member(text, first)?;
    push_more_members(text, more)
}

/// Adds members with a comma before each. An `Err` says that memory was refused.
pub fn push_more_members(text: &mut Vec<u8>, members: &[Member<'_>]) -> Result<(), AllocError>
    ensures { OnOk result (text.new.items
        ≡ text.old.items ++ flat_map after_comma (map member_text (map member_shown members.now))) }
{
    for one in members {
        text.push(b',')?;
        push_member(text, one)?;
    }
    Ok(())
}

/// The text of a list whose elements have these texts, which are to be JSON. An `Err` says that memory was refused.
#[tactic(auto, unfolding(crate::specs::Json::list_text))]
pub fn list_of(alloc: Global, elements: &[Vec<u8>]) -> Result<Vec<u8>, AllocError>
    ensures { IfOk result (λ text. text.items ≡ list_text (map (λ e. e.items) elements.now)) }
{
    let mut text = Vec::new(alloc);
    text.push(b'[')?;
    push_elements(&mut text, elements)?;
    text.push(b']')?;
    Ok(text)
}

/// Adds texts with commas between them.
fn push_elements(text: &mut Vec<u8>, elements: &[Vec<u8>]) -> Result<(), AllocError>
    ensures { OnOk result (text.new.items ≡ text.old.items ++ separated (map (λ e. e.items) elements.now)) }
{
    let Some((first, more)) = elements.split_first() else {
        return Ok(());
    };
    text.extend_from_slice(first)?;
    push_more_elements(text, more)
}

/// Adds texts with a comma before each.
fn push_more_elements(text: &mut Vec<u8>, elements: &[Vec<u8>]) -> Result<(), AllocError>
    ensures { OnOk result (text.new.items
        ≡ text.old.items ++ flat_map after_comma (map (λ e. e.items) elements.now)) }
{
    for element in elements {
        text.push(b',')?;
        text.extend_from_slice(element)?;
    }
    Ok(())
}

/// Adds a member.
fn push_member(text: &mut Vec<u8>, one: &Member<'_>) -> Result<(), AllocError>
    ensures { OnOk result (text.new.items ≡ text.old.items ++ member_text (member_shown one.now)) }
{
    push_quoted(text, one.0.as_bytes())?;
    text.push(b':')?;
    push_value(text, one.1)
}

/// Adds a value.
fn push_value(text: &mut Vec<u8>, value: Value<'_>) -> Result<(), AllocError>
    ensures { OnOk result (text.new.items ≡ text.old.items ++ value_text (value_shown value.entry)) }
{
    match value {
        Value::Number(number) => push_number(text, number),
        Value::Text(words) => push_quoted(text, words),
        Value::Flag(true) => text.extend_from_slice(b"true"),
        Value::Flag(false) => text.extend_from_slice(b"false"),
        Value::MaybeNumber(Some(number)) => push_number(text, number),
        Value::MaybeText(Some(words)) => push_quoted(text, words),
        Value::MaybeNumber(None) | Value::MaybeText(None) => text.extend_from_slice(b"null"),
        Value::Json(json) => text.extend_from_slice(json),
    }
}

/// Adds a number.
fn push_number(text: &mut Vec<u8>, number: u64) -> Result<(), AllocError>
    ensures { OnOk result (text.new.items ≡ text.old.items ++ decimal number) }
{
    write!(text, "{number}").map_err(|_| AllocError)
}

/// Adds a string: its text, escaped, between quotes.
fn push_quoted(text: &mut Vec<u8>, words: &[u8]) -> Result<(), AllocError>
    ensures { OnOk result (text.new.items ≡ text.old.items ++ quoted words.now) }
{
    text.push(b'"')?;
    push_escaped(text, words)?;
    text.extend_from_slice(b"\"")
}

/// Adds a text with each quote, backslash and control byte escaped.
fn push_escaped(text: &mut Vec<u8>, words: &[u8]) -> Result<(), AllocError>
    ensures { OnOk result (text.new.items ≡ text.old.items ++ escaped words.now) }
{
    for byte in words {
        push_escaped_byte(text, *byte)?;
    }
    Ok(())
}

/// Adds a byte of a string, escaped.
fn push_escaped_byte(text: &mut Vec<u8>, byte: u8) -> Result<(), AllocError>
    ensures { OnOk result (text.new.items ≡ text.old.items ++ escaped_byte byte) }
{
    match byte {
        b'"' => text.extend_from_slice("\\\"".as_bytes()),
        b'\\' => text.extend_from_slice("\\\\".as_bytes()),
        0..=31 => push_code(text, byte),
        plain => text.extend_from_slice(&[plain]),
    }
}

/// Adds a control byte by its code.
fn push_code(text: &mut Vec<u8>, byte: u8) -> Result<(), AllocError>
    requires { byte < 32 }
    ensures { OnOk result (text.new.items ≡ text.old.items ++ code_text byte) }
{
    text.extend_from_slice("\\u00".as_bytes())?;
    text.extend_from_slice(&[hex_digit(byte / 16), hex_digit(byte % 16)])
}

/// The digit of a number below 16, in hexadecimal.
fn hex_digit(number: u8) -> u8
    requires { number < 16 }
    ensures { result ≡ hex_digit number }
{
    if number < 10 {
        b'0' + number
    } else {
        b'a' + (number - 10)
    }
}
