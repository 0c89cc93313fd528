//! Values with names.

/// A value of JSON.
#[derive(Clone, Copy)]
pub enum Value<'a> {
    /// A number.
    Number(u64),
    /// A string, not escaped.
    Text(&'a [u8]),
    /// `true` or `false`.
    Flag(bool),
    /// A number, or `null` where there is none.
    MaybeNumber(Option<u64>),
    /// A string, not escaped, or `null` where there is none.
    MaybeText(&'a Option<Vec<u8>>),
    /// A value whose text is JSON.
    Json(&'a [u8]),
}

/// A member of an object: its name, of letters and digits, and its value.
#[derive(Clone, Copy)]
pub struct Member<'a>(pub &'a str, pub Value<'a>);
