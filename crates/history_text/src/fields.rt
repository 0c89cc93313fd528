//! The members of a map.

use crate::fault::{Reason, Spot};
use crate::tokens::{Kind, Token};

/// Where a value has ended that begins at a place: after its token, or after the bracket that closes it; `None` where
/// no bracket does.
fn value_end(tokens: &[Token<'_>], from: usize) -> Option<usize> {
    let mut depth = 0u64;
    for at in from..tokens.len() {
        match tokens[at].kind {
            Kind::Open => depth = depth.saturating_add(1),
            Kind::Close => depth = depth.saturating_sub(1),
            _ => {}
        }
        if depth == 0 {
            return Some(at + 1);
        }
    }
    None
}

/// What is wrong with the tokens of a line that is to be one map; `None` where it is one.
pub(crate) fn bad_map(tokens: &[Token<'_>]) -> Option<Spot> {
    match tokens.first() {
        Some(first) if first.bytes == b"{".as_slice() => match value_end(tokens, 0) {
            Some(end) => tokens.get(end).map(|token| Spot {
                start: token.start,
                reason: Reason::AfterMap,
            }),
            None => Some(Spot {
                start: first.start,
                reason: Reason::Open,
            }),
        },
        _ => Some(Spot {
            start: 0,
            reason: Reason::NoMap,
        }),
    }
}

/// The tokens of a member's value; `None` where the map has no member of this name.
pub(crate) fn member<'a, 'b>(tokens: &'b [Token<'a>], name: &str) -> Option<&'b [Token<'a>]> {
    let mut after = 1;
    for at in 1..tokens.len() {
        if at < after {
            continue;
        }
        if tokens.get(at + 1)?.kind == Kind::Close {
            return None;
        }
        let end = value_end(tokens, at + 1)?;
        if tokens[at].bytes == name.as_bytes() {
            return tokens.get(at + 1..end);
        }
        after = end;
    }
    None
}
