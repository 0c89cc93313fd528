//! The lines of a text.

ghost use Rattle.std.specs.Prelude.{◌≡◌, ◌++◌, ◌+◌, ◌-◌, ◌≤◌, OnOk, length, map};
ghost use Rattle.run_layout.specs.Wording.{last_space, fitting_len, after_space, lines_of};

use std::alloc::{AllocError, Global};

/// How many lines of a note are drawn at most. A line of a script has at most 200 bytes, so all are.
pub const MOST_LINES: u64 = 200;

/// The last place below `end`, but for the first one, at which a text has a space; 0 where there is none.
fn last_space(text: &[u8], end: usize) -> usize
    requires { end ≤ length text.now }
    ensures within { result ≤ end - 1 }
    ensures place { result ≡ last_space text.now end }
{
    let mut at = end;
    while at > 0 {
        at -= 1;
        if text[at] == b' ' {
            return at;
        }
    }
    0
}

/// How many bytes of a text stand in a line of at most so many bytes: all, or those before the
/// last space after which they still fit, or as many as the line takes.
fn fitting_len(text: &[u8], most: usize) -> usize
    ensures within { result ≤ length text.now }
    ensures prefix { result ≡ fitting_len text.now most }
{
    if text.len() <= most {
        return text.len();
    }
    match last_space(text, most + 1) {
        0 => most,
        space => space,
    }
}

/// A text without the space that it begins with.
fn after_space(text: &[u8]) -> &[u8]
    ensures { result.now ≡ after_space text.now }
{
    match text {
        [b' ', rest @ ..] => rest,
        _ => text,
    }
}

/// Adds the lines of a text, of at most so many bytes each. An `Err` says that memory was refused.
pub fn push_lines(
    alloc: Global,
    text: &[u8],
    most: usize,
    lines: &mut Vec<Vec<u8>>,
) -> Result<(), AllocError>
    ensures few { OnOk result (length lines.new.items ≤ length lines.old.items + 200) }
    ensures lines { OnOk result (map (λ line. line.items) lines.new.items
        ≡ map (λ line. line.items) lines.old.items ++ lines_of MOST_LINES most text.now) }
{
    let mut rest = text;
    for place in 0..MOST_LINES {
        if rest.is_empty() {
            return Ok(());
        }
        let prefix = fitting_len(rest, most);
        let mut line = Vec::new(alloc);
        line.extend_from_slice(&rest[..prefix])?;
        lines.push(line)?;
        rest = after_space(&rest[prefix..]);
    }
    Ok(())
}
