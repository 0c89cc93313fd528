//! Patterns of a line.

ghost use Rattle.std.specs.Prelude.{◌≡◌};
ghost use Rattle.std.specs.Option.{option_copied};
ghost use Rattle.ready_objects.specs.Words.{bytes_of};
ghost use Rattle.course_run.specs.Goals.{after_gap, after_number, come_in_order, ends_in, has_like, has_step, is_like};
ghost use Rattle.course_run.specs.Goals.{without_first};

/// What follows `..`, where a pattern begins with it.
fn after_gap(pattern: &[u8]) -> Option<&[u8]>
    ensures { option_copied result ≡ after_gap pattern.now }
{
    match pattern {
        [first, second, back @ ..] if *first == b'.' && *second == b'.' => Some(back),
        _ => None,
    }
}

/// A text without its first byte, where that is this one.
fn without_first(byte: u8, text: &[u8]) -> Option<&[u8]>
    ensures { option_copied result ≡ without_first byte text.now }
{
    match text {
        [first, others @ ..] if *first == byte => Some(others),
        _ => None,
    }
}

/// Tells whether a text ends with another one.
fn ends_in(text: &[u8], back: &[u8]) -> bool
    ensures { result ≡ ends_in text.now back.now }
{
    back.len() <= text.len() && text.ends_with(back)
}

/// Tells whether a text has the bytes of a pattern, of which the first `..` stands for any bytes.
pub(crate) fn is_like(pattern: &[u8], text: &[u8]) -> bool
    ensures { result ≡ is_like pattern.now text.now }
{
    let mut rest = pattern;
    let mut left = text;
    while let [byte, after @ ..] = rest {
        if let Some(back) = after_gap(rest) {
            return ends_in(left, back);
        }
        let Some(others) = without_first(*byte, left) else {
            return false;
        };
        rest = after;
        left = others;
    }
    left.is_empty()
}

/// Tells whether one of some lines is like a pattern.
pub(crate) fn has_like(pattern: &[u8], lines: &[&[u8]]) -> bool
    ensures { result ≡ has_like pattern.now (bytes_of lines.now) }
{
    for line in lines {
        if is_like(pattern, line) {
            return true;
        }
    }
    false
}

/// A line of a run that is told in steps, without its event's number and the blanks before and after that.
fn after_number(line: &[u8]) -> &[u8]
    ensures { result.now ≡ after_number line.now }
{
    let mut rest = line;
    while let [byte, others @ ..] = rest {
        if !byte.is_ascii_digit() && *byte != b' ' {
            return rest;
        }
        rest = others;
    }
    rest
}

/// Tells whether one of the lines of a run that is told in steps is like a pattern, without its event's number.
pub(crate) fn has_step(pattern: &[u8], steps: &[&[u8]]) -> bool
    ensures { result ≡ has_step pattern.now (bytes_of steps.now) }
{
    for line in steps {
        if is_like(pattern, after_number(line)) {
            return true;
        }
    }
    false
}

/// Tells whether a line is like the first of some patterns, one after it like the second, and so on.
pub(crate) fn come_in_order(patterns: &[&[u8]], lines: &[&[u8]]) -> bool
    ensures { result ≡ come_in_order (bytes_of patterns.now) (bytes_of lines.now) }
{
    let [first, later @ ..] = patterns else {
        return true;
    };
    let mut wanted = *first;
    let mut others = later;
    for line in lines {
        if is_like(wanted, line) {
            let [next, left @ ..] = others else {
                return true;
            };
            wanted = *next;
            others = left;
        }
    }
    false
}
