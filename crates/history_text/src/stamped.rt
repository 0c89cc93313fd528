//! Lines of whole calls with time stamps: `NAME CALL -> REPLY BEGIN END`, or `NAME CALL -> ? BEGIN` of one that never
//! returned.

use crate::fault::{ReadError, Reason};
use crate::history::{Placed, Told};
use crate::lines::{bad_byte, bad_space, is_note, spot_at, words_of};
use crate::names::{Names, is_name};
use judged_objects::Worded;
use ready_objects::is_text;
use std::alloc::{AllocError, Global};

/// The form of a line.
const FORM: &str = "NAME CALL -> REPLY BEGIN END";

/// A call with its reply, and when it began and returned.
#[derive(Drop)]
struct Whole<'a, I: Drop, R> {
    line: u64,
    process: &'a [u8],
    inv: I,
    begins: u64,
    end: Option<(u64, R)>,
}

/// The time that a word tells.
fn time_of(word: &[u8]) -> Option<u64> {
    match std::str::from_utf8(word) {
        Ok(text) => text.parse::<u64>().ok(),
        Err(_) => None,
    }
}

/// When a call returned by the words after the arrow, and its response.
fn end_of<O: Worded>(
    line: u64,
    words: &[&[u8]],
    after: usize,
    begins: u64,
) -> Result<(u64, O::Resp), ReadError> {
    let last = words.len().saturating_sub(1);
    let resp = words.get(after..last.saturating_sub(1)).unwrap_or(&[]);
    let Some(resp) = O::read_resp(resp) else {
        return Err(spot_at(words, after, Reason::NoReply(O::REPLIES)).on(line));
    };
    match words.last().and_then(|word| time_of(word)) {
        Some(at) if at < begins => Err(spot_at(words, last, Reason::Backwards).on(line)),
        Some(at) => Ok((at, resp)),
        None => Err(spot_at(words, last, Reason::NoStamp).on(line)),
    }
}

/// When a call began by the words after the arrow, and how it returned; `None` where it never did.
fn times_of<O: Worded>(
    line: u64,
    words: &[&[u8]],
    after: usize,
) -> Result<(u64, Option<(u64, O::Resp)>), ReadError> {
    let many = words.len().saturating_sub(after);
    let is_pending = many == 2 && words.get(after).map_or(false, |word| is_text(word, "?"));
    if many < 3 && !is_pending {
        return Err(spot_at(words, words.len(), Reason::Missing(FORM)).on(line));
    }
    let place = words.len().saturating_sub(if is_pending { 1 } else { 2 });
    match words.get(place).and_then(|word| time_of(word)) {
        Some(begins) if is_pending => Ok((begins, None)),
        Some(begins) => Ok((begins, Some(end_of::<O>(line, words, after, begins)?))),
        None => Err(spot_at(words, place, Reason::NoStamp).on(line)),
    }
}

/// The call that the words of a line tell.
fn whole_of<'a, O: Worded>(
    line: u64,
    words: &[&'a [u8]],
) -> Result<Whole<'a, O::Inv, O::Resp>, ReadError> {
    let process = match words.first() {
        Some(word) if is_name(word) => *word,
        _ => return Err(spot_at(words, 0, Reason::NoName).on(line)),
    };
    let Some(arrow) = words.iter().position(|word| is_text(word, "->")) else {
        return Err(spot_at(words, words.len(), Reason::NoArrow).on(line));
    };
    let Some(inv) = words.get(1..arrow).and_then(|inv| O::read_inv(inv)) else {
        return Err(spot_at(words, 1, Reason::NoCall(O::CALLS)).on(line));
    };
    let (begins, end) = times_of::<O>(line, words, arrow.saturating_add(1))?;
    Ok(Whole {
        line,
        process,
        inv,
        begins,
        end,
    })
}

/// The calls that lines tell, each that isn't a note.
fn wholes_of<'a, O: Worded>(
    alloc: Global,
    lines: &[&'a [u8]],
) -> Result<Vec<Whole<'a, O::Inv, O::Resp>>, ReadError> {
    let mut wholes = Vec::new(alloc);
    let mut number = 0u64;
    for line in lines {
        number = number.saturating_add(1);
        if is_note(line) {
            continue;
        }
        let words = words_of(alloc, line)?;
        if let Some(spot) = bad_byte(line).or(bad_space(words.as_slice())) {
            return Err(spot.on(number));
        }
        let whole = whole_of::<O>(number, words.as_slice())?;
        wholes.push(whole).map_err(AllocError::from)?;
    }
    Ok(wholes)
}

/// When calls began and returned, in order: the time, whether it returned, and which it is. Of two at one time a call
/// comes first.
fn stamps_of<I: Drop, R: Copy>(
    alloc: Global,
    wholes: &[Whole<'_, I, R>],
) -> Result<Vec<(u64, bool, usize)>, AllocError> {
    let mut stamps = Vec::new(alloc);
    for (i, whole) in wholes.iter().enumerate() {
        stamps.push((whole.begins, false, i))?;
        if let Some((at, _)) = whole.end {
            stamps.push((at, true, i))?;
        }
    }
    stamps.sort()?;
    Ok(stamps)
}

/// What lines of whole calls tell, each that isn't a note, in the order of their times. Processes are numbered in that
/// order.
///
/// An `Err` is the first line that is refused, or says that memory was refused.
pub(crate) fn tolds_of<O: Worded>(
    alloc: Global,
    lines: &[&[u8]],
) -> Result<Vec<Placed<O::Inv, O::Resp>>, ReadError> {
    let wholes = wholes_of::<O>(alloc, lines)?;
    let stamps = stamps_of(alloc, wholes.as_slice())?;
    let mut names = Names::new(alloc);
    let mut tolds = Vec::new(alloc);
    for (_, is_return, place) in &stamps {
        let Some(whole) = wholes.get(*place) else {
            continue;
        };
        let process = names.number_of(whole.process, whole.line)?;
        let told = match whole.end {
            Some((_, resp)) if *is_return => Told::Ends(process, resp),
            _ => Told::Begins(process, O::copy_inv(alloc, &whole.inv)?),
        };
        let placed = Placed {
            line: whole.line,
            start: 0,
            told,
        };
        tolds.push(placed).map_err(AllocError::from)?;
    }
    Ok(tolds)
}
