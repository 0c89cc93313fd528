//! Lines of maps: those of Jepsen, in Clojure, and those of `unidraw --history`, in JSON.

use crate::fault::{ReadError, Reason, Spot};
use crate::fields::{bad_map, member};
use crate::history::{Placed, Told};
use crate::lines::{is_note, words_of};
use crate::names::Names;
use crate::tokens::{Kind, Token, tokens_of};
use judged_objects::Worded;
use ready_objects::{Amount, is_text};
use std::alloc::{AllocError, Global};
use std::collections::BTreeMap;

/// What a map tells of a process.
#[derive(Drop)]
enum Act<I: Drop, R: Drop> {
    /// It begins a call.
    Begins(I),
    /// Its call returns.
    Ends(R),
    /// Its call failed: it is known to have had no effect.
    Fails,
    /// Its call may never return.
    Ceases,
}

/// The refusal of a line at the first token of a value.
fn refused(line: u64, value: &[Token<'_>], reason: Reason) -> ReadError {
    let start = match value.first() {
        Some(token) => token.start,
        None => 0,
    };
    Spot { start, reason }.on(line)
}

/// The words of a value: its tokens that are no brackets, without `nil` and `null`.
fn words_in<'a>(
    alloc: Global,
    first: Option<&'a [u8]>,
    value: &[Token<'a>],
) -> Result<Vec<&'a [u8]>, AllocError> {
    let mut words = Vec::new(alloc);
    if let Some(first) = first {
        words.push(first)?;
    }
    for token in value {
        let is_bracket = token.kind == Kind::Open || token.kind == Kind::Close;
        if !is_bracket && !is_text(token.bytes, "nil") && !is_text(token.bytes, "null") {
            words.push(token.bytes)?;
        }
    }
    Ok(words)
}

/// The word of a call that Jepsen gives this name.
fn name_of(function: &[u8]) -> &[u8] {
    if is_text(function, "enqueue") {
        b"enq"
    } else if is_text(function, "dequeue") {
        b"deq"
    } else {
        function
    }
}

/// What a value has in place of one that is missing.
fn bytes_of<'a>(value: &[Token<'a>]) -> &'a [u8] {
    match value.first() {
        Some(token) => token.bytes,
        None => b"",
    }
}

/// The invocation that a map tells; `None` where the object has no such call.
fn inv_in<O: Worded>(alloc: Global, tokens: &[Token<'_>]) -> Result<Option<O::Inv>, AllocError> {
    if let Some(words) = member(tokens, "words") {
        return Ok(O::read_inv(words_of(alloc, bytes_of(words))?.as_slice()));
    }
    let Some(function) = member(tokens, "f") else {
        return Ok(None);
    };
    let value = member(tokens, "value").unwrap_or(&[]);
    let words = words_in(alloc, Some(name_of(bytes_of(function))), value)?;
    Ok(O::read_inv(words.as_slice()))
}

/// The calls that answer no more than that they were made.
const ACKNOWLEDGED: [&str; 6] = ["enqueue", "enq", "push", "write", "put", "add"];

/// The response that a call of Jepsen has by its value; `None` where the object has no such reply.
fn resp_by<O: Worded>(
    alloc: Global,
    function: &[u8],
    value: &[Token<'_>],
) -> Result<Option<O::Resp>, AllocError> {
    if ACKNOWLEDGED.iter().any(|name| is_text(function, name)) {
        return Ok(O::read_resp(&[b"ok".as_slice()]));
    }
    if is_text(function, "cas") {
        return Ok(O::read_resp(&[b"true".as_slice()]));
    }
    let words = words_in(alloc, None, value)?;
    match words.last() {
        Some(word) => Ok(O::read_resp(&[*word])),
        None => Ok(O::read_resp(&[b"empty".as_slice()]).or(O::read_resp(&[b"none".as_slice()]))),
    }
}

/// The response that a map tells; `None` where the object has no such reply.
fn resp_in<O: Worded>(alloc: Global, tokens: &[Token<'_>]) -> Result<Option<O::Resp>, AllocError> {
    if let Some(reply) = member(tokens, "reply") {
        return Ok(O::read_resp(words_of(alloc, bytes_of(reply))?.as_slice()));
    }
    let function = member(tokens, "f").unwrap_or(&[]);
    let value = member(tokens, "value").unwrap_or(&[]);
    resp_by::<O>(alloc, bytes_of(function), value)
}

/// What a map tells of its process.
fn act_of<O: Worded>(
    alloc: Global,
    line: u64,
    tokens: &[Token<'_>],
    kind: &[Token<'_>],
) -> Result<Act<O::Inv, O::Resp>, ReadError> {
    let word = bytes_of(kind);
    if is_text(word, "invoke") {
        match inv_in::<O>(alloc, tokens)? {
            Some(inv) => Ok(Act::Begins(inv)),
            None => Err(refused(line, kind, Reason::NoCall(O::CALLS))),
        }
    } else if is_text(word, "ok") {
        match resp_in::<O>(alloc, tokens)? {
            Some(resp) => Ok(Act::Ends(resp)),
            None => Err(refused(line, kind, Reason::NoReply(O::REPLIES))),
        }
    } else if is_text(word, "fail") {
        Ok(Act::Fails)
    } else if is_text(word, "info") {
        Ok(Act::Ceases)
    } else {
        Err(refused(line, kind, Reason::NoType))
    }
}

/// The type and the process of a map; `None` where it tells nothing of a process: it is the first line of `unidraw`, or
/// of Jepsen's nemesis.
fn heads_of<'a, 'b>(
    line: u64,
    tokens: &'b [Token<'a>],
) -> Result<Option<(&'b [Token<'a>], &'a [u8])>, ReadError> {
    if let Some(spot) = bad_map(tokens) {
        return Err(spot.on(line));
    }
    let Some(kind) = member(tokens, "type") else {
        return Err(refused(line, tokens, Reason::NoMember("type")));
    };
    if is_text(bytes_of(kind), "run") {
        return Ok(None);
    }
    let Some(process) = member(tokens, "process") else {
        return Err(refused(line, tokens, Reason::NoMember("process")));
    };
    let process = bytes_of(process);
    match Amount::read(process) {
        Some(_) => Ok(Some((kind, process))),
        None => Ok(None),
    }
}

/// What maps told so far.
#[derive(Drop)]
struct Heard<'a, I: Drop, R: Drop> {
    /// What was told, without the calls that failed.
    tolds: Vec<Option<Placed<I, R>>>,
    /// The processes.
    names: Names<'a>,
    /// For each process the place of its last call.
    begun: BTreeMap<usize, usize>,
}

impl<'a, I: Drop, R: Drop> Heard<'a, I, R> {
    /// Nothing.
    fn new(alloc: Global) -> Heard<'a, I, R> {
        Heard {
            tolds: Vec::new(alloc),
            names: Names::new(alloc),
            begun: BTreeMap::new(alloc),
        }
    }

    /// Leaves out the last call of a process.
    ///
    /// An `Err` says that it has none.
    fn leave_out(&mut self, line: u64, process: usize) -> Result<(), ReadError> {
        let begun = self.begun.get(&process).copied().unwrap_or(usize::MAX);
        match self.tolds.get_mut(begun) {
            Some(told) => {
                *told = None;
                Ok(())
            }
            None => Err(refused(line, &[], Reason::Idle)),
        }
    }

    /// What was told.
    fn kept(self, alloc: Global) -> Result<Vec<Placed<I, R>>, AllocError> {
        let mut kept = Vec::new(alloc);
        for told in self.tolds {
            if let Some(told) = told {
                kept.push(told)?;
            }
        }
        Ok(kept)
    }

    /// Takes what a map tells of a process.
    fn take(&mut self, line: u64, name: &'a [u8], act: Act<I, R>) -> Result<(), ReadError> {
        let process = self.names.number_of(name, line)?;
        let told = match act {
            Act::Begins(inv) => {
                let place = self.tolds.len();
                self.begun.insert(process, place).map_err(AllocError::from)?;
                Told::Begins(process, inv)
            }
            Act::Ends(resp) => Told::Ends(process, resp),
            Act::Fails => return self.leave_out(line, process),
            Act::Ceases => Told::Ceases(process),
        };
        let start = 0;
        let placed = Placed { line, start, told };
        self.tolds.push(Some(placed)).map_err(AllocError::from)?;
        Ok(())
    }
}

/// Adds what a line tells, unless it is a note.
fn add_line<'a, O: Worded>(
    alloc: Global,
    heard: &mut Heard<'a, O::Inv, O::Resp>,
    line: &'a [u8],
    number: u64,
) -> Result<(), ReadError> {
    if is_note(line) {
        return Ok(());
    }
    let tokens = tokens_of(alloc, line, number)?;
    match heads_of(number, tokens.as_slice())? {
        Some((kind, process)) => {
            let act = act_of::<O>(alloc, number, tokens.as_slice(), kind)?;
            heard.take(number, process, act)
        }
        None => Ok(()),
    }
}

/// What lines of maps tell, each that isn't a note, without the calls that failed. Processes are numbered in the order
/// in which they come.
///
/// An `Err` is the first line that is refused, or says that memory was refused.
pub(crate) fn tolds_of<O: Worded>(
    alloc: Global,
    lines: &[&[u8]],
) -> Result<Vec<Placed<O::Inv, O::Resp>>, ReadError> {
    let mut heard = Heard::new(alloc);
    let mut number = 0u64;
    for line in lines {
        number = number.saturating_add(1);
        add_line::<O>(alloc, &mut heard, line, number)?;
    }
    Ok(heard.kept(alloc)?)
}
