//! Refusals as they are drawn: equal ones side by side have one mark.

ghost use Rattle.std.specs.Prelude.{◌≡◌, ◌++◌, ◌+◌, ◌≤◌, ◌<◌, ◌^◌, ◌∷◌, []};
ghost use Rattle.std.specs.Prelude.{IfOk, OnOk, length, map, option_map};
ghost use Rattle.run_layout.specs.Wording.{refused_text, have_same_text, comes_again, label_after};
ghost use Rattle.run_layout.specs.Wording.{told_shown, told_text, times_after, labels_of};

use crate::wording::push_shortened;
use std::alloc::{AllocError, Global};
use std::io::Write;
use uni_script::{PlacedRemark, Refusal, Remark};

/// What is drawn of a remark.
#[derive(Drop)]
pub struct Told {
    /// How many events stand before it.
    pub before: u64,
    /// The label of the mark of a refusal; `None` of a note, and of a refusal that comes again at once.
    pub label: Option<Vec<u8>>,
}

/// What was refused, in at most 24 letters, and why. An `Err` says that memory was refused.
pub fn refused_text(alloc: Global, command: &[u8], refusal: Refusal) -> Result<Vec<u8>, AllocError>
    ensures { IfOk result (λ text. text.items ≡ refused_text command.now refusal) }
{
    let mut text = Vec::new(alloc);
    push_shortened(command, &mut text)?;
    text.extend_from_slice(b" refused: ")?;
    match refusal {
        Refusal::Process(_) => write!(text, "no such process"),
        Refusal::Busy(process) | Refusal::Pending(process) => {
            write!(text, "P{process} has a call pending")
        }
        Refusal::Row(process) => write!(text, "P{process} has a full row"),
        Refusal::Idle(process) => write!(text, "P{process} has no call pending"),
        Refusal::Sequence => write!(text, "the numbers are used up"),
        Refusal::History => write!(text, "the history is full"),
        Refusal::Count(count) => write!(text, "{count} isn't from 1 to 64"),
    }
    .map_err(|_| AllocError)?;
    Ok(text)
}

/// The label of a remark that was told so often in a row; a note has none.
fn told_text(alloc: Global, times: u64, remark: &Remark) -> Result<Option<Vec<u8>>, AllocError>
    ensures { IfOk result (λ label. option_map (λ text. text.items) label ≡ told_text times remark.now) }
{
    match remark {
        Remark::Refused { command, refusal } => {
            let mut text = refused_text(alloc, command, *refusal)?;
            if times != 1 {
                write!(text, " x{times}").map_err(|_| AllocError)?;
            }
            Ok(Some(text))
        }
        Remark::Heading(_) | Remark::Note(_) => Ok(None),
    }
}

/// Whether both are refusals with the same text.
fn have_same_text(alloc: Global, one: &Remark, other: &Remark) -> Result<bool, AllocError>
    ensures { IfOk result (λ same. same ≡ have_same_text one.now other.now) }
{
    match (one, other) {
        (
            Remark::Refused { command, refusal },
            Remark::Refused {
                command: next,
                refusal: why,
            },
        ) => {
            let text = refused_text(alloc, command, *refusal)?;
            let other = refused_text(alloc, next, *why)?;
            Ok(text.as_slice() == other.as_slice())
        }
        _ => Ok(false),
    }
}

/// Whether a refusal comes again at once, after as many events.
fn comes_again(alloc: Global, one: &PlacedRemark, rest: &[PlacedRemark]) -> Result<bool, AllocError>
    ensures { IfOk result (λ again. again ≡ comes_again one.now rest.now) }
{
    match rest.first() {
        Some(next) if next.before == one.before => {
            have_same_text(alloc, &one.remark, &next.remark)
        }
        _ => Ok(false),
    }
}

/// Adds what is drawn of a remark that was told so many times before, and that these follow; the answer is how often
/// the next one was told before.
fn push_told(
    alloc: Global,
    times: u64,
    one: &PlacedRemark,
    rest: &[PlacedRemark],
    told: &mut Vec<Told>,
) -> Result<u64, AllocError>
    requires { times + 1 < 2 ^ 64 }
    ensures count { OnOk result (length told.new.items ≡ length told.old.items + 1) }
    ensures small { IfOk result (λ next. next ≤ times + 1) }
    ensures label { OnOk result (map told_shown told.new.items
        ≡ map told_shown told.old.items ++ label_after times one.now rest.now ∷ []) }
    ensures times { IfOk result (λ next. next ≡ times_after times one.now rest.now) }
{
    let before = one.before;
    if comes_again(alloc, one, rest)? {
        let label = None;
        told.push(Told { before, label })?;
        return Ok(times + 1);
    }
    let label = told_text(alloc, times + 1, &one.remark)?;
    told.push(Told { before, label })?;
    Ok(0)
}

/// What is drawn of each remark: equal refusals side by side have one label, at the last of them. An `Err` says that
/// memory was refused.
pub fn told_of(alloc: Global, remarks: &[PlacedRemark]) -> Result<Vec<Told>, AllocError>
    ensures count { IfOk result (λ told. length told.items ≡ length remarks.now) }
    ensures labels { IfOk result (λ told. map told_shown told.items ≡ labels_of remarks.now) }
{
    let mut told = Vec::new(alloc);
    let mut times = 0;
    for (place, one) in remarks.iter().enumerate() {
        times = push_told(alloc, times, one, &remarks[place + 1..], &mut told)?;
    }
    Ok(told)
}
