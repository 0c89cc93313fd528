//! The strokes that signs are to have, from the lowest on.

ghost use Rattle.std.specs.Prelude.{◌≡◌, ◌∷◌, ◌+◌, ◌<◌, ◌≤◌, ◌^◌, IfOk, OnOk, map};
ghost use Rattle.run_lines.specs.Vocabulary.{Adds, flat_map, meaning, marks_shown, sign_shown};
ghost use Rattle.run_lines.specs.Parts.{no_notes, numbering_after, is_arrow, layered, number_parts, numbers_from};
ghost use Rattle.run_lines.specs.Parts.{parts_of, parts_of_run, step_letter};

use run_layout::{Mark, Sign, after_events, letter_of, push_part, signs_of};
use run_replay::Marks;
use signs::{Edge, Look, Part};
use std::alloc::{AllocError, Global};
use uni_core::StepKind;
use uni_script::{PlacedRemark, Remark};

/// How far the notes of a run are numbered.
#[derive(Clone, Copy)]
pub struct Numbering {
    /// The number of the last note, from 1; 0 before all notes.
    pub number: u64,
    /// How many events stand before the remark just told, where that is a note.
    pub last: Option<u64>,
}

impl Numbering {
    /// Before all notes.
    pub fn none() -> Numbering
        ensures { result ≡ no_notes }
    {
        Numbering {
            number: 0,
            last: None,
        }
    }

    /// After one more remark: notes that nothing stands between have one number.
    pub fn after(self, one: &PlacedRemark) -> Numbering
        ensures small { result.number ≤ self.number + 1 }
        ensures after { self.number + 1 < 2 ^ 64 → result ≡ numbering_after self one.now }
    {
        match (&one.remark, self.last) {
            (Remark::Note(_), Some(last)) if last == one.before => self,
            (Remark::Note(_), _) => Numbering {
                number: self.number.saturating_add(1),
                last: Some(one.before),
            },
            _ => Numbering { last: None, ..self },
        }
    }
}

/// The letter of a step: a small one where the step changed nothing.
pub fn step_letter(kind: StepKind, changed: bool) -> u8
    ensures { result ≡ step_letter kind changed }
{
    let letter = letter_of(kind);
    if changed {
        letter
    } else {
        letter.to_ascii_lowercase()
    }
}

/// What a refusal says: an `x` and its label.
pub fn refusal_text(alloc: Global, label: &[u8]) -> Result<Vec<u8>, AllocError>
    ensures { IfOk result (λ text. text.items ≡ 120 ∷ 32 ∷ label.now) }
{
    let mut text = b"x ".to_vec(alloc)?;
    text.extend_from_slice(label)?;
    Ok(text)
}

/// Whether a mark is an arrow.
fn is_arrow(mark: Mark) -> bool
    ensures { result ≡ is_arrow mark }
{
    matches!(mark, Mark::Down | Mark::Up)
}

/// Signs as they are painted: arrows are behind all else, and come last.
pub fn layered(alloc: Global, signs: Vec<Sign>) -> Result<Vec<Sign>, AllocError>
    ensures { IfOk result (λ all. map sign_shown all.items ≡ layered (map sign_shown signs.items)) }
{
    let mut first = Vec::new(alloc);
    let mut arrows = Vec::new(alloc);
    for sign in signs {
        if is_arrow(sign.mark) {
            arrows.push(sign)?;
        } else {
            first.push(sign)?;
        }
    }
    first.append(&mut arrows)?;
    Ok(first)
}

/// Adds the strokes that a sign is to have.
fn push_parts(alloc: Global, sign: &Sign, parts: &mut Vec<Part>) -> Result<(), AllocError>
    ensures { OnOk result (Adds meaning parts.old parts.new (parts_of (sign_shown sign.now))) }
{
    match sign.mark {
        Mark::Name | Mark::Label | Mark::Counts => {
            push_part(alloc, sign, Look::Text, &sign.text, parts)
        }
        Mark::End => {
            push_part(alloc, sign, Look::End, &[], parts)?;
            push_part(alloc, sign, Look::Text, &sign.text, parts)
        }
        Mark::Bar | Mark::Open => push_part(alloc, sign, Look::Bar, &[], parts),
        Mark::Down | Mark::Up => push_part(alloc, sign, Look::Arrow, &[], parts),
        Mark::Step(kind, changed) => {
            let letter = step_letter(kind, changed);
            push_part(alloc, sign, Look::Text, &[letter], parts)
        }
        Mark::Dot => push_part(alloc, sign, Look::Text, b"*", parts),
        Mark::Refusal => {
            let text = refusal_text(alloc, &sign.text)?;
            push_part(alloc, sign, Look::Text, &text, parts)
        }
    }
}

/// Adds the number of a note, where the events before it are over.
fn push_number(
    alloc: Global,
    number: u64,
    one: &PlacedRemark,
    parts: &mut Vec<Part>,
) -> Result<(), AllocError>
    ensures { OnOk result (Adds meaning parts.old parts.new (number_parts number one.now.before one.now.remark)) }
{
    if let Remark::Note(_) = one.remark {
        parts.push(Part {
            look: Look::Text,
            columns: (after_events(one.before), Edge::After(one.before)),
            lanes: None,
            text: format!(in alloc; "{number}")?.into_bytes(),
        })?;
    }
    Ok(())
}

/// Adds the numbers of notes.
fn push_numbers(
    alloc: Global,
    remarks: &[PlacedRemark],
    parts: &mut Vec<Part>,
) -> Result<(), AllocError>
    ensures { OnOk result (Adds meaning parts.old parts.new (numbers_from no_notes remarks.now)) }
{
    let mut numbering = Numbering::none();
    for (_, one) in remarks.iter().enumerate() {
        numbering = numbering.after(one);
        push_number(alloc, numbering.number, one, parts)?;
    }
    Ok(())
}

/// The strokes that the marks of a run are to have, with what is told beside its events.
pub fn parts_of_run(
    alloc: Global,
    marks: &Marks,
    remarks: &[PlacedRemark],
) -> Result<Vec<Part>, AllocError>
    ensures { IfOk result (λ parts. map meaning parts.items ≡ parts_of_run (marks_shown marks.now) remarks.now) }
{
    let mut parts = Vec::new(alloc);
    for sign in &layered(alloc, signs_of(alloc, marks, remarks)?)? {
        push_parts(alloc, sign, &mut parts)?;
    }
    push_numbers(alloc, remarks, &mut parts)?;
    Ok(parts)
}
