//! The values of a line's members.

ghost use Rattle.std.specs.Prelude.{◌++◌, ◌∷◌, ◌≡◌, IfOk, OnOk, [], map, option_map};
ghost use Rattle.run_tell.specs.Vocabulary.{change_shown, field_shown, held_shown, start_shown};
ghost use Rattle.run_tell.specs.Json.{member_shown, object_text};
ghost use Rattle.run_tell.specs.TraceLines.{changes_text, field_text, held_fields, is_any, letter_text, memory_text};
ghost use Rattle.run_tell.specs.TraceLines.{start_text};

use crate::json::{list_of, object_of};
use crate::value::{Member, Value};
use run_layout::letter_of;
use run_replay::{Change, Field, Held, Start};
use std::alloc::{AllocError, Global};
use uni_core::StepKind;

/// The letter of a kind of step, where there is one. An `Err` says that memory was refused.
pub fn next_letter(alloc: Global, next: Option<StepKind>) -> Result<Option<Vec<u8>>, AllocError>
    ensures { IfOk result (λ text. option_map (λ t. t.items) text ≡ option_map letter_text next) }
{
    match next {
        Some(kind) => Ok(Some(Vec::from_slice(alloc, &[letter_of(kind)])?)),
        None => Ok(None),
    }
}

/// The text of what a step proposed, where it proposed something. An `Err` says that memory was refused.
pub fn proposed_text(alloc: Global, proposed: &Option<Held>) -> Result<Option<Vec<u8>>, AllocError>
    ensures { IfOk result (λ text. option_map (λ t. t.items) text
        ≡ option_map (λ h. h.field.text) (option_map held_shown proposed.now)) }
{
    match proposed {
        Some(held) => Ok(Some(Vec::from_slice(alloc, &held.field.text)?)),
        None => Ok(None),
    }
}

/// Whether there is any change.
pub fn is_any(changes: &[Change]) -> bool
    ensures { result ≡ is_any (map change_shown changes.now) }
{
    !changes.is_empty()
}

/// Adds the text of an object with these members.
fn push_element(
    alloc: Global,
    members: &[Member<'_>],
    elements: &mut Vec<Vec<u8>>,
) -> Result<(), AllocError>
    ensures { OnOk result (map (λ e. e.items) elements.new.items
        ≡ map (λ e. e.items) elements.old.items ++ object_text (map member_shown members.now) ∷ []) }
{
    elements.push(object_of(alloc, members)?)?;
    Ok(())
}

/// The text of changes. An `Err` says that memory was refused.
pub fn changes_json(alloc: Global, changes: &[Change]) -> Result<Vec<u8>, AllocError>
    ensures { IfOk result (λ text. text.items ≡ changes_text (map change_shown changes.now)) }
{
    let mut elements = Vec::new(alloc);
    for change in changes {
        let members = [
            Member("place", Value::Text(&change.name)),
            Member("before", Value::Text(&change.before)),
            Member("after", Value::Text(&change.after)),
        ];
        push_element(alloc, &members, &mut elements)?;
    }
    list_of(alloc, &elements)
}

/// Adds the text of a field, and of what it holds.
fn push_field(alloc: Global, field: &Field, elements: &mut Vec<Vec<u8>>) -> Result<(), AllocError>
    ensures { OnOk result (map (λ e. e.items) elements.new.items
        ≡ map (λ e. e.items) elements.old.items ++ field_text (field_shown field.now) ∷ []) }
{
    let members = [
        Member("place", Value::Text(&field.name)),
        Member("content", Value::Text(&field.text)),
    ];
    push_element(alloc, &members, elements)
}

/// Adds the texts of the fields of a place.
fn push_fields(alloc: Global, held: &Held, elements: &mut Vec<Vec<u8>>) -> Result<(), AllocError>
    ensures { OnOk result (map (λ e. e.items) elements.new.items
        ≡ map (λ e. e.items) elements.old.items ++ map field_text (held_fields (held_shown held.now))) }
{
    push_field(alloc, &held.field, elements)?;
    match &held.reply {
        Some(reply) => push_field(alloc, reply, elements),
        None => Ok(()),
    }
}

/// The text of a memory. An `Err` says that memory was refused.
pub fn memory_json(alloc: Global, memory: &[Held]) -> Result<Vec<u8>, AllocError>
    ensures { IfOk result (λ text. text.items ≡ memory_text (map held_shown memory.now)) }
{
    let mut elements = Vec::new(alloc);
    for held in memory {
        push_fields(alloc, held, &mut elements)?;
    }
    list_of(alloc, &elements)
}

/// The text of where events begin. An `Err` says that memory was refused.
pub fn start_json(alloc: Global, start: &Start) -> Result<Vec<u8>, AllocError>
    ensures { IfOk result (λ text. text.items ≡ start_text (start_shown start.now)) }
{
    let memory = memory_json(alloc, &start.memory)?;
    let members = [
        Member("events", Value::Number(start.events)),
        Member("processes", Value::Number(start.processes)),
        Member("memory", Value::Json(&memory)),
    ];
    object_of(alloc, &members)
}
