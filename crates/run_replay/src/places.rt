//! What the places of a world hold, as text.

ghost use Rattle.std.specs.Prelude.{◌≡◌, IfOk, IfSome, IsSome, option_map};
ghost use Rattle.run_replay.specs.Vocabulary.{IsPlaceIn, NewOf, cell_of, name_in, option_copied, place_named, world_of};
ghost use Rattle.run_replay.specs.Held.{alone, cell_text, entry_name, field_name, held, link_text, reply_text};
ghost use Rattle.run_replay.specs.Held.{state_text};
ghost use Rattle.run_replay.specs.Scenes.{held_shown};

use crate::frame::{Field, Held};
use cell_arena::CellId;
use ready_objects::Spoken;
use seq_object::{CallId, SeqObject};
use std::alloc::{AllocError, Global};
use uni_core::{Place, World};

/// The text of a cell's name: that of the call that it was made for, or `anchor`. An `Err` says that memory was
/// refused.
pub fn cell_text(alloc: Global, call: Option<CallId>) -> Result<Vec<u8>, AllocError>
    ensures { IfOk result (λ text. text.items ≡ cell_text call) }
{
    match call {
        None => Vec::from_slice(alloc, b"anchor"),
        Some(call) => Ok(format!(in alloc; "{call}")?.into_bytes()),
    }
}

/// The name of a field of a cell, as `1.0.seq`. An `Err` says that memory was refused.
pub fn field_name(alloc: Global, cell: Option<CallId>, field: &str) -> Result<Vec<u8>, AllocError>
    ensures { IfOk result (λ text. text.items ≡ field_name cell field.now) }
{
    let mut text = cell_text(alloc, cell)?;
    text.push(b'.')?;
    text.extend_from_slice(field.as_bytes())?;
    Ok(text)
}

/// A field without another beside it.
pub(crate) fn alone(name: Vec<u8>, text: Vec<u8>) -> Held
    ensures { held_shown result ≡ alone name.items text.items }
{
    Held {
        field: Field { name, text },
        reply: None,
    }
}

/// The text of a link to a cell, or `?` where there is none.
fn link_text<O: SeqObject>(
    alloc: Global,
    world: &World<O>,
    cell: Option<CellId>,
) -> Result<Vec<u8>, AllocError>
    requires { IfSome cell (λ cell. IsSome (cell_of world.now.shared.cells cell)) }
    ensures { IfOk result (λ text. text.items ≡ link_text (option_map (name_in (world_of world.now)) cell)) }
{
    match cell {
        Some(cell) => cell_text(alloc, world.call_of(cell)),
        None => Vec::from_slice(alloc, b"?"),
    }
}

/// The text of a state that may be settled.
fn state_text<O: Spoken>(
    alloc: Global,
    new: Option<&(O::State, Option<O::Resp>)>,
) -> Result<Vec<u8>, AllocError>
    ensures { IfOk result (λ text. text.items ≡ state_text O.state_text (option_copied new.entry)) }
{
    let mut text = Vec::new(alloc);
    match new {
        Some((state, _)) => O::push_state(&mut text, state)?,
        None => text.push(b'?')?,
    }
    Ok(text)
}

/// The text of a response that may be settled.
fn reply_text<O: Spoken>(
    alloc: Global,
    new: Option<&(O::State, Option<O::Resp>)>,
) -> Result<Vec<u8>, AllocError>
    ensures { IfOk result (λ text. text.items ≡ reply_text O.language (option_copied new.entry)) }
{
    match new {
        Some((_, Some(reply))) => O::resp_text(alloc, *reply),
        Some((_, None)) => Vec::from_slice(alloc, b"none"),
        None => Vec::from_slice(alloc, b"?"),
    }
}

/// An entry of an array, as `head[0]`, which names a cell.
fn entry_held(
    alloc: Global,
    array: &str,
    process: u64,
    cell: Option<CallId>,
) -> Result<Held, AllocError>
    ensures { IfOk result (λ found. held_shown found ≡ alone (entry_name array.now process) (cell_text cell)) }
{
    let name = format!(in alloc; "{array}[{process}]")?.into_bytes();
    Ok(alone(name, cell_text(alloc, cell)?))
}

/// A field of a cell, which holds this text.
pub(crate) fn field_held(
    alloc: Global,
    cell: Option<CallId>,
    field: &str,
    text: Vec<u8>,
) -> Result<Held, AllocError>
    ensures { IfOk result (λ found. held_shown found ≡ alone (field_name cell field.now) text.items) }
{
    Ok(alone(field_name(alloc, cell, field)?, text))
}

/// The state and the response that are settled in a cell.
pub(crate) fn settled_fields<O: Spoken>(
    alloc: Global,
    world: &World<O>,
    cell: CellId,
) -> Result<Held, AllocError>
    requires { IsSome (cell_of world.now.shared.cells cell) }
    ensures { IfOk result (λ found. held_shown found ≡
        held O.language O.state_text (world_of world.now).memory (NewOf (name_in (world_of world.now) cell))) }
{
    let call = world.call_of(cell);
    let state = Field {
        name: field_name(alloc, call, "state")?,
        text: state_text::<O>(alloc, world.new_of(cell))?,
    };
    let reply = Field {
        name: field_name(alloc, call, "reply")?,
        text: reply_text::<O>(alloc, world.new_of(cell))?,
    };
    Ok(Held {
        field: state,
        reply: Some(reply),
    })
}

/// What a place of a world holds.
pub(crate) fn read_place<O: Spoken>(
    alloc: Global,
    world: &World<O>,
    place: Place,
) -> Result<Held, AllocError>
    requires { IsPlaceIn (world_of world.now).n (λ cell. IsSome (cell_of world.now.shared.cells cell)) place }
    ensures { IfOk result (λ found. held_shown found ≡
        held O.language O.state_text (world_of world.now).memory (place_named (name_in (world_of world.now)) place)) }
{
    match place {
        Place::Announced(process) => {
            let cell = world.announced(process);
            entry_held(alloc, "announce", process, world.call_of(cell))
        }
        Place::HeadOf(process) => {
            let cell = world.head(process);
            entry_held(alloc, "head", process, world.call_of(cell))
        }
        Place::SeqOf(cell) => {
            let number = world.seq(cell);
            let text = format!(in alloc; "{number}")?.into_bytes();
            field_held(alloc, world.call_of(cell), "seq", text)
        }
        Place::AfterOf(cell) => {
            let text = link_text(alloc, world, world.after(cell))?;
            field_held(alloc, world.call_of(cell), "after", text)
        }
        Place::NewOf(cell) => settled_fields(alloc, world, cell),
        Place::BeforeOf(cell) => {
            let text = link_text(alloc, world, world.before(cell))?;
            field_held(alloc, world.call_of(cell), "before", text)
        }
    }
}
