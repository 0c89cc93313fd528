//! The whole memory of a world, as text.

ghost use Rattle.std.specs.Prelude.{◌≡◌, ◌++◌, ◌∷◌, [], ◌<◌, IfOk, IsSome, OnOk, map, codes};
ghost use Rattle.run_replay.specs.Vocabulary.{Announced, HeadOf, cell_of, flat_map, name_in, option_copied};
ghost use Rattle.run_replay.specs.Vocabulary.{option_map_or, text_of_words, world_of};
ghost use Rattle.run_replay.specs.Held.{held, cells_of, fields_of, whole_memory};
ghost use Rattle.run_replay.specs.Scenes.{held_shown};

use crate::frame::Held;
use crate::places::{field_held, read_place};
use cell_arena::CellId;
use ready_objects::Spoken;
use seq_object::CallId;
use std::alloc::{AllocError, Global};
use uni_core::{Place, World};

/// Adds what a place holds.
fn push_held(memory: &mut Vec<Held>, held: Held) -> Result<(), AllocError>
    ensures { OnOk result (map held_shown memory.new.items
        ≡ map held_shown memory.old.items ++ held_shown held ∷ []) }
{
    memory.push(held)?;
    Ok(())
}

/// The text of what a cell asks for, or `?` where it asks for nothing.
fn asked_text<O: Spoken>(alloc: Global, inv: Option<&O::Inv>) -> Result<Vec<u8>, AllocError>
    ensures { IfOk result (λ text. text.items
        ≡ option_map_or (λ i. text_of_words (O.language.inv_words i)) (option_copied inv.entry) (codes "?")) }
{
    match inv {
        Some(inv) => O::inv_text(alloc, inv),
        None => Vec::from_slice(alloc, b"?"),
    }
}

/// Adds what the fields of a cell hold.
fn push_cell<O: Spoken>(
    alloc: Global,
    world: &World<O>,
    cell: CellId,
    memory: &mut Vec<Held>,
) -> Result<(), AllocError>
    requires { IsSome (cell_of world.now.shared.cells cell) }
    ensures { OnOk result (map held_shown memory.new.items ≡ map held_shown memory.old.items ++ map (held O.language
        O.state_text (world_of world.now).memory) (fields_of (name_in (world_of world.now) cell))) }
{
    let asked = asked_text::<O>(alloc, world.inv(cell))?;
    let entry = field_held(alloc, world.call_of(cell), "inv", asked)?;
    push_held(memory, entry)?;
    push_held(memory, read_place(alloc, world, Place::SeqOf(cell))?)?;
    push_held(memory, read_place(alloc, world, Place::AfterOf(cell))?)?;
    push_held(memory, read_place(alloc, world, Place::BeforeOf(cell))?)?;
    push_held(memory, read_place(alloc, world, Place::NewOf(cell))?)
}

/// Adds what the cells hold that a process has made in the present era.
fn push_cells_of<O: Spoken>(
    alloc: Global,
    world: &World<O>,
    process: u64,
    memory: &mut Vec<Held>,
) -> Result<(), AllocError>
    requires { process < (world_of world.now).n }
    ensures { OnOk result (map held_shown memory.new.items ≡ map held_shown memory.old.items ++ map (held O.language
        O.state_text (world_of world.now).memory) (flat_map fields_of (cells_of (world_of world.now) process))) }
{
    world.shape();
    let calls = world.calls_in_era(process);
    let first = world.begun(process) - calls;
    for place in 0..calls {
        let call = CallId {
            process: process as u32,
            nth: first + place,
        };
        let Some(cell) = world.cell_of(call) else {
            return Err(AllocError);
        };
        push_cell(alloc, world, cell, memory)?;
    }
    Ok(())
}

/// What all places of a world hold.
#[tactic(auto, using(crate::proofs::Telling::place_more))]
pub(crate) fn whole_memory<O: Spoken>(
    alloc: Global,
    world: &World<O>,
) -> Result<Vec<Held>, AllocError>
    ensures { IfOk result (λ memory. map held_shown memory.items
        ≡ whole_memory O.language O.state_text (world_of world.now)) }
{
    world.shape();
    let mut memory = Vec::new(alloc);
    for process in 0..world.processes() {
        let entry = read_place(alloc, world, Place::Announced(process))?;
        push_held(&mut memory, entry)?;
    }
    for process in 0..world.processes() {
        let entry = read_place(alloc, world, Place::HeadOf(process))?;
        push_held(&mut memory, entry)?;
    }
    push_cell(alloc, world, CellId::anchor(), &mut memory)?;
    for process in 0..world.processes() {
        push_cells_of(alloc, world, process, &mut memory)?;
    }
    Ok(memory)
}
