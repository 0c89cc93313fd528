//! A program that was checked.
ghost use Rattle.std.specs.Prelude.{ℕ, ◌+◌, ◌-◌, ◌*◌, ◌<◌, ◌≡◌, ◌^◌, length, min, false};
ghost use Rattle.std.specs.Prelude.{IfErr, IfNone, IfOk, IfSome, IsTrue, OnOk, OnSome};
ghost use Rattle.program_object.specs.Faults.{IsProgram, area_words, first_flaw, flaw_of, greatest_register, has_place};
ghost use Rattle.program_object.specs.Faults.{is_inside, jump_flaw, length_fault, loop_flaw, most_in, most_of};
ghost use Rattle.program_object.specs.Faults.{most_steps, place_register, program_fault, target_flaw};
ghost use Rattle.program_object.specs.Faults.{width_fault, widths_of};
ghost use Rattle.program_object.specs.Source.{source};

use crate::instruction::{Area, Instruction, Place};
use std::marker::Model;
use thiserror::Error;

/// The greatest number of instructions.
const MOST_INSTRUCTIONS: u64 = 4096;

/// The greatest number of steps of a call.
const MOST_STEPS: u64 = 4_294_967_296;

/// The greatest number of words of a state, an invocation and a reply.
const MOST_WORDS: u64 = 65_536;

/// What is wrong with an instruction.
#[derive(Clone, Copy, Debug, PartialEq, Eq, Drop, Error)]
pub enum Flaw {
    /// It names a register that isn't below 16.
    #[error("there is no such register")]
    NoSuchRegister,
    /// Its fixed place lies outside its area.
    #[error("there is no word at that place")]
    NoSuchPlace,
    /// It would go on at itself or at an earlier instruction.
    #[error("it doesn't lead to a later instruction")]
    JumpsBack,
    /// It would go on past the end.
    #[error("it leads past the end")]
    NoSuchTarget,
    /// Its loop would go back to a later instruction.
    #[error("it doesn't go back to itself or an earlier instruction")]
    GoesForward,
    /// Its loop's number isn't below 16.
    #[error("there is no such loop")]
    NoSuchLoop,
}

/// What is wrong with a program.
#[derive(Clone, Copy, Debug, PartialEq, Eq, Drop, Error)]
pub enum ProgramFault {
    /// The instruction of this number, the first such one.
    #[error("instruction {0}: {1}")]
    BadInstruction(usize, Flaw),
    /// There are more than 4,096 instructions, or a call might take more than 2^32 steps.
    #[error("there are more than 4096 instructions, or more than 2^32 steps in a call")]
    TooLong,
    /// A state, an invocation or a reply has more than 65,536 words, or a reply none.
    #[error("a state, an invocation or a reply has more than 65536 words, or a reply none")]
    TooWide,
}

/// How many words a state, an invocation and a reply have.
#[derive(Clone, Copy)]
pub(crate) struct Widths {
    pub(crate) state: u64,
    pub(crate) invocation: u64,
    pub(crate) reply: u64,
}

fn area_words(widths: Widths, area: Area) -> u64
    ensures { result ≡ area_words widths area }
{
    match area {
        Area::State => widths.state,
        Area::Invocation => widths.invocation,
        Area::Reply => widths.reply,
    }
}

fn place_register(place: Place) -> u64
    ensures { result ≡ place_register place }
{
    match place {
        Place::Fixed(_) => 0,
        Place::By(register) => register,
    }
}

/// The greatest number of a register that an instruction names.
fn greatest_register(instruction: Instruction) -> u64
    ensures { result ≡ greatest_register instruction }
{
    match instruction {
        Instruction::Set { to, .. } => to,
        Instruction::Load { at, to, .. } => place_register(at).max(to),
        Instruction::Store { at, value, .. } | Instruction::Answer { at, value, .. } => {
            place_register(at).max(value)
        }
        Instruction::Compute {
            to,
            left,
            right,
            ..
        }
        | Instruction::Wrap {
            to,
            left,
            right,
            ..
        } => to.max(left.max(right)),
        Instruction::Jump { left, right, .. } => left.max(right),
        Instruction::Again { .. } => 0,
    }
}

fn is_inside(words: u64, place: Place) -> bool
    ensures { result ≡ is_inside words place }
{
    match place {
        Place::Fixed(place) => place < words,
        Place::By(_) => true,
    }
}

/// Whether a fixed place lies in its area.
fn has_place(widths: Widths, instruction: Instruction) -> bool
    ensures { result ≡ has_place widths instruction }
{
    match instruction {
        Instruction::Load { from, at, .. } => is_inside(area_words(widths, from), at),
        Instruction::Store { at, .. } => is_inside(widths.state, at),
        Instruction::Answer { at, .. } => is_inside(widths.reply, at),
        _ => true,
    }
}

/// What is wrong with where an instruction goes on.
fn target_flaw(count: u64, place: u64, to: u64) -> Option<Flaw>
    ensures { result ≡ target_flaw count place to }
{
    if to <= place {
        return Some(Flaw::JumpsBack);
    }
    if to > count {
        return Some(Flaw::NoSuchTarget);
    }
    None
}

fn loop_flaw(place: u64, back: u64, turn: u64) -> Option<Flaw>
    ensures { result ≡ loop_flaw place back turn }
{
    if back > place {
        return Some(Flaw::GoesForward);
    }
    if turn >= 16 {
        return Some(Flaw::NoSuchLoop);
    }
    None
}

fn jump_flaw(count: u64, place: u64, instruction: Instruction) -> Option<Flaw>
    ensures { result ≡ jump_flaw count place instruction }
{
    match instruction {
        Instruction::Set { .. } | Instruction::Wrap { .. } => None,
        Instruction::Load { otherwise, .. }
        | Instruction::Store { otherwise, .. }
        | Instruction::Answer { otherwise, .. }
        | Instruction::Compute { otherwise, .. } => target_flaw(count, place, otherwise),
        Instruction::Jump { to, .. } => target_flaw(count, place, to),
        Instruction::Again { back, turn, .. } => loop_flaw(place, back, turn),
    }
}

/// What is wrong with the instruction at a place of so many.
fn flaw_of(widths: Widths, count: u64, place: u64, instruction: Instruction) -> Option<Flaw>
    ensures { result ≡ flaw_of widths count place instruction }
{
    if greatest_register(instruction) >= 16 {
        return Some(Flaw::NoSuchRegister);
    }
    if !has_place(widths, instruction) {
        return Some(Flaw::NoSuchPlace);
    }
    jump_flaw(count, place, instruction)
}

/// The first instruction that is wrong.
fn first_flaw(widths: Widths, instructions: &[Instruction]) -> Option<ProgramFault>
    ensures { result ≡ first_flaw widths (length instructions.now) 0 instructions.now }
{
    let count = instructions.len() as u64;
    for (place, instruction) in instructions.iter().enumerate() {
        if let Some(flaw) = flaw_of(widths, count, place as u64, *instruction) {
            return Some(ProgramFault::BadInstruction(place, flaw));
        }
    }
    None
}

/// How often an instruction goes back at most.
fn most_of(instruction: Instruction) -> u64
    ensures { result ≡ most_of instruction }
{
    match instruction {
        Instruction::Again { most, .. } => most,
        _ => 0,
    }
}

/// How often the instructions go back at most, up to the greatest number.
fn most_in(instructions: &[Instruction]) -> u64
    ensures { result ≡ min (most_in instructions.now) (2 ^ 64 - 1) }
{
    let mut sum: u64 = 0;
    for instruction in instructions {
        sum = sum.saturating_add(most_of(*instruction));
    }
    sum
}

/// How many steps a call takes at most; `None` where there are more than 4,096 instructions, or more than 2^32 steps.
fn step_bound(instructions: &[Instruction]) -> Option<u64>
    ensures bound { IfSome result (λ steps. steps ≡ most_steps instructions.now) }
    ensures short { OnSome result (length_fault instructions.now ≡ None) }
    ensures long { IfNone result (length_fault instructions.now ≡ Some ProgramFault.TooLong) }
{
    let count = instructions.len() as u64;
    if count > MOST_INSTRUCTIONS {
        return None;
    }
    let most = most_in(instructions);
    if most > MOST_STEPS {
        return None;
    }
    let steps = count * (1 + most);
    if steps > MOST_STEPS {
        return None;
    }
    Some(steps)
}

/// Whether an object of these widths is refused.
fn is_too_wide(widths: Widths) -> bool
    ensures wide { IsTrue result → width_fault widths ≡ Some ProgramFault.TooWide }
    ensures fits { result ≡ false → width_fault widths ≡ None }
{
    widths.state > MOST_WORDS
        || widths.invocation > MOST_WORDS
        || widths.reply > MOST_WORDS
        || widths.reply == 0
}

/// A program that was checked: a small object.
#[derive(Drop)]
pub struct Program {
    pub(crate) instructions: Vec<Instruction>,
    pub(crate) start: Vec<u64>,
    pub(crate) invocation: u64,
    pub(crate) reply: u64,
    pub(crate) steps: u64,
}

impl Model for Program {
    ghost use Rattle.std.specs.Prelude.{◌≡◌};
    ghost use Rattle.program_object.specs.Faults.{IsProgram, most_steps};
    ghost use Rattle.program_object.specs.Source.{Source, source};

    ghost Value = { Source };

    ghost view = { λ p. source p.instructions.items p.start.items p.invocation p.reply };

    ghost invariant = { λ p. IsProgram (source p.instructions.items p.start.items p.invocation p.reply)
        × (p.steps ≡ most_steps p.instructions.items) };
}

impl Program {
    /// The program of these instructions. Its start state is `start`; an invocation has `invocation` words, and a reply
    /// `reply`.
    ///
    /// Errors, in this order: `BadInstruction` for the first instruction that is wrong, and of what is wrong with it
    /// the first in the order of `Flaw`; `TooLong` where there are more than 4,096 instructions, or a call might
    /// take more than 2^32 steps; `TooWide` where a state, an invocation or a reply has more than 65,536 words, or a
    /// reply none. After each the lists are dropped.
    pub fn new(
        instructions: Vec<Instruction>,
        start: Vec<u64>,
        invocation: u64,
        reply: u64,
    ) -> Result<Program, ProgramFault>
        ensures source { IfOk result (λ program. program ≡ source instructions.items start.items invocation reply) }
        ensures right { OnOk result (IsProgram (source instructions.items start.items invocation reply)) }
        ensures wrong { IfErr result (λ fault.
            program_fault (source instructions.items start.items invocation reply) ≡ Some fault) }
    {
        let widths = Widths {
            state: start.len() as u64,
            invocation,
            reply,
        };
        if let Some(fault) = first_flaw(widths, &instructions) {
            return Err(fault);
        }
        let Some(steps) = step_bound(&instructions) else {
            return Err(ProgramFault::TooLong);
        };
        if is_too_wide(widths) {
            return Err(ProgramFault::TooWide);
        }
        Ok(Program {
            instructions,
            start,
            invocation,
            reply,
            steps,
        })
    }

    /// How many steps a call takes at most: the number of instructions, times one more than all the `most` of its
    /// `Again`s together. At most 2^32.
    pub fn most_steps(&self) -> u64
        ensures { result ≡ most_steps self.now.instructions }
    {
        self.steps
    }
}
