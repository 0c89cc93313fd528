//! Opening a small object by a program.
ghost use Rattle.std.specs.Prelude.{◌≡◌, ◌≢◌, ◌↔◌, ◌⊎◌, ◌<◌, ◌≤◌, IfErr, IfOk, List, Some};
ghost use Rattle.program_object.specs.Faults.{IsProgram, program_fault};
ghost use Rattle.program_object.specs.Source.{source};
ghost use Rattle.program_object.specs.Words.{AreKnown, AreSpelled, IsFirstUnknown};
ghost use Rattle.program_object.specs.declared.instruction.Instruction.{Instruction};
ghost use Rattle.universal_c.specs.ProgramCalls.{HasOpenedProgram, IsRefused, fault_status, flaw_status, told_number};

use crate::handle::Handle;
use crate::small_kind::SmallKind;
use crate::small_open::open;
use crate::status::{
    BAD_CAPACITY, BAD_COUNT, GOES_FORWARD, JUMPS_BACK, MEMORY, NO_LOOP, NO_OPERATION, NO_PLACE,
    NO_REGISTER, NO_TARGET, TOO_LONG,
};
use program_object::{Flaw, Program, ProgramFault, instructions_of, unknown_operation};
use std::alloc::{AllocError, Global};
use uni_model::MAX_PROCESSES;

fn flaw_status(flaw: Flaw) -> u32
    ensures { result ≡ flaw_status flaw }
{
    match flaw {
        Flaw::NoSuchRegister => NO_REGISTER,
        Flaw::NoSuchPlace => NO_PLACE,
        Flaw::JumpsBack => JUMPS_BACK,
        Flaw::NoSuchTarget => NO_TARGET,
        Flaw::GoesForward => GOES_FORWARD,
        Flaw::NoSuchLoop => NO_LOOP,
    }
}

/// Tells the number of the instruction that is wrong, if it is one, and gives the status.
fn refused(fault: ProgramFault, place: &mut u64) -> u32
    ensures status { result ≡ fault_status fault }
    ensures number { place.new ≡ told_number fault place.old }
{
    match fault {
        ProgramFault::BadInstruction(number, flaw) => {
            *place = number as u64;
            flaw_status(flaw)
        }
        ProgramFault::TooLong => TOO_LONG,
        ProgramFault::TooWide => BAD_CAPACITY,
    }
}

/// The program of words that are known, which are copied. Error: memory was refused.
fn program_of(
    alloc: Global,
    words: &[u64],
    start: &[u64],
    invocation: u64,
    reply: u64,
) -> Result<Result<Program, ProgramFault>, AllocError>
    requires { AreKnown words.now }
    ensures right { IfOk result (λ made. IfOk made (λ program.
        (instructions : List Instruction) × AreSpelled words.now instructions
        × IsProgram (source instructions start.now invocation reply)
        × (program ≡ source instructions start.now invocation reply))) }
    ensures wrong { IfOk result (λ made. IfErr made (λ fault.
        (instructions : List Instruction) × AreSpelled words.now instructions
        × (program_fault (source instructions start.now invocation reply) ≡ Some fault))) }
{
    let instructions = instructions_of(alloc, words)?;
    let start = Vec::from_slice(alloc, start)?;
    Ok(Program::new(instructions, start, invocation, reply))
}

/// Opens a small object by a program, whose instructions are five words each, and whose words are copied.
///
/// 1: `n` isn't from 1 to 64. 12: an operation is none, or the last instruction isn't whole. 3: memory was refused.
/// 13 to 18: an instruction is wrong. 19: there are more than 4,096, or more than 2^32 steps in a call. 10: a state, an
/// invocation or a reply has more than 65,536 words, or a reply none. In this order, but that memory may be refused
/// also after 10. At 12 to 18 `place` is the number of the first instruction that is wrong; else it is as before.
/// After each the handle is as before; else what it had is dropped.
#[unsafe(no_mangle)]
pub extern "C" fn universal_open_program(
    alloc: Global,
    n: u64,
    words: &[u64],
    start: &[u64],
    invocation: u64,
    reply: u64,
    place: &mut u64,
    object: &mut Handle,
) -> u32
    ensures count { (result ≡ 1) ↔ ((n ≡ 0) ⊎ (64 < n)) }
    ensures unknown { result ≡ 12 → IsFirstUnknown words.now place.new }
    ensures known { result ≢ 1 → result ≢ 12 → AreKnown words.now }
    ensures wrong { (result ≡ 10) ⊎ (13 ≤ result) →
        IsRefused words.now start.now invocation reply result place.old place.new }
    ensures place { result ≤ 3 → place.new ≡ place.old }
    ensures status { (result ≡ 0) ⊎ (result ≡ 1) ⊎ (result ≡ 3) ⊎ ((10 ≤ result) × (result ≤ 19) × (result ≢ 11)) }
    ensures unchanged { result ≢ 0 → object.new ≡ object.old }
    ensures opened { result ≡ 0 → HasOpenedProgram words.now start.now invocation reply object.new.value n }
{
    if n < 1 || n > MAX_PROCESSES {
        return BAD_COUNT;
    }
    if let Some(number) = unknown_operation(words) {
        *place = number as u64;
        return NO_OPERATION;
    }
    match program_of(alloc, words, start, invocation, reply) {
        Ok(Ok(program)) => open(alloc, SmallKind::Program(program), n, object),
        Ok(Err(fault)) => refused(fault, place),
        Err(_) => MEMORY,
    }
}
