//! Instructions that come in as numbers.
ghost use Rattle.std.specs.Prelude.{ℕ, ◌+◌, ◌*◌, ◌/◌, ◌<◌, ◌≡◌, IfNone, IfOk, IfSome, length};
ghost use Rattle.program_object.specs.Words.{AreKnown, AreSpelled, IsFirstUnknown, area_of, checked_of, decoded};
ghost use Rattle.program_object.specs.Words.{decoded_by, modular_of, place_of, spelled_at, stored, test_of};

use crate::instruction::{Area, Checked, Instruction, Modular, Place, Test};
use std::alloc::{AllocError, Global};

fn area_of(k: u64) -> Option<Area>
    ensures { result ≡ area_of k }
{
    match k {
        0 => Some(Area::State),
        1 => Some(Area::Invocation),
        2 => Some(Area::Reply),
        _ => None,
    }
}

fn place_of(k: u64, word: u64) -> Place
    ensures { result ≡ place_of k word }
{
    if k % 2 == 0 {
        Place::Fixed(word)
    } else {
        Place::By(word)
    }
}

fn checked_of(k: u64) -> Option<Checked>
    ensures { result ≡ checked_of k }
{
    match k {
        0 => Some(Checked::Add),
        1 => Some(Checked::Subtract),
        2 => Some(Checked::Multiply),
        3 => Some(Checked::Divide),
        4 => Some(Checked::Remainder),
        _ => None,
    }
}

fn modular_of(k: u64) -> Option<Modular>
    ensures { result ≡ modular_of k }
{
    match k {
        0 => Some(Modular::Sum),
        1 => Some(Modular::Difference),
        2 => Some(Modular::Product),
        _ => None,
    }
}

fn test_of(k: u64) -> Option<Test>
    ensures { result ≡ test_of k }
{
    match k {
        0 => Some(Test::Always),
        1 => Some(Test::Equal),
        2 => Some(Test::NotEqual),
        3 => Some(Test::Less),
        4 => Some(Test::AtMost),
        _ => None,
    }
}

fn stored(k: u64, to: u64, value: u64, otherwise: u64) -> Option<Instruction>
    ensures { result ≡ stored k to value otherwise }
{
    let at = place_of(k, to);
    match k / 2 {
        0 => Some(Instruction::Store {
            at,
            value,
            otherwise,
        }),
        1 => Some(Instruction::Answer {
            at,
            value,
            otherwise,
        }),
        _ => None,
    }
}

/// The instruction of the family's operation `k`.
fn decoded_by(
    family: u64,
    k: u64,
    to: u64,
    left: u64,
    right: u64,
    otherwise: u64,
) -> Option<Instruction>
    ensures { result ≡ decoded_by family k to left right otherwise }
{
    match family {
        1 => {
            if k != 0 {
                return None;
            }
            Some(Instruction::Set { to, value: left })
        }
        2 => {
            let from = area_of(k / 2)?;
            Some(Instruction::Load {
                from,
                at: place_of(k, left),
                to,
                otherwise,
            })
        }
        3 => stored(k, to, left, otherwise),
        4 => {
            let by = checked_of(k)?;
            Some(Instruction::Compute {
                by,
                to,
                left,
                right,
                otherwise,
            })
        }
        5 => {
            let by = modular_of(k)?;
            Some(Instruction::Wrap {
                by,
                to,
                left,
                right,
            })
        }
        6 => {
            let when = test_of(k)?;
            Some(Instruction::Jump {
                when,
                left,
                right,
                to,
            })
        }
        7 => {
            if k != 0 {
                return None;
            }
            Some(Instruction::Again {
                back: to,
                most: left,
                turn: right,
            })
        }
        _ => None,
    }
}

/// The instruction of a number that words spell.
#[tactic(auto, unfolding(crate::specs::Words::decoded))]
fn spelled_at(words: &[u64], number: usize) -> Option<Instruction>
    requires { 5 * number + 4 < length words.now }
    ensures { result ≡ spelled_at words.now number }
{
    let at = 5 * number;
    let operation = words[at];
    decoded_by(
        operation / 16,
        operation % 16,
        words[at + 1],
        words[at + 2],
        words[at + 3],
        words[at + 4],
    )
}

/// The number of the first instruction that words don't spell: its operation isn't one, or not all its words are there.
pub fn unknown_operation(words: &[u64]) -> Option<usize>
    ensures unknown { IfSome result (IsFirstUnknown words.now) }
    ensures known { IfNone result (AreKnown words.now) }
{
    let count = words.len() / 5;
    for number in 0..count {
        if spelled_at(words, number).is_none() {
            return Some(number);
        }
    }
    if words.len() % 5 != 0 {
        return Some(count);
    }
    None
}

/// The instructions that words spell, five words each: the operation, and the fields `to`, `left`, `right` and
/// `otherwise`. Where some spell none, `unknown_operation` tells it. Error: memory was refused.
pub fn instructions_of(alloc: Global, words: &[u64]) -> Result<Vec<Instruction>, AllocError>
    requires { AreKnown words.now }
    ensures { IfOk result (λ instructions. AreSpelled words.now instructions.items) }
{
    let count = words.len() / 5;
    let mut instructions = Vec::with_capacity(alloc, count)?;
    for number in 0..count {
        let Some(instruction) = spelled_at(words, number) else {
            unreachable!();
        };
        instructions.push(instruction)?;
    }
    Ok(instructions)
}
