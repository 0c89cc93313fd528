//! The machine that goes through the instructions.
ghost use Rattle.std.specs.Prelude.{List, ℕ, ◌<◌, ◌≡◌, ◌≤◌, ◌^◌, length, nat_lt, replicate, slice_get, slice_index};
ghost use Rattle.std.specs.Prelude.{slice_set};
ghost use Rattle.program_object.specs.Faults.{IsProgram, most_steps};
ghost use Rattle.program_object.specs.Source.{Source};
ghost use Rattle.program_object.specs.Machine.{HasEnded, after, area, begun, computed, gets, holds, loops, machine_of};
ghost use Rattle.program_object.specs.Machine.{place_in, step, wrapped};

use crate::instruction::{Area, Checked, Instruction, Modular, Place, Test};

/// What a call has beside the state, the invocation and the reply.
#[derive(Drop)]
pub(crate) struct Frame {
    /// The place of the next instruction.
    pub(crate) at: u64,
    pub(crate) registers: [u64; 16],
    /// How often the loops of each number have gone back.
    pub(crate) gone: [u64; 16],
}

/// The word at a place, or 0 where there is none.
fn word(words: &[u64], place: u64) -> u64
    ensures { result ≡ slice_index words.now place }
{
    words.get(place as usize).copied().unwrap_or(0)
}

/// The word at a place of an area.
fn word_of(from: Area, place: u64, state: &[u64], invocation: &[u64], reply: &[u64]) -> Option<u64>
    ensures { result ≡ slice_get (area state.now invocation.now reply.now from) place }
{
    let words = match from {
        Area::State => state,
        Area::Invocation => invocation,
        Area::Reply => reply,
    };
    words.get(place as usize).copied()
}

/// Writes a word, where there is one at the place, and tells whether there is.
fn set(words: &mut [u64], place: u64, value: u64) -> bool
    ensures written { words.new ≡ slice_set words.old place value }
    ensures inside { result ≡ nat_lt place (length words.old) }
{
    let place = place as usize;
    if place < words.len() {
        words[place] = value;
        return true;
    }
    false
}

fn computed(by: Checked, left: u64, right: u64) -> Option<u64>
    ensures { result ≡ computed by left right }
{
    match by {
        Checked::Add => left.checked_add(right),
        Checked::Subtract => left.checked_sub(right),
        Checked::Multiply => left.checked_mul(right),
        Checked::Divide => left.checked_div(right),
        Checked::Remainder => left.checked_rem(right),
    }
}

fn wrapped(by: Modular, left: u64, right: u64) -> u64
    ensures { result ≡ wrapped by left right }
{
    match by {
        Modular::Sum => left.wrapping_add(right),
        Modular::Difference => left.wrapping_sub(right),
        Modular::Product => left.wrapping_mul(right),
    }
}

fn holds(when: Test, left: u64, right: u64) -> bool
    ensures { result ≡ holds when left right }
{
    match when {
        Test::Always => true,
        Test::Equal => left == right,
        Test::NotEqual => left != right,
        Test::Less => left < right,
        Test::AtMost => left <= right,
    }
}

impl Frame {
    fn new() -> Frame
        ensures at { result.at ≡ 0 }
        ensures registers { result.registers ≡ replicate 16 0 }
        ensures gone { result.gone ≡ replicate 16 0 }
    {
        Frame {
            at: 0,
            registers: [0; 16],
            gone: [0; 16],
        }
    }

    /// What a register has.
    fn has(&self, register: u64) -> u64
        ensures { result ≡ slice_index self.now.registers register }
    {
        word(&self.registers, register)
    }

    fn place_of(&self, place: Place) -> u64
        ensures { result ≡ place_in self.now.registers place }
    {
        match place {
            Place::Fixed(place) => place,
            Place::By(register) => self.has(register),
        }
    }

    /// A register gets a number; where there is none, the program goes on at `otherwise`.
    fn get(&mut self, to: u64, number: Option<u64>, otherwise: u64)
        requires { self.old.at < 2 ^ 32 }
        ensures { (state reply : List ℕ) →
            machine_of self.new state reply ≡ gets (machine_of self.old state reply) to number otherwise }
    {
        let Some(number) = number else {
            self.at = otherwise;
            return;
        };
        self.at += 1;
        set(&mut self.registers, to, number);
    }

    /// The loop of this number goes back, where it has gone back fewer than so many times.
    fn again(&mut self, back: u64, most: u64, turn: u64)
        requires { self.old.at < 2 ^ 32 }
        ensures { (state reply : List ℕ) →
            machine_of self.new state reply ≡ loops (machine_of self.old state reply) back most turn }
    {
        let gone = word(&self.gone, turn);
        if gone < most {
            set(&mut self.gone, turn, gone + 1);
            self.at = back;
        } else {
            self.at += 1;
        }
    }

    /// Makes one step, by the instruction at its place.
    fn step(
        &mut self,
        instruction: Instruction,
        state: &mut [u64],
        invocation: &[u64],
        reply: &mut [u64],
    )
        requires { self.old.at < 2 ^ 32 }
        ensures { machine_of self.new state.new reply.new
            ≡ step (machine_of self.old state.old reply.old) invocation.now instruction }
    {
        match instruction {
            Instruction::Set { to, value } => self.get(to, Some(value), 0),
            Instruction::Load {
                from,
                at,
                to,
                otherwise,
            } => {
                let loaded = word_of(from, self.place_of(at), state, invocation, reply);
                self.get(to, loaded, otherwise);
            }
            Instruction::Store {
                at,
                value,
                otherwise,
            } => {
                let stored = set(state, self.place_of(at), self.has(value));
                self.at = if stored { self.at + 1 } else { otherwise };
            }
            Instruction::Answer {
                at,
                value,
                otherwise,
            } => {
                let stored = set(reply, self.place_of(at), self.has(value));
                self.at = if stored { self.at + 1 } else { otherwise };
            }
            Instruction::Compute {
                by,
                to,
                left,
                right,
                otherwise,
            } => self.get(to, computed(by, self.has(left), self.has(right)), otherwise),
            Instruction::Wrap {
                by,
                to,
                left,
                right,
            } => self.get(to, Some(wrapped(by, self.has(left), self.has(right))), 0),
            Instruction::Jump {
                when,
                left,
                right,
                to,
            } => {
                let jumps = holds(when, self.has(left), self.has(right));
                self.at = if jumps { to } else { self.at + 1 };
            }
            Instruction::Again { back, most, turn } => self.again(back, most, turn),
        }
    }
}

/// Writes 0 to each word.
fn clear(words: &mut [u64])
    ensures { words.new ≡ replicate (length words.old) 0 }
{
    for i in 0..words.len() {
        words[i] = 0;
    }
}

/// Makes a call, in at most so many steps.
pub(crate) fn run(
    code: &[Instruction],
    most: u64,
    state: &mut [u64],
    invocation: &[u64],
    reply: &mut [u64],
)
    requires { length code.now ≤ 4096 }
    ensures state { state.new
        ≡ (after code.now invocation.now (begun state.old (length reply.old)) most).state }
    ensures reply { reply.new
        ≡ (after code.now invocation.now (begun state.old (length reply.old)) most).reply }
{
    clear(reply);
    let mut frame = Frame::new();
    for taken in 0..most {
        let at = frame.at as usize;
        if at >= code.len() {
            return;
        }
        frame.step(code[at], state, invocation, reply);
    }
}

/// Each call of a program has ended after as many steps as its program takes at most. The call does nothing: it tells
/// what holds of each program.
pub fn every_call_ends()
    ensures { (p : Source) → IsProgram p → (state inv : List ℕ) →
        HasEnded p.instructions (after p.instructions inv (begun state p.reply) (most_steps p.instructions)) }
{}
