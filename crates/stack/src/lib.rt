//! A stack of numbers, as an example of an object of your own. That it is `Spoken` is for scripts and pictures alone.
#![tactic(auto)]

ghost use Rattle.std.specs.Prelude.{◌≡◌, ◌^◌, refl};
ghost use Rattle.seq_object.proofs.Cases.{exact_by_cases, other, itself_one, only_one};
ghost use Rattle.stack.specs.declared.StackInv.TheVariants.{Push, Pop};
ghost use Rattle.stack.specs.declared.StackResp.TheVariants.{Pushed, Popped, Empty};
ghost use Rattle.ready_objects.specs.Number.{number_below};
ghost use Rattle.stack.specs.Stack.{stack, stack_language, stack_text};

use ready_objects::{Amount, Spoken, is_text, push_number};
use seq_object::SeqObject;
use std::alloc::{AllocError, Global};
use std::marker::Model;

/// A stack of numbers. It starts empty.
#[derive(Clone, Copy, Debug)]
pub struct Stack;

/// The numbers of a stack, the newest of them last.
#[derive(Drop)]
pub struct StackState {
    values: Vec<u32>,
}

impl Model for StackState {
    ghost use Rattle.std.specs.Prelude.{ℕ, List};

    ghost Value = { List ℕ };

    ghost view = { λ state. state.values.items };
}

/// An invocation of the stack.
#[derive(Clone, Copy, Debug, PartialEq, Eq)]
pub enum StackInv {
    /// Puts a number on the stack.
    Push(u32),
    /// Takes the newest number.
    Pop,
}

/// A response of the stack.
#[derive(Clone, Copy, Debug, PartialEq, Eq)]
pub enum StackResp {
    /// The number is on the stack.
    Pushed,
    /// The number that was the newest.
    Popped(u32),
    /// There is no number to take.
    Empty,
}

impl SeqObject for Stack {
    type State = StackState;

    type Inv = StackInv;

    type Resp = StackResp;

    ghost sequential = { λ _. stack };

    fn start(&self, alloc: Global) -> Result<StackState, AllocError> {
        Ok(StackState {
            values: Vec::new(alloc),
        })
    }

    fn apply(
        &self,
        _alloc: Global,
        state: &StackState,
        inv: &StackInv,
    ) -> Result<(StackState, StackResp), AllocError> {
        let mut values = state.values.clone()?;
        let resp = match *inv {
            StackInv::Push(value) => {
                values.push(value)?;
                StackResp::Pushed
            }
            StackInv::Pop => match values.pop() {
                Some(value) => StackResp::Popped(value),
                None => StackResp::Empty,
            },
        };
        Ok((StackState { values }, resp))
    }

    fn copy_inv(_alloc: Global, inv: &StackInv) -> Result<StackInv, AllocError> {
        Ok(*inv)
    }

    ghost same_inv = { exact_by_cases _ (elim [
      | Push a ↦ (itself_one a, elim [ Push x ↦ only_one Push a x | _ ↦ other ])
      | Pop ↦ (refl, elim [ Pop ↦ λ e. refl | _ ↦ other ])
    ]) };

    ghost same_resp = { exact_by_cases _ (elim [
      | Pushed ↦ (refl, elim [ Pushed ↦ λ e. refl | _ ↦ other ])
      | Popped a ↦ (itself_one a, elim [ Popped x ↦ only_one Popped a x | _ ↦ other ])
      | Empty ↦ (refl, elim [ Empty ↦ λ e. refl | _ ↦ other ])
    ]) };
}

impl Spoken for Stack {
    ghost language = { stack_language };

    ghost state_text = { stack_text };

    fn read_inv(words: &[&[u8]]) -> Option<StackInv> {
        match words {
            [name] if is_text(name, "pop") => Some(StackInv::Pop),
            [name, value] if is_text(name, "push") => Some(StackInv::Push(value_of(value)?)),
            _ => None,
        }
    }

    fn push_inv(text: &mut Vec<u8>, inv: &StackInv) -> Result<(), AllocError> {
        match inv {
            StackInv::Push(value) => {
                text.extend_from_slice(b"push ")?;
                push_number(text, u64::from(*value))
            }
            StackInv::Pop => text.extend_from_slice(b"pop"),
        }
    }

    fn push_resp(text: &mut Vec<u8>, resp: StackResp) -> Result<(), AllocError> {
        match resp {
            StackResp::Pushed => text.extend_from_slice(b"pushed"),
            StackResp::Popped(value) => push_number(text, u64::from(value)),
            StackResp::Empty => text.extend_from_slice(b"empty"),
        }
    }

    fn push_state(text: &mut Vec<u8>, state: &StackState) -> Result<(), AllocError> {
        match state.values.last() {
            Some(value) => push_number(text, u64::from(*value)),
            None => text.extend_from_slice(b"empty"),
        }
    }

    fn drawn(word: u64) -> StackInv {
        match word % 2 {
            0 => StackInv::Pop,
            _ => StackInv::Push((word / 2 % 1000) as u32),
        }
    }

    fn reads_back(inv: &StackInv) {
        if let StackInv::Push(value) = inv {
            let _ = u64::from(*value);
        }
    }
}

/// The number below 2^32 that a word writes; `None` where it writes none.
fn value_of(word: &[u8]) -> Option<u32>
    ensures { result ≡ number_below (2 ^ 32) word.now }
{
    u32::try_from(Amount::read(word)?.number()).ok()
}
