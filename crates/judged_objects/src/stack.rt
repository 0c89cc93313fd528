//! A stack without a bound.

ghost use Rattle.std.specs.Prelude.{◌≡◌};
ghost use Rattle.std.proofs.Common.{refl};
ghost use Rattle.seq_object.proofs.Cases.{exact_by_cases, other, itself_one, only_one};
ghost use Rattle.judged_objects.specs.declared.stack.StackInv.TheVariants.{Push, Pop};
ghost use Rattle.judged_objects.specs.declared.stack.StackResp.TheVariants.{Pushed, Popped, Empty};
ghost use Rattle.judged_objects.specs.Stack.{stack, stack_wording};
ghost use Rattle.lin_check.specs.Parts.{in_one_part};

use crate::items::{Numbers, key_of};
use crate::worded::{Worded, number, push_words};
use lin_check::{Checkable, Event};
use ready_objects::{is_text, push_number};
use seq_object::SeqObject;
use std::alloc::{AllocError, Global};

/// A stack of numbers, as many as there is memory for. It starts empty.
#[derive(Clone, Copy, Debug)]
pub struct Stack;

/// An invocation of the stack.
#[derive(Clone, Copy, Debug, PartialEq, Eq)]
pub enum StackInv {
    /// Puts a number on the stack.
    Push(u64),
    /// Takes the newest number.
    Pop,
}

/// A response of the stack.
#[derive(Clone, Copy, Debug, PartialEq, Eq)]
pub enum StackResp {
    /// The number is on the stack.
    Pushed,
    /// The number that was the newest.
    Popped(u64),
    /// There was no number to take.
    Empty,
}

/// An event of a history.
type StackEvent = Event<StackInv, StackResp>;

impl SeqObject for Stack {
    type State = Numbers;

    type Inv = StackInv;

    type Resp = StackResp;

    ghost sequential = { λ _. stack };

    ghost same_inv = { exact_by_cases _ (elim [
      | Push a ↦ (itself_one a, elim [ Push x ↦ only_one Push a x | _ ↦ other ])
      | Pop ↦ (refl, elim [ Pop ↦ λ e. refl | _ ↦ other ])
    ]) };

    ghost same_resp = { exact_by_cases _ (elim [
      | Pushed ↦ (refl, elim [ Pushed ↦ λ e. refl | _ ↦ other ])
      | Popped a ↦ (itself_one a, elim [ Popped x ↦ only_one Popped a x | _ ↦ other ])
      | Empty ↦ (refl, elim [ Empty ↦ λ e. refl | _ ↦ other ])
    ]) };

    fn start(&self, alloc: Global) -> Result<Numbers, AllocError> {
        Ok(Numbers::of(Vec::new(alloc)))
    }

    fn apply(
        &self,
        alloc: Global,
        state: &Numbers,
        inv: &StackInv,
    ) -> Result<(Numbers, StackResp), AllocError> {
        match inv {
            StackInv::Push(number) => Ok((
                Numbers::joined(alloc, &[*number], state.as_slice())?,
                StackResp::Pushed,
            )),
            StackInv::Pop => match state.as_slice() {
                [] => Ok((Numbers::of(Vec::new(alloc)), StackResp::Empty)),
                [first, rest @ ..] => {
                    Ok((Numbers::copied(alloc, rest)?, StackResp::Popped(*first)))
                }
            },
        }
    }

    fn copy_inv(_alloc: Global, inv: &StackInv) -> Result<StackInv, AllocError> {
        Ok(*inv)
    }
}

impl Checkable for Stack {
    fn is_same(a: &Numbers, b: &Numbers) -> bool {
        a.as_slice() == b.as_slice()
    }

    fn key(state: &Numbers) -> u64 {
        key_of(state.as_slice())
    }

    ghost part = { λ _. 0 };

    ghost parts = { λ _. in_one_part stack };

    fn part_of(_inv: &StackInv) -> u64 {
        0
    }

    fn ranks(alloc: Global, history: &[StackEvent]) -> Result<Vec<u64>, AllocError> {
        lin_check::by_return(alloc, history)
    }

    fn guess(_alloc: Global, _history: &[StackEvent]) -> Result<Option<Vec<usize>>, AllocError> {
        Ok(None)
    }
}

impl Worded for Stack {
    const CALLS: &'static str = "push V, pop";

    const REPLIES: &'static str = "ok, empty, V";

    ghost wording = { stack_wording };

    fn read_inv(words: &[&[u8]]) -> Option<StackInv> {
        match words {
            [name] if is_text(name, "pop") => Some(StackInv::Pop),
            [name, value] if is_text(name, "push") => Some(StackInv::Push(number(value)?)),
            _ => None,
        }
    }

    fn read_resp(words: &[&[u8]]) -> Option<StackResp> {
        match words {
            [word] if is_text(word, "ok") => Some(StackResp::Pushed),
            [word] if is_text(word, "empty") => Some(StackResp::Empty),
            [word] => Some(StackResp::Popped(number(word)?)),
            _ => None,
        }
    }

    fn push_inv(text: &mut Vec<u8>, inv: &StackInv) -> Result<(), AllocError> {
        match inv {
            StackInv::Push(number) => push_words(text, "push ", *number),
            StackInv::Pop => text.extend_from_slice(b"pop"),
        }
    }

    fn push_resp(text: &mut Vec<u8>, resp: StackResp) -> Result<(), AllocError> {
        match resp {
            StackResp::Pushed => text.extend_from_slice(b"ok"),
            StackResp::Popped(number) => push_number(text, number),
            StackResp::Empty => text.extend_from_slice(b"empty"),
        }
    }
}
