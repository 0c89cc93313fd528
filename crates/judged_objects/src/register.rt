//! A register with compare and exchange.

ghost use Rattle.std.specs.Prelude.{◌≡◌};
ghost use Rattle.std.proofs.Common.{refl};
ghost use Rattle.seq_object.proofs.Cases.{exact_by_cases, other, itself_one, only_one, itself_two, only_two};
ghost use Rattle.judged_objects.specs.declared.register.RegisterInv.TheVariants.{Read, Write, Exchange};
ghost use Rattle.judged_objects.specs.declared.register.RegisterResp.TheVariants.{Value, Written, Exchanged, Kept};
ghost use Rattle.judged_objects.specs.Register.{register, register_wording};
ghost use Rattle.lin_check.specs.Parts.{in_one_part};

use crate::worded::{Worded, number, push_words};
use lin_check::{Checkable, Event};
use ready_objects::{is_text, push_number};
use seq_object::SeqObject;
use std::alloc::{AllocError, Global};

/// A register that keeps a number, with compare and exchange. It starts with 0.
#[derive(Clone, Copy, Debug)]
pub struct Register;

/// An invocation of the register.
#[derive(Clone, Copy, Debug, PartialEq, Eq)]
pub enum RegisterInv {
    /// Reads the number.
    Read,
    /// Writes a number.
    Write(u64),
    /// Writes the second number where the register has the first.
    Exchange(u64, u64),
}

/// A response of the register.
#[derive(Clone, Copy, Debug, PartialEq, Eq)]
pub enum RegisterResp {
    /// The number that was read.
    Value(u64),
    /// The number was written.
    Written,
    /// The register had the first number, and has the second now.
    Exchanged,
    /// The register had another number, and keeps it.
    Kept,
}

/// An event of a history.
type RegisterEvent = Event<RegisterInv, RegisterResp>;

impl SeqObject for Register {
    type State = u64;

    type Inv = RegisterInv;

    type Resp = RegisterResp;

    ghost sequential = { λ _. register };

    ghost same_inv = { exact_by_cases _ (elim [
      | Read ↦ (refl, elim [ Read ↦ λ e. refl | _ ↦ other ])
      | Write a ↦ (itself_one a, elim [ Write x ↦ only_one Write a x | _ ↦ other ])
      | Exchange a b ↦ (itself_two a b, elim [ Exchange x y ↦ only_two Exchange a b x y | _ ↦ other ])
    ]) };

    ghost same_resp = { exact_by_cases _ (elim [
      | Value a ↦ (itself_one a, elim [ Value x ↦ only_one Value a x | _ ↦ other ])
      | Written ↦ (refl, elim [ Written ↦ λ e. refl | _ ↦ other ])
      | Exchanged ↦ (refl, elim [ Exchanged ↦ λ e. refl | _ ↦ other ])
      | Kept ↦ (refl, elim [ Kept ↦ λ e. refl | _ ↦ other ])
    ]) };

    fn start(&self, _alloc: Global) -> Result<u64, AllocError> {
        Ok(0)
    }

    fn apply(
        &self,
        _alloc: Global,
        state: &u64,
        inv: &RegisterInv,
    ) -> Result<(u64, RegisterResp), AllocError> {
        match inv {
            RegisterInv::Read => Ok((*state, RegisterResp::Value(*state))),
            RegisterInv::Write(number) => Ok((*number, RegisterResp::Written)),
            RegisterInv::Exchange(old, new) => {
                if *state == *old {
                    Ok((*new, RegisterResp::Exchanged))
                } else {
                    Ok((*state, RegisterResp::Kept))
                }
            }
        }
    }

    fn copy_inv(_alloc: Global, inv: &RegisterInv) -> Result<RegisterInv, AllocError> {
        Ok(*inv)
    }
}

impl Checkable for Register {
    fn is_same(a: &u64, b: &u64) -> bool {
        *a == *b
    }

    fn key(state: &u64) -> u64 {
        *state
    }

    ghost part = { λ _. 0 };

    ghost parts = { λ _. in_one_part register };

    fn part_of(_inv: &RegisterInv) -> u64 {
        0
    }

    fn ranks(alloc: Global, history: &[RegisterEvent]) -> Result<Vec<u64>, AllocError> {
        lin_check::by_return(alloc, history)
    }

    fn guess(_alloc: Global, _history: &[RegisterEvent]) -> Result<Option<Vec<usize>>, AllocError> {
        Ok(None)
    }
}

impl Worded for Register {
    const CALLS: &'static str = "read, write V, cas OLD NEW";

    const REPLIES: &'static str = "V, ok, true, false";

    ghost wording = { register_wording };

    fn read_inv(words: &[&[u8]]) -> Option<RegisterInv> {
        match words {
            [name] if is_text(name, "read") => Some(RegisterInv::Read),
            [name, value] if is_text(name, "write") => Some(RegisterInv::Write(number(value)?)),
            [name, old, new] if is_text(name, "cas") => {
                Some(RegisterInv::Exchange(number(old)?, number(new)?))
            }
            _ => None,
        }
    }

    fn read_resp(words: &[&[u8]]) -> Option<RegisterResp> {
        match words {
            [word] if is_text(word, "ok") => Some(RegisterResp::Written),
            [word] if is_text(word, "true") => Some(RegisterResp::Exchanged),
            [word] if is_text(word, "false") => Some(RegisterResp::Kept),
            [word] => Some(RegisterResp::Value(number(word)?)),
            _ => None,
        }
    }

    fn push_inv(text: &mut Vec<u8>, inv: &RegisterInv) -> Result<(), AllocError> {
        match inv {
            RegisterInv::Read => text.extend_from_slice(b"read"),
            RegisterInv::Write(number) => push_words(text, "write ", *number),
            RegisterInv::Exchange(old, new) => {
                push_words(text, "cas ", *old)?;
                push_words(text, " ", *new)
            }
        }
    }

    fn push_resp(text: &mut Vec<u8>, resp: RegisterResp) -> Result<(), AllocError> {
        match resp {
            RegisterResp::Value(number) => push_number(text, number),
            RegisterResp::Written => text.extend_from_slice(b"ok"),
            RegisterResp::Exchanged => text.extend_from_slice(b"true"),
            RegisterResp::Kept => text.extend_from_slice(b"false"),
        }
    }
}
