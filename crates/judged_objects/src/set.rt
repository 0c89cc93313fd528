//! A set of numbers.

ghost use Rattle.std.specs.Prelude.{◌≡◌};
ghost use Rattle.std.proofs.Common.{refl};
ghost use Rattle.seq_object.proofs.Cases.{exact_by_cases, other, itself_one, only_one};
ghost use Rattle.judged_objects.specs.declared.set.SetInv.TheVariants.{Add, Remove, Contains};
ghost use Rattle.judged_objects.specs.declared.set.SetResp.TheVariants.{Yes, No};
ghost use Rattle.judged_objects.specs.Set.{has, said, set, set_key, set_wording};
ghost use Rattle.judged_objects.specs.ByKey.{set_by_key};

use crate::items::{Numbers, key_of};
use crate::sorted::{Side, on_side, placed};
use crate::worded::{Worded, number, push_words};
use lin_check::{Checkable, Event};
use ready_objects::is_text;
use seq_object::SeqObject;
use std::alloc::{AllocError, Global};

/// A set of numbers. It starts empty.
#[derive(Clone, Copy, Debug)]
pub struct Set;

/// An invocation of the set.
#[derive(Clone, Copy, Debug, PartialEq, Eq)]
pub enum SetInv {
    /// Puts a number in.
    Add(u64),
    /// Takes a number out.
    Remove(u64),
    /// Asks whether a number is in.
    Contains(u64),
}

/// A response of the set: whether the number was in.
#[derive(Clone, Copy, Debug, PartialEq, Eq)]
pub enum SetResp {
    /// An `Add` or a `Remove` changed the set; a `Contains` found the number.
    Yes,
    /// It didn't.
    No,
}

/// A yes or a no.
fn said(is_so: bool) -> SetResp
    ensures { result ≡ said is_so }
{
    if is_so { SetResp::Yes } else { SetResp::No }
}

/// Whether a number is in.
fn has(numbers: &[u64], number: u64) -> bool
    ensures { result ≡ has numbers.now number }
{
    numbers.contains(&number)
}

impl SeqObject for Set {
    type State = Numbers;

    type Inv = SetInv;

    type Resp = SetResp;

    ghost sequential = { λ _. set };

    ghost same_inv = { exact_by_cases _ (elim [
      | Add a ↦ (itself_one a, elim [ Add x ↦ only_one Add a x | _ ↦ other ])
      | Remove a ↦ (itself_one a, elim [ Remove x ↦ only_one Remove a x | _ ↦ other ])
      | Contains a ↦ (itself_one a, elim [ Contains x ↦ only_one Contains a x | _ ↦ other ])
    ]) };

    ghost same_resp = { exact_by_cases _ (elim [
      | Yes ↦ (refl, elim [ Yes ↦ λ e. refl | _ ↦ other ])
      | No ↦ (refl, elim [ No ↦ λ e. refl | _ ↦ other ])
    ]) };

    fn start(&self, alloc: Global) -> Result<Numbers, AllocError> {
        Ok(Numbers::of(Vec::new(alloc)))
    }

    fn apply(
        &self,
        alloc: Global,
        state: &Numbers,
        inv: &SetInv,
    ) -> Result<(Numbers, SetResp), AllocError> {
        let numbers = state.as_slice();
        match *inv {
            SetInv::Add(number) => Ok((
                Numbers::of(placed(alloc, numbers, number, number)?),
                said(!has(numbers, number)),
            )),
            SetInv::Remove(number) => Ok((
                Numbers::of(on_side(alloc, numbers, Side::Beside, number)?),
                said(has(numbers, number)),
            )),
            SetInv::Contains(number) => Ok((
                Numbers::copied(alloc, numbers)?,
                said(has(numbers, number)),
            )),
        }
    }

    fn copy_inv(_alloc: Global, inv: &SetInv) -> Result<SetInv, AllocError> {
        Ok(*inv)
    }
}

impl Checkable for Set {
    fn is_same(a: &Numbers, b: &Numbers) -> bool {
        a.as_slice() == b.as_slice()
    }

    fn key(state: &Numbers) -> u64 {
        key_of(state.as_slice())
    }

    ghost part = { set_key };

    ghost parts = { λ _. set_by_key };

    fn part_of(inv: &SetInv) -> u64 {
        match inv {
            SetInv::Add(key) | SetInv::Remove(key) | SetInv::Contains(key) => *key,
        }
    }

    fn ranks(alloc: Global, history: &[Event<SetInv, SetResp>]) -> Result<Vec<u64>, AllocError> {
        lin_check::by_return(alloc, history)
    }

    fn guess(
        _alloc: Global,
        _history: &[Event<SetInv, SetResp>],
    ) -> Result<Option<Vec<usize>>, AllocError> {
        Ok(None)
    }
}

impl Worded for Set {
    const CALLS: &'static str = "add V, remove V, contains V";

    const REPLIES: &'static str = "true, false";

    ghost wording = { set_wording };

    fn read_inv(words: &[&[u8]]) -> Option<SetInv> {
        match words {
            [name, value] if is_text(name, "add") => Some(SetInv::Add(number(value)?)),
            [name, value] if is_text(name, "remove") => Some(SetInv::Remove(number(value)?)),
            [name, value] if is_text(name, "contains") => Some(SetInv::Contains(number(value)?)),
            _ => None,
        }
    }

    fn read_resp(words: &[&[u8]]) -> Option<SetResp> {
        match words {
            [word] if is_text(word, "true") => Some(SetResp::Yes),
            [word] if is_text(word, "false") => Some(SetResp::No),
            _ => None,
        }
    }

    fn push_inv(text: &mut Vec<u8>, inv: &SetInv) -> Result<(), AllocError> {
        match inv {
            SetInv::Add(number) => push_words(text, "add ", *number),
            SetInv::Remove(number) => push_words(text, "remove ", *number),
            SetInv::Contains(number) => push_words(text, "contains ", *number),
        }
    }

    fn push_resp(text: &mut Vec<u8>, resp: SetResp) -> Result<(), AllocError> {
        match resp {
            SetResp::Yes => text.extend_from_slice(b"true"),
            SetResp::No => text.extend_from_slice(b"false"),
        }
    }
}
