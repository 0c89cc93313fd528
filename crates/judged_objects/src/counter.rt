//! A counter.

ghost use Rattle.std.specs.Prelude.{◌≡◌};
ghost use Rattle.std.proofs.Common.{refl};
ghost use Rattle.seq_object.proofs.Cases.{exact_by_cases, other, itself_one, only_one};
ghost use Rattle.judged_objects.specs.declared.counter.CounterInv.TheVariants.{Read, Add, GetAndAdd};
ghost use Rattle.judged_objects.specs.declared.counter.CounterResp.TheVariants.{Value, Added};
ghost use Rattle.judged_objects.specs.Counter.{counter, counter_wording};
ghost use Rattle.lin_check.specs.Parts.{in_one_part};

use crate::worded::{Worded, number, push_words};
use lin_check::{Checkable, Event};
use ready_objects::{is_text, push_number};
use seq_object::SeqObject;
use std::alloc::{AllocError, Global};

/// A counter of 64 bits, which goes round. It starts with 0.
#[derive(Clone, Copy, Debug)]
pub struct Counter;

/// An invocation of the counter.
#[derive(Clone, Copy, Debug, PartialEq, Eq)]
pub enum CounterInv {
    /// Reads the sum.
    Read,
    /// Adds a number.
    Add(u64),
    /// Adds a number, and reads the sum before.
    GetAndAdd(u64),
}

/// A response of the counter.
#[derive(Clone, Copy, Debug, PartialEq, Eq)]
pub enum CounterResp {
    /// The sum that was read.
    Value(u64),
    /// The number was added.
    Added,
}

/// An event of a history.
type CounterEvent = Event<CounterInv, CounterResp>;

impl SeqObject for Counter {
    type State = u64;

    type Inv = CounterInv;

    type Resp = CounterResp;

    ghost sequential = { λ _. counter };

    ghost same_inv = { exact_by_cases _ (elim [
      | Read ↦ (refl, elim [ Read ↦ λ e. refl | _ ↦ other ])
      | Add a ↦ (itself_one a, elim [ Add x ↦ only_one Add a x | _ ↦ other ])
      | GetAndAdd a ↦ (itself_one a, elim [ GetAndAdd x ↦ only_one GetAndAdd a x | _ ↦ other ])
    ]) };

    ghost same_resp = { exact_by_cases _ (elim [
      | Value a ↦ (itself_one a, elim [ Value x ↦ only_one Value a x | _ ↦ other ])
      | Added ↦ (refl, elim [ Added ↦ λ e. refl | _ ↦ other ])
    ]) };

    fn start(&self, _alloc: Global) -> Result<u64, AllocError> {
        Ok(0)
    }

    fn apply(
        &self,
        _alloc: Global,
        state: &u64,
        inv: &CounterInv,
    ) -> Result<(u64, CounterResp), AllocError> {
        match inv {
            CounterInv::Read => Ok((*state, CounterResp::Value(*state))),
            CounterInv::Add(number) => Ok((state.wrapping_add(*number), CounterResp::Added)),
            CounterInv::GetAndAdd(number) => Ok((
                state.wrapping_add(*number),
                CounterResp::Value(*state),
            )),
        }
    }

    fn copy_inv(_alloc: Global, inv: &CounterInv) -> Result<CounterInv, AllocError> {
        Ok(*inv)
    }
}

impl Checkable for Counter {
    fn is_same(a: &u64, b: &u64) -> bool {
        *a == *b
    }

    fn key(state: &u64) -> u64 {
        *state
    }

    ghost part = { λ _. 0 };

    ghost parts = { λ _. in_one_part counter };

    fn part_of(_inv: &CounterInv) -> u64 {
        0
    }

    fn ranks(alloc: Global, history: &[CounterEvent]) -> Result<Vec<u64>, AllocError> {
        lin_check::by_return(alloc, history)
    }

    fn guess(_alloc: Global, _history: &[CounterEvent]) -> Result<Option<Vec<usize>>, AllocError> {
        Ok(None)
    }
}

impl Worded for Counter {
    const CALLS: &'static str = "read, add V, getadd V";

    const REPLIES: &'static str = "V, ok";

    ghost wording = { counter_wording };

    fn read_inv(words: &[&[u8]]) -> Option<CounterInv> {
        match words {
            [name] if is_text(name, "read") => Some(CounterInv::Read),
            [name, value] if is_text(name, "add") => Some(CounterInv::Add(number(value)?)),
            [name, value] if is_text(name, "getadd") => {
                Some(CounterInv::GetAndAdd(number(value)?))
            }
            _ => None,
        }
    }

    fn read_resp(words: &[&[u8]]) -> Option<CounterResp> {
        match words {
            [word] if is_text(word, "ok") => Some(CounterResp::Added),
            [word] => Some(CounterResp::Value(number(word)?)),
            _ => None,
        }
    }

    fn push_inv(text: &mut Vec<u8>, inv: &CounterInv) -> Result<(), AllocError> {
        match inv {
            CounterInv::Read => text.extend_from_slice(b"read"),
            CounterInv::Add(number) => push_words(text, "add ", *number),
            CounterInv::GetAndAdd(number) => push_words(text, "getadd ", *number),
        }
    }

    fn push_resp(text: &mut Vec<u8>, resp: CounterResp) -> Result<(), AllocError> {
        match resp {
            CounterResp::Value(number) => push_number(text, number),
            CounterResp::Added => text.extend_from_slice(b"ok"),
        }
    }
}
