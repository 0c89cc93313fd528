//! A queue without a bound.

ghost use Rattle.std.specs.Prelude.{◌≡◌};
ghost use Rattle.std.proofs.Common.{refl};
ghost use Rattle.seq_object.proofs.Cases.{exact_by_cases, other, itself_one, only_one};
ghost use Rattle.judged_objects.specs.declared.queue.QueueInv.TheVariants.{Enq, Deq};
ghost use Rattle.judged_objects.specs.declared.queue.QueueResp.TheVariants.{Added, Taken, Empty};
ghost use Rattle.judged_objects.specs.Queue.{queue, queue_wording};
ghost use Rattle.lin_check.specs.Parts.{in_one_part};

use crate::items::{Numbers, key_of};
use crate::queue_order::queue_order;
use crate::worded::{Worded, number, push_words};
use lin_check::{Checkable, Event};
use ready_objects::{is_text, push_number};
use seq_object::SeqObject;
use std::alloc::{AllocError, Global};
use std::collections::BTreeMap;

/// A queue of numbers, as many as there is memory for. It starts empty.
#[derive(Clone, Copy, Debug)]
pub struct Queue;

/// An invocation of the queue.
#[derive(Clone, Copy, Debug, PartialEq, Eq)]
pub enum QueueInv {
    /// Puts a number last.
    Enq(u64),
    /// Takes the first number.
    Deq,
}

/// A response of the queue.
#[derive(Clone, Copy, Debug, PartialEq, Eq)]
pub enum QueueResp {
    /// The number went last.
    Added,
    /// The number that was the first.
    Taken(u64),
    /// There was no number to take.
    Empty,
}

/// An event of a history.
pub(crate) type QueueEvent = Event<QueueInv, QueueResp>;

impl SeqObject for Queue {
    type State = Numbers;

    type Inv = QueueInv;

    type Resp = QueueResp;

    ghost sequential = { λ _. queue };

    ghost same_inv = { exact_by_cases _ (elim [
      | Enq a ↦ (itself_one a, elim [ Enq x ↦ only_one Enq a x | _ ↦ other ])
      | Deq ↦ (refl, elim [ Deq ↦ λ e. refl | _ ↦ other ])
    ]) };

    ghost same_resp = { exact_by_cases _ (elim [
      | Added ↦ (refl, elim [ Added ↦ λ e. refl | _ ↦ other ])
      | Taken a ↦ (itself_one a, elim [ Taken x ↦ only_one Taken a x | _ ↦ other ])
      | Empty ↦ (refl, elim [ Empty ↦ λ e. refl | _ ↦ other ])
    ]) };

    fn start(&self, alloc: Global) -> Result<Numbers, AllocError> {
        Ok(Numbers::of(Vec::new(alloc)))
    }

    fn apply(
        &self,
        alloc: Global,
        state: &Numbers,
        inv: &QueueInv,
    ) -> Result<(Numbers, QueueResp), AllocError> {
        match inv {
            QueueInv::Enq(number) => Ok((
                Numbers::joined(alloc, state.as_slice(), &[*number])?,
                QueueResp::Added,
            )),
            QueueInv::Deq => match state.as_slice() {
                [] => Ok((Numbers::of(Vec::new(alloc)), QueueResp::Empty)),
                [first, rest @ ..] => {
                    Ok((Numbers::copied(alloc, rest)?, QueueResp::Taken(*first)))
                }
            },
        }
    }

    fn copy_inv(_alloc: Global, inv: &QueueInv) -> Result<QueueInv, AllocError> {
        Ok(*inv)
    }
}

/// Where in a history each number is taken.
fn takes(alloc: Global, history: &[QueueEvent]) -> Result<BTreeMap<u64, u64>, AllocError> {
    let mut takes = BTreeMap::new(alloc);
    for i in 0..history.len() {
        if let Event::Return(_, QueueResp::Taken(number)) = &history[i] {
            takes.insert(*number, i as u64)?;
        }
    }
    Ok(takes)
}

impl Checkable for Queue {
    fn is_same(a: &Numbers, b: &Numbers) -> bool {
        a.as_slice() == b.as_slice()
    }

    fn key(state: &Numbers) -> u64 {
        key_of(state.as_slice())
    }

    ghost part = { λ _. 0 };

    ghost parts = { λ _. in_one_part queue };

    fn part_of(_inv: &QueueInv) -> u64 {
        0
    }

    /// Of two calls that put a number the one whose number is taken first is tried first; of others the one that
    /// returns first.
    fn ranks(alloc: Global, history: &[QueueEvent]) -> Result<Vec<u64>, AllocError> {
        let takes = takes(alloc, history)?;
        let mut ranks = lin_check::by_return(alloc, history)?;
        for i in 0..history.len() {
            if let Event::Call(_, QueueInv::Enq(number)) = &history[i] {
                if let Some(rank) = ranks.get_mut(i) {
                    *rank = takes.get(number).copied().unwrap_or(u64::MAX);
                }
            }
        }
        Ok(ranks)
    }

    fn guess(alloc: Global, history: &[QueueEvent]) -> Result<Option<Vec<usize>>, AllocError> {
        queue_order(alloc, history)
    }
}

impl Worded for Queue {
    const CALLS: &'static str = "enq V, deq";

    const REPLIES: &'static str = "ok, empty, V";

    ghost wording = { queue_wording };

    fn read_inv(words: &[&[u8]]) -> Option<QueueInv> {
        match words {
            [name] if is_text(name, "deq") => Some(QueueInv::Deq),
            [name, value] if is_text(name, "enq") => Some(QueueInv::Enq(number(value)?)),
            _ => None,
        }
    }

    fn read_resp(words: &[&[u8]]) -> Option<QueueResp> {
        match words {
            [word] if is_text(word, "ok") => Some(QueueResp::Added),
            [word] if is_text(word, "empty") => Some(QueueResp::Empty),
            [word] => Some(QueueResp::Taken(number(word)?)),
            _ => None,
        }
    }

    fn push_inv(text: &mut Vec<u8>, inv: &QueueInv) -> Result<(), AllocError> {
        match inv {
            QueueInv::Enq(number) => push_words(text, "enq ", *number),
            QueueInv::Deq => text.extend_from_slice(b"deq"),
        }
    }

    fn push_resp(text: &mut Vec<u8>, resp: QueueResp) -> Result<(), AllocError> {
        match resp {
            QueueResp::Added => text.extend_from_slice(b"ok"),
            QueueResp::Taken(number) => push_number(text, number),
            QueueResp::Empty => text.extend_from_slice(b"empty"),
        }
    }
}
