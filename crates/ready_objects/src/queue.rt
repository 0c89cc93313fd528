//! A queue of at most 1,000 values.

ghost use Rattle.std.specs.Prelude.{◌≡◌, IfOk};
ghost use Rattle.std.proofs.Common.{refl};
ghost use Rattle.ready_objects.specs.declared.queue.QueueInv.TheVariants.{Enq, Deq};
ghost use Rattle.ready_objects.specs.declared.queue.QueueResp.TheVariants.{Added, Full, Taken, Empty};
ghost use Rattle.seq_object.proofs.Cases.{exact_by_cases, other, itself_one, only_one};
ghost use Rattle.ready_objects.specs.Number.{numbers_text};
ghost use Rattle.ready_objects.specs.Queue.{queue, queue_next, queue_answer, queue_language};

use crate::number::{Amount, push_number, push_numbers, push_with_number};
use crate::spoken::{Spoken, is_text};
use seq_object::SeqObject;
use std::alloc::{AllocError, Global};
use std::marker::Model;
use std::sync::Arc;

/// A queue of at most 1,000 values. It starts empty.
#[derive(Clone, Copy, Debug)]
pub struct QueueObject;

/// The values of a queue, the first of them first.
///
/// States share values, and nobody changes what is shared: where the first value is taken out, the
/// state after it has the same values, and one more of them is past.
#[derive(Drop)]
pub struct QueueState {
    values: Arc<Vec<Amount>>,
    past: usize,
}

impl Model for QueueState {
    ghost use Rattle.std.specs.Prelude.{ℕ, List, ◌≤◌, drop, length};
    ghost use Rattle.std.specs.Arc.{arc_value};

    ghost Value = { List ℕ };

    ghost view = { λ state. drop state.past (arc_value state.values).items };

    ghost invariant = { λ state. state.past ≤ length (arc_value state.values).items };
}

/// An invocation of the queue.
#[derive(Clone, Copy, Debug, PartialEq, Eq)]
pub enum QueueInv {
    /// Puts a value last.
    Enq(Amount),
    /// Takes out the first value.
    Deq,
}

/// A response of the queue.
#[derive(Clone, Copy, Debug, PartialEq, Eq)]
pub enum QueueResp {
    /// The value went last.
    Added,
    /// There are 1,000 values, and the queue stays as it is.
    Full,
    /// The value that was the first.
    Taken(Amount),
    /// There is no value to take.
    Empty,
}

impl QueueState {
    /// A state of its own, with these values.
    fn own(alloc: Global, values: Vec<Amount>) -> Result<QueueState, AllocError>
        ensures { IfOk result (λ state. state ≡ values.items) }
    {
        Ok(QueueState {
            values: Arc::new(alloc, values)?,
            past: 0,
        })
    }

    /// The same state, which shares the values.
    fn share(&self) -> Result<QueueState, AllocError>
        ensures { IfOk result (λ state. state ≡ self.now) }
    {
        Ok(QueueState {
            values: Arc::try_clone(&self.values)?,
            past: self.past,
        })
    }

    /// The values, the first of them first.
    fn values(&self) -> &[Amount]
        ensures { result.now ≡ self.now }
    {
        &self.values[self.past..]
    }

    /// The state with one value more, and the response.
    fn enqueued(&self, alloc: Global, value: Amount) -> Result<(QueueState, QueueResp), AllocError>
        ensures state { IfOk result (λ r. r.0 ≡ queue_next self.now (QueueInv.Enq value)) }
        ensures response { IfOk result (λ r. r.1 ≡ queue_answer self.now (QueueInv.Enq value)) }
    {
        let values = &self.values[self.past..];
        if values.len() >= 1000 {
            return Ok((self.share()?, QueueResp::Full));
        }
        let mut next = Vec::with_capacity(alloc, values.len() + 1)?;
        next.extend_from_slice(values)?;
        next.push(value)?;
        Ok((QueueState::own(alloc, next)?, QueueResp::Added))
    }

    /// The state without the first value, and the response. No value is copied.
    fn dequeued(&self) -> Result<(QueueState, QueueResp), AllocError>
        ensures state { IfOk result (λ r. r.0 ≡ queue_next self.now QueueInv.Deq) }
        ensures response { IfOk result (λ r. r.1 ≡ queue_answer self.now QueueInv.Deq) }
    {
        let Some(first) = self.values.get(self.past) else {
            return Ok((self.share()?, QueueResp::Empty));
        };
        let rest = QueueState {
            values: Arc::try_clone(&self.values)?,
            past: self.past + 1,
        };
        Ok((rest, QueueResp::Taken(*first)))
    }
}

impl SeqObject for QueueObject {
    type State = QueueState;

    type Inv = QueueInv;

    type Resp = QueueResp;

    ghost sequential = { λ _. queue };

    fn start(&self, alloc: Global) -> Result<QueueState, AllocError> {
        QueueState::own(alloc, Vec::new(alloc))
    }

    fn apply(
        &self,
        alloc: Global,
        state: &QueueState,
        inv: &QueueInv,
    ) -> Result<(QueueState, QueueResp), AllocError> {
        match inv {
            QueueInv::Enq(value) => state.enqueued(alloc, *value),
            QueueInv::Deq => state.dequeued(),
        }
    }

    fn copy_inv(_alloc: Global, inv: &QueueInv) -> Result<QueueInv, AllocError> {
        Ok(*inv)
    }

    ghost same_inv = { exact_by_cases _ (elim [
      | Enq a ↦ (itself_one a, elim [ Enq x ↦ only_one Enq a x | _ ↦ other ])
      | Deq ↦ (refl, elim [ Deq ↦ λ e. refl | _ ↦ other ])
    ]) };

    ghost same_resp = { exact_by_cases _ (elim [
      | Added ↦ (refl, elim [ Added ↦ λ e. refl | _ ↦ other ])
      | Full ↦ (refl, elim [ Full ↦ λ e. refl | _ ↦ other ])
      | Taken a ↦ (itself_one a, elim [ Taken x ↦ only_one Taken a x | _ ↦ other ])
      | Empty ↦ (refl, elim [ Empty ↦ λ e. refl | _ ↦ other ])
    ]) };
}

impl Spoken for QueueObject {
    ghost language = { queue_language };

    ghost state_text = { numbers_text };

    fn read_inv(words: &[&[u8]]) -> Option<QueueInv> {
        match words {
            [name] if is_text(name, "deq") => Some(QueueInv::Deq),
            [name, value] if is_text(name, "enq") => Some(QueueInv::Enq(Amount::read(value)?)),
            _ => None,
        }
    }

    fn push_inv(text: &mut Vec<u8>, inv: &QueueInv) -> Result<(), AllocError> {
        match inv {
            QueueInv::Enq(value) => push_with_number(text, b"enq ", value.number()),
            QueueInv::Deq => text.extend_from_slice(b"deq"),
        }
    }

    fn push_resp(text: &mut Vec<u8>, resp: QueueResp) -> Result<(), AllocError> {
        match resp {
            QueueResp::Added => text.extend_from_slice(b"ok"),
            QueueResp::Full => text.extend_from_slice(b"full"),
            QueueResp::Taken(value) => push_number(text, value.number()),
            QueueResp::Empty => text.extend_from_slice(b"empty"),
        }
    }

    fn push_state(text: &mut Vec<u8>, state: &QueueState) -> Result<(), AllocError> {
        push_numbers(text, state.values())
    }

    fn drawn(word: u64) -> QueueInv {
        match word % 3 {
            0 => QueueInv::Deq,
            _ => QueueInv::Enq(Amount::below_thousand(word / 3)),
        }
    }

    fn reads_back(inv: &QueueInv) {
        if let QueueInv::Enq(value) = inv {
            let _ = value.number();
        }
    }
}
