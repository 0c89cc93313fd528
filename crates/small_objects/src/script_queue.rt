//! The queue of scripts.
ghost use Rattle.std.specs.Prelude.{List, [], ℕ, ◌<◌, ◌≡◌, ◌≤◌, length, map, slice_index};
ghost use Rattle.ready_objects.specs.Queue.{queue};
ghost use Rattle.ready_objects.specs.declared.queue.QueueInv.{QueueInv};
ghost use Rattle.seq_object.specs.History.{state_after};
ghost use Rattle.small_objects.specs.Amount.{amount_long};
ghost use Rattle.small_objects.specs.Ring.{HasRing, ring_in, ring_words};
ghost use Rattle.small_objects.specs.ScriptQueue.{IsCall, IsReply, call_fits, call_in, call_words, on_words, put_by};
ghost use Rattle.small_objects.specs.ScriptQueue.{queue_of, queue_steady, reply_fits, reply_in, reply_long};
ghost use Rattle.small_objects.specs.ScriptQueue.{reply_words, spelled};

use crate::ring::{end_of, first_of, put_last, take_first};
use crate::row::{clear, touching};
use crate::words::Words;
use ready_objects::{Amount, QueueInv, QueueResp};
use uni_small::{SmallObject, Touched};

impl Words for QueueInv {
    ghost words = { 2 };

    ghost encode = { call_words };

    ghost decode = { call_in };

    ghost valid = { IsCall };

    fn count() -> u64 {
        2
    }

    fn store(&self, to: &mut [u64]) {
        let put = match *self {
            QueueInv::Enq(value) => Some(value),
            QueueInv::Deq => None,
        };
        put.store(to);
    }

    fn load(from: &[u64]) -> QueueInv {
        match Option::<Amount>::load(from) {
            Some(value) => QueueInv::Enq(value),
            None => QueueInv::Deq,
        }
    }

    ghost long = { λ call. amount_long (put_by call) };

    ghost fits = { call_fits };
}

#[tactic(auto, using(crate::proofs::Short::two_set))]
impl Words for QueueResp {
    ghost words = { 2 };

    ghost encode = { reply_words };

    ghost decode = { reply_in };

    ghost valid = { IsReply };

    fn count() -> u64 {
        2
    }

    fn store(&self, to: &mut [u64]) {
        let (kind, value) = match *self {
            QueueResp::Added => (0, 0),
            QueueResp::Full => (1, 0),
            QueueResp::Taken(value) => (2, value.number()),
            QueueResp::Empty => (3, 0),
        };
        to[0] = kind;
        to[1] = value;
    }

    fn load(from: &[u64]) -> QueueResp {
        match from[0] {
            0 => QueueResp::Added,
            1 => QueueResp::Full,
            2 => match Amount::new(from[1]) {
                Some(value) => QueueResp::Taken(value),
                None => QueueResp::Empty,
            },
            _ => QueueResp::Empty,
        }
    }

    ghost long = { reply_long };

    ghost fits = { reply_fits };
}

/// The queue of scripts, of at most so many values: with room for 1,000 it is that of scripts. Its state is how many
/// values there are, the slot of the first of them, and a ring of slots.
#[derive(Clone, Copy, Debug, Drop)]
pub struct SmallScriptQueue {
    /// How many values fit.
    pub capacity: u32,
}

impl SmallScriptQueue {
    /// Puts a value last.
    fn enqueue(&self, state: &mut [u64], value: Amount) -> QueueResp
        requires { HasRing self.now.capacity state.old }
        ensures state { state.new ≡ (on_words self.now.capacity).next state.old (QueueInv.Enq value) }
        ensures reply { result ≡ (on_words self.now.capacity).answer state.old (QueueInv.Enq value) }
    {
        if state[0] >= self.capacity as u64 {
            return QueueResp::Full;
        }
        put_last(state, value.number());
        QueueResp::Added
    }

    /// Takes out the first value.
    fn dequeue(&self, state: &mut [u64]) -> QueueResp
        requires ring { HasRing self.now.capacity state.old }
        requires small { slice_index (ring_in state.old).values 0 ≤ 999999999999 }
        ensures state { state.new ≡ (on_words self.now.capacity).next state.old QueueInv.Deq }
        ensures reply { result ≡ (on_words self.now.capacity).answer state.old QueueInv.Deq }
    {
        if state[0] == 0 {
            return QueueResp::Empty;
        }
        let first = take_first(state);
        let Some(value) = Amount::new(first) else {
            unreachable!()
        };
        QueueResp::Taken(value)
    }
}

#[tactic(auto, using(crate::proofs::Rings::ring_long, crate::proofs::Rings::zero_ring))]
impl SmallObject for SmallScriptQueue {
    ghost meaning = { λ o. spelled o.capacity };

    fn width(&self) -> u64 {
        self.capacity as u64 + 2
    }

    fn invocation_width(&self) -> u64 {
        QueueInv::count()
    }

    fn reply_width(&self) -> u64 {
        QueueResp::count()
    }

    fn start(&self, state: &mut [u64]) {
        clear(state);
    }

    fn apply(&self, state: &mut [u64], invocation: &[u64], reply: &mut [u64]) {
        let told = match QueueInv::load(invocation) {
            QueueInv::Enq(value) => self.enqueue(state, value),
            QueueInv::Deq => self.dequeue(state),
        };
        told.store(reply);
    }

    fn touches(&self, state: &[u64], invocation: &[u64]) -> Touched {
        let slot = match QueueInv::load(invocation) {
            QueueInv::Enq(_) => end_of(state),
            QueueInv::Deq => first_of(state),
        };
        touching(2, slot)
    }

    ghost steady = { λ o. queue_steady o.capacity };
}

/// The queue on words is the plain one of that capacity: after invocations in words the values in the ring are its
/// values, and the next reply is its reply. The words are the ring's, with 0 in each slot without a value. With room
/// for 1,000 values it is the queue of scripts, call by call; with less room it is so as long as fewer values are in
/// it than fit. The call does nothing: it tells what holds of each queue.
pub fn small_queue_follows_plain()
    ensures values { (capacity : ℕ) (is : List (List ℕ)) → let words = (spelled capacity).object in
        (ring_in (state_after words words.initial is)).values
        ≡ state_after (queue_of capacity) [] (map call_in is) }
    ensures replies { (capacity : ℕ) (is : List (List ℕ)) (i : List ℕ) → let words = (spelled capacity).object in
        words.answer (state_after words words.initial is) i
        ≡ reply_words ((queue_of capacity).answer (state_after (queue_of capacity) [] (map call_in is)) (call_in i)) }
    ensures words { (capacity : ℕ) (is : List (List ℕ)) → let words = (spelled capacity).object in
        state_after words words.initial is ≡ ring_words capacity (ring_in (state_after words words.initial is)) }
    ensures scripts { (values : List ℕ) (call : QueueInv) →
        ((queue_of 1000).next values call ≡ queue.next values call)
        × ((queue_of 1000).answer values call ≡ queue.answer values call) }
    ensures smaller { (capacity : ℕ) (values : List ℕ) (call : QueueInv) → length values < capacity → capacity ≤ 1000 →
        ((queue_of capacity).next values call ≡ queue.next values call)
        × ((queue_of capacity).answer values call ≡ queue.answer values call) }
{}
