//! A bounded queue.
ghost use Rattle.std.specs.Prelude.{List, [], ℕ, ◌≡◌, map, refl};
ghost use Rattle.seq_object.specs.History.{state_after};
ghost use Rattle.small_objects.specs.Encoding.{first_word, of_one_word, one_word};
ghost use Rattle.small_objects.specs.Queue.{bounded_queue, queue, queue_steady};
ghost use Rattle.small_objects.specs.Ring.{HasRing, ring_in, ring_words};

use crate::ring::{end_of, first_of, put_last, take_first};
use crate::row::{clear, touching};
use uni_small::{SmallObject, Touched};

/// A queue of numbers that aren't 0, at most so many. An invocation that isn't 0 puts its number in, and is
/// answered 1, or 0 where the queue is full; 0 takes the oldest number out, and is answered it, or 0 where
/// there is none. Its state is how many there are, the slot of the oldest one, and a ring of slots.
#[derive(Clone, Copy, Debug, Drop)]
pub struct SmallQueue {
    /// How many numbers fit.
    pub capacity: u32,
}

impl SmallQueue {
    /// Applies an invocation of one word to a state that calls lead to, and gives the reply.
    fn step(&self, state: &mut [u64], inv: u64) -> u64
        requires { HasRing self.now.capacity state.old }
        ensures state { state.new ≡ (queue self.now.capacity).next state.old inv }
        ensures reply { result ≡ (queue self.now.capacity).answer state.old inv }
    {
        if inv == 0 {
            if state[0] == 0 {
                return 0;
            }
            return take_first(state);
        }
        if state[0] >= self.capacity as u64 {
            return 0;
        }
        put_last(state, inv);
        1
    }
}

#[tactic(auto, using(crate::proofs::Rings::ring_long, crate::proofs::Rings::zero_ring, crate::proofs::Short::one_set))]
impl SmallObject for SmallQueue {
    ghost meaning = { λ o. of_one_word (queue o.capacity) };

    fn width(&self) -> u64 {
        self.capacity as u64 + 2
    }

    fn invocation_width(&self) -> u64 {
        1
    }

    fn reply_width(&self) -> u64 {
        1
    }

    fn start(&self, state: &mut [u64]) {
        clear(state);
    }

    fn apply(&self, state: &mut [u64], invocation: &[u64], reply: &mut [u64]) {
        reply[0] = self.step(state, invocation[0]);
    }

    fn touches(&self, state: &[u64], invocation: &[u64]) -> Touched {
        let slot = if invocation[0] == 0 {
            first_of(state)
        } else {
            end_of(state)
        };
        touching(2, slot)
    }

    ghost steady = { λ o state inv long. (queue_steady o.capacity state (first_word inv) long, refl) };
}

/// The queue on words is the plain one, a list of at most so many values: after invocations in words the values in
/// the ring are those of the list, the oldest first, and the next reply is the list's. The words are the ring's, with 0
/// in each slot without a value. The call does nothing: it tells what holds of each capacity.
pub fn ring_answers_as_the_queue()
    ensures values { (capacity : ℕ) (is : List (List ℕ)) → let words = (of_one_word (queue capacity)).object in
        (ring_in (state_after words words.initial is)).values
        ≡ state_after (bounded_queue capacity) [] (map first_word is) }
    ensures replies { (capacity : ℕ) (is : List (List ℕ)) (i : List ℕ) →
        let words = (of_one_word (queue capacity)).object in
        words.answer (state_after words words.initial is) i
        ≡ one_word ((bounded_queue capacity).answer (state_after (bounded_queue capacity) [] (map first_word is))
        (first_word i)) }
    ensures words { (capacity : ℕ) (is : List (List ℕ)) → let words = (of_one_word (queue capacity)).object in
        state_after words words.initial is ≡ ring_words capacity (ring_in (state_after words words.initial is)) }
{}
