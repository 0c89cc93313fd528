//! A machine on words of 64 bits, whose calls go on without end.
ghost use Rattle.std.specs.Prelude.{List, ℕ, ◌≡◌, map, refl};
ghost use Rattle.seq_object.specs.History.{state_after};
ghost use Rattle.small_objects.specs.Encoding.{first_word, one_word};
ghost use Rattle.word_objects.specs.Machine.{machine, small_machine};
ghost use Rattle.word_objects.specs.Tables.{Tables};

use crate::machine::WordMachine;
use uni_small::SmallObject;
use uni_words::WordObject;

/// Its state is one word, and so are an invocation and a reply.
impl SmallObject for WordMachine {
    ghost meaning = { small_machine };

    fn width(&self) -> u64 {
        1
    }

    fn invocation_width(&self) -> u64 {
        1
    }

    fn reply_width(&self) -> u64 {
        1
    }

    fn start(&self, state: &mut [u64]) {
        state[0] = 0;
    }

    fn apply(&self, state: &mut [u64], invocation: &[u64], reply: &mut [u64]) {
        prove!(state[0] < self.states as u64);
        let before = state[0] as u32;
        state[0] = self.next(before, invocation[0]) as u64;
        reply[0] = self.answer(before, invocation[0]) as u64;
    }

    ghost steady = { λ t state inv long. (refl, refl) };
}

/// The machine on words is the plain one: after invocations in words the word is the plain machine's state, and
/// the next reply is its reply. The call does nothing: it tells what holds of each machine.
pub fn small_machine_follows_plain()
    ensures states { (t : Tables) (is : List (List ℕ)) → let words = (small_machine t).object in
        state_after words words.initial is ≡ one_word (state_after (machine t) 0 (map first_word is)) }
    ensures replies { (t : Tables) (is : List (List ℕ)) (i : List ℕ) → let words = (small_machine t).object in
        words.answer (state_after words words.initial is) i
        ≡ one_word ((machine t).answer (state_after (machine t) 0 (map first_word is)) (first_word i)) }
{}
