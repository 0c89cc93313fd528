//! Objects whose states are structs, stored in words.
ghost use Rattle.std.specs.Prelude.{List, ℕ, ◌≡◌, length, map};
ghost use Rattle.seq_object.specs.History.{state_after};
ghost use Rattle.seq_object.specs.Sequential.{Sequential};
ghost use Rattle.small_objects.specs.Encoding.{Fits, IsStateOf, encoded, in_words, steady_in_words};

use crate::words::Words;
use uni_small::SmallObject;

/// A sequential object that needs no memory, whose states are stored in words and loaded from them, and so
/// are its calls and replies.
///
/// The record `sequential` is what the object means.
pub trait StoredObject: Drop {
    /// A state of the object.
    type State: Drop;

    /// An invocation.
    type Call: Words;

    /// A reply.
    type Reply: Words;

    /// What the object means: its start state, and for each state and call the next state and the reply.
    ghost sequential: { Self → Sequential Self.State Self.Call Self.Reply };

    /// The words of a state.
    ghost encode: { Self → Self.State → List ℕ };

    /// The state that words are.
    ghost decode: { Self → List ℕ → Self.State };

    /// How many words a state has.
    fn width(&self) -> u64
        ensures { result ≡ length (encode self.now (sequential self.now).initial) };

    /// The start state.
    fn start(&self) -> Self::State
        ensures { result ≡ (sequential self.now).initial };

    /// Loads a state from the words of one that calls lead to.
    fn load(&self, words: &[u64]) -> Self::State
        requires wide { length words.now ≡ length (encode self.now (sequential self.now).initial) }
        ensures state { result ≡ decode self.now words.now };

    /// Stores a state in words.
    fn store(&self, state: &Self::State, words: &mut [u64])
        requires wide { length words.old ≡ length (encode self.now (sequential self.now).initial) }
        ensures words { words.new ≡ encode self.now state.now };

    /// Applies a call to a state that calls lead to, and gives the reply.
    fn apply(&self, state: &mut Self::State, call: &Self::Call) -> Self::Reply
        requires reached { IsStateOf (sequential self.now) Self.Call.decode state.old }
        ensures state { state.new ≡ (sequential self.now).next state.old call.now }
        ensures reply { result ≡ (sequential self.now).answer state.old call.now };

    /// All states have as many words.
    ghost steady: { (o : Self) (state : Self.State) →
        length (encode o state) ≡ length (encode o (sequential o).initial) };

    /// A state that calls lead to, and that was stored, is loaded as it was.
    ghost fits: { (o : Self) → Fits (sequential o) (encode o) (decode o) Self.Call.decode };
}

/// An object of several words that is one on stored states: what it means is that object's meaning, on the
/// words of its states.
#[derive(Clone, Copy, Debug, Drop)]
pub struct Encoded<T: StoredObject> {
    /// The object on stored states.
    pub object: T,
}

impl<T: StoredObject> SmallObject for Encoded<T> {
    ghost meaning = { λ o. record {
      object = in_words (encoded (T.sequential o.object) (T.encode o.object) (T.decode o.object))
          T.Call.decode T.Reply.encode;
      invocation = T.Call.words;
      reply = T.Reply.words;
    } };

    fn width(&self) -> u64 {
        self.object.width()
    }

    fn invocation_width(&self) -> u64 {
        T::Call::count()
    }

    fn reply_width(&self) -> u64 {
        T::Reply::count()
    }

    fn start(&self, state: &mut [u64]) {
        let first = self.object.start();
        self.object.store(&first, state);
    }

    fn apply(&self, state: &mut [u64], invocation: &[u64], reply: &mut [u64]) {
        let call = T::Call::load(invocation);
        let mut stored = self.object.load(state);
        let told = self.object.apply(&mut stored, &call);
        told.store(reply);
        self.object.store(&stored, state);
    }

    ghost steady = { λ o. steady_in_words (encoded (T.sequential o.object) (T.encode o.object) (T.decode o.object))
        T.Call.decode T.Reply.encode T.Reply.words (λ state call long. T.steady o.object _) T.Reply.long };
}

/// What is so of the states on words is so of the plain ones: after the same invocations the words are those
/// of the plain object's state, and the next reply is the plain object's.
pub fn encoded_follows_plain<T: StoredObject>()
    ensures states { (o : T) (is : List (List ℕ)) → let plain = T.sequential o in
        let words = in_words (encoded plain (T.encode o) (T.decode o)) T.Call.decode T.Reply.encode in
        state_after words words.initial is ≡ T.encode o (state_after plain plain.initial (map T.Call.decode is)) }
    ensures replies { (o : T) (is : List (List ℕ)) (i : List ℕ) → let plain = T.sequential o in
        let words = in_words (encoded plain (T.encode o) (T.decode o)) T.Call.decode T.Reply.encode in
        words.answer (state_after words words.initial is) i
        ≡ T.Reply.encode (plain.answer (state_after plain plain.initial (map T.Call.decode is)) (T.Call.decode i)) }
{}
