//! A map with a capacity.
ghost use Rattle.std.specs.Prelude.{IfNone, IfSome, ◌*◌, ◌<◌, ◌≡◌, length, slice_index};
ghost use Rattle.small_objects.specs.Map.{IsAbsent, IsFirst, IsMap, call_fits, call_in, call_long, call_words, map};
ghost use Rattle.small_objects.specs.Map.{map_steady, reply_fits, reply_in, reply_long, reply_words, spelled};

use crate::row::clear;
use crate::words::Words;
use uni_small::{SmallObject, Touched};

/// A call of a map.
#[derive(Clone, Copy, Debug, PartialEq, Eq, Drop)]
pub enum MapCall {
    /// Asks for the value of a key.
    Get(u64),
    /// Gives a key a value.
    Insert(u64, u64),
    /// Takes out a key with its value.
    Remove(u64),
}

/// The reply of a map.
#[derive(Clone, Copy, Debug, PartialEq, Eq, Drop)]
pub enum MapReply {
    /// The key was not there.
    Absent,
    /// The value that the key had before the call.
    Value(u64),
    /// The key is not there, and there is no room for it: the map stays as it is.
    Full,
}

#[tactic(auto, using(crate::proofs::Short::three_set))]
impl Words for MapCall {
    ghost words = { 3 };

    ghost encode = { call_words };

    ghost decode = { call_in };

    fn count() -> u64 {
        3
    }

    fn store(&self, to: &mut [u64]) {
        let (operation, key, value) = match *self {
            MapCall::Get(key) => (0, key, 0),
            MapCall::Insert(key, value) => (1, key, value),
            MapCall::Remove(key) => (2, key, 0),
        };
        to[0] = operation;
        to[1] = key;
        to[2] = value;
    }

    fn load(from: &[u64]) -> MapCall {
        match from[0] {
            1 => MapCall::Insert(from[1], from[2]),
            2 => MapCall::Remove(from[1]),
            _ => MapCall::Get(from[1]),
        }
    }

    ghost long = { call_long };

    ghost fits = { λ x valid. call_fits x };
}

#[tactic(auto, using(crate::proofs::Short::two_set))]
impl Words for MapReply {
    ghost words = { 2 };

    ghost encode = { reply_words };

    ghost decode = { reply_in };

    fn count() -> u64 {
        2
    }

    fn store(&self, to: &mut [u64]) {
        let (kind, value) = match *self {
            MapReply::Absent => (0, 0),
            MapReply::Value(value) => (1, value),
            MapReply::Full => (2, 0),
        };
        to[0] = kind;
        to[1] = value;
    }

    fn load(from: &[u64]) -> MapReply {
        match from[0] {
            1 => MapReply::Value(from[1]),
            2 => MapReply::Full,
            _ => MapReply::Absent,
        }
    }

    ghost long = { reply_long };

    ghost fits = { λ x valid. reply_fits x };
}

/// A map from words to words, of at most so many pairs. Its state is how many pairs there are, and then they,
/// each key before its value, in the order in which the keys came.
#[derive(Clone, Copy, Debug, Drop)]
pub struct SmallMap {
    /// How many pairs fit.
    pub capacity: u32,
}

/// The index of the pair of a key; `None` where the key is not there.
fn pair_of(state: &[u64], key: u64) -> Option<usize>
    requires inside { 2 * slice_index state.now 0 < length state.now }
    ensures first { IfSome result (IsFirst state.now key) }
    ensures absent { IfNone result (IsAbsent state.now key) }
{
    for i in 0..state[0] as usize {
        if state[1 + 2 * i] == key {
            return Some(i);
        }
    }
    None
}

impl SmallMap {
    /// Gives a key a value, and tells the value before.
    fn insert(&self, state: &mut [u64], key: u64, value: u64) -> MapReply
        requires { IsMap self.now.capacity state.old }
        ensures state { state.new ≡ (map self.now.capacity).next state.old (MapCall.Insert key value) }
        ensures reply { result ≡ (map self.now.capacity).answer state.old (MapCall.Insert key value) }
    {
        if let Some(i) = pair_of(state, key) {
            let before = state[2 + 2 * i];
            state[2 + 2 * i] = value;
            return MapReply::Value(before);
        }
        let count = state[0] as usize;
        if count >= self.capacity as usize {
            return MapReply::Full;
        }
        state[1 + 2 * count] = key;
        state[2 + 2 * count] = value;
        state[0] = count as u64 + 1;
        MapReply::Absent
    }

    /// Takes out a key, and tells its value.
    fn remove(&self, state: &mut [u64], key: u64) -> MapReply
        requires { IsMap self.now.capacity state.old }
        ensures state { state.new ≡ (map self.now.capacity).next state.old (MapCall.Remove key) }
        ensures reply { result ≡ (map self.now.capacity).answer state.old (MapCall.Remove key) }
    {
        let Some(i) = pair_of(state, key) else {
            return MapReply::Absent;
        };
        let count = state[0] as usize;
        let (at, end) = (1 + 2 * i, 1 + 2 * count);
        let before = state[2 + 2 * i];
        state.copy_within(at + 2..end, at);
        state[end - 2] = 0;
        state[end - 1] = 0;
        state[0] = count as u64 - 1;
        MapReply::Value(before)
    }

    /// Asks for the value of a key.
    fn get(&self, state: &[u64], key: u64) -> MapReply
        requires { IsMap self.now.capacity state.now }
        ensures same { state.now ≡ (map self.now.capacity).next state.now (MapCall.Get key) }
        ensures reply { result ≡ (map self.now.capacity).answer state.now (MapCall.Get key) }
    {
        match pair_of(state, key) {
            Some(i) => MapReply::Value(state[2 + 2 * i]),
            None => MapReply::Absent,
        }
    }
}

#[tactic(auto, using(crate::proofs::Rows::none_long, crate::proofs::Rows::zero_row))]
impl SmallObject for SmallMap {
    ghost meaning = { λ o. spelled o.capacity };

    fn width(&self) -> u64 {
        2 * self.capacity as u64 + 1
    }

    fn invocation_width(&self) -> u64 {
        MapCall::count()
    }

    fn reply_width(&self) -> u64 {
        MapReply::count()
    }

    fn start(&self, state: &mut [u64]) {
        clear(state);
    }

    fn apply(&self, state: &mut [u64], invocation: &[u64], reply: &mut [u64]) {
        let told = match MapCall::load(invocation) {
            MapCall::Get(key) => self.get(state, key),
            MapCall::Insert(key, value) => self.insert(state, key, value),
            MapCall::Remove(key) => self.remove(state, key),
        };
        told.store(reply);
    }

    fn touches(&self, state: &[u64], invocation: &[u64]) -> Touched {
        let head = match MapCall::load(invocation) {
            MapCall::Get(_) => 0,
            _ => 2 * state[0] + 3,
        };
        Touched {
            head,
            from: 0,
            to: 0,
        }
    }

    ghost steady = { λ o. map_steady o.capacity };
}
