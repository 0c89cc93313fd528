//! A map of numbers.

ghost use Rattle.std.specs.Prelude.{◌≡◌};
ghost use Rattle.std.proofs.Common.{refl};
ghost use Rattle.seq_object.proofs.Cases.{exact_by_cases, other, itself_one, only_one, itself_two, only_two};
ghost use Rattle.judged_objects.specs.declared.map.MapInv.TheVariants.{Get, Put, Insert, Remove};
ghost use Rattle.judged_objects.specs.declared.map.MapResp.TheVariants.{Value, Missing, Written};
ghost use Rattle.judged_objects.specs.Map.{found, map_key, map_object, map_wording};
ghost use Rattle.judged_objects.specs.ByKey.{map_by_key};

use crate::entries::{Entries, Entry, value_at};
use crate::items::mixed;
use crate::sorted::{Side, on_side, placed};
use crate::worded::{Worded, number, push_words};
use lin_check::{Checkable, Event};
use ready_objects::{is_text, push_number};
use seq_object::SeqObject;
use std::alloc::{AllocError, Global};

/// A map from numbers to numbers. It starts empty.
#[derive(Clone, Copy, Debug)]
pub struct Map;

/// An invocation of the map.
#[derive(Clone, Copy, Debug, PartialEq, Eq)]
pub enum MapInv {
    /// Reads the value of a key.
    Get(u64),
    /// Sets the value of a key.
    Put(u64, u64),
    /// Sets the value of a key, and reads the one before.
    Insert(u64, u64),
    /// Takes a key out, and reads its value.
    Remove(u64),
}

/// A response of the map.
#[derive(Clone, Copy, Debug, PartialEq, Eq)]
pub enum MapResp {
    /// The value of the key, before the call.
    Value(u64),
    /// The key had no value before the call.
    Missing,
    /// The value was set.
    Written,
}

/// What is answered of a value.
fn found(value: Option<u64>) -> MapResp
    ensures { result ≡ found value }
{
    match value {
        Some(value) => MapResp::Value(value),
        None => MapResp::Missing,
    }
}

impl SeqObject for Map {
    type State = Entries;

    type Inv = MapInv;

    type Resp = MapResp;

    ghost sequential = { λ _. map_object };

    ghost same_inv = { exact_by_cases _ (elim [
      | Get a ↦ (itself_one a, elim [ Get x ↦ only_one Get a x | _ ↦ other ])
      | Put a b ↦ (itself_two a b, elim [ Put x y ↦ only_two Put a b x y | _ ↦ other ])
      | Insert a b ↦ (itself_two a b, elim [ Insert x y ↦ only_two Insert a b x y | _ ↦ other ])
      | Remove a ↦ (itself_one a, elim [ Remove x ↦ only_one Remove a x | _ ↦ other ])
    ]) };

    ghost same_resp = { exact_by_cases _ (elim [
      | Value a ↦ (itself_one a, elim [ Value x ↦ only_one Value a x | _ ↦ other ])
      | Missing ↦ (refl, elim [ Missing ↦ λ e. refl | _ ↦ other ])
      | Written ↦ (refl, elim [ Written ↦ λ e. refl | _ ↦ other ])
    ]) };

    fn start(&self, alloc: Global) -> Result<Entries, AllocError> {
        Ok(Entries::of(Vec::new(alloc)))
    }

    fn apply(
        &self,
        alloc: Global,
        state: &Entries,
        inv: &MapInv,
    ) -> Result<(Entries, MapResp), AllocError> {
        let entries = state.as_slice();
        match *inv {
            MapInv::Get(key) => Ok((
                Entries::copied(alloc, entries)?,
                found(value_at(entries, key)),
            )),
            MapInv::Put(key, value) => Ok((
                Entries::of(placed(alloc, entries, key, Entry { key, value })?),
                MapResp::Written,
            )),
            MapInv::Insert(key, value) => Ok((
                Entries::of(placed(alloc, entries, key, Entry { key, value })?),
                found(value_at(entries, key)),
            )),
            MapInv::Remove(key) => Ok((
                Entries::of(on_side(alloc, entries, Side::Beside, key)?),
                found(value_at(entries, key)),
            )),
        }
    }

    fn copy_inv(_alloc: Global, inv: &MapInv) -> Result<MapInv, AllocError> {
        Ok(*inv)
    }
}

impl Checkable for Map {
    fn is_same(a: &Entries, b: &Entries) -> bool {
        a.as_slice() == b.as_slice()
    }

    fn key(state: &Entries) -> u64 {
        let mut key = 0;
        for entry in state.as_slice() {
            key = mixed(mixed(key, entry.key), entry.value);
        }
        key
    }

    ghost part = { map_key };

    ghost parts = { λ _. map_by_key };

    fn part_of(inv: &MapInv) -> u64 {
        match inv {
            MapInv::Get(key) | MapInv::Remove(key) => *key,
            MapInv::Put(key, _) | MapInv::Insert(key, _) => *key,
        }
    }

    fn ranks(alloc: Global, history: &[Event<MapInv, MapResp>]) -> Result<Vec<u64>, AllocError> {
        lin_check::by_return(alloc, history)
    }

    fn guess(
        _alloc: Global,
        _history: &[Event<MapInv, MapResp>],
    ) -> Result<Option<Vec<usize>>, AllocError> {
        Ok(None)
    }
}

impl Worded for Map {
    const CALLS: &'static str = "get K, put K V, insert K V, remove K";

    const REPLIES: &'static str = "V, none, ok";

    ghost wording = { map_wording };

    fn read_inv(words: &[&[u8]]) -> Option<MapInv> {
        match words {
            [name, key] if is_text(name, "get") => Some(MapInv::Get(number(key)?)),
            [name, key] if is_text(name, "remove") => Some(MapInv::Remove(number(key)?)),
            [name, key, value] if is_text(name, "put") => {
                Some(MapInv::Put(number(key)?, number(value)?))
            }
            [name, key, value] if is_text(name, "insert") => {
                Some(MapInv::Insert(number(key)?, number(value)?))
            }
            _ => None,
        }
    }

    fn read_resp(words: &[&[u8]]) -> Option<MapResp> {
        match words {
            [word] if is_text(word, "ok") => Some(MapResp::Written),
            [word] if is_text(word, "none") => Some(MapResp::Missing),
            [word] => Some(MapResp::Value(number(word)?)),
            _ => None,
        }
    }

    fn push_inv(text: &mut Vec<u8>, inv: &MapInv) -> Result<(), AllocError> {
        match inv {
            MapInv::Get(key) => push_words(text, "get ", *key),
            MapInv::Put(key, value) => {
                push_words(text, "put ", *key)?;
                push_words(text, " ", *value)
            }
            MapInv::Insert(key, value) => {
                push_words(text, "insert ", *key)?;
                push_words(text, " ", *value)
            }
            MapInv::Remove(key) => push_words(text, "remove ", *key),
        }
    }

    fn push_resp(text: &mut Vec<u8>, resp: MapResp) -> Result<(), AllocError> {
        match resp {
            MapResp::Value(number) => push_number(text, number),
            MapResp::Missing => text.extend_from_slice(b"none"),
            MapResp::Written => text.extend_from_slice(b"ok"),
        }
    }
}
