//! A map from texts to numbers in parts, as an example of a large state of which a call copies little.
#![tactic(auto)]

mod text;

ghost use Rattle.std.specs.Prelude.{◌≡◌, ◌++◌, ◌∷◌, ◌<◌, [], IfOk, IfSome, length, position, refl};
ghost use Rattle.std.specs.Prelude.{None, Some, slice_set};
ghost use Rattle.std.specs.Map.{lookup, remove_entry};
ghost use Rattle.std.specs.Str.{bytes_eq};
ghost use Rattle.seq_object.proofs.Cases.{exact_by_cases, itself_named, itself_one, itself_text, only_named, only_one};
ghost use Rattle.seq_object.proofs.Cases.{only_text, other};
ghost use Rattle.parted_map.specs.PartedMap.{number_in, part_of, parted_map, put};
ghost use Rattle.parted_map.specs.declared.MapInv.TheVariants.{Get, Insert, Remove};

use seq_object::SeqObject;
use std::alloc::{AllocError, Global};
use std::marker::Model;
use std::sync::Arc;
pub use text::Text;

/// How many parts there are.
const PARTS: usize = 32;

/// A map from texts to numbers, in 32 parts. It starts empty.
#[derive(Clone, Copy, Debug)]
pub struct PartedMap;

/// The parts of a map. States that have a part in common share it, and nobody changes what is shared.
#[derive(Drop)]
pub struct MapState {
    parts: Arc<Vec<Arc<Part>>>,
}

impl Model for MapState {
    ghost use Rattle.std.specs.Prelude.{◌≡◌, ℕ, List, length, map};
    ghost use Rattle.std.specs.Arc.{arc_value};

    ghost Value = { List (List (List ℕ × ℕ)) };

    ghost view = { λ state. map arc_value (arc_value state.parts).items };

    ghost invariant = { λ state. length (arc_value state.parts).items ≡ 32 };
}

/// A part: its pairs, in order of insertion.
#[derive(Drop)]
struct Part {
    pairs: Vec<Pair>,
}

impl Model for Part {
    ghost use Rattle.std.specs.Prelude.{ℕ, List};

    ghost Value = { List (List ℕ × ℕ) };

    ghost view = { λ part. part.pairs.items };
}

/// A text and its number.
#[derive(Drop)]
struct Pair {
    text: Text,
    number: u64,
}

impl Model for Pair {
    ghost use Rattle.std.specs.Prelude.{ℕ, List};

    ghost Value = { List ℕ × ℕ };

    ghost view = { λ pair. (pair.text, pair.number) };
}

impl Clone for Pair {
    ghost is_clone = { λ pair copy. copy ≡ pair };

    fn clone(&self) -> Result<Pair, AllocError> {
        Ok(Pair {
            text: self.text.clone()?,
            number: self.number,
        })
    }
}

/// An invocation of the map. Each is answered with the number that its text had, if it had one.
#[derive(Drop, PartialEq, Eq)]
pub enum MapInv {
    /// Asks for the number of a text.
    Get(Text),
    /// Gives a text a number.
    Insert(Text, u64),
    /// Takes a text out.
    Remove(Text),
}

/// The part that a text is in.
fn part_of(text: &Text) -> usize
    ensures value { result ≡ part_of text.now }
    ensures inside { result < 32 }
{
    let bytes = text.as_bytes();
    let mut sum = 0;
    for byte in bytes {
        sum = (sum * 5 + usize::from(*byte)) % PARTS;
    }
    sum
}

impl Part {
    /// The place of a text.
    fn place(&self, text: &Text) -> Option<usize>
        ensures place { result ≡ position (λ pair. bytes_eq text.now pair.0) self.now }
        ensures within { IfSome result (λ place. place < length self.now) }
    {
        self.pairs.iter().position(|pair| *text == pair.text)
    }

    /// The number of a text.
    fn number_of(&self, text: &Text) -> Option<u64>
        ensures { result ≡ lookup (bytes_eq text.now) self.now }
    {
        match self.place(text) {
            Some(place) => Some(self.pairs[place].number),
            None => None,
        }
    }

    /// A copy in which a text has this number.
    fn with(&self, text: &Text, number: u64) -> Result<Part, AllocError>
        ensures { IfOk result (λ part. part ≡ put self.now text.now number) }
    {
        let mut pairs = self.pairs.clone()?;
        match self.place(text) {
            Some(place) => pairs[place].number = number,
            None => pairs.push(Pair {
                text: text.clone()?,
                number,
            })?,
        }
        Ok(Part { pairs })
    }

    /// A copy without a text.
    fn without(&self, text: &Text) -> Result<Part, AllocError>
        ensures { IfOk result (λ part. part ≡ remove_entry (bytes_eq text.now) self.now) }
    {
        let mut pairs = self.pairs.clone()?;
        if let Some(place) = self.place(text) {
            pairs.remove(place);
        }
        Ok(Part { pairs })
    }
}

impl MapState {
    /// The number of a text, if it has one.
    pub fn number_of(&self, text: &Text) -> Option<u64>
        ensures { result ≡ number_in self.now text.now }
    {
        self.parts[part_of(text)].number_of(text)
    }

    /// The same state, which shares all parts.
    fn share(&self) -> Result<MapState, AllocError>
        ensures { IfOk result (λ state. state ≡ self.now) }
    {
        Ok(MapState {
            parts: Arc::try_clone(&self.parts)?,
        })
    }

    /// The state with another part at this place, which shares the others.
    fn with_part(&self, alloc: Global, at: usize, part: Part) -> Result<MapState, AllocError>
        requires { at < 32 }
        ensures { IfOk result (λ state. state ≡ slice_set self.now at part) }
    {
        let mut parts: Vec<Arc<Part>> = (*self.parts).clone()?;
        parts[at] = Arc::new(alloc, part)?;
        Ok(MapState {
            parts: Arc::new(alloc, parts)?,
        })
    }
}

impl SeqObject for PartedMap {
    type State = MapState;

    type Inv = MapInv;

    type Resp = Option<u64>;

    ghost sequential = { λ _. parted_map };

    fn start(&self, alloc: Global) -> Result<MapState, AllocError> {
        let mut parts = Vec::new(alloc);
        for _ in 0..PARTS {
            let pairs = Vec::new(alloc);
            parts.push(Arc::new(alloc, Part { pairs })?)?;
        }
        Ok(MapState {
            parts: Arc::new(alloc, parts)?,
        })
    }

    fn apply(
        &self,
        alloc: Global,
        state: &MapState,
        inv: &MapInv,
    ) -> Result<(MapState, Option<u64>), AllocError> {
        match inv {
            MapInv::Get(text) => Ok((state.share()?, state.number_of(text))),
            MapInv::Insert(text, number) => {
                let at = part_of(text);
                let next = state.parts[at].with(text, *number)?;
                Ok((state.with_part(alloc, at, next)?, state.number_of(text)))
            }
            MapInv::Remove(text) => {
                let at = part_of(text);
                let next = state.parts[at].without(text)?;
                Ok((state.with_part(alloc, at, next)?, state.number_of(text)))
            }
        }
    }

    fn copy_inv(_alloc: Global, inv: &MapInv) -> Result<MapInv, AllocError> {
        Ok(match inv {
            MapInv::Get(text) => MapInv::Get(text.clone()?),
            MapInv::Insert(text, number) => MapInv::Insert(text.clone()?, *number),
            MapInv::Remove(text) => MapInv::Remove(text.clone()?),
        })
    }

    ghost same_inv = { exact_by_cases _ (elim [
      | Get a ↦ (itself_text a, elim [ Get b ↦ only_text Get a b | _ ↦ other ])
      | Insert a v ↦ (itself_named a v, elim [ Insert b w ↦ only_named Insert a v b w | _ ↦ other ])
      | Remove a ↦ (itself_text a, elim [ Remove b ↦ only_text Remove a b | _ ↦ other ])
    ]) };

    ghost same_resp = { exact_by_cases _ (elim [
      | Some a ↦ (itself_one a, elim [ Some x ↦ only_one Some a x | None ↦ other ])
      | None ↦ (refl, elim [ None ↦ λ e. refl | Some x ↦ other ])
    ]) };
}
