//! A directory of at most 256 names, in order of insertion.

ghost use Rattle.std.specs.Prelude.{◌≡◌, ◌<◌, ◌++◌, [], ◌∷◌, length, position, IfOk, IfSome};
ghost use Rattle.std.specs.Prelude.{IfNone, OnOk, OnErr, refl};
ghost use Rattle.std.specs.Arc.{arc_value};
ghost use Rattle.std.specs.List.{IsDistinct};
ghost use Rattle.std.specs.Map.{set_value};
ghost use Rattle.std.specs.Str.{bytes_eq};
ghost use Rattle.seq_object.proofs.Cases.{exact_by_cases, other, itself_one, only_one, itself_text, only_text};
ghost use Rattle.seq_object.proofs.Cases.{itself_named, only_named};
ghost use Rattle.ready_objects.specs.SharedNames.{AddsName, named};
ghost use Rattle.ready_objects.specs.declared.directory.DirectoryInv.TheVariants.{Put, Get, Del, Size, At};
ghost use Rattle.ready_objects.specs.declared.directory.DirectoryResp.TheVariants.{Was, New, Full, Found, Absent};
ghost use Rattle.ready_objects.specs.declared.directory.DirectoryResp.TheVariants.{Count};
ghost use Rattle.ready_objects.specs.Directory.{value_of, directory_next, directory, directory_answer};
ghost use Rattle.ready_objects.specs.Directory.{directory_inv_of_words, directory_language, pair_text, pairs_text};

use crate::name::Name;
use crate::number::{Amount, push_number, push_with_number};
use crate::place::Place;
use crate::spoken::{Spoken, is_text, push_gap};
use indexmap::IndexSet;
use seq_object::SeqObject;
use std::alloc::{AllocError, Global};
use std::marker::Model;
use std::sync::Arc;

/// A directory of at most 256 names, in order of insertion. It starts empty.
#[derive(Clone, Copy, Debug)]
pub struct DirectoryObject;

/// The pairs of a directory, in order of insertion.
///
/// States that have the same pairs share them, and nobody changes what is shared.
#[derive(Drop)]
pub struct DirectoryState {
    pairs: Arc<Pairs>,
}

impl Model for DirectoryState {
    ghost use Rattle.std.specs.Prelude.{ℕ, List};
    ghost use Rattle.std.specs.Arc.{arc_value};

    ghost Value = { List (List ℕ × ℕ) };

    ghost view = { λ state. arc_value state.pairs };
}

/// The most names that states share. Where there are so many, they are collected anew from the pairs before
/// one is added.
///
/// A name stays among them when its pair is taken out, so without a limit they would grow for ever.
const MOST_NAMES: usize = 1024;

/// The pairs themselves, which one owner can change.
///
/// The names stand apart, each at its index, and copies share them. So a copy of the pairs is one of a
/// vector of numbers, and no name is compared or hashed.
#[derive(Drop)]
struct Pairs {
    names: Arc<IndexSet<Name>>,
    pairs: Vec<Pair>,
}

impl Model for Pairs {
    ghost use Rattle.std.specs.Prelude.{ℕ, List, map};
    ghost use Rattle.std.specs.Arc.{arc_value};
    ghost use Rattle.ready_objects.specs.SharedNames.{named, AreNamed};

    ghost Value = { List (List ℕ × ℕ) };

    ghost view = { λ pairs. map (named (arc_value pairs.names).keys) pairs.pairs.items };

    ghost invariant = { λ pairs. AreNamed (arc_value pairs.names).keys pairs.pairs.items };
}

/// A pair: the index of its name among the names, and its value.
#[derive(Clone, Copy)]
struct Pair {
    name: usize,
    value: Amount,
}

/// An invocation of the directory.
#[derive(Debug, Drop, PartialEq, Eq)]
pub enum DirectoryInv {
    /// Gives a name a value.
    Put(Name, Amount),
    /// Asks for the value of a name.
    Get(Name),
    /// Takes out a name.
    Del(Name),
    /// Asks for the number of pairs.
    Size,
    /// Asks for the value at a place.
    At(Place),
}

/// A response of the directory.
#[derive(Clone, Copy, Debug, PartialEq, Eq)]
pub enum DirectoryResp {
    /// The name was there, with this value.
    Was(Amount),
    /// The name is new, and its pair went last.
    New,
    /// There are 256 names and this isn't one of them, and the directory stays as it is.
    Full,
    /// The value.
    Found(Amount),
    /// There is no such name, or no such place.
    Absent,
    /// The number of pairs.
    Count(u64),
}

impl DirectoryState {
    /// A state of its own, with these pairs.
    fn own(alloc: Global, pairs: Pairs) -> Result<DirectoryState, AllocError>
        ensures { IfOk result (λ state. state ≡ pairs) }
    {
        Ok(DirectoryState {
            pairs: Arc::new(alloc, pairs)?,
        })
    }

    /// The same state, which shares the pairs.
    fn share(&self) -> Result<DirectoryState, AllocError>
        ensures { IfOk result (λ state. state ≡ self.now) }
    {
        Ok(DirectoryState {
            pairs: Arc::try_clone(&self.pairs)?,
        })
    }
}

impl Pairs {
    /// No pairs.
    fn new(alloc: Global) -> Result<Pairs, AllocError>
        ensures { IfOk result (λ pairs. pairs ≡ []) }
    {
        Ok(Pairs {
            names: Arc::new(alloc, IndexSet::new(alloc))?,
            pairs: Vec::new(alloc),
        })
    }

    /// A copy of the pairs, which shares their names and has room for one more pair.
    fn copy(&self) -> Result<Pairs, AllocError>
        ensures { IfOk result (λ copy. copy ≡ self.now) }
    {
        let mut pairs = Vec::with_capacity(*self.pairs.allocator(), self.pairs.len() + 1)?;
        pairs.extend_from_slice(&self.pairs)?;
        Ok(Pairs {
            names: Arc::try_clone(&self.names)?,
            pairs,
        })
    }

    /// The place of a name.
    fn place(&self, name: &Name) -> Option<usize>
        ensures place { result ≡ position (λ pair. bytes_eq name.now pair.0) self.now }
        ensures within { IfSome result (λ place. place < length self.now) }
    {
        let index = self.names.get_index_of(name)?;
        self.pairs.iter().position(|pair| pair.name == index)
    }

    /// Gives a name a value.
    fn put(
        &mut self,
        alloc: Global,
        name: &Name,
        value: Amount,
    ) -> Result<DirectoryResp, AllocError>
        ensures pairs { OnOk result (self.new ≡ directory_next self.old (DirectoryInv.Put name.now value)) }
        ensures response { IfOk result (λ resp. resp ≡ directory_answer self.old (DirectoryInv.Put name.now value)) }
        ensures err { OnErr result (self.new ≡ self.old) }
    {
        if let Some(before) = self.replace(name, value) {
            return Ok(DirectoryResp::Was(before));
        }
        if self.pairs.len() >= 256 {
            return Ok(DirectoryResp::Full);
        }
        self.push(alloc, name, value)?;
        Ok(DirectoryResp::New)
    }

    /// Writes the value of a name that is there, and returns the value before.
    fn replace(&mut self, name: &Name, value: Amount) -> Option<Amount>
        ensures pairs { self.new ≡ set_value (bytes_eq name.now) self.old value }
        ensures before { result ≡ value_of self.old name.now }
        ensures absent { IfNone result (self.new ≡ self.old) }
    {
        let place = self.place(name)?;
        let pair = &mut self.pairs[place];
        let before = pair.value;
        pair.value = value;
        Some(before)
    }

    /// Puts a pair last.
    fn push(&mut self, alloc: Global, name: &Name, value: Amount) -> Result<(), AllocError>
        ensures pairs { OnOk result (self.new ≡ self.old ++ (name.now, value) ∷ []) }
        ensures err { OnErr result (self.new ≡ self.old) }
    {
        self.limit_names(alloc)?;
        let (names, name) = names_with(alloc, &self.names, name)?;
        self.pairs.push(Pair { name, value })?;
        self.names = names;
        Ok(())
    }

    /// Where states share as many names as they may, keeps only those of the pairs.
    fn limit_names(&mut self, alloc: Global) -> Result<(), AllocError>
        ensures { self.new ≡ self.old }
    {
        if self.names.len() >= MOST_NAMES {
            *self = self.collected(alloc)?;
        }
        Ok(())
    }

    /// The same pairs with a new set of names, which are theirs alone.
    fn collected(&self, alloc: Global) -> Result<Pairs, AllocError>
        ensures { IfOk result (λ pairs. pairs ≡ self.now) }
    {
        let mut names = IndexSet::new(alloc);
        let mut pairs = Vec::new(alloc);
        for pair in &self.pairs {
            let name = add_name(&mut names, &self.names[pair.name])?;
            pairs.push(Pair {
                name,
                value: pair.value,
            })?;
        }
        Ok(Pairs {
            names: Arc::new(alloc, names)?,
            pairs,
        })
    }

    /// Takes out a name.
    fn del(&mut self, name: &Name) -> DirectoryResp
        ensures pairs { self.new ≡ directory_next self.old (DirectoryInv.Del name.now) }
        ensures response { result ≡ directory_answer self.old (DirectoryInv.Del name.now) }
    {
        match self.place(name) {
            Some(place) => DirectoryResp::Found(self.pairs.remove(place).value),
            None => DirectoryResp::Absent,
        }
    }

    /// The value of a name.
    fn get(&self, name: &Name) -> DirectoryResp
        ensures { result ≡ directory_answer self.now (DirectoryInv.Get name.now) }
    {
        match self.place(name) {
            Some(place) => DirectoryResp::Found(self.pairs[place].value),
            None => DirectoryResp::Absent,
        }
    }

    /// The number of pairs.
    fn size(&self) -> DirectoryResp
        ensures { result ≡ directory_answer self.now DirectoryInv.Size }
    {
        DirectoryResp::Count(self.pairs.len() as u64)
    }

    /// The value at a place.
    fn at(&self, place: Place) -> DirectoryResp
        ensures { result ≡ directory_answer self.now (DirectoryInv.At place) }
    {
        match self.pairs.get(place.number()) {
            Some(pair) => DirectoryResp::Found(pair.value),
            None => DirectoryResp::Absent,
        }
    }
}

impl Pairs {
    /// Writes the pairs after a text, as `{a:1 b:2}`.
    fn push_text(&self, text: &mut Vec<u8>) -> Result<(), AllocError>
        ensures { OnOk result (text.new.items ≡ text.old.items ++ pairs_text self.now) }
    {
        text.push(b'{')?;
        for (place, pair) in self.pairs.iter().enumerate() {
            push_gap(text, place)?;
            push_pair(text, &self.names, *pair)?;
        }
        text.push(b'}')?;
        Ok(())
    }
}

impl SeqObject for DirectoryObject {
    type State = DirectoryState;

    type Inv = DirectoryInv;

    type Resp = DirectoryResp;

    ghost sequential = { λ _. directory };

    fn start(&self, alloc: Global) -> Result<DirectoryState, AllocError> {
        DirectoryState::own(alloc, Pairs::new(alloc)?)
    }

    fn apply(
        &self,
        alloc: Global,
        state: &DirectoryState,
        inv: &DirectoryInv,
    ) -> Result<(DirectoryState, DirectoryResp), AllocError> {
        match inv {
            DirectoryInv::Put(name, value) => {
                let mut next = state.pairs.copy()?;
                let resp = next.put(alloc, name, *value)?;
                Ok((DirectoryState::own(alloc, next)?, resp))
            }
            DirectoryInv::Get(name) => Ok((state.share()?, state.pairs.get(name))),
            DirectoryInv::Del(name) => {
                let mut next = state.pairs.copy()?;
                let resp = next.del(name);
                Ok((DirectoryState::own(alloc, next)?, resp))
            }
            DirectoryInv::Size => Ok((state.share()?, state.pairs.size())),
            DirectoryInv::At(place) => Ok((state.share()?, state.pairs.at(*place))),
        }
    }

    fn copy_inv(_alloc: Global, inv: &DirectoryInv) -> Result<DirectoryInv, AllocError> {
        Ok(match inv {
            DirectoryInv::Put(name, value) => DirectoryInv::Put(name.clone()?, *value),
            DirectoryInv::Get(name) => DirectoryInv::Get(name.clone()?),
            DirectoryInv::Del(name) => DirectoryInv::Del(name.clone()?),
            DirectoryInv::Size => DirectoryInv::Size,
            DirectoryInv::At(place) => DirectoryInv::At(*place),
        })
    }

    ghost same_inv = { exact_by_cases _ (elim [
      | Put a v ↦ (itself_named a v, elim [ Put b w ↦ only_named Put a v b w | _ ↦ other ])
      | Get a ↦ (itself_text a, elim [ Get b ↦ only_text Get a b | _ ↦ other ])
      | Del a ↦ (itself_text a, elim [ Del b ↦ only_text Del a b | _ ↦ other ])
      | Size ↦ (refl, elim [ Size ↦ λ e. refl | _ ↦ other ])
      | At a ↦ (itself_one a, elim [ At x ↦ only_one At a x | _ ↦ other ])
    ]) };

    ghost same_resp = { exact_by_cases _ (elim [
      | Was a ↦ (itself_one a, elim [ Was x ↦ only_one Was a x | _ ↦ other ])
      | New ↦ (refl, elim [ New ↦ λ e. refl | _ ↦ other ])
      | Full ↦ (refl, elim [ Full ↦ λ e. refl | _ ↦ other ])
      | Found a ↦ (itself_one a, elim [ Found x ↦ only_one Found a x | _ ↦ other ])
      | Absent ↦ (refl, elim [ Absent ↦ λ e. refl | _ ↦ other ])
      | Count a ↦ (itself_one a, elim [ Count x ↦ only_one Count a x | _ ↦ other ])
    ]) };
}

impl Spoken for DirectoryObject {
    ghost language = { directory_language };

    ghost state_text = { pairs_text };

    fn read_inv(words: &[&[u8]]) -> Option<DirectoryInv> {
        match words {
            [operation] if is_text(operation, "size") => Some(DirectoryInv::Size),
            [operation, word] => read_at(operation, word),
            [operation, name, value] if is_text(operation, "put") => {
                Some(DirectoryInv::Put(Name::read(name)?, Amount::read(value)?))
            }
            _ => None,
        }
    }

    fn push_inv(text: &mut Vec<u8>, inv: &DirectoryInv) -> Result<(), AllocError> {
        match inv {
            DirectoryInv::Put(name, value) => {
                push_named(text, b"put ", name)?;
                push_with_number(text, b" ", value.number())
            }
            DirectoryInv::Get(name) => push_named(text, b"get ", name),
            DirectoryInv::Del(name) => push_named(text, b"del ", name),
            DirectoryInv::Size => text.extend_from_slice(b"size"),
            DirectoryInv::At(place) => push_with_number(text, b"at ", place.number() as u64),
        }
    }

    fn push_resp(text: &mut Vec<u8>, resp: DirectoryResp) -> Result<(), AllocError> {
        match resp {
            DirectoryResp::Was(value) => push_with_number(text, b"was ", value.number()),
            DirectoryResp::New => text.extend_from_slice(b"new"),
            DirectoryResp::Full => text.extend_from_slice(b"full"),
            DirectoryResp::Found(value) => push_number(text, value.number()),
            DirectoryResp::Absent => text.extend_from_slice(b"none"),
            DirectoryResp::Count(count) => push_number(text, count),
        }
    }

    fn push_state(text: &mut Vec<u8>, state: &DirectoryState) -> Result<(), AllocError> {
        state.pairs.push_text(text)
    }

    fn drawn(word: u64) -> DirectoryInv {
        match word % 8 {
            0..=2 => DirectoryInv::Put(Name::drawn(word / 8), Amount::below_thousand(word / 80)),
            3 | 4 => DirectoryInv::Get(Name::drawn(word / 8)),
            5 => DirectoryInv::Del(Name::drawn(word / 8)),
            6 => DirectoryInv::Size,
            _ => DirectoryInv::At(Place::below_ten(word / 8)),
        }
    }

    fn reads_back(inv: &DirectoryInv) {
        match inv {
            DirectoryInv::Put(name, value) => {
                let _ = name.as_bytes();
                let _ = value.number();
            }
            DirectoryInv::Get(name) => {
                let _ = name.as_bytes();
            }
            DirectoryInv::Del(name) => {
                let _ = name.as_bytes();
            }
            DirectoryInv::Size => {}
            DirectoryInv::At(place) => {
                let _ = place.number();
            }
        }
    }
}

/// The names with this one among them, and its index.
fn names_with(
    alloc: Global,
    names: &Arc<IndexSet<Name>>,
    name: &Name,
) -> Result<(Arc<IndexSet<Name>>, usize), AllocError>
    requires { IsDistinct bytes_eq (arc_value names.now).keys }
    ensures { IfOk result (λ r. AddsName (arc_value names.now).keys (arc_value r.0).keys name.now r.1) }
{
    let shared: &IndexSet<Name> = names;
    if let Some(index) = shared.get_index_of(name) {
        return Ok((Arc::try_clone(names)?, index));
    }
    let mut longer = shared.clone()?;
    let index = add_name(&mut longer, name)?;
    Ok((Arc::new(alloc, longer)?, index))
}

/// Adds a name where it isn't there, and returns its index.
fn add_name(names: &mut IndexSet<Name>, name: &Name) -> Result<usize, AllocError>
    ensures { IfOk result (λ index. AddsName names.old.keys names.new.keys name.now index) }
{
    let (index, _) = names.insert_full(name.clone()?)?;
    Ok(index)
}

/// Writes a pair after a text: its name, a colon and its value.
fn push_pair(text: &mut Vec<u8>, names: &IndexSet<Name>, pair: Pair) -> Result<(), AllocError>
    requires { pair.name < length names.now.keys }
    ensures { OnOk result (text.new.items ≡ text.old.items ++ pair_text (named names.now.keys pair)) }
{
    text.extend_from_slice(names[pair.name].as_bytes())?;
    push_with_number(text, b":", pair.value.number())
}

/// Reads an invocation of two words.
fn read_at(operation: &[u8], word: &[u8]) -> Option<DirectoryInv>
    ensures { result ≡ directory_inv_of_words (operation.now ∷ word.now ∷ []) }
{
    if is_text(operation, "get") {
        Some(DirectoryInv::Get(Name::read(word)?))
    } else if is_text(operation, "del") {
        Some(DirectoryInv::Del(Name::read(word)?))
    } else if is_text(operation, "at") {
        Some(DirectoryInv::At(Place::read(word)?))
    } else {
        None
    }
}

/// Writes an operation and a name after a text.
fn push_named(text: &mut Vec<u8>, operation: &[u8], name: &Name) -> Result<(), AllocError>
    ensures { OnOk result (text.new.items ≡ text.old.items ++ operation.now ++ name.now) }
{
    text.extend_from_slice(operation)?;
    text.extend_from_slice(name.as_bytes())
}
