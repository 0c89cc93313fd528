//! Names.

ghost use Rattle.std.specs.Prelude.{◌≡◌, ◌∷◌, [], IsTrue};
ghost use Rattle.std.proofs.Common.{ap};
ghost use Rattle.std.specs.Cmp.{partial_equiv_from_equiv};
ghost use Rattle.std.specs.Cmp.Lexicographic.{nat_list_eq_equiv, bytes_decides};
ghost use Rattle.std.specs.List.{list_all};
ghost use Rattle.std.specs.Str.{bytes_eq};
ghost use Rattle.ready_objects.specs.Name.{is_name, is_name_byte, name_of_word, drawn_name};

use std::alloc::AllocError;
use std::hash::{Hash, Hasher};
use std::marker::Model;

/// A name: 1 to 16 bytes of `a` to `z` and `0` to `9`.
#[derive(Debug, Drop)]
pub struct Name {
    bytes: [u8; 16],
    len: usize,
}

impl Model for Name {
    ghost use Rattle.std.specs.Prelude.{◌≡◌, ◌≤◌, ℕ, List, take, true};
    ghost use Rattle.ready_objects.specs.Name.{is_name};

    ghost Value = { List ℕ };

    ghost view = { λ name. take name.len name.bytes };

    ghost invariant = { λ name. (name.len ≤ 16) × (is_name (take name.len name.bytes) ≡ true) };
}

impl Name {
    /// Reads a name. `None` where the word isn't 1 to 16 bytes of `a` to `z` and `0` to `9`.
    pub fn read(word: &[u8]) -> Option<Name>
        ensures { result ≡ name_of_word word.now }
    {
        if is_name(word) {
            Some(Name::copy_of(word))
        } else {
            None
        }
    }

    fn copy_of(word: &[u8]) -> Name
        requires { IsTrue (is_name word.now) }
        ensures { result ≡ word.now }
    {
        let mut bytes = [0; 16];
        bytes[..word.len()].copy_from_slice(word);
        Name {
            bytes,
            len: word.len(),
        }
    }

    /// The bytes of the name.
    pub fn as_bytes(&self) -> &[u8]
        ensures bytes { result.now ≡ self.now }
        ensures name { IsTrue (is_name self.now) }
    {
        &self.bytes[..self.len]
    }

    /// The name `n` and the last digit of a number.
    pub(crate) fn drawn(number: u64) -> Name
        ensures { result ≡ drawn_name number }
    {
        Name::copy_of(&[b'n', b'0' + (number % 10) as u8])
    }
}

impl Clone for Name {
    ghost is_clone = { λ name copy. copy ≡ name };

    fn clone(&self) -> Result<Name, AllocError> {
        Ok(Name {
            bytes: self.bytes,
            len: self.len,
        })
    }
}

impl PartialEq for Name {
    ghost eq = { bytes_eq };

    ghost laws = { partial_equiv_from_equiv nat_list_eq_equiv };

    fn eq(&self, other: &Name) -> bool {
        self.as_bytes() == other.as_bytes()
    }
}

impl Eq for Name {
    ghost laws = { nat_list_eq_equiv };
}

impl Hash for Name {
    ghost hash_input = { λ name. name ∷ [] };

    ghost respects_eq = { λ a b same. ap (λ name. name ∷ []) ((bytes_decides a b).0 same) };

    // All bytes in one write, since a copy of a set of names hashes each of them.
    fn hash<H: Hasher>(&self, state: &mut H) {
        state.write(self.as_bytes());
    }
}

/// Tells whether a word is 1 to 16 bytes of `a` to `z` and `0` to `9`.
fn is_name(word: &[u8]) -> bool
    ensures { result ≡ is_name word.now }
{
    !word.is_empty() && word.len() <= 16 && has_name_bytes(word)
}

/// Tells whether each byte is one of `a` to `z` and `0` to `9`.
fn has_name_bytes(word: &[u8]) -> bool
    ensures { result ≡ list_all is_name_byte word.now }
{
    word.iter().all(|byte| is_name_byte(*byte))
}

/// Tells whether a byte is one of `a` to `z` and `0` to `9`.
fn is_name_byte(byte: u8) -> bool
    ensures { result ≡ is_name_byte byte }
{
    (b'a' <= byte && byte <= b'z') || (b'0' <= byte && byte <= b'9')
}
