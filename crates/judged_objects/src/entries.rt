//! Entries of a map as a state.

ghost use Rattle.std.specs.Prelude.{◌≡◌};
ghost use Rattle.judged_objects.specs.Map.{value_at};

use crate::items::Items;
use crate::sorted::Keyed;

/// A key with its value.
#[derive(Clone, Copy, Debug, PartialEq, Eq)]
pub struct Entry {
    /// The key.
    pub key: u64,
    /// Its value.
    pub value: u64,
}

/// Entries of a map, in rising order of their keys.
pub type Entries = Items<Entry>;

impl Keyed for Entry {
    ghost key_of = { λ entry. entry.key };

    fn key(&self) -> u64 {
        self.key
    }
}

/// The value of a key.
pub(crate) fn value_at(entries: &[Entry], key: u64) -> Option<u64>
    ensures { result ≡ value_at entries.now key }
{
    for entry in entries {
        if entry.key == key {
            return Some(entry.value);
        }
    }
    None
}
