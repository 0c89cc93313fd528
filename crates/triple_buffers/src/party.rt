//! A party's place.
use crate::rule::BufferSeat;

/// A party's place at the words and buffers: only it writes its buffers for others, and takes from those for it.
#[derive(Drop)]
pub struct Party<T, V> {
    pub(crate) seat: BufferSeat<T, V>,
    pub(crate) number: u64,
    pub(crate) backs: Vec<u64>,
    pub(crate) fronts: Vec<u64>,
}

/// The parties that have no place of their own yet.
#[derive(Drop)]
pub struct Parties<T, V> {
    pub(crate) seat: BufferSeat<T, V>,
    pub(crate) next: u64,
    pub(crate) count: u64,
}
