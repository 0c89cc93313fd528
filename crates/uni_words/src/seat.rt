//! Seats.
ghost use Rattle.uni_words.specs.Standing.{IsIdle};

use crate::view::View;
use atomic_table::Seat;

/// A seat: the handle for the calls of one process.
#[derive(Drop)]
pub struct WordSeat {
    pub(crate) seat: Seat<u8, View>,
    pub(crate) n: u64,
    pub(crate) k: u64,
    pub(crate) p: u64,
    pub(crate) made: u64,
    pub ghost idle: { IsIdle n k p made seat.me },
}
