//! Refusals of a seat's calls.

use thiserror::Error;

/// Why a call has no receipt yet. Where several hold, the one told is the first in the order that
/// `Seat::apply` tells: so `Memory` for the receipt's room, and then `Stranger` of the begin, come
/// before `RowFull`.
#[derive(Clone, Copy, Debug, PartialEq, Eq, Error)]
pub enum ApplyFault {
    /// The seat has a call pending.
    #[error("the seat has a call pending")]
    SeatPending,
    /// Its process has made as many calls in this era as a row has.
    #[error("the process of the seat has made as many calls in this era as a row has")]
    RowFull,
    /// The events of another call may not fit into the history.
    #[error("the events of another call may not fit into the history")]
    HistoryFull,
    /// Memory was refused.
    #[error("out of memory")]
    Memory,
    /// The gate gave up.
    #[error("the gate gave up")]
    GaveUp,
    /// What the world answers doesn't fit the seat.
    #[error("what the world answers doesn't fit the seat")]
    Stranger,
    /// The seat has no call pending.
    #[error("the seat has no call pending")]
    NothingPending,
}
