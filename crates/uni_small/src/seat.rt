//! Seats.
ghost use Rattle.std.specs.Prelude.{[], false, ◌≡◌, ◌≤◌, length};
ghost use Rattle.uni_small.specs.View.Stage.{Idle};
ghost use Rattle.uni_small.specs.Invariant.{most_calls};

use crate::span::Span;
use crate::touched::Changes;
use crate::view::View;
use atomic_table::Seat;

/// What is seen of a process: whether it has a call to apply, and room for the words of its invocation.
#[derive(Drop)]
pub struct Seen {
    pub due: bool,
    pub invocation: Vec<u64>,
}

/// A process's copy of a buffer, with the replies one after another, and what it has seen of each process.
#[derive(Drop)]
pub(crate) struct Room {
    /// Which of its own buffers the process knows to have the words of the copy: 0 or 1, or 2 for neither.
    pub of: u64,
    pub applied: Vec<u64>,
    pub reply: Vec<u64>,
    pub state: Vec<u64>,
    pub seen: Vec<Seen>,
    /// Of these processes alone a call to apply has been seen.
    pub busy: Span,
    /// Room for the words of the state that a read changes, and puts back.
    pub saved: Vec<u64>,
}

/// What the two buffers of a process hold, one after the other, which only the process writes, and which one
/// is its spare one: 0 or 1.
#[derive(Drop)]
pub(crate) struct Buffers {
    pub spare: u64,
    pub held: Vec<u64>,
    /// In what the two may differ.
    pub apart: Changes,
}

/// A seat: the handle for the calls of one process.
#[derive(Drop)]
pub struct SmallSeat<O> {
    pub(crate) seat: Seat<Seen, View<O>>,
    pub(crate) p: u64,
    pub(crate) made: u64,
    pub(crate) own: Buffers,
    pub(crate) room: Room,
    /// The version whose state is in the room, which the seat has read and hasn't called since.
    pub(crate) read: Option<u64>,
    pub ghost stands: { (seat.me.0.known.first ≡ p) × (seat.me.0.known.count ≡ 1) × (seat.me.1 ≡ []) },
    pub ghost idle: { seat.me.0.known.local.stage ≡ Idle [] },
    pub ghost untried: { seat.me.0.known.local.direct ≡ false },
    pub ghost counted: { (length seat.me.0.known.local.own ≡ made) × (made ≤ most_calls) },
}

impl<O> SmallSeat<O> {
    ghost use Rattle.uni_small.specs.Belongs.{calls_made, own_calls};

    /// How many calls of the seat have returned.
    pub fn made(&self) -> u64
        ensures { (result ≡ calls_made self.now) × (result ≡ length (own_calls self.now)) }
    {
        self.made
    }
}
