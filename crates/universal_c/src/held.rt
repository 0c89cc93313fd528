//! What a handle holds: a log with its seats, a seat, the entries of a closed log, or a small object.
ghost use Rattle.std.specs.Prelude.{◌≡◌, ◌≢◌, ◌⊎◌, false, length, true, vec_len};
ghost use Rattle.uni_small.specs.Belongs.{AreFirstSeats as AreFirstPlaces, IsSeatOf as IsPlaceOf};
ghost use Rattle.uni_small.specs.Belongs.{invocation_width_of, reply_width_of};
ghost use Rattle.uni_small.specs.Orphans.{IsOrphanOf};
ghost use Rattle.uni_words.specs.Belongs.{AreFirstSeats, IsSeatOf};

use crate::object::Object;
use crate::small_kind::SmallKind;
use std::sync::Arc;
use uni_small::{SmallOrphan, SmallSeat, SmallShared};
use uni_words::{WordEntry, WordLog, WordSeat, Words};

/// A log, with its seats that are still to be given out, the last one first.
#[derive(Drop)]
pub struct Opened {
    pub(crate) log: Arc<WordLog<Object>>,
    pub(crate) seats: Vec<WordSeat>,
    pub ghost fit: { AreFirstSeats log.value (vec_len seats) seats.items },
}

/// A seat, with the log that it is one of.
#[derive(Drop)]
pub struct Seated {
    pub(crate) log: Arc<WordLog<Object>>,
    pub(crate) seat: WordSeat,
    pub ghost fits: { IsSeatOf log.value seat },
}

/// A small object, with its seats that are still to be given out, the last one first.
#[derive(Drop)]
pub struct SmallOpened {
    pub(crate) shared: Arc<SmallShared<SmallKind>>,
    pub(crate) seats: Vec<SmallSeat<SmallKind>>,
    pub ghost fit: { AreFirstPlaces shared.value (vec_len seats) seats.items },
}

/// A seat, with the small object that it is one of.
#[derive(Drop)]
pub struct SmallPlace {
    pub(crate) shared: Arc<SmallShared<SmallKind>>,
    pub(crate) seat: SmallSeat<SmallKind>,
    pub ghost fits: { IsPlaceOf shared.value seat },
}

/// A seat that has no owner, with the small object that it is one of.
#[derive(Drop)]
pub struct SmallLeft {
    pub(crate) shared: Arc<SmallShared<SmallKind>>,
    pub(crate) orphan: SmallOrphan<SmallKind>,
    pub ghost fits: { IsOrphanOf shared.value orphan },
}

/// What a handle holds.
#[derive(Drop)]
pub enum Held {
    /// A log, with the seats that are left.
    Log(Opened),
    /// A seat.
    Seat(Seated),
    /// A log that was closed, whose calls are still to be read.
    Closed(Words),
    /// The calls of a log that was closed, in order.
    Entries(Vec<WordEntry>),
    /// A small object, with the seats that are left.
    Small(SmallOpened),
    /// A seat of a small object.
    Place(SmallPlace),
    /// A seat of a small object without an owner.
    Left(SmallLeft),
    /// Nothing.
    Nothing,
}

impl SmallPlace {
    /// Whether an invocation and a reply have as many words as those of the object.
    pub(crate) fn has_widths(&self, invocation: &[u64], reply: &[u64]) -> bool
        ensures has { result ≡ true → (length invocation.now ≡ invocation_width_of self.now.shared.value)
            × (length reply.now ≡ reply_width_of self.now.shared.value) }
        ensures other { result ≡ false → (length invocation.now ≢ invocation_width_of self.now.shared.value)
            ⊎ (length reply.now ≢ reply_width_of self.now.shared.value) }
    {
        invocation.len() as u64 == self.shared.invocation_width()
            && reply.len() as u64 == self.shared.reply_width()
    }
}
