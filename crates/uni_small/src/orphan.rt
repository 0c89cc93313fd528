//! Seats without an owner.
ghost use Rattle.std.specs.Prelude.{true, false, ◌≡◌, ◌+◌, ◌≤◌, [], length};
ghost use Rattle.uni_small.specs.Plays.{TellsCall};

use crate::seat::{Seen, SmallSeat};
use crate::view::View;
use atomic_table::Seat;

/// A seat that has no owner: its owner has left it, or has stopped for good. Where it stopped isn't known: at any step
/// of a call that was announced, between calls, or in a direct attempt that hasn't taken effect (but in no direct call
/// that has: the field `told`). In Rattle only `leave` makes an orphan, between calls; that a seat whose owner died is
/// one is what the caller across processes answers for.
#[derive(Drop)]
pub struct SmallOrphan<O> {
    pub(crate) seat: Seat<Seen, View<O>>,
    pub(crate) p: u64,
    pub ghost stands: { (seat.me.0.known.first ≡ p) × (seat.me.0.known.count ≡ 1) × (seat.me.1 ≡ []) },
    pub ghost told: { TellsCall seat.me.0.known.local },
}

impl<O> SmallSeat<O> {
    ghost use Rattle.uni_small.specs.Belongs.{IsSeatOf, own_calls, process_of, word_steps_of};
    ghost use Rattle.uni_small.specs.Orphans.{IsInCall, IsOrphanOf, calls_before, orphan_process, orphan_steps};
    ghost use Rattle.uni_small.specs.declared.log.SmallShared.{SmallShared};

    /// Leaves the seat: whoever has the orphan can take it over. Its calls and its count of steps stay; of the version
    /// that it followed, and of the seats that it had taken in, no clause tells any more.
    pub fn leave(self) -> SmallOrphan<O>
        ensures orphan { (shared : SmallShared O) → IsSeatOf shared self → IsOrphanOf shared result }
        ensures process { orphan_process result ≡ process_of self }
        ensures calls { calls_before result ≡ own_calls self }
        ensures steps { orphan_steps result ≡ word_steps_of self }
        ensures between { IsInCall result → ⊥ }
    {
        let SmallSeat { seat, p, .. } = self;
        SmallOrphan { seat, p }
    }
}
