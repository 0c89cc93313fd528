//! Asking about a call, and taking in a seat: what a seat's later calls come after.
ghost use Rattle.std.specs.Prelude.{◌≡◌, ◌+◌, ◌++◌, ◌∷◌, [], true, false};
ghost use Rattle.uni_words.specs.Belongs.{IsCallOf, IsSeatOf, KnowsCall, calls_made, calls_of, known_calls};
ghost use Rattle.uni_words.specs.Belongs.{logged_calls, seen_by, taken_calls, view_of, word_steps_of};
ghost use Rattle.uni_words.specs.View.{seen_of, up_to};

use crate::log::WordLog;
use crate::object::WordObject;
use crate::rule::{Asks, TakesIn};
use crate::seat::WordSeat;
use seq_object::CallId;

impl WordSeat {
    /// Asks whether a call stands in the log: one load of its number. A call that has returned has one. Of the calls
    /// that the seat made or took in, `known` says that the answer is `true`. Of others the law `returned_is_there`
    /// says that they have a number, and no clause of this call that it is found: that whoever was told by other means
    /// that a call returned is answered `true` is argued by hand.
    ///
    /// `true` says that it stands there, with all that its process made before it, and that all later calls of this
    /// seat come after it: the seat has seen it (`there`), and closing says so (`seen`, `order`) where this seat is
    /// handed in or was taken in. `false` says nothing, and changes nothing but the number of word steps. A call that
    /// the log has no room for is answered `false` without a load.
    pub fn follows<O: WordObject>(&mut self, log: &WordLog<O>, call: CallId) -> bool
        requires seat { IsSeatOf log.now self.old }
        ensures kept { IsSeatOf log.now self.new × (calls_of self.new ≡ calls_of self.old) }
        ensures outside { ¬ IsCallOf log.now call → (result ≡ false) × (self.new ≡ self.old) }
        ensures steps { IsCallOf log.now call → word_steps_of self.new ≡ word_steps_of self.old + 1 }
        ensures there { result ≡ true →
            seen_by self.new ≡ seen_by self.old ++ seen_of (calls_of self.old) (up_to call ∷ []) }
        ensures unknown { result ≡ false → seen_by self.new ≡ seen_by self.old }
        ensures known { IsCallOf log.now call → KnowsCall self.old call → result ≡ true }
        ensures rest { view_of self.new ≡ record (view_of self.old) {
          word_steps = word_steps_of self.new;
          seen = seen_by self.new;
        } }
    {
        let process = call.process as u64;
        if process >= self.n || call.nth >= self.k {
            return false;
        }
        let word = log.seq_word(log.cell(process, call.nth));
        log.table.shared.load::<Asks>(&mut self.seat, word) != 0
    }

    /// Takes in another seat of this log: this seat knows its calls then, and has seen what it saw. All later calls of
    /// this seat come after the other's own, and after all that the other comes after (`seen`); closing says so where
    /// this seat is handed in or was taken in. It costs one load (in no clause), which the seat doesn't count among its
    /// word steps (`rest`).
    pub fn take_in<O: WordObject>(&mut self, log: &WordLog<O>, other: WordSeat)
        requires seats { IsSeatOf log.now self.old × IsSeatOf log.now other }
        ensures kept { IsSeatOf log.now self.new × (calls_of self.new ≡ calls_of self.old) }
        ensures made { calls_made self.new ≡ calls_made self.old }
        ensures known { known_calls self.new ≡ known_calls self.old ++ known_calls other }
        ensures seen { seen_by self.new
            ≡ seen_by self.old ++ (seen_by other ++ seen_of (calls_of self.old) (logged_calls other)) }
        ensures rest { view_of self.new ≡ record (view_of self.old) {
          taken = taken_calls self.new;
          seen = seen_by self.new;
        } }
    {
        let WordSeat { seat, .. } = other;
        log.table.shared.join_seat::<TakesIn>(&mut self.seat, seat);
    }
}
