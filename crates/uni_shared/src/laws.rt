//! What is promised of every order in which threads hold the lock: the contract of a function with an empty body.
ghost use Rattle.std.specs.Prelude.{ℕ, ◌≤◌, List, Option};
ghost use Rattle.uni_model.specs.Universal.{IsUniversal};
ghost use Rattle.uni_model.specs.Worlds.{AreAccepted, Event, opened_world};
ghost use Rattle.uni_shared.specs.Holds.{AreHolds, stored};

use seq_object::SeqObject;

/// Whatever threads do under the lock, in whatever order they get it: where each hold stores one event that is
/// accepted then, or none, as `begin_held`, `step_held` and `trim_held` do, the events in the order of the holds are
/// those of a run, and the main law holds of it, where the first number is at least 1. So does each law of runs,
/// `keeps_real_time` of `uni_model` among them: a call that returns in one hold stands in the joined log before each
/// that begins in a later one.
pub fn holds_are_a_run<O: SeqObject>()
    ensures run { (object : O) (n : ℕ) (start : O.State) (number : ℕ) (holds : List (Option (Event O.Inv))) →
        AreHolds (O.sequential object) (opened_world n start number) holds
        → AreAccepted (O.sequential object) (opened_world n start number) (stored holds) }
    ensures universal { (object : O) (n : ℕ) (start : O.State) (number : ℕ) (holds : List (Option (Event O.Inv))) →
        1 ≤ number → AreHolds (O.sequential object) (opened_world n start number) holds
        → IsUniversal (O.sequential object) n start number (stored holds) }
{}
