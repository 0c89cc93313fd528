//! What the definitions say of worked histories.

ghost use Rattle.std.specs.Prelude.{◌≡◌, ◌∷◌, [], take};
ghost use Rattle.seq_object.specs.SwapRegister.{swap_register};
ghost use Rattle.lin_check.specs.declared.event.Event.TheVariants.{Call, Return};
ghost use Rattle.lin_check.specs.Verdicts.{IsLinearizable, IsOrder};
ghost use Rattle.lin_check.specs.Worked.{from_nowhere, line, never_returned, overlapping_puts, parts_of_it};
ghost use Rattle.lin_check.specs.Worked.{returns_first, stale_take, swapped_early, taken_early, taken_twice};
ghost use Rattle.lin_check.specs.Worked.{twice_at_once};

/// What the definitions say of worked histories: which order their calls have, or that they have none.
pub fn worked_histories()
    // What was put into a queue first is taken first: five events have an order, the sixth leaves none.
    ensures stale_take { ¬ (IsLinearizable line stale_take) }
    ensures before_stale_take { IsOrder line (take 5 stale_take) (0 ∷ 2 ∷ []) }
    // Of two puts that overlap the later one may take effect first.
    ensures overlapping { IsOrder line overlapping_puts (1 ∷ 0 ∷ 4 ∷ []) }
    // A call that never returned took effect, or it didn't, but never twice.
    ensures lost { IsOrder line never_returned (1 ∷ []) }
    ensures lost_late { IsOrder line never_returned (1 ∷ 0 ∷ []) }
    ensures lost_but_seen { IsOrder line taken_early (0 ∷ 1 ∷ []) }
    ensures lost_once { ¬ (IsLinearizable line taken_twice) }
    // A register answers what a pending call wrote, and nothing that nobody wrote.
    ensures pending { IsOrder (swap_register 0) swapped_early (0 ∷ 1 ∷ []) }
    ensures from_nowhere { ¬ (IsLinearizable (swap_register 0) from_nowhere) }
    // A process makes one call at a time, and only what was called returns.
    ensures twice_at_once { ¬ (IsLinearizable (swap_register 0) twice_at_once) }
    ensures returns_first { ¬ (IsLinearizable (swap_register 0) returns_first) }
    // A part has its calls and their returns.
    ensures parts { parts_of_it
        ≡ (Call 1 5 ∷ Return 1 7 ∷ []) ∷ (Call 0 3 ∷ Return 0 8 ∷ Call 1 3 ∷ []) ∷ [] ∷ [] }
{}
