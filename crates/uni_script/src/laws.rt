//! What holds of each script, as contracts of functions that do nothing.

ghost use Rattle.std.specs.Prelude.{ℕ};
ghost use Rattle.uni_model.specs.Laws.{IsReached};
ghost use Rattle.uni_script.specs.Laws.{FinishReturns};
ghost use Rattle.uni_script.specs.Meaning.{Session};

use ready_objects::Spoken;

/// In every world that is reached from an opening, `finish` is refused, or the call returns: it is
/// never answered with `going`.
pub fn finish_returns<O: Spoken>()
    ensures { (object : O) (b : Session O.State O.Inv O.Resp) (p : ℕ) → IsReached (O.sequential object) b.world
        → FinishReturns (record { object = O.sequential object; language = O.language }) b p }
{}
