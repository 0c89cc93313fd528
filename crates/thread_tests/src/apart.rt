//! What the laws of every execution exclude: a stale read. Each law is the contract of a function with an empty body.
ghost use Rattle.std.specs.Prelude.{◌≡◌, ℕ, List};
ghost use Rattle.uni_model.specs.Linearizable.{observed, observed_in};
ghost use Rattle.uni_small.specs.Board.{AreSizesOf};
ghost use Rattle.uni_small.specs.Execution.{Execution, all_acts, opened_moment};
ghost use Rattle.uni_small.specs.declared.sizes.Sizes.{Sizes};
ghost use Rattle.uni_words.specs.Execution.{Execution as WordsExecution, events, opened_table};
ghost use Rattle.uni_words.specs.Linearized.{IsNarrow};
ghost use Rattle.uni_words.specs.Run.{opened};
ghost use Rattle.uni_words.specs.Objects.{tally};
ghost use Rattle.thread_tests.specs.Apart.{Answered, AreAnsweredInTurn, one_after_another, stale};

use uni_small::SmallObject;
use uni_words::WordObject;

/// Where all calls of an execution of a small object have returned and no two of them overlap, each is answered as the
/// object answers it after those before it. So no execution answers a call that begins once an add has returned as if
/// that add had not been. That of calls which overlap says `every_execution_is_linearizable`.
pub fn small_calls_apart_are_answered_in_turn<O: SmallObject>()
    ensures { (o : O) (sizes : Sizes) → AreSizesOf (O.meaning o) sizes
        → (e : Execution (O.meaning o).object sizes (opened_moment (O.meaning o).object sizes))
        (told : List (Answered (List ℕ) (List ℕ)))
        → observed (all_acts (O.meaning o).object sizes e) ≡ one_after_another told
        → AreAnsweredInTurn (O.meaning o).object told }
{}

/// The same of the list on words.
pub fn word_calls_apart_are_answered_in_turn<O: WordObject>()
    ensures { (o : O) (n row : ℕ) → IsNarrow (O.sequential o)
        → (e : WordsExecution (O.sequential o) n row (opened_table (O.sequential o) n row)) (told : List (Answered ℕ ℕ))
        → observed_in (O.sequential o) (opened (O.sequential o) n) (events (O.sequential o) n row e)
        ≡ one_after_another told
        → AreAnsweredInTurn (O.sequential o) told }
{}

/// A read of a tally that begins once an add of 5 has returned, and is answered 0, is not answered in turn.
pub fn stale_read_is_not_in_turn()
    ensures { ¬ (AreAnsweredInTurn tally stale) }
{}
