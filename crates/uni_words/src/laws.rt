//! The laws of the word steps, and of opening, splitting, joining and asking, each the contract of a
//! function with an empty body.

ghost use Rattle.std.specs.Prelude.{ℕ};
ghost use Rattle.atomic_table.specs.Table.{State};
ghost use Rattle.uni_model.specs.Places.{Name};
ghost use Rattle.uni_model.specs.Stages.{Stage, Pending};
ghost use Rattle.uni_model.specs.Worlds.{WorldOf};
ghost use Rattle.uni_words.specs.Laws.{StoreBegins, WordStepMoves, StoreEnds, LoadEnds, LoadKeeps, OwnCallsRise};
ghost use Rattle.uni_words.specs.Laws.{AskKeeps, JoinKeeps, OpeningShows, ReturnedIsThere, SplitKeeps};
ghost use Rattle.seq_object.specs.declared.call_id.CallId.{CallId};
ghost use Rattle.uni_words.specs.Linearized.{AreLinearizedStrongly, FromOpening, IsNarrow, KeepsBound, NeverBlocks};
ghost use Rattle.uni_words.specs.View.{Known, Reading};
ghost use Rattle.uni_words.specs.declared.view.View.{View};

use crate::object::WordObject;

/// Where the start state is below 2^31, the table that is made shows the opened world, to which a run with no events
/// leads.
pub fn opening_shows<O: WordObject>()
    ensures { (object : O) (n row : ℕ) → OpeningShows (O.sequential object) n row }
{}

/// A seat is cut in two, its first process apart from the others, if there are any: the world and the run to it stay as
/// they are.
pub fn split_keeps<O: WordObject>()
    ensures { (object : O) (row : ℕ) (w : WorldOf ℕ ℕ ℕ) (s : State ℕ View) (id : ℕ) (v : View) →
        SplitKeeps (O.sequential object) row w s id v }
{}

/// A seat takes in another one: the world and the run to it stay as they are.
pub fn join_keeps<O: WordObject>()
    ensures { (object : O) (row : ℕ) (w : WorldOf ℕ ℕ ℕ) (s : State ℕ View) (id : ℕ) (v : View)
        (other : ℕ) (x : View) →
        JoinKeeps (O.sequential object) row w s id v other x }
{}

/// A call that has returned has a number. That `follows` answers `true` is in a clause (`known`) for the calls that the
/// seat made or took in, and in none for any other call.
pub fn returned_is_there<O: WordObject>()
    ensures { (object : O) (row : ℕ) (w : WorldOf ℕ ℕ ℕ) (s : State ℕ View) (call : CallId) (word : ℕ) →
        ReturnedIsThere (O.sequential object) row w s call word }
{}

/// A seat asks about a call: the world and the run to it stay as they are.
pub fn ask_keeps<O: WordObject>()
    ensures { (object : O) (row : ℕ) (w : WorldOf ℕ ℕ ℕ) (s : State ℕ View) (id : ℕ) (v : Known)
        (call : CallId) (word : ℕ) →
        AskKeeps (O.sequential object) row w s id v call word }
{}

/// The store of an invocation is the event that begins a call.
pub fn store_begins<O: WordObject>()
    ensures { (object : O) (row : ℕ) (w : WorldOf ℕ ℕ ℕ) (s : State ℕ View) (id : ℕ) (v : Known)
        (word inv : ℕ) →
        StoreBegins (O.sequential object) row w s id v word inv }
{}

/// A word step at the place of the stage where a call stands is the step of the world's process, where the call goes on
/// after it, and where the word is left as one that reads as what that step leaves, with no state past 31 bits.
pub fn word_step_moves<O: WordObject>()
    ensures { (object : O) (row : ℕ) (w : WorldOf ℕ ℕ ℕ) (s : State ℕ View) (id : ℕ) (v : Known)
        (c : Pending) (next : Stage) (word x : ℕ) →
        WordStepMoves (O.sequential object) row w s id v c next word x }
{}

/// Where the head moves at the end of a call, the store of the head is the call's last step.
pub fn store_ends<O: WordObject>()
    ensures { (object : O) (row : ℕ) (w : WorldOf ℕ ℕ ℕ) (s : State ℕ View) (id : ℕ) (v : Known)
        (mine : Name) (c_seq mine_seq reply word x : ℕ) →
        StoreEnds (O.sequential object) row w s id v mine c_seq mine_seq reply word x }
{}

/// Where the head stays, the load of the reply is the call's last step.
pub fn load_ends<O: WordObject>()
    ensures { (object : O) (row : ℕ) (w : WorldOf ℕ ℕ ℕ) (s : State ℕ View) (id : ℕ) (v : Known)
        (mine : Name) (c_seq mine_seq word : ℕ) →
        LoadEnds (O.sequential object) row w s id v mine c_seq mine_seq word }
{}

/// Each other load of a settled word leaves the world, and the run to it, as they were.
pub fn load_keeps<O: WordObject>()
    ensures { (object : O) (row : ℕ) (w : WorldOf ℕ ℕ ℕ) (s : State ℕ View) (id : ℕ) (v : Known)
        (c : Pending) (word : ℕ) (read : Reading) →
        LoadKeeps (O.sequential object) row w s id v c word read }
{}

/// The calls that a seat was given replies to have rising numbers, in their order.
pub fn own_calls_rise<O: WordObject>()
    ensures { (object : O) (row : ℕ) (w : WorldOf ℕ ℕ ℕ) (s : State ℕ View) (id : ℕ) (v : Known)
        (j k : ℕ) (a b : ℕ × ℕ) →
        OwnCallsRise (O.sequential object) row w s id v j k a b }
{}

/// Of an object whose states and replies stay below 2^31 (`IsNarrow`, which each `WordObject`'s contract asks): every
/// execution from the opening, in which the seats take their word steps in any order, are cut and are taken in, is
/// linearizable; its events are those of a run of the construction. And strongly: one function gives each
/// its order, and where an execution goes on, only further calls come behind. The acts of a process in this history are
/// what its seat has been told by then.
pub fn every_execution_is_linearizable<O: WordObject>()
    ensures { (object : O) (n row : ℕ) → IsNarrow (O.sequential object)
        → AreLinearizedStrongly (O.sequential object) n row }
{}

/// Of a narrow object (`IsNarrow`), the construction on words is wait-free in every execution: a seat with a call
/// pending can always take a step of it, and no call takes more than `12 * n + 15` word steps of its own process,
/// whatever the others do. To ask about a call is no step of one.
pub fn every_call_is_wait_free<O: WordObject>()
    ensures never_blocks { (object : O) (n row : ℕ) → IsNarrow (O.sequential object)
        → (e : FromOpening (O.sequential object) n row) → NeverBlocks (O.sequential object) n row e }
    ensures bound { (object : O) (n row : ℕ) → IsNarrow (O.sequential object)
        → (e : FromOpening (O.sequential object) n row) → KeepsBound (O.sequential object) n row e }
{}
