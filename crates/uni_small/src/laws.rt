//! The laws, each the contract of a function with an empty body: what each step on words appends to the history; and at
//! the end that each execution is linearizable and wait-free.
//!
//! In a law of one kind of step `st` is what the code hands to it (`Step` of the kit's `atomic_table`): the word's
//! index `st.word`; of an exchange what it expects, `st.first`, and what it puts in, `st.second`; and `st.said`, of the
//! exchange of a direct attempt the invocation. `either (found == s) x found` is x where found is s, and else found.
//! `Moves` says what the step does, and `me.0.known.count ≡ 1` that the seat is that of one process.
ghost use Rattle.std.specs.Prelude.{◌≡◌, ◌≢◌, ◌==◌, ℕ, ◌+◌, ◌*◌, ◌<◌, ◌≤◌};
ghost use Rattle.std.specs.Prelude.{List, Option, Some, [], length, slice_get, slice_index, slice_set};
ghost use prog.Atomic.{either};
ghost use Rattle.atomic_table.specs.Table.{State, Me, Step};
ghost use Rattle.uni_small.specs.Image.{Image, buffer_words, held_place, reply_place};
ghost use Rattle.uni_small.specs.View.{Local, Read, Returned};
ghost use Rattle.uni_small.specs.View.Stage.{Idle, Last, Ready, Writing};
ghost use Rattle.uni_small.specs.Board.{AreSizesOf, Board, announce_word, argument_word, buffer_word};
ghost use Rattle.uni_small.specs.Board.{buffer_in, current_word, version_in};
ghost use Rattle.uni_small.specs.Invariant.{most_calls};
ghost use Rattle.uni_small.specs.Laws.{Moves, begins, ends, nothing, takes_effect, takes_effect_own};
ghost use Rattle.uni_small.specs.Plays.{HasAnnounced, HasAsked, HasBrought, HasChecked, HasCopied, HasLoaded};
ghost use Rattle.uni_small.specs.Plays.{HasBegun, HasBroughtOwn, HasCheckedOwn, HasConfirmed, HasFollowed};
ghost use Rattle.uni_small.specs.Plays.{HasLooked, HasReplied, HasStarted, HasStored};
ghost use Rattle.uni_small.specs.Plays.{HasTurned, HasWritten, stage_of};
ghost use Rattle.uni_small.specs.Plays.{HasRecalled, HasRecounted, HasReread, HasRestarted};
ghost use Rattle.uni_small.specs.Shown.{IsShown};
ghost use Rattle.uni_small.specs.Standing.{IsAsking, IsCopying, IsLoading, IsLooking, IsStoring, IsWriting};
ghost use Rattle.uni_small.specs.Standing.{IsWritten};
ghost use Rattle.uni_small.specs.Standing.{IsAnnounced, IsDirect, local_of};
ghost use mathlib.Core.Option.{some};
ghost use Rattle.uni_small.specs.declared.seat.Seen.{Seen};
ghost use Rattle.uni_model.specs.Executions.{IsLinearizedAtSteps};
ghost use Rattle.uni_small.specs.Execution.{Execution, KeepsOrder, all_acts, last_moment, opened_moment};
ghost use Rattle.uni_small.specs.Progress.{KeepsBound, NeverBlocks};
ghost use Rattle.uni_small.specs.Resting.{LeavesNoTrace};
ghost use Rattle.uni_small.specs.declared.sizes.Sizes.{Sizes};
ghost use Rattle.uni_small.specs.declared.view.View.{View};

use crate::object::SmallObject;

/// The store of an announcement begins a call: the history has its invocation more.
pub fn announcement_invokes<O: SmallObject>()
    ensures { (o : O) (sizes : Sizes) (id number : ℕ) (inv : List ℕ) (st : Step Seen) (me : Me Seen (View O)) →
        let p = me.0.known.first in
        me.0.known.count ≡ 1 → number ≡ length (local_of me).own + 1 → number ≤ most_calls
        → stage_of me ≡ Idle inv → length inv ≡ sizes.invocation
        → Moves O.meaning o sizes id me (announce_word p) (λ x. number)
        (begins (local_of me) p inv) (λ found me'. HasAnnounced st me number me') }
{}

/// The exchange of S that finds what the attempt began with linearizes the calls that its scan saw, in the
/// order of their processes. One that finds another word appends nothing.
pub fn exchange_linearizes<O: SmallObject>()
    ensures { (o : O) (sizes : Sizes) (id tries s written : ℕ) (image : Image) (seen : List (Option (List ℕ)))
        (st : Step Seen) (me : Me Seen (View O)) →
        sizes.processes ≤ 64 → me.0.known.count ≡ 1 → IsAnnounced me
        → stage_of me ≡ Writing tries s image seen written
        → IsWritten (O.meaning o).object sizes (local_of me) image seen
        → st.second ≡ current_word (version_in s + 1) (2 * me.0.known.first + (local_of me).spare)
        → Moves O.meaning o sizes id me 0 (λ found. either (found == s) st.second found)
        (takes_effect s seen) (λ found me'. HasBrought st me found me') }
{}

/// The exchange of a direct attempt that finds what it began with begins the call and linearizes it with those
/// that the scan saw, in the order of their processes. One that finds another word appends nothing.
pub fn direct_exchange_linearizes<O: SmallObject>()
    ensures { (o : O) (sizes : Sizes) (id s written : ℕ) (image : Image) (seen : List (Option (List ℕ)))
        (its : Seen) (st : Step Seen) (me : Me Seen (View O)) →
        let p = me.0.known.first in
        let inv = its.invocation.items in
        sizes.processes ≤ 64 → me.0.known.count ≡ 1 → IsDirect me → length inv ≡ sizes.invocation
        → length (local_of me).own + 1 ≤ most_calls → stage_of me ≡ Writing 0 s image seen written
        → IsWritten (O.meaning o).object sizes (local_of me) image (slice_set seen p (Some inv))
        → st.second ≡ current_word (version_in s + 1) (2 * p + (local_of me).spare) → st.said ≡ some its
        → Moves O.meaning o sizes id me 0 (λ found. either (found == s) st.second found)
        (takes_effect_own (local_of me) p inv s seen) (λ found me'. HasBroughtOwn st me found me') }
{}

/// The load of the last word of the reply ends a call: the history has its response more.
pub fn reply_responds<O: SmallObject>()
    ensures { (o : O) (sizes : Sizes) (id s : ℕ) (loaded : List ℕ) (st : Step Seen) (me : Me Seen (View O)) →
        let p = me.0.known.first in
        me.0.known.count ≡ 1 → stage_of me ≡ Last s loaded → length loaded + 1 ≡ sizes.reply
        → buffer_in s < 2 * sizes.processes
        → Moves O.meaning o sizes id me (buffer_word sizes (buffer_in s) (reply_place sizes p (length loaded)))
        (λ x. x) (ends (local_of me) p loaded) (λ found me'. HasReplied st me found me') }
{}

/// The other stores append nothing.
pub fn stores_append_nothing<O: SmallObject>()
    ensures argument { (o : O) (sizes : Sizes) (id k x : ℕ) (st : Step Seen) (me : Me Seen (View O)) →
        me.0.known.count ≡ 1 → IsStoring k me → k < sizes.invocation → length (local_of me).own < most_calls
        → Moves O.meaning o sizes id me (argument_word sizes me.0.known.first k) (λ y. x)
        nothing (λ found me'. HasStored st me x me') }
    ensures buffer { (o : O) (sizes : Sizes) (id k x : ℕ) (st : Step Seen) (me : Me Seen (View O)) →
        me.0.known.count ≡ 1 → IsWriting (O.meaning o).object sizes k x me → k < buffer_words sizes
        → st.word ≡ buffer_word sizes (2 * me.0.known.first + (local_of me).spare) k
        → Moves O.meaning o sizes id me
        (buffer_word sizes (2 * me.0.known.first + (local_of me).spare) k) (λ y. x)
        nothing (λ found me'. HasWritten st me x me') }
{}

/// The other loads append nothing. Each clause is named as its step in `Next` of Execution, which tells them in the
/// order of a call; the README, 'The steps', names the functions.
pub fn loads_append_nothing<O: SmallObject>()
    ensures start { (o : O) (sizes : Sizes) (id tries : ℕ) (st : Step Seen) (me : Me Seen (View O)) →
        sizes.processes ≤ 64 → me.0.known.count ≡ 1 → tries < 2 → stage_of me ≡ Ready tries
        → Moves O.meaning o sizes id me 0 (λ x. x) nothing (λ found me'. HasStarted st me found me') }
    ensures try_directly { (o : O) (sizes : Sizes) (id : ℕ) (st : Step Seen) (me : Me Seen (View O)) →
        sizes.processes ≤ 64 → me.0.known.count ≡ 1 → stage_of me ≡ Idle [] → IsAnnounced me
        → length (local_of me).own < most_calls
        → Moves O.meaning o sizes id me 0 (λ x. x) nothing (λ found me'. HasBegun st me found me') }
    ensures check_own { (o : O) (sizes : Sizes) (id s : ℕ) (st : Step Seen) (me : Me Seen (View O)) →
        sizes.processes ≤ 64 → me.0.known.count ≡ 1 → IsLooking sizes 0 s sizes.processes me → IsDirect me
        → Moves O.meaning o sizes id me 0 (λ x. x) nothing
        (λ found me'. (q : O) → me.0.object ≡ Some q → HasCheckedOwn (O.meaning q) st me found me') }
    ensures confirm { (o : O) (sizes : Sizes) (id s : ℕ) (st : Step Seen) (me : Me Seen (View O)) →
        sizes.processes ≤ 64 → me.0.known.count ≡ 1 → IsCopying 0 s (buffer_words sizes) me → IsDirect me
        → Moves O.meaning o sizes id me 0 (λ x. x) nothing
        (λ found me'. (q : O) → me.0.object ≡ Some q → HasConfirmed (O.meaning q) st me found me') }
    ensures copy { (o : O) (sizes : Sizes) (id tries s i : ℕ) (st : Step Seen) (me : Me Seen (View O)) →
        sizes.processes ≤ 64 → me.0.known.count ≡ 1 → IsCopying tries s i me → i < buffer_words sizes
        → buffer_in s < 2 * sizes.processes
        → Moves O.meaning o sizes id me (buffer_word sizes (buffer_in s) i) (λ x. x) nothing
        (λ found me'. HasCopied st me found me') }
    ensures look { (o : O) (sizes : Sizes) (id tries s r : ℕ) (st : Step Seen) (me : Me Seen (View O)) →
        sizes.processes ≤ 64 → me.0.known.count ≡ 1 → IsLooking sizes tries s r me → r < sizes.processes
        → Moves O.meaning o sizes id me (announce_word r) (λ x. x)
        nothing (λ found me'. HasLooked st me found me') }
    ensures ask { (o : O) (sizes : Sizes) (id tries s r k : ℕ) (st : Step Seen) (me : Me Seen (View O)) →
        sizes.processes ≤ 64 → me.0.known.count ≡ 1 → IsAsking tries s r k me → r < sizes.processes
        → k < sizes.invocation → Moves O.meaning o sizes id me (argument_word sizes r k) (λ x. x)
        nothing (λ found me'. HasAsked st me found me') }
    ensures check { (o : O) (sizes : Sizes) (id tries s : ℕ) (st : Step Seen) (me : Me Seen (View O)) →
        sizes.processes ≤ 64 → me.0.known.count ≡ 1 → IsLooking sizes tries s sizes.processes me
        → IsAnnounced me
        → Moves O.meaning o sizes id me 0 (λ x. x) nothing
        (λ found me'. (q : O) → me.0.object ≡ Some q → HasChecked (O.meaning q) st me found me') }
    ensures turn { (o : O) (sizes : Sizes) (id tries : ℕ) (st : Step Seen) (me : Me Seen (View O)) →
        sizes.processes ≤ 64 → me.0.known.count ≡ 1 → 2 ≤ tries → stage_of me ≡ Ready tries
        → IsAnnounced me
        → Moves O.meaning o sizes id me 0 (λ x. x) nothing (λ found me'. HasTurned st me found me') }
    ensures follow { (o : O) (sizes : Sizes) (id : ℕ) (st : Step Seen) (me : Me Seen (View O)) →
        sizes.processes ≤ 64 → me.0.known.count ≡ 1 → stage_of me ≡ Idle []
        → Moves O.meaning o sizes id me 0 (λ x. x) nothing (λ found me'. HasFollowed st me found me') }
    ensures recall { (o : O) (sizes : Sizes) (id : ℕ) (read : Read) (st : Step Seen) (me : Me Seen (View O)) →
        sizes.processes ≤ 64 → me.0.known.count ≡ 1 → stage_of me ≡ Idle [] → (local_of me).read ≡ Some read
        → Moves O.meaning o sizes id me 0 (λ x. x) nothing
        (λ found me'. (q : O) → me.0.object ≡ Some q → HasRecalled (O.meaning q) st me found me') }
    ensures load { (o : O) (sizes : Sizes) (id s k : ℕ) (st : Step Seen) (me : Me Seen (View O)) →
        me.0.known.count ≡ 1 → IsLoading s k me → k + 1 < sizes.reply → buffer_in s < 2 * sizes.processes
        → Moves O.meaning o sizes id me
        (buffer_word sizes (buffer_in s) (reply_place sizes me.0.known.first k)) (λ x. x)
        nothing (λ found me'. HasLoaded st me found me') }
    ensures recount { (o : O) (sizes : Sizes) (id : ℕ) (st : Step Seen) (me : Me Seen (View O)) →
        sizes.processes ≤ 64 → me.0.known.count ≡ 1
        → Moves O.meaning o sizes id me (announce_word me.0.known.first) (λ x. x)
        nothing (λ found me'. HasRecounted st me found me') }
    ensures reread { (o : O) (sizes : Sizes) (id which k : ℕ) (st : Step Seen) (me : Me Seen (View O)) →
        sizes.processes ≤ 64 → me.0.known.count ≡ 1 → which ≤ 1 → k < buffer_words sizes
        → st.word ≡ buffer_word sizes (2 * me.0.known.first + which) k
        → Moves O.meaning o sizes id me (buffer_word sizes (2 * me.0.known.first + which) k) (λ x. x)
        nothing (λ found me'. HasReread st me found me') }
    ensures restart { (o : O) (sizes : Sizes) (id : ℕ) (st : Step Seen) (me : Me Seen (View O)) →
        sizes.processes ≤ 64 → me.0.known.count ≡ 1
        → Moves O.meaning o sizes id me 0 (λ x. x) nothing (λ found me'. HasRestarted st me found me') }
{}

/// The version of a call that has returned has come: the word S names it, or a later one. That whoever follows it is
/// answered `true` is in no clause of a call.
pub fn returned_has_come<O: SmallObject>()
    ensures { (o : O) (sizes : Sizes) (g : Board) (local : ℕ → Local) (seat_of : ℕ → ℕ)
        (s : State Seen (View O)) (p k : ℕ) (call : Returned) →
        sizes.processes ≤ 64 → IsShown sizes O.meaning o g local seat_of s → p < sizes.processes
        → slice_get (local p).own k ≡ Some call
        → call.version ≤ version_in (slice_index s.words 0) }
{}

/// Every execution from the opening, in which the processes take their word steps in any order, is linearizable, and
/// its linearization points are its own steps: each call takes effect at one of the steps from the one that invokes it
/// to the last one of the call. An announced call is invoked by its announcement, a direct one by its exchange: both
/// later than where the code begins it, so that more calls precede it than in the code, and the law is the stronger.
/// And strongly: it is so in the order of these steps, which only grows where the execution goes on (`strongly`, true
/// by how acts are made).
pub fn every_execution_is_linearizable<O: SmallObject>()
    ensures linearized { (o : O) (sizes : Sizes) → AreSizesOf (O.meaning o) sizes
        → (e : Execution (O.meaning o).object sizes (opened_moment (O.meaning o).object sizes))
        → IsLinearizedAtSteps (O.meaning o).object (all_acts (O.meaning o).object sizes e) }
    ensures strongly { (o : O) (sizes : Sizes)
        → (e : Execution (O.meaning o).object sizes (opened_moment (O.meaning o).object sizes))
        (more : Execution (O.meaning o).object sizes (last_moment (O.meaning o).object sizes e))
        → KeepsOrder (O.meaning o).object sizes e more }
{}

/// The construction is wait-free in every execution: a process in the midst of a call can always take a step, and
/// no call takes more than `6 * W + (9 + 3 * I + 6 * R) * n + I + R + 11` steps of its own process, whatever the other
/// processes do. A call whose seat is taken over is counted from where it begins again.
pub fn every_call_is_wait_free<O: SmallObject>()
    ensures never_blocks { (o : O) (sizes : Sizes) → AreSizesOf (O.meaning o) sizes
        → (e : Execution (O.meaning o).object sizes (opened_moment (O.meaning o).object sizes))
        → NeverBlocks (O.meaning o).object sizes e }
    ensures bound { (o : O) (sizes : Sizes) → AreSizesOf (O.meaning o) sizes
        → (e : Execution (O.meaning o).object sizes (opened_moment (O.meaning o).object sizes))
        → KeepsBound (O.meaning o).object sizes e }
{}

/// Whether a process that stopped has loaded the last word of a reply leaves no trace: what goes on after that load
/// goes on without it as well, with the same words. So a call whose reply was not kept may be taken as pending. That
/// who takes it over is told the same reply is argued by hand, and is in no clause.
pub fn last_load_leaves_no_trace<O: SmallObject>()
    ensures { (o : O) (sizes : Sizes)
        → (e : Execution (O.meaning o).object sizes (opened_moment (O.meaning o).object sizes))
        → LeavesNoTrace (O.meaning o).object sizes e }
{}
