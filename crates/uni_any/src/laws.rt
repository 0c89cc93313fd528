//! What the rule means, and what each step appends to the history; each law is the contract of a function with an empty
//! body.
//!
//! `c` is what there is: the word S (`c.words 0`), the buffers, and the view of each seat. `g` is the board, which no
//! word tells; process p stands at `local p`, and has the seat `seat_of p`. `Moves` says what a step does, and
//! `v.known.count ≡ 1` that the seat is that of one process. `with_word f` puts `f` of the word that is found into S;
//! `with_letter p r x` puts x into the buffer from p to r. `either (found == s) x found` is x where found is s, and
//! else found.
ghost use Rattle.std.specs.Prelude.{◌≡◌, ◌≢◌, ◌+◌, ◌<◌, ◌≤◌, ◌==◌, [], ◌∷◌};
ghost use Rattle.std.specs.Prelude.{◌++◌, Contains, List, None, Some, ℕ};
ghost use Rattle.std.specs.Prelude.{map, slice_get};
ghost use prog.Atomic.{either};
ghost use Rattle.uni_model.specs.AtomicObject.Act.{Invoke, Linearize};
ghost use Rattle.triple_buffers.specs.Contents.{Contents};
ghost use Rattle.uni_any.specs.Final.{HasHistory, KnownCalls};
ghost use Rattle.uni_any.specs.declared.view.Returned.{Returned};
ghost use Rattle.uni_any.specs.Board.{Board, announced_by, block_news, call_news, in_of, made_by, number_in};
ghost use Rattle.uni_any.specs.Board.{process_in, word_of};
ghost use Rattle.uni_any.specs.Invariant.{HasBatch, most_calls};
ghost use Rattle.uni_any.specs.News.{told_by};
ghost use Rattle.uni_any.specs.Plays.{HasBrought, HasLaid, HasLearned, HasPosted, HasSeen, HasStarted, HasViewed};
ghost use Rattle.uni_any.specs.Plays.{IsLaying, IsPending, IsPosting, local_of, stage_of};
ghost use Rattle.uni_any.specs.Execution.{Execution, KeepsOrder, all_acts, last_moment, opened_moment};
ghost use Rattle.uni_model.specs.Executions.{IsLinearizedAtSteps};
ghost use Rattle.uni_any.specs.Progress.{KeepsBound, NeverBlocks};
ghost use Rattle.uni_any.specs.Laws.{IsToldBy, Moves, returned_by, with_letter, with_word};
ghost use Rattle.uni_any.specs.Shown.{IsShown, Letter};
ghost use Rattle.uni_any.specs.declared.view.Image.{Image};
ghost use Rattle.uni_any.specs.declared.view.Local.{Local};
ghost use Rattle.uni_any.specs.declared.view.Stage.TheVariants.{Idle, Reading, Writing};
ghost use Rattle.uni_any.specs.declared.view.View.{View};

use seq_object::SeqObject;

/// Wherever words and buffers keep their rule, take the calls that any of the seats tell of. One history that the
/// atomic object accepts has just these calls of their processes, with the replies that they were given, and with the
/// pending ones; so what is observed of it is linearizable. The present version has the state after the calls of that
/// history.
pub fn shown_is_linearizable<O: SeqObject>()
    ensures { (o : O) (n : ℕ) (g : Board O.Inv O.State O.Resp)
        (local : ℕ → Local O.Inv O.State O.Resp) (seat_of : ℕ → ℕ)
        (c : Contents (Letter O.Inv O.State O.Resp) (View O O.Inv O.State O.Resp)) →
        IsShown n O.sequential o g local seat_of c
        → (known : List (KnownCalls O.Inv O.Resp))
        → ((its : KnownCalls O.Inv O.Resp) → Contains known its → IsToldBy c.views its)
        → HasHistory (O.sequential o) n known g.image.state }
{}

/// The version of a call that has returned has come: the word S names it, or a later one.
pub fn returned_has_come<O: SeqObject>()
    ensures { (o : O) (n : ℕ) (g : Board O.Inv O.State O.Resp)
        (local : ℕ → Local O.Inv O.State O.Resp) (seat_of : ℕ → ℕ)
        (c : Contents (Letter O.Inv O.State O.Resp) (View O O.Inv O.State O.Resp)) (p k : ℕ)
        (call : Returned O.Inv O.Resp) →
        IsShown n O.sequential o g local seat_of c → p < n
        → slice_get (local p).own k ≡ Some call → call.version ≤ number_in (c.words 0) }
{}

/// Helping (Herlihy 1993): wherever words and buffers keep their rule, a call that all were told of at least two
/// versions ago is in the present version. That at most two attempts of a call fail follows by the rule, and is in no
/// clause here.
pub fn announced_is_in_soon<O: SeqObject>()
    ensures { (o : O) (n : ℕ) (g : Board O.Inv O.State O.Resp)
        (local : ℕ → Local O.Inv O.State O.Resp) (seat_of : ℕ → ℕ)
        (c : Contents (Letter O.Inv O.State O.Resp) (View O O.Inv O.State O.Resp)) (p : ℕ) →
        IsShown n O.sequential o g local seat_of c → p < n → g.since p + 2 ≤ g.number
        → announced_by n (local p) ≤ in_of g p }
{}

/// The first write of an announcement begins a call: the history has its invocation more. Further ones append nothing.
pub fn announcement_invokes<O: SeqObject>()
    ensures { (o : O) (n id r : ℕ) (inv : O.Inv) (letter : Letter O.Inv O.State O.Resp)
        (v : View O O.Inv O.State O.Resp) →
        v.known.count ≡ 1 → r < n → IsPosting inv r v → made_by (local_of v) < most_calls
        → told_by letter ≡ call_news (local_of v) inv
        → Moves O.sequential o n id v (with_letter v.known.first r (Some letter) id)
        (λ g local c w acts. (r ≡ 0 → acts ≡ Invoke v.known.first (made_by (local_of v)) inv ∷ [])
        × (r ≢ 0 → acts ≡ []))
        (λ c w. HasPosted v r letter w) }
{}

/// The exchange of S that finds what the attempt began with linearizes pending calls, at most one of each process, in
/// the order of their processes: those that make its block of the version before. And the own call
/// returns. One that finds another word appends nothing.
pub fn exchange_linearizes<O: SeqObject>()
    ensures { (o : O) (n id tries : ℕ) (inv : O.Inv) (image : Image O.State O.Resp)
        (v : View O O.Inv O.State O.Resp) →
        v.known.count ≡ 1 → v.known.processes ≡ n → stage_of v ≡ Writing inv tries image n
        → Moves O.sequential o n id v (with_word (λ found. either (found == (local_of v).word)
        (word_of (number_in (local_of v).word + 1) v.known.first) found) id)
        (λ g local c w acts. (c.words 0 ≡ (local_of v).word → (batch : HasBatch (O.sequential o) n g local image)
        × (acts ≡ map (λ d. Linearize d) batch.calls ++ returned_by v w))
        × (c.words 0 ≢ (local_of v).word → acts ≡ [])) (λ c w. HasBrought v (c.words 0) w) }
{}

/// The last look of an attempt ends the call where it is in the version that was found: the history has its response
/// more. A look that doesn't find it there appends nothing.
pub fn look_responds<O: SeqObject>()
    ensures { (o : O) (n id tries r : ℕ) (inv : O.Inv) (v : View O O.Inv O.State O.Resp) →
        v.known.count ≡ 1 → v.known.processes ≡ n → r < n → stage_of v ≡ Reading inv tries r
        → Moves O.sequential o n id v (with_letter r v.known.first None id)
        (λ g local c w acts. acts ≡ returned_by v w)
        (λ c w. HasLearned O.sequential v r (c.buffers r v.known.first) w) }
{}

/// The other steps append nothing: the load of S with which an attempt begins, and the write of a block; and between
/// calls the load of S, and the look into what the process that it names has written.
pub fn other_steps_append_nothing<O: SeqObject>()
    ensures load { (o : O) (n id tries : ℕ) (inv : O.Inv) (v : View O O.Inv O.State O.Resp) →
        v.known.count ≡ 1 → IsPending inv tries v → v.known.processes ≡ n
        → Moves O.sequential o n id v (with_word (λ x. x) id)
        (λ g local c w acts. acts ≡ []) (λ c w. HasStarted v (c.words 0) w) }
    ensures block { (o : O) (n id tries r : ℕ) (inv : O.Inv) (image : Image O.State O.Resp)
        (letter : Letter O.Inv O.State O.Resp) (v : View O O.Inv O.State O.Resp) →
        v.known.count ≡ 1 → v.known.processes ≡ n → r < n → IsLaying O.sequential inv tries image r v
        → told_by letter ≡ block_news (local_of v) inv image
        → Moves O.sequential o n id v (with_letter v.known.first r (Some letter) id)
        (λ g local c w acts. acts ≡ []) (λ c w. HasLaid O.sequential v r letter w) }
    ensures view { (o : O) (n id : ℕ) (v : View O O.Inv O.State O.Resp) →
        v.known.count ≡ 1 → v.known.processes ≡ n → stage_of v ≡ Idle
        → Moves O.sequential o n id v (with_word (λ x. x) id)
        (λ g local c w acts. acts ≡ []) (λ c w. HasViewed v (c.words 0) w) }
    ensures see { (o : O) (n id r : ℕ) (v : View O O.Inv O.State O.Resp) →
        v.known.count ≡ 1 → v.known.processes ≡ n → stage_of v ≡ Idle → r < n
        → process_in (local_of v).word ≡ r → (local_of v).after ≡ number_in (local_of v).word
        → Moves O.sequential o n id v (with_letter r v.known.first None id)
        (λ g local c w acts. acts ≡ []) (λ c w. HasSeen O.sequential v r (c.buffers r v.known.first) w) }
{}

/// Every execution from the opening, in which the processes take their steps on words and buffers in any order, is
/// linearizable, and its linearization points are its own steps: each call takes effect at one of the steps from the
/// first write of its announcement to its last step. And strongly: it is so in the order of these steps, which only
/// grows where the execution goes on (`strongly`, true by how acts are made).
pub fn every_execution_is_linearizable<O: SeqObject>()
    ensures linearized { (o : O) (n : ℕ) → 1 ≤ n → n ≤ 64
        → (e : Execution {R = O.Resp} (O.sequential o) n (opened_moment (O.sequential o) n))
        → IsLinearizedAtSteps (O.sequential o) (all_acts (O.sequential o) n e) }
    ensures strongly { (o : O) (n : ℕ)
        → (e : Execution {R = O.Resp} (O.sequential o) n (opened_moment (O.sequential o) n))
        (more : Execution (O.sequential o) n (last_moment (O.sequential o) n e))
        → KeepsOrder (O.sequential o) n e more }
{}

/// The construction is wait-free in every execution: a process in the midst of a call can always take a step that the
/// call counts, where the memory for what it writes isn't refused; and no call takes more than `12 * n + 5` steps on
/// words, whatever the other processes do. A call that is left while it looks, in the code only for want of memory, is
/// counted from the load with which it begins anew.
pub fn every_call_is_wait_free<O: SeqObject>()
    ensures never_blocks { (o : O) (n : ℕ) → 1 ≤ n → n ≤ 64
        → (e : Execution {R = O.Resp} (O.sequential o) n (opened_moment (O.sequential o) n))
        → NeverBlocks (O.sequential o) n e }
    ensures bound { (o : O) (n : ℕ) → 1 ≤ n → n ≤ 64
        → (e : Execution {R = O.Resp} (O.sequential o) n (opened_moment (O.sequential o) n))
        → KeepsBound (O.sequential o) n e }
{}
