//! The laws, each the contract of a function with an empty body.

ghost use Rattle.std.specs.Prelude.{ℕ, List};
ghost use Rattle.uni_model.specs.Places.{Name, Memory};
ghost use Rattle.uni_model.specs.Stages.{Stage, Pending};
ghost use Rattle.uni_model.specs.Settled.{PlacesBesideAreSettled, SeesOnly};
ghost use Rattle.uni_model.specs.Worlds.{WorldOf, Event};
ghost use Rattle.uni_model.specs.Invariant.{Invariant};
ghost use Rattle.uni_model.specs.Bound.{IsBounded};
ghost use Rattle.uni_model.specs.Counting.{CountsSteps};
ghost use Rattle.uni_model.specs.OneList.{HasOneList, HasLegalLog};
ghost use Rattle.uni_model.specs.Eras.{EraLeaves, EraOfRunLeaves, JoinsLegalLogs, JoinedLogGrows, KeepsRealTime};
ghost use Rattle.uni_model.specs.Responses.{LogsResponses};
ghost use Rattle.uni_model.specs.Untrimmed.{TrimsChangeNothing};
ghost use Rattle.uni_model.specs.Linearizable.{ObservesLinearizable};
ghost use Rattle.uni_model.specs.WaitFree.{NeverBlocks, CallIsWaitFree, CallEndsAlone};
ghost use Rattle.uni_model.specs.Universal.{RunIsUniversal};
ghost use Rattle.uni_model.specs.Tight.{BoundIsMet, TakesOneTurn, EndsAtItsCell};
ghost use Rattle.uni_model.specs.StrongLinearizable.{IsStronglyLinearizable};
ghost use Rattle.uni_model.specs.HerlihyWing.{AgreesWithCompletion, AgreesInOrder, ObservesCompletion};
ghost use Rattle.uni_model.specs.Locality.{IsLocal};
ghost use Rattle.uni_model.specs.AtomicObject.{Act, Invoked};
ghost use Rattle.uni_model.specs.Laws.{IsReached, KeepsInvariant, KeepsHelping, KeepsSettled, IsAtomic, KeepsLog};
ghost use Rattle.uni_model.specs.Laws.{KeepsLogAlong, OpensSound, StepIsLocal, SettledStays, Simulates, IsLinearizable};
ghost use Rattle.uni_model.specs.Laws.{LinksSoon, HasFloorOnceAnnounced};

use seq_object::SeqObject;

/// The main law. For every object, every number of processes, every start state, every first number of at least 1, and
/// every list of events accepted from that opening, with the ends of eras among them: the calls and responses are a
/// linearizable history (Herlihy and Wing 1990), with the joined log as its linearization; after each prefix of the
/// events a process whose call is pending can step, and a call has returned at the latest at its process's
/// (10m + 12)th step since its begin, in at most m + 1 turns, for the m processes that there are when it begins
/// (Herlihy 1991, section 4); and the prefix without its trims is accepted too, with the same history, joined log and
/// counts.
pub fn is_universal<O: SeqObject>()
    ensures { (object : O) (n : ℕ) (start : O.State) (number : ℕ) (events : List (Event O.Inv)) →
        RunIsUniversal (O.sequential object) n start number events }
{}

/// A step changes of the shared places only the one that its process's stage names, and of the
/// processes only its own one's call, steps and turns.
pub fn changes_one_place<O: SeqObject>()
    ensures { (object : O) (w : WorldOf O.State O.Inv O.Resp) (p : ℕ) (call : Pending) →
        StepIsLocal (O.sequential object) w p call }
{}

/// In a world that has the invariant, the places that a step reads beside its own one are settled
/// (`settled`): what a call asks for, and settled values. What the step does is told by its own place and
/// by these (`only`).
pub fn step_sees_settled<O: SeqObject>()
    ensures settled { (object : O) (w : WorldOf O.State O.Inv O.Resp) (p : ℕ) → Invariant (O.sequential object) w
        → PlacesBesideAreSettled w p }
    ensures only { (object : O) (m later : Memory O.State O.Inv O.Resp) (mine : Name) (stage : Stage) →
        SeesOnly (O.sequential object) m later mine stage }
{}

/// Every opening has the invariant, with the facts of helping and the counts of own steps.
pub fn opening_is_sound<O: SeqObject>()
    ensures { (object : O) (n : ℕ) (start : O.State) (number : ℕ)
        → OpensSound (O.sequential object) n start number }
{}

/// Each accepted event keeps the invariant, whichever world it comes to: a call that is begun, a
/// step, a trim.
pub fn event_keeps_invariant<O: SeqObject>()
    ensures { (object : O) (w : WorldOf O.State O.Inv O.Resp) (e : Event O.Inv)
        → KeepsInvariant (O.sequential object) w e }
{}

/// Each accepted event keeps the facts of helping and the counts of own steps, by which no call
/// takes many turns.
pub fn event_keeps_helping<O: SeqObject>()
    ensures { (object : O) (w : WorldOf O.State O.Inv O.Resp) (e : Event O.Inv)
        → KeepsHelping (O.sequential object) w e }
{}

/// In a world that has the invariant, each accepted event that ends no era leaves what is settled: a
/// decided `after` or `new`, a written `seq` or `before`, an invocation.
pub fn event_keeps_settled<O: SeqObject>()
    ensures { (object : O) (w : WorldOf O.State O.Inv O.Resp) (e : Event O.Inv)
        → KeepsSettled (O.sequential object) w e }
{}

/// From a world that has the invariant, each accepted event that ends no era is what the atomic object
/// does, from what the world shows before it to what it shows afterwards.
pub fn event_is_atomic<O: SeqObject>()
    ensures { (object : O) (w : WorldOf O.State O.Inv O.Resp) (e : Event O.Inv) → IsAtomic (O.sequential object) w e }
{}

/// From a world that has the invariant, while no era ends the log only grows: the log before an
/// accepted event is a prefix of the log after it, but that a response that is missing in its last entry
/// may be there then; and so is the log after each prefix of a list of them a prefix of the log after all.
pub fn log_only_grows<O: SeqObject>()
    ensures event { (object : O) (w : WorldOf O.State O.Inv O.Resp) (e : Event O.Inv)
        → KeepsLog (O.sequential object) w e }
    ensures events { (object : O) (w : WorldOf O.State O.Inv O.Resp) (es : List (Event O.Inv))
        → KeepsLogAlong (O.sequential object) w es }
{}

/// The cells of every world that has the invariant are one list: none twice, with their numbers,
/// their values and the way back.
pub fn is_one_list<O: SeqObject>()
    ensures { (object : O) (w : WorldOf O.State O.Inv O.Resp) → Invariant (O.sequential object) w
        → HasOneList (O.sequential object) w }
{}

/// The log of every world that has the invariant is a legal history of the object from the anchor's
/// state, and only its last entry can lack its response.
pub fn log_is_legal<O: SeqObject>()
    ensures { (object : O) (w : WorldOf O.State O.Inv O.Resp) → Invariant (O.sequential object) w
        → HasLegalLog (O.sequential object) w }
{}

/// In each world that is reached, an accepted event that ends no era leaves what is settled: a decided
/// `after` or `new`, a written `seq` or `before`, an invocation.
pub fn keeps_settled<O: SeqObject>()
    ensures { (object : O) (w : WorldOf O.State O.Inv O.Resp) (e : Event O.Inv) →
        SettledStays (O.sequential object) w e }
{}

/// Every world that is reached from an opening has the invariant.
pub fn keeps_invariant<O: SeqObject>()
    ensures { (object : O) (w : WorldOf O.State O.Inv O.Resp) →
        IsReached (O.sequential object) w → Invariant (O.sequential object) w }
{}

/// In each world that is reached, each call that is begun and each step is what the atomic object does,
/// from what the world shows before it to what it shows afterwards.
pub fn simulates<O: SeqObject>()
    ensures { (object : O) (w : WorldOf O.State O.Inv O.Resp) (e : Event O.Inv) →
        Simulates (O.sequential object) w e }
{}

/// The construction is linearizable: for every number of processes and every list of accepted
/// events, whichever eras end in it, calls and replies are those of an atomic object that places
/// each call once between its start and its reply, in the order of the joined log (Herlihy and Wing
/// 1990).
pub fn is_linearizable<O: SeqObject>()
    ensures { (object : O) (n : ℕ) (start : O.State) (number : ℕ) (events : List (Event O.Inv)) →
        IsLinearizable (O.sequential object) n start number events }
{}

/// The end of an era, where nobody has a call pending, leaves nothing but an anchor, with the state after
/// all calls of the era and the number of its last cell; the counts of all processes stay, and the
/// next call of each is its first one of the new era. After a run from the opening that is the state
/// after all calls of the joined log, and the number of its last entry.
pub fn era_leaves_anchor<O: SeqObject>()
    ensures era { (object : O) (w : WorldOf O.State O.Inv O.Resp) (n : ℕ) → EraLeaves (O.sequential object) w n }
    ensures run { (object : O) (n : ℕ) (start : O.State) (number : ℕ) (events : List (Event O.Inv))
        (next_n : ℕ) →
        EraOfRunLeaves (O.sequential object) n start number events next_n }
{}

/// The joined log of every run from an opening, the logs of its eras one after another, is a legal
/// history of the object from the start state; no call stands in it twice, its numbers go on by one
/// through all eras, and only its last entry can lack its response.
pub fn joined_log_is_legal<O: SeqObject>()
    ensures { (object : O) (n : ℕ) (start : O.State) (number : ℕ) (events : List (Event O.Inv)) →
        JoinsLegalLogs (O.sequential object) n start number events }
{}

/// The joined log only grows, whichever eras end: after each prefix of a run's events it is a prefix of
/// the joined log after all of them, but that a response that is missing in its last entry may be
/// there then.
pub fn joined_log_only_grows<O: SeqObject>()
    ensures { (object : O) (n : ℕ) (start : O.State) (number : ℕ) (events : List (Event O.Inv)) →
        JoinedLogGrows (O.sequential object) n start number events }
{}

/// The joined log holds the responses of the history: the calls of each process stand in it in their
/// order, none left out; no call responds twice; and each response is that of the entry of its call.
pub fn joined_log_holds_responses<O: SeqObject>()
    ensures { (object : O) (n : ℕ) (start : O.State) (number : ℕ) (events : List (Event O.Inv)) →
        LogsResponses (O.sequential object) n start number events }
{}

/// The joined log keeps real-time order: a call that has returned before another one is begun stands
/// before it.
pub fn keeps_real_time<O: SeqObject>()
    ensures { (object : O) (n : ℕ) (start : O.State) (number : ℕ) (events : List (Event O.Inv)) →
        KeepsRealTime (O.sequential object) n start number events }
{}

/// Trims change nothing that a run shows: the same events without the trims are accepted too, and lead
/// to a world with the same counts, the same calls pending, each before a step of the same kind and
/// with the same response where that step is its last, and the same frontier. The joined log and the
/// history are the same.
pub fn trims_change_nothing<O: SeqObject>()
    ensures { (object : O) (n : ℕ) (start : O.State) (number : ℕ) (events : List (Event O.Inv)) →
        TrimsChangeNothing (O.sequential object) n start number events }
{}

/// The own steps of a call follow from where its process stands and from its turns: 2n + 2 before
/// the first turn, eight a turn, and two after the last one.
pub fn counts_steps<O: SeqObject>()
    ensures { (object : O) (w : WorldOf O.State O.Inv O.Resp) →
        IsReached (O.sequential object) w → CountsSteps w }
{}

/// No call takes more than a known number of its own steps, whatever the others do (Herlihy 1991, section 4): at most
/// n + 1 turns, and fewer than 10n + 12 own steps while it is pending. That it ends says `is_wait_free`.
pub fn is_bounded<O: SeqObject>()
    ensures { (object : O) (w : WorldOf O.State O.Inv O.Resp) →
        IsReached (O.sequential object) w → IsBounded w }
{}

/// A call is linked soon after it is announced, whatever its own process does then (Herlihy 1991,
/// section 4): it gets a number at most n + 1 past the frontier at that step, and while it is
/// pending and not linked, the last number is at most n past that frontier.
pub fn links_soon<O: SeqObject>()
    ensures { (object : O) (n : ℕ) (start : O.State) (number : ℕ) (events : List (Event O.Inv)) →
        LinksSoon (O.sequential object) n start number events }
{}

/// A pending call has a floor, the frontier at the step that announces it, exactly where it has
/// taken that step.
pub fn has_floor<O: SeqObject>()
    ensures { (object : O) (n : ℕ) (start : O.State) (number : ℕ) (events : List (Event O.Inv)) →
        HasFloorOnceAnnounced (O.sequential object) n start number events }
{}

/// What is observed of a run, its calls and responses, is linearizable: linearization points can be put
/// among them so that the atomic object takes them all (Herlihy and Wing 1990). The law names neither
/// cells nor logs.
pub fn observes_linearizable<O: SeqObject>()
    ensures { (object : O) (n : ℕ) (start : O.State) (number : ℕ) (events : List (Event O.Inv)) →
        ObservesLinearizable (O.sequential object) n start number events }
{}

/// The construction is wait-free (Herlihy 1991, section 4): a process whose call is pending can always
/// take its next step, and in every schedule its call has returned at the latest at the (10n + 12)th
/// step that it takes after the call's begin, with a response, for the n processes that there are then.
/// So wherever the others have stopped, the process alone ends its call.
pub fn is_wait_free<O: SeqObject>()
    ensures steps { (w : WorldOf O.State O.Inv O.Resp) (p : ℕ) → NeverBlocks w p }
    ensures returns { (object : O) (w : WorldOf O.State O.Inv O.Resp) (p : ℕ) (i : O.Inv)
        (later : List (Event O.Inv)) →
        CallIsWaitFree (O.sequential object) w p i later }
    ensures alone { (object : O) (w : WorldOf O.State O.Inv O.Resp) (p : ℕ)
        → CallEndsAlone (O.sequential object) w p }
{}

/// The bounds of a call are met, so no smaller ones hold (after Herlihy 1991, section 4): for two processes
/// or more, every object that has an invocation, and every start there is a run in which a call returns after
/// n + 1 turns, at its process's (10n + 12)th own step, with the number n + 1 past its floor, and every other
/// process begins at most two calls.
pub fn bound_is_met<O: SeqObject>()
    ensures { (object : O) (n : ℕ) (start : O.State) (number : ℕ) (i : O.Inv) →
        BoundIsMet (O.sequential object) n start number i }
{}

/// The construction is strongly linearizable (Golab, Higham and Woelfel 2011): one function gives each run
/// from an opening, whichever eras end in it, a linearization of what is observed of it in the words of
/// Herlihy and Wing 1990, and what it gives a run is a prefix of what it gives every extension of it.
pub fn is_strongly_linearizable<O: SeqObject>()
    ensures { (object : O) (n : ℕ) (start : O.State) (number : ℕ) →
        IsStronglyLinearizable (O.sequential object) n start number }
{}

/// Linearization points can be put into a history if and only if it is linearizable in the words of Herlihy
/// and Wing 1990: it is well-formed, and has a completion that is equivalent, process by process, to a legal
/// sequential history that keeps its real-time order; a returned call precedes a later one that is still
/// pending too, where the completion keeps it (Sela, Herlihy and Petrank 2021). The orders are the same in both
/// senses. The law names no construction.
pub fn agrees_with_completion<O: SeqObject>()
    ensures history { (object : O) (start : O.State) (history : List (Act O.Inv O.Resp)) →
        AgreesWithCompletion (O.sequential object) start history }
    ensures order { (object : O) (start : O.State) (history : List (Act O.Inv O.Resp)) (order : List (Invoked O.Inv)) →
        AgreesInOrder (O.sequential object) start history order }
{}

/// The construction is linearizable in the words of Herlihy and Wing 1990: what is observed of every run is
/// well-formed, and has a completion that is equivalent to a legal sequential history that keeps its real-time
/// order.
pub fn observes_completion<O: SeqObject>()
    ensures { (object : O) (n : ℕ) (start : O.State) (number : ℕ) (events : List (Event O.Inv)) →
        ObservesCompletion (O.sequential object) n start number events }
{}

/// Among one process the bound isn't met: each call that has returned there took one turn, and 14 own steps.
pub fn takes_one_turn_alone<O: SeqObject>()
    ensures { (object : O) (w : WorldOf O.State O.Inv O.Resp) (p : ℕ) → TakesOneTurn (O.sequential object) w p }
{}

/// Linearizability is local (Herlihy and Wing 1990, theorem 1): a well-formed history over several objects is
/// linearizable exactly where the subhistory of each object is. The objects have one type: several types are
/// one that tells them apart, as an enum does. The law names no construction.
pub fn is_local<O: SeqObject>()
    ensures { (objects : ℕ → O) (start : ℕ → O.State) (history : List (Act (ℕ × O.Inv) (ℕ × O.Resp))) →
        IsLocal (λ x. O.sequential (objects x)) start history }
{}

/// A call's last step after n + 1 turns writes no head: its own cell is its process's head by then. So where
/// a step takes a known number of steps on words, a call of the most turns takes no further one for its head.
pub fn ends_at_its_cell<O: SeqObject>()
    ensures { (object : O) (w : WorldOf O.State O.Inv O.Resp) (p : ℕ) → EndsAtItsCell (O.sequential object) w p }
{}
