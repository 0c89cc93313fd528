//! What holds of the scenes and of the marks of each run, as contracts of functions that do nothing.

ghost use Rattle.std.specs.Prelude.{ℕ, Bool, List};
ghost use Rattle.run_replay.specs.Vocabulary.{Event, WorldOf, spoken};
ghost use Rattle.run_replay.specs.Scenes.{TellsEachEvent, ChangesOnePlace, CallChangesOnePlace, EndLeavesAnchor};
ghost use Rattle.run_replay.specs.MarkLaws.{DotsAreTheLog, BoxesAreTheLog, BoxesHaveTheEntries, DotsLieInBars};
ghost use Rattle.run_replay.specs.MarkLaws.{BarsHaveTheReplies, EndsAreEvents};

use ready_objects::Spoken;

/// Scene k of a run tells of the world of the definitions after the first k events, and of the one after event k: it is
/// `scene_of` that world and that event. There is a scene for each event, and no other.
pub fn scenes_tell_each_event<O: Spoken>()
    ensures { (object : O) (is_whole : Bool) (w : WorldOf O.State O.Inv O.Resp) (events : List (Event O.Inv)) →
        TellsEachEvent (O.sequential object) O.language O.state_text is_whole w events }
{}

/// The end of an era leaves an anchor alone, with the number that its frame tells: all entries of announce and head
/// name it, and no cell is made.
pub fn ends_leave_one_anchor<O: Spoken>()
    ensures { (object : O) (w : WorldOf O.State O.Inv O.Resp) (n : ℕ) → EndLeavesAnchor (O.sequential object) w n }
{}

/// A step changes no place of the memory but the one that its frame tells, and a call none but what its new cell asks
/// for.
pub fn steps_change_one_place<O: Spoken>()
    ensures steps { (object : O) (w : WorldOf O.State O.Inv O.Resp) (p : ℕ) →
        ChangesOnePlace (O.sequential object) w p }
    ensures calls { (object : O) (w : WorldOf O.State O.Inv O.Resp) (p : ℕ) (inv : O.Inv) →
        CallChangesOnePlace (O.sequential object) w p inv }
{}

/// The dots of a run, from left to right, are the calls of the joined log of all its eras, in its order: each call has
/// one dot where it took effect, and no other. The boxes of the eras, one era after the other, are the entries of that
/// log, each with the object's state after it; without these states also where an event isn't accepted.
pub fn dots_are_the_log<O: Spoken>()
    ensures dots { (object : O) (name : List ℕ) (n first : ℕ) (start : O.State) (events : List (Event O.Inv)) →
        DotsAreTheLog (spoken O.sequential O.language object) O.state_text name n start first events }
    ensures boxes { (object : O) (name : List ℕ) (n first : ℕ) (start : O.State) (events : List (Event O.Inv)) →
        BoxesAreTheLog (spoken O.sequential O.language object) O.state_text name n start first events }
    ensures entries { (object : O) (name : List ℕ) (n first : ℕ) (start : O.State) (events : List (Event O.Inv)) →
        BoxesHaveTheEntries (spoken O.sequential O.language object) O.state_text name n start first events }
{}

/// Each dot of a run lies in the bar of its call: the call took effect after the event with which it began, and by its
/// last step or before it.
pub fn dots_lie_in_bars<O: Spoken>()
    ensures { (object : O) (name : List ℕ) (n first : ℕ) (start : O.State) (events : List (Event O.Inv)) →
        DotsLieInBars (spoken O.sequential O.language object) O.state_text name n start first events }
{}

/// The replies of the bars that have ended, in the order of the events with which they end, are the responses of the
/// run's history, as texts. Each bar that has ended ends with an event of the run.
pub fn bars_have_the_replies<O: Spoken>()
    ensures replies { (object : O) (name : List ℕ) (n first : ℕ) (start : O.State) (events : List (Event O.Inv)) →
        BarsHaveTheReplies (spoken O.sequential O.language object) O.state_text name n start first events }
    ensures ends { (object : O) (name : List ℕ) (n first : ℕ) (start : O.State) (events : List (Event O.Inv)) →
        EndsAreEvents (spoken O.sequential O.language object) O.state_text name n start first events }
{}
