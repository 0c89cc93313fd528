//! Each step of a process, on a word or on a buffer.
ghost use Rattle.std.specs.Prelude.{◌≡◌, ◌+◌, ◌<◌, ◌≤◌, ℕ};
ghost use Rattle.uni_any.specs.Board.{block_news, call_news, made_by, number_in, process_in, word_of};
ghost use Rattle.uni_any.specs.Invariant.{most_calls};
ghost use Rattle.uni_any.specs.News.{told_by};
ghost use Rattle.uni_any.specs.Plays.{HasBrought, HasLaid, HasLearned, HasPosted, HasSeen, HasStarted, HasViewed};
ghost use Rattle.uni_any.specs.Plays.{IsLaying, IsPending, IsPosting, local_of, stage_of};
ghost use Rattle.uni_any.specs.Standing.{IsPlaceOf};
ghost use Rattle.uni_any.specs.declared.view.Stage.TheVariants.{Idle, Reading, Writing};
ghost use Rattle.triple_buffers.specs.Parties.{key_of, number_of, steps_of, view_of};

use crate::rule::{
    Brings, Lays, Learns, NewsOf, ObjectBuffers, ObjectParty, Posts, Sees, Starts, Views,
};
use seq_object::SeqObject;

/// Writes the invocation of the next call for a process.
pub(crate) fn post<O: SeqObject>(
    buffers: &ObjectBuffers<O>,
    party: &mut ObjectParty<O>,
    to: u64,
    news: NewsOf<O>,
)
    requires place { IsPlaceOf buffers.now party.old }
    requires inside { to < (key_of buffers.now).processes }
    requires few { made_by (local_of (view_of party.old)) < most_calls }
    requires news { (inv : O.Inv) × IsPosting inv to (view_of party.old)
        × (told_by news ≡ call_news (local_of (view_of party.old)) inv) }
    ensures place { IsPlaceOf buffers.now party.new × (number_of party.new ≡ number_of party.old) }
    ensures told { HasPosted (view_of party.old) to news (view_of party.new) }
    ensures two_steps { steps_of party.new ≡ steps_of party.old + 2 }
{
    let _before = buffers.write::<Posts>(party, to, news);
}

/// Loads S, with which an attempt begins.
pub(crate) fn start<O: SeqObject>(buffers: &ObjectBuffers<O>, party: &mut ObjectParty<O>) -> u64
    requires place { IsPlaceOf buffers.now party.old }
    requires pending { (inv : O.Inv) × ((tries : ℕ) × IsPending inv tries (view_of party.old)) }
    ensures place { IsPlaceOf buffers.now party.new × (number_of party.new ≡ number_of party.old) }
    ensures told { HasStarted (view_of party.old) result (view_of party.new) }
    ensures one_step { steps_of party.new ≡ steps_of party.old + 1 }
{
    buffers.load::<Starts>(party, 0)
}

/// Takes what a process has written.
pub(crate) fn learn<O: SeqObject>(
    buffers: &ObjectBuffers<O>,
    party: &mut ObjectParty<O>,
    from: u64,
) -> Option<NewsOf<O>>
    requires place { IsPlaceOf buffers.now party.old }
    requires inside { from < (key_of buffers.now).processes }
    requires reading { (inv : O.Inv) × ((tries : ℕ) × (stage_of (view_of party.old) ≡ Reading inv tries from)) }
    ensures place { IsPlaceOf buffers.now party.new × (number_of party.new ≡ number_of party.old) }
    ensures told { HasLearned O.sequential (view_of party.old) from result (view_of party.new) }
    ensures few_steps { steps_of party.new ≤ steps_of party.old + 2 }
{
    buffers.take::<Learns>(party, from)
}

/// Writes a block for a process.
pub(crate) fn lay<O: SeqObject>(
    buffers: &ObjectBuffers<O>,
    party: &mut ObjectParty<O>,
    to: u64,
    news: NewsOf<O>,
)
    requires place { IsPlaceOf buffers.now party.old }
    requires inside { to < (key_of buffers.now).processes }
    requires news { (inv : O.Inv) × ((tries : ℕ) × ((image : _)
        × IsLaying O.sequential inv tries image to (view_of party.old)
        × (told_by news ≡ block_news (local_of (view_of party.old)) inv image))) }
    ensures place { IsPlaceOf buffers.now party.new × (number_of party.new ≡ number_of party.old) }
    ensures told { HasLaid O.sequential (view_of party.old) to news (view_of party.new) }
    ensures two_steps { steps_of party.new ≡ steps_of party.old + 2 }
{
    let _before = buffers.write::<Lays>(party, to, news);
}

/// Exchanges S, where it is as it was, for the next version and this process.
pub(crate) fn bring<O: SeqObject>(
    buffers: &ObjectBuffers<O>,
    party: &mut ObjectParty<O>,
    old: u64,
    new: u64,
) -> u64
    requires place { IsPlaceOf buffers.now party.old }
    requires laid { (inv : O.Inv) × ((tries : ℕ) × ((image : _)
        × (stage_of (view_of party.old) ≡ Writing inv tries image (key_of buffers.now).processes))) }
    requires words { (old ≡ (local_of (view_of party.old)).word)
        × (new ≡ word_of (number_in old + 1) (number_of party.old)) }
    ensures place { IsPlaceOf buffers.now party.new × (number_of party.new ≡ number_of party.old) }
    ensures told { HasBrought (view_of party.old) result (view_of party.new) }
    ensures one_step { steps_of party.new ≡ steps_of party.old + 1 }
{
    buffers.compare_exchange::<Brings>(party, 0, old, new)
}

/// Loads S, between calls.
pub(crate) fn view<O: SeqObject>(buffers: &ObjectBuffers<O>, party: &mut ObjectParty<O>) -> u64
    requires place { IsPlaceOf buffers.now party.old }
    requires idle { stage_of (view_of party.old) ≡ Idle }
    ensures place { IsPlaceOf buffers.now party.new × (number_of party.new ≡ number_of party.old) }
    ensures told { HasViewed (view_of party.old) result (view_of party.new) }
    ensures one_step { steps_of party.new ≡ steps_of party.old + 1 }
{
    buffers.load::<Views>(party, 0)
}

/// Takes, between calls, what the process that S named has written.
pub(crate) fn see<O: SeqObject>(
    buffers: &ObjectBuffers<O>,
    party: &mut ObjectParty<O>,
    from: u64,
) -> Option<NewsOf<O>>
    requires place { IsPlaceOf buffers.now party.old }
    requires inside { from < (key_of buffers.now).processes }
    requires idle { stage_of (view_of party.old) ≡ Idle }
    requires named { process_in (local_of (view_of party.old)).word ≡ from }
    requires follows { (local_of (view_of party.old)).after ≡ number_in (local_of (view_of party.old)).word }
    ensures place { IsPlaceOf buffers.now party.new × (number_of party.new ≡ number_of party.old) }
    ensures told { HasSeen O.sequential (view_of party.old) from result (view_of party.new) }
    ensures few_steps { steps_of party.new ≤ steps_of party.old + 2 }
{
    buffers.take::<Sees>(party, from)
}
