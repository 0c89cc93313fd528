//! What a seat writes for all: its invocation, and a block.
ghost use Rattle.std.specs.Prelude.{All, IfOk, ◌≡◌, ◌+◌, ◌*◌, ◌<◌, ◌^◌, ℕ, Some, length};
ghost use Rattle.std.specs.Arc.{arc_value};
ghost use Rattle.triple_buffers.specs.Parties.{key_of, number_of, steps_of, view_of};
ghost use Rattle.uni_any.specs.Board.{block_news, call_news, made_by};
ghost use Rattle.uni_any.specs.Invariant.{most_calls};
ghost use Rattle.uni_any.specs.News.{told_by, version_as};
ghost use Rattle.uni_any.specs.Plays.{IsLaying, goes, local_of, stage_of};
ghost use Rattle.uni_any.specs.Standing.{IsPlaceOf};
ghost use Rattle.uni_any.specs.declared.view.Stage.TheVariants.{Idle, Posting, Writing};

use crate::news::News;
use crate::rule::{NewsOf, ObjectBuffers, ObjectParty};
use crate::seat::BlockOf;
use crate::steps::{lay, post};
use seq_object::SeqObject;
use std::alloc::{AllocError, Global};
use std::sync::Arc;

/// So many owners of one value.
pub(crate) fn owners<T: Drop>(
    alloc: Global,
    value: &Arc<T, Global>,
    count: u64,
) -> Result<Vec<Arc<T, Global>>, AllocError>
    ensures long { IfOk result (λ all. length all.items ≡ count) }
    ensures each { IfOk result (λ all. All (λ c. arc_value c ≡ arc_value value.now) all.items) }
{
    let mut all = Vec::with_capacity(alloc, count as usize)?;
    for _ in 0..count {
        all.push(Arc::try_clone(value)?)?;
    }
    Ok(all)
}

/// What a process tells: that it has made so many calls before this one, and its blocks; one owner for each of so many.
pub(crate) fn news_for<O: SeqObject>(
    alloc: Global,
    made: u64,
    asked: &Arc<O::Inv, Global>,
    last: &Arc<BlockOf<O>, Global>,
    next: &Arc<BlockOf<O>, Global>,
    count: u64,
) -> Result<Vec<NewsOf<O>>, AllocError>
    requires few { made < most_calls }
    ensures long { IfOk result (λ all. length all.items ≡ count) }
    ensures each { IfOk result (λ all. All (λ c. told_by c ≡ record {
      call = made + 1;
      inv = Some (arc_value asked.now);
      last = version_as (arc_value last.now);
      next = version_as (arc_value next.now);
    }) all.items) }
{
    let news = News {
        call: made + 1,
        inv: Some(Arc::try_clone(asked)?),
        last: Arc::try_clone(last)?,
        next: Arc::try_clone(next)?,
    };
    let Ok(news) = Arc::new(alloc, news) else {
        return Err(AllocError);
    };
    owners(alloc, &news, count)
}

/// Writes the invocation of the next call for all.
pub(crate) fn post_all<O: SeqObject>(
    buffers: &ObjectBuffers<O>,
    party: &mut ObjectParty<O>,
    owners: Vec<NewsOf<O>>,
)
    requires place { IsPlaceOf buffers.now party.old }
    requires some { 0 < (key_of buffers.now).processes }
    requires few { made_by (local_of (view_of party.old)) < most_calls }
    requires stage { stage_of (view_of party.old) ≡ Idle }
    requires owners { (length owners.items ≡ (key_of buffers.now).processes)
        × ((inv : O.Inv) × All (λ c. told_by c ≡ call_news (local_of (view_of party.old)) inv) owners.items) }
    ensures place { IsPlaceOf buffers.now party.new × (number_of party.new ≡ number_of party.old) }
    ensures left { (inv : O.Inv) → All (λ c. told_by c ≡ call_news (local_of (view_of party.old)) inv) owners.items
        → view_of party.new ≡ goes (view_of party.old) (Posting inv (key_of buffers.now).processes) }
    ensures steps { steps_of party.new ≡ steps_of party.old + 2 * (key_of buffers.now).processes }
{
    let mut owners = owners;
    for r in 0..buffers.key().processes {
        let Some(owner) = owners.pop() else {
            unreachable!()
        };
        post(buffers, party, r, owner);
    }
}

/// Writes a block for all.
pub(crate) fn lay_all<O: SeqObject>(
    buffers: &ObjectBuffers<O>,
    party: &mut ObjectParty<O>,
    owners: Vec<NewsOf<O>>,
)
    requires place { IsPlaceOf buffers.now party.old }
    requires some { 0 < (key_of buffers.now).processes }
    requires owners { (length owners.items ≡ (key_of buffers.now).processes)
        × ((inv : O.Inv) × ((tries : ℕ) × ((image : _)
        × IsLaying O.sequential inv tries image 0 (view_of party.old)
        × All (λ c. told_by c ≡ block_news (local_of (view_of party.old)) inv image) owners.items))) }
    ensures place { IsPlaceOf buffers.now party.new × (number_of party.new ≡ number_of party.old) }
    ensures left { (inv : O.Inv) (tries : ℕ) (image : _)
        → IsLaying O.sequential inv tries image 0 (view_of party.old)
        → All (λ c. told_by c ≡ block_news (local_of (view_of party.old)) inv image) owners.items
        → view_of party.new ≡ goes (view_of party.old) (Writing inv tries image (key_of buffers.now).processes) }
    ensures steps { steps_of party.new ≡ steps_of party.old + 2 * (key_of buffers.now).processes }
{
    let mut owners = owners;
    for r in 0..buffers.key().processes {
        let Some(owner) = owners.pop() else {
            unreachable!()
        };
        lay(buffers, party, r, owner);
    }
}
