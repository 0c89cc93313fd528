//! The next version: that which was found, with the calls that come next applied.
ghost use Rattle.std.specs.Prelude.{◌≡◌, ◌+◌, ◌<◌, ℕ, IfOk, IsSome, OnOk, Some, length, map};
ghost use Rattle.std.specs.Arc.{arc_value};
ghost use Rattle.uni_any.specs.Content.{row_in};
ghost use Rattle.uni_any.specs.Board.{number_in, process_in};
ghost use Rattle.uni_any.specs.Drafts.{image_so_far, one_applied};
ghost use Rattle.uni_any.specs.Invariant.{IsWhole, seen_of};
ghost use Rattle.uni_any.specs.News.{drafted, due, told_by, version_as};
ghost use Rattle.uni_any.specs.Seats.{IsKept, base_in, local_in, object_of, processes_of, view_in};

use crate::looking::SPAN;
use crate::news::{Block, Row};
use crate::rule::NewsOf;
use crate::seat::{AnySeat, AnyShared, BlockOf};
use seq_object::SeqObject;
use std::alloc::{AllocError, Global};

/// What an attempt has so far: the state, where it has applied a call, and the rows.
#[derive(Drop)]
pub(crate) struct Draft<S, R> {
    pub state: Option<S>,
    pub rows: Vec<Row<R>>,
}

/// The state that an attempt has so far.
fn state_so_far<'a, S, R>(draft: &'a Draft<S, R>, base: &'a Block<S, R>) -> &'a S
    ensures { result.now ≡ (image_so_far draft.now base.now).state }
{
    match &draft.state {
        Some(state) => state,
        None => &base.state,
    }
}

/// Applies the invocation of process r that was seen, where it comes next.
fn apply_due<O: SeqObject>(
    alloc: Global,
    object: &O,
    r: u64,
    base: &BlockOf<O>,
    news: &NewsOf<O>,
    draft: &mut Draft<O::State, O::Resp>,
) -> Result<(), AllocError>
    requires inside { (r < length draft.old.rows.items) × (r < length base.now.rows.items) }
    requires row { row_in (image_so_far draft.old base.now) r ≡ row_in (version_as base.now).image r }
    ensures applied { OnOk result (image_so_far draft.new base.now ≡ one_applied (O.sequential object.now)
        (image_so_far draft.old base.now) r (due (version_as base.now).image r (told_by news.now))) }
    ensures some { OnOk result (IsSome draft.old.state → IsSome draft.new.state) }
    ensures own { OnOk result (IsSome (due (version_as base.now).image r (told_by news.now))
        → IsSome draft.new.state) }
    ensures long { length draft.new.rows.items ≡ length draft.old.rows.items }
{
    let applied = base.rows[r as usize].applied;
    if news.call == 0 || news.call - 1 != applied {
        return Ok(());
    }
    let Some(inv) = &news.inv else {
        return Ok(());
    };
    let before = state_so_far(draft, base);
    let (next, reply) = object.apply(alloc, before, inv)?;
    draft.rows[r as usize] = Row {
        applied: news.call,
        reply: Some(reply),
    };
    draft.state = Some(next);
    Ok(())
}

impl<O: SeqObject> AnySeat<O> {
    /// The next version, of which S named the one before.
    pub(crate) fn draft(
        &self,
        alloc: Global,
        shared: &AnyShared<O>,
        word: u64,
    ) -> Result<BlockOf<O>, AllocError>
        requires kept { IsKept shared.now self.now }
        requires word { ((local_in self.now).word ≡ word) × (process_in word < processes_of shared.now)
            × (word < 9223372036854775808) }
        requires whole { IsWhole (processes_of shared.now) (base_in O.sequential shared.now self.now).image }
        requires own { IsSome (due (base_in O.sequential shared.now self.now).image self.now.p
            (seen_of (O.sequential (object_of shared.now)) (processes_of shared.now) (local_in self.now) self.now.p)) }
        ensures { IfOk result (λ block. version_as block ≡ record {
          number = number_in word + 1;
          image = drafted (O.sequential (object_of shared.now)) (base_in O.sequential shared.now self.now).image
              (local_in self.now).seen;
        }) }
    {
        let base = self.found(word);
        let before = base.rows.as_slice();
        let mut rows = Vec::with_capacity(alloc, before.len())?;
        rows.extend_from_slice(before)?;
        let mut draft = Draft { state: None, rows };
        for r in 0..shared.buffers.key().processes {
            apply_due(
                alloc,
                &shared.buffers.key().object,
                r,
                base,
                &self.seen[r as usize],
                &mut draft,
            )?;
        }
        let Draft { state, rows } = draft;
        let Some(state) = state else { unreachable!() };
        Ok(Block {
            number: word / SPAN + 1,
            state,
            rows,
        })
    }
}
