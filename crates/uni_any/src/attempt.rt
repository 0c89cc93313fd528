//! An attempt at a call, and how a call ends.
ghost use Rattle.std.specs.Prelude.{All, IfNone, IfSome, IsSome, OnErr, OnOk, Some, is_some, true, length};
ghost use Rattle.std.specs.Prelude.{◌≡◌, ◌≢◌, ◌+◌, ◌*◌, ◌<◌, ◌≤◌, ℕ};
ghost use Rattle.std.specs.Arc.{arc_value};
ghost use Rattle.uni_any.specs.Content.{applied_in, row_in};
ghost use Rattle.uni_any.specs.Board.{block_news, made_by, number_in, process_in};
ghost use Rattle.uni_any.specs.Invariant.{IsWhole, most_calls};
ghost use Rattle.uni_any.specs.News.{image_in, told_by, version_as};
ghost use Rattle.uni_any.specs.Plays.{IsLaying, IsPending, local_of};
ghost use Rattle.uni_any.specs.Seats.{GoesOnTo, HasEnded, HasFinished, HasTried, IsKept};
ghost use Rattle.uni_any.specs.Seats.{attempt_steps, base_in, local_in, processes_of, resume_steps, view_in};
ghost use Rattle.uni_any.specs.Seats.{word_steps_of};
ghost use Rattle.uni_any.specs.declared.view.Stage.TheVariants.{Ready};

use crate::looking::SPAN;
use crate::rule::NewsOf;
use crate::seat::{AnyAnswer, AnySeat, AnyShared, BlockOf};
use crate::steps::bring;
use crate::writing::{lay_all, news_for};
use seq_object::SeqObject;
use std::alloc::{AllocError, Global};
use std::sync::Arc;

impl<O: SeqObject> AnySeat<O> {
    /// The reply to the pending call, where the version that was found has it.
    fn answer(&self, shared: &AnyShared<O>, word: u64) -> Option<AnyAnswer<O::Resp>>
        requires kept { IsKept shared.now self.now }
        requires word { ((local_in self.now).word ≡ word) × (process_in word < processes_of shared.now) }
        requires few { self.now.made < most_calls }
        requires whole { IsWhole (processes_of shared.now) (base_in O.sequential shared.now self.now).image }
        ensures some { IfSome result (λ answer.
            (applied_in (base_in O.sequential shared.now self.now).image self.now.p ≡ self.now.made + 1)
            × ((row_in (base_in O.sequential shared.now self.now).image self.now.p).reply ≡ Some answer.reply)
            × (answer.version ≡ (base_in O.sequential shared.now self.now).number)) }
        ensures none { IfNone result
            (applied_in (base_in O.sequential shared.now self.now).image self.now.p ≢ self.now.made + 1) }
    {
        let base = self.found(word);
        let row = base.rows[self.p as usize];
        if row.applied != self.made + 1 {
            return None;
        }
        let Some(reply) = row.reply else {
            unreachable!()
        };
        Some(AnyAnswer {
            reply,
            version: base.number,
        })
    }

    /// Writes the block for all, and brings it in. The answer is `None` where S has changed.
    fn bring_in(
        &mut self,
        shared: &AnyShared<O>,
        word: u64,
        block: Arc<BlockOf<O>, Global>,
        owners: Vec<NewsOf<O>>,
    ) -> Option<AnyAnswer<O::Resp>>
        requires kept { IsKept shared.now self.old }
        requires word { ((local_in self.old).word ≡ word) × (word < 9223372036854775808) }
        requires wide { length (image_in block).rows ≡ processes_of shared.now }
        requires number { (version_as (arc_value block)).number ≡ number_in word + 1 }
        requires owners { (length owners.items ≡ processes_of shared.now) × ((inv : O.Inv) × ((tries : ℕ)
            × IsLaying O.sequential inv tries (image_in block) 0 (view_in self.old)
            × All (λ c. told_by c ≡ block_news (local_in self.old) inv (image_in block)) owners.items)) }
        ensures kept { IsKept shared.now self.new }
        ensures same { (self.new.p ≡ self.old.p) × (self.new.made ≡ self.old.made)
            × (self.new.asked ≡ self.old.asked) }
        ensures brought { (inv : O.Inv) (tries : ℕ)
            → IsLaying O.sequential inv tries (image_in block) 0 (view_in self.old)
            → All (λ c. told_by c ≡ block_news (local_in self.old) inv (image_in block)) owners.items
            → IfSome result (λ a. HasEnded (view_in self.old) inv a.reply a.version (view_in self.new))
            × IfNone result (GoesOnTo (view_in self.old) (Ready inv (tries + 1)) (view_in self.new)) }
        ensures few_steps { word_steps_of self.new ≤ word_steps_of self.old + (2 * processes_of shared.now + 1) }
    {
        lay_all(&shared.buffers, &mut self.party, owners);
        let new = SPAN * (word / SPAN + 1) + self.p;
        let found = bring(&shared.buffers, &mut self.party, word, new);
        if found != word {
            return None;
        }
        let Some(reply) = block.rows[self.p as usize].reply else {
            unreachable!()
        };
        let version = block.number;
        self.last = block;
        Some(AnyAnswer { reply, version })
    }

    /// An attempt at the pending call: its reply, or `None` where the attempt has failed.
    fn attempt(
        &mut self,
        alloc: Global,
        shared: &AnyShared<O>,
    ) -> Result<Option<AnyAnswer<O::Resp>>, AllocError>
        requires kept { IsKept shared.now self.old }
        requires made { (made_by (local_in self.old) ≡ self.old.made) × (self.old.made < most_calls) }
        requires pending { (asked : _) × (self.old.asked ≡ Some asked)
            × ((tries : ℕ) × IsPending (arc_value asked) tries (view_in self.old)) }
        ensures kept { IsKept shared.now self.new }
        ensures same { (self.new.p ≡ self.old.p) × (self.new.made ≡ self.old.made)
            × (self.new.asked ≡ self.old.asked) }
        ensures tried { (asked : _) (tries : ℕ) → self.old.asked ≡ Some asked
            → IsPending (arc_value asked) tries (view_in self.old)
            → HasTried (view_in self.old) (arc_value asked) tries (processes_of shared.now) result
            (view_in self.new) }
        ensures few_steps { word_steps_of self.new
            ≤ word_steps_of self.old + attempt_steps (processes_of shared.now) }
    {
        let word = self.look(shared);
        if let Some(answer) = self.answer(shared, word) {
            return Ok(Some(answer));
        }
        let block = self.draft(alloc, shared, word)?;
        let Ok(block) = Arc::new(alloc, block) else {
            return Err(AllocError);
        };
        let Some(asked) = &self.asked else {
            unreachable!()
        };
        let n = shared.buffers.key().processes;
        let owners = news_for::<O>(alloc, self.made, asked, &self.last, &block, n)?;
        Ok(self.bring_in(shared, word, block, owners))
    }

    /// Goes on with the pending call to its reply.
    pub(crate) fn finish(
        &mut self,
        alloc: Global,
        shared: &AnyShared<O>,
    ) -> Result<AnyAnswer<O::Resp>, AllocError>
        requires kept { IsKept shared.now self.old }
        requires made { (made_by (local_in self.old) ≡ self.old.made) × (self.old.made < most_calls) }
        requires pending { (asked : _) × (self.old.asked ≡ Some asked)
            × IsPending (arc_value asked) 0 (view_in self.old) }
        ensures kept { IsKept shared.now self.new }
        ensures same { (self.new.p ≡ self.old.p) × (self.new.made ≡ self.old.made)
            × (self.new.asked ≡ self.old.asked) }
        ensures finished { (asked : _) → self.old.asked ≡ Some asked
            → IsPending (arc_value asked) 0 (view_in self.old)
            → HasFinished (view_in self.old) (arc_value asked) (processes_of shared.now) result (view_in self.new) }
        ensures few_steps { word_steps_of self.new ≤ word_steps_of self.old + resume_steps (processes_of shared.now) }
    {
        let first = self.attempt(alloc, shared)?;
        if let Some(answer) = first {
            return Ok(answer);
        }
        let second = self.attempt(alloc, shared)?;
        if let Some(answer) = second {
            return Ok(answer);
        }
        let word = self.look(shared);
        let Some(answer) = self.answer(shared, word) else {
            unreachable!()
        };
        Ok(answer)
    }
}
