//! What a seat learns, and the version that it finds.
ghost use Rattle.std.specs.Prelude.{◌≡◌, ◌+◌, ◌<◌, ◌≤◌, ℕ, Some, length, map};
ghost use Rattle.std.specs.Arc.{arc_value};
ghost use Rattle.uni_any.specs.Board.{number_in, process_in};
ghost use Rattle.uni_any.specs.Invariant.{base_of};
ghost use Rattle.uni_any.specs.News.{told_by, version_as};
ghost use Rattle.uni_any.specs.Plays.{HasLearned, IsPending, stage_of};
ghost use Rattle.uni_any.specs.declared.view.Stage.TheVariants.{Reading};
ghost use Rattle.uni_any.specs.Seats.{HasLookedAt, IsKept, local_in, look_steps, object_of, processes_of, view_in};
ghost use Rattle.uni_any.specs.Seats.{word_steps_of};
ghost use Rattle.uni_any.specs.Content.{applied_in, row_in};

use crate::seat::{AnySeat, AnyShared, BlockOf};
use crate::steps::{learn, start};
use seq_object::SeqObject;

/// The word S is so many times the number of a version, and the process that brought it in.
pub(crate) const SPAN: u64 = 64;

impl<O: SeqObject> AnySeat<O> {
    /// Looks into the buffer of process r.
    fn look_at(&mut self, shared: &AnyShared<O>, r: u64)
        requires kept { IsKept shared.now self.old }
        requires inside { r < processes_of shared.now }
        requires reading { (inv : O.Inv) × ((tries : ℕ) × (stage_of (view_in self.old) ≡ Reading inv tries r)) }
        ensures kept { IsKept shared.now self.new }
        ensures same { (self.new.p ≡ self.old.p) × (self.new.made ≡ self.old.made)
            × (self.new.asked ≡ self.old.asked) × (self.new.last ≡ self.old.last) }
        ensures learned { (found : _) × HasLearned O.sequential (view_in self.old) r found (view_in self.new) }
        ensures few_steps { word_steps_of self.new ≤ word_steps_of self.old + 2 }
    {
        if let Some(news) = learn(&shared.buffers, &mut self.party, r) {
            self.seen[r as usize] = news;
        }
    }

    /// Loads S, and looks into the buffers of all processes. The answer is S.
    pub(crate) fn look(&mut self, shared: &AnyShared<O>) -> u64
        requires kept { IsKept shared.now self.old }
        requires pending { (inv : O.Inv) × ((tries : ℕ) × IsPending inv tries (view_in self.old)) }
        ensures kept { IsKept shared.now self.new }
        ensures same { (self.new.p ≡ self.old.p) × (self.new.made ≡ self.old.made)
            × (self.new.asked ≡ self.old.asked) × (self.new.last ≡ self.old.last) }
        ensures looked { (inv : O.Inv) (tries : ℕ) → IsPending inv tries (view_in self.old)
            → HasLookedAt O.sequential (view_in self.old) inv tries result (view_in self.new) }
        ensures few_steps { word_steps_of self.new ≤ word_steps_of self.old + look_steps (processes_of shared.now) }
    {
        let word = start(&shared.buffers, &mut self.party);
        for r in 0..shared.buffers.key().processes {
            self.look_at(shared, r);
        }
        word
    }

    /// The version that S named where it was this word: it is one of the two that its process told last.
    pub(crate) fn found(&self, word: u64) -> &BlockOf<O>
        requires inside { process_in word < length self.now.seen.items }
        requires seen { (local_in self.now).seen ≡ map told_by self.now.seen.items }
        ensures { (object : _) (n : ℕ)
            → version_as result.now ≡ base_of object n (record (local_in self.now) { word = word }) }
    {
        self.seen[(word % SPAN) as usize].found(word / SPAN)
    }
}
