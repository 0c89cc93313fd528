//! What only reads is no call: a seat finds the present version.
ghost use Rattle.std.specs.Prelude.{◌≡◌, ◌↔◌, ◌+◌, ◌<◌, ◌≤◌, [], ◌∷◌};
ghost use Rattle.std.specs.Prelude.{IfOk, IsErr, IsSome, IsTrue, OnErr, OnOk};
ghost use Rattle.std.specs.Arc.{arc_value};
ghost use Rattle.uni_any.specs.Board.{number_in, process_in};
ghost use Rattle.uni_any.specs.News.{version_as};
ghost use Rattle.uni_any.specs.Plays.{HasSeen, stage_of};
ghost use Rattle.uni_any.specs.Seats.{IsKept, IsSeatOf, known_calls, local_in, object_of, own_calls, pending_call};
ghost use Rattle.uni_any.specs.Seats.{process_of, processes_of, read_steps, version_of, version_seen, view_in};
ghost use Rattle.uni_any.specs.Seats.{word_steps_of};
ghost use Rattle.uni_any.specs.Versions.{IsVersionOf};
ghost use Rattle.uni_any.specs.declared.view.Stage.TheVariants.{Idle};

use crate::looking::SPAN;
use crate::seat::{AnySeat, AnyShared, BlockOf, CallPending};
use crate::steps::{see, view};
use seq_object::SeqObject;

impl<O: SeqObject> AnySeat<O> {
    /// Looks, between calls, into the buffer of the process that S named.
    fn see_at(&mut self, shared: &AnyShared<O>, from: u64)
        requires kept { IsKept shared.now self.old }
        requires inside { from < processes_of shared.now }
        requires idle { stage_of (view_in self.old) ≡ Idle }
        requires named { process_in (local_in self.old).word ≡ from }
        requires follows { (local_in self.old).after ≡ number_in (local_in self.old).word }
        ensures kept { IsKept shared.now self.new }
        ensures same { (self.new.p ≡ self.old.p) × (self.new.made ≡ self.old.made)
            × (self.new.asked ≡ self.old.asked) }
        ensures seen { (found : _) × HasSeen O.sequential (view_in self.old) from found (view_in self.new) }
        ensures few_steps { word_steps_of self.new ≤ word_steps_of self.old + 2 }
    {
        if let Some(news) = see(&shared.buffers, &mut self.party, from) {
            self.seen[from as usize] = news;
        }
    }

    /// Finds the present version, or one that comes while it looks: the answer is its number, and `version` shows it.
    /// It takes no memory and copies nothing. That, and that the version is the present one or comes meanwhile, is in
    /// no clause.
    ///
    /// The seat follows that version: its later calls come after all calls that are in it, and their versions are
    /// greater. The version has the state after the first calls of a history that the atomic object accepts, and all
    /// calls of the seat are among these; its rows say how many of each process they are. Which calls the other
    /// processes make in that history is not said.
    ///
    /// It takes at most 3 steps on shared words, and is no call. The error says that the seat has a call pending;
    /// nothing is changed then.
    pub fn refresh(&mut self, shared: &AnyShared<O>) -> Result<u64, CallPending>
        requires seat { IsSeatOf shared.now self.old }
        ensures kept { IsSeatOf shared.now self.new × (process_of self.new ≡ process_of self.old) }
        ensures pending { IsErr result ↔ IsSome (pending_call self.old) }
        ensures unchanged { OnErr result (self.new ≡ self.old) }
        ensures calls { (own_calls self.new ≡ own_calls self.old)
            × (pending_call self.new ≡ pending_call self.old) }
        ensures told { IfOk result (λ number.
            IsVersionOf (O.sequential (object_of shared.now)) (processes_of shared.now) (known_calls self.new ∷ [])
            number (version_seen O.sequential shared.now self.new).image) }
        ensures number { IfOk result (λ number. (version_seen O.sequential shared.now self.new).number ≡ number) }
        ensures version { IfOk result (λ number. version_of self.new ≡ number) }
        ensures later { version_of self.old ≤ version_of self.new }
        ensures few_steps { OnOk result (word_steps_of self.new ≤ word_steps_of self.old + read_steps) }
    {
        if self.asked.is_some() {
            return Err(CallPending);
        }
        let word = view(&shared.buffers, &mut self.party);
        self.see_at(shared, word % SPAN);
        self.named = word;
        Ok(self.version(shared).number)
    }

    /// The version that `refresh` or `follows` found last; the start, where neither has found one (in no clause). After
    /// a call of the seat it may be a later one, so ask before.
    pub fn version(&self, shared: &AnyShared<O>) -> &BlockOf<O>
        requires seat { IsSeatOf shared.now self.now }
        ensures { version_as result.now ≡ version_seen O.sequential shared.now self.now }
    {
        self.found(self.named)
    }

    /// Asks whether this version has come: it finds the present version, as `refresh` does. The answer is `true`
    /// exactly where that one's number is at least the one that was asked for. `version` shows it then, and `told` says
    /// of it what `refresh` does.
    ///
    /// The version of each call that was answered has come: the law `returned_has_come` says so, and no clause of
    /// this call. So whoever was told of a call's version, by whatever means, and follows it, makes its later calls
    /// come after that call.
    ///
    /// It takes at most 3 steps on shared words, and is no call. As of `refresh`, no clause says that the version is
    /// the present one or comes meanwhile. The error says that the seat has a call pending; nothing is changed then.
    pub fn follows(&mut self, shared: &AnyShared<O>, version: u64) -> Result<bool, CallPending>
        requires seat { IsSeatOf shared.now self.old }
        ensures kept { IsSeatOf shared.now self.new × (process_of self.new ≡ process_of self.old) }
        ensures pending { IsErr result ↔ IsSome (pending_call self.old) }
        ensures unchanged { OnErr result (self.new ≡ self.old) }
        ensures calls { (own_calls self.new ≡ own_calls self.old)
            × (pending_call self.new ≡ pending_call self.old) }
        ensures asked { IfOk result (λ come. IsTrue come ↔ (version ≤ version_of self.new)) }
        ensures told { OnOk result (
            IsVersionOf (O.sequential (object_of shared.now)) (processes_of shared.now) (known_calls self.new ∷ [])
            (version_of self.new) (version_seen O.sequential shared.now self.new).image) }
        ensures number { OnOk result ((version_seen O.sequential shared.now self.new).number ≡ version_of self.new) }
        ensures later { version_of self.old ≤ version_of self.new }
        ensures few_steps { OnOk result (word_steps_of self.new ≤ word_steps_of self.old + read_steps) }
    {
        let present = self.refresh(shared)?;
        Ok(version <= present)
    }
}
