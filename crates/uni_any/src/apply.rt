//! The calls of a seat.
ghost use Rattle.std.specs.Prelude.{IfOk, IsErrOf, IsNone, IsSome, None, OnErr, OnOk, Some, length};
ghost use Rattle.std.specs.Prelude.{◌≡◌, ◌+◌, ◌*◌, ◌<◌, ◌≤◌, ◌++◌, ◌∷◌, []};
ghost use Rattle.std.specs.Prelude.{◌⊎◌, ◌↔◌};
ghost use Rattle.std.specs.Arc.{arc_value};
ghost use Rattle.uni_any.specs.Board.{made_by};
ghost use Rattle.uni_any.specs.Invariant.{most_calls};
ghost use Rattle.uni_any.specs.Plays.{IsPending, goes};
ghost use Rattle.uni_any.specs.Seats.{HasFinished, IsKept, IsSeatOf, announce_steps, call_steps, calls_made};
ghost use Rattle.uni_any.specs.Seats.{local_in, own_calls, pending_call, process_of, processes_of, resume_steps};
ghost use Rattle.uni_any.specs.Seats.{version_of, view_in, word_steps_of};
ghost use Rattle.uni_any.specs.declared.seat.AnyFault as AnyFault;
ghost use Rattle.uni_any.specs.declared.seat.AnyResumeFault as AnyResumeFault;
ghost use Rattle.uni_any.specs.declared.view.Stage.TheVariants.{Posting};

use crate::seat::{AnyAnswer, AnyFault, AnyResumeFault, AnySeat, AnyShared};
use crate::writing::{news_for, post_all};
use seq_object::SeqObject;
use std::alloc::{AllocError, Global};
use std::sync::Arc;

/// The greatest number of calls of a seat: 2^50.
pub const MAX_CALLS: u64 = 1_125_899_906_842_624;

impl<O: SeqObject> AnySeat<O> {
    /// Writes the invocation of the next call for all. The error says that memory was refused.
    fn announce(
        &mut self,
        alloc: Global,
        shared: &AnyShared<O>,
        inv: O::Inv,
    ) -> Result<(), AllocError>
        requires seat { IsSeatOf shared.now self.old }
        requires idle { self.old.asked ≡ None }
        requires few { self.old.made < most_calls }
        ensures refused { OnErr result (self.new ≡ self.old) }
        ensures kept { OnOk result (IsKept shared.now self.new) }
        ensures same { (self.new.p ≡ self.old.p) × (self.new.made ≡ self.old.made) }
        ensures asked { OnOk result ((asked : _) × (self.new.asked ≡ Some asked) × (arc_value asked ≡ inv)) }
        ensures announced { OnOk result (view_in self.new ≡
            goes (view_in self.old) (Posting inv (processes_of shared.now))) }
        ensures steps { OnOk result (word_steps_of self.new ≡
            word_steps_of self.old + announce_steps (processes_of shared.now)) }
    {
        let Ok(asked) = Arc::new(alloc, inv) else {
            return Err(AllocError);
        };
        let n = shared.buffers.key().processes;
        let owners = news_for::<O>(alloc, self.made, &asked, &self.last, &self.last, n)?;
        post_all(&shared.buffers, &mut self.party, owners);
        self.asked = Some(asked);
        Ok(())
    }

    /// Goes on with the pending call to its reply. The error says that memory was refused: it is pending still.
    fn conclude(
        &mut self,
        alloc: Global,
        shared: &AnyShared<O>,
    ) -> Result<AnyAnswer<O::Resp>, AllocError>
        requires kept { IsKept shared.now self.old }
        requires made { (made_by (local_in self.old) ≡ self.old.made) × (self.old.made < most_calls) }
        requires pending { (asked : _) × (self.old.asked ≡ Some asked)
            × IsPending (arc_value asked) 0 (view_in self.old) }
        ensures seat { IsSeatOf shared.now self.new × (self.new.p ≡ self.old.p) }
        ensures finished { (asked : _) → self.old.asked ≡ Some asked
            → IsPending (arc_value asked) 0 (view_in self.old)
            → HasFinished (view_in self.old) (arc_value asked) (processes_of shared.now) result (view_in self.new) }
        ensures few_steps { word_steps_of self.new ≤ word_steps_of self.old + resume_steps (processes_of shared.now) }
    {
        let answer = self.finish(alloc, shared)?;
        self.made += 1;
        self.asked = None;
        Ok(answer)
    }

    /// Makes a call: its reply, and the number of a version of the object in which it is. That version is greater than
    /// the one that the seat had before, and the seat's later calls come after it. In no clause here: that the reply is
    /// the object's, that the call is in that version, and that it comes after all calls of the version that the seat
    /// had. Closing says so of the seat's calls (`own_is` and `stand` of `HasHistory`), and the law
    /// `every_execution_is_linearizable` of executions. Nor is it said when `Memory` comes: a body that answered it
    /// wherever neither `Pending` nor `Spent` is due, and changed nothing, would meet the clauses.
    ///
    /// With n processes it returns after at most `12 * n + 5` steps on shared words, whatever the others do; and the
    /// object's own `apply` is called at most `2 * n` times (in no clause). Announcing a call, which all others then
    /// help, is Herlihy's of 1991; copying a version and exchanging one word is his of 1993.
    ///
    /// Errors, in this order: `Pending` where the seat has a call pending, `Spent` where it has made `MAX_CALLS` calls:
    /// after either nothing is changed; `Memory`: where the call was not announced, nothing is changed; where it was,
    /// it is pending: it may take effect, and `resume` goes on with it. The invocation is dropped where it isn't
    /// announced.
    pub fn apply(
        &mut self,
        alloc: Global,
        shared: &AnyShared<O>,
        inv: O::Inv,
    ) -> Result<AnyAnswer<O::Resp>, AnyFault>
        requires seat { IsSeatOf shared.now self.old }
        ensures kept { IsSeatOf shared.now self.new × (process_of self.new ≡ process_of self.old) }
        ensures pending { IsErrOf result AnyFault.Pending ↔ IsSome (pending_call self.old) }
        ensures spent { IsErrOf result AnyFault.Spent ↔ (IsNone (pending_call self.old)
            × (most_calls ≤ calls_made self.old)) }
        ensures unchanged { IsErrOf result AnyFault.Pending ⊎ IsErrOf result AnyFault.Spent
            → self.new ≡ self.old }
        ensures memory { IsErrOf result AnyFault.Memory → (self.new ≡ self.old)
            ⊎ ((pending_call self.new ≡ Some inv) × (own_calls self.new ≡ own_calls self.old)) }
        ensures own { IfOk result (λ answer. own_calls self.new ≡ own_calls self.old ++ record {
          inv = inv;
          reply = answer.reply;
          after = version_of self.old;
          version = answer.version;
        } ∷ []) }
        ensures later { IfOk result (λ answer. version_of self.old < answer.version) }
        ensures version { IfOk result (λ answer. version_of self.new ≡ answer.version) }
        ensures same_version { OnErr result (version_of self.new ≡ version_of self.old) }
        ensures idle { OnOk result (pending_call self.new ≡ None) }
        ensures few_steps { word_steps_of self.new ≤ word_steps_of self.old + call_steps (processes_of shared.now) }
    {
        if self.asked.is_some() {
            return Err(AnyFault::Pending);
        }
        if self.made >= MAX_CALLS {
            return Err(AnyFault::Spent);
        }
        self.announce(alloc, shared, inv)?;
        let answer = self.conclude(alloc, shared)?;
        Ok(answer)
    }

    /// Goes on with the call that was left pending: its answer, as `apply` would have given it. It is one more of
    /// the seat's calls then.
    ///
    /// With n processes it returns after at most `10 * n + 5` steps on shared words. What is in no clause of `apply` is
    /// in none here: that the reply is the object's, that the call is in that version, and when `Memory` comes. A body
    /// that answered `Memory` wherever a call is pending, and changed nothing, would meet the clauses.
    ///
    /// Errors: `NothingPending` where no call is pending: nothing is changed; `Memory`: the call is pending still.
    pub fn resume(
        &mut self,
        alloc: Global,
        shared: &AnyShared<O>,
    ) -> Result<AnyAnswer<O::Resp>, AnyResumeFault>
        requires seat { IsSeatOf shared.now self.old }
        ensures kept { IsSeatOf shared.now self.new × (process_of self.new ≡ process_of self.old) }
        ensures nothing { IsErrOf result AnyResumeFault.NothingPending ↔ IsNone (pending_call self.old) }
        ensures unchanged { IsErrOf result AnyResumeFault.NothingPending → self.new ≡ self.old }
        ensures memory { IsErrOf result AnyResumeFault.Memory → (pending_call self.new ≡ pending_call self.old)
            × (own_calls self.new ≡ own_calls self.old) }
        ensures own { (inv : O.Inv) → pending_call self.old ≡ Some inv
            → IfOk result (λ answer. own_calls self.new ≡ own_calls self.old ++ record {
              inv = inv;
              reply = answer.reply;
              after = version_of self.old;
              version = answer.version;
            } ∷ []) }
        ensures later { IfOk result (λ answer. version_of self.old < answer.version) }
        ensures version { IfOk result (λ answer. version_of self.new ≡ answer.version) }
        ensures same_version { OnErr result (version_of self.new ≡ version_of self.old) }
        ensures idle { OnOk result (pending_call self.new ≡ None) }
        ensures few_steps { word_steps_of self.new ≤ word_steps_of self.old + resume_steps (processes_of shared.now) }
    {
        if self.asked.is_none() {
            return Err(AnyResumeFault::NothingPending);
        }
        let answer = self.conclude(alloc, shared)?;
        Ok(answer)
    }
}
