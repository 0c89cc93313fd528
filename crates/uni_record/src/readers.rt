//! What can be read of a record.

ghost use Rattle.std.specs.Prelude.{◌≡◌, IfOk, map};
ghost use Rattle.uni_model.specs.History.{log_of_run};
ghost use Rattle.uni_log.specs.Entry.{entry_shown};
ghost use Rattle.uni_audit.specs.Audited.{IsAudited};
ghost use Rattle.uni_record.specs.Event.{events_shown};
ghost use Rattle.uni_record.specs.Recorded.{meaning, opening, IsRecording, IsPromised};

use crate::counts::Counts;
use crate::events::Events;
use crate::recorded::Recorded;
use seq_object::SeqObject;
use std::alloc::{AllocError, Global};
use uni_audit::{Return, Verdict, check_entries, check_entry, check_for, check_returns};
use uni_core::World;
use uni_log::{Entry, Log};
use uni_model::{
    is_universal, joined_log_holds_responses, joined_log_is_legal, joined_log_only_grows,
    links_soon,
};

impl<O: SeqObject> Recorded<O> {
    /// The world, to be read.
    pub fn world(&self) -> &World<O>
        ensures { result.now ≡ self.now.world }
    {
        &self.world
    }

    /// How many processes there were at the opening.
    pub fn processes(&self) -> u64
        ensures { result ≡ self.now.processes }
    {
        self.processes
    }

    /// The number that the anchor had at the opening.
    pub fn first(&self) -> u64
        ensures { result ≡ self.now.first }
    {
        self.first
    }

    /// How many events there can be.
    pub fn limit(&self) -> u64
        ensures { result ≡ self.now.limit }
    {
        self.limit
    }

    /// The events since the opening, in order. What a call asks for is lent.
    pub fn events(&self) -> Events<'_, O::Inv>
        ensures { result ≡ self.now.events }
    {
        self.events.iter()
    }

    /// The calls that have returned, in the order of their returns, each with its reply.
    pub fn returns(&self) -> &[Return<O::Resp>]
        ensures { result.now ≡ self.now.returns }
    {
        self.returns.as_slice()
    }

    /// The own steps and the turns of the calls that have returned, in the same order.
    pub fn counts(&self) -> &[Counts]
        ensures { result.now ≡ self.now.counts }
    {
        self.counts.as_slice()
    }

    /// The entries of all eras, in the order in which their calls took effect: those of the ended eras,
    /// which are kept, and then those of the present one. An audit of them and of the returns agrees.
    ///
    /// An `Err` says that memory was refused.
    pub fn entries(&self, alloc: Global) -> Result<Vec<Entry<O::Inv, O::Resp>>, AllocError>
        ensures joined { IfOk result (λ entries. map entry_shown entries.items
            ≡ log_of_run (meaning O.sequential self.now) (opening O.sequential self.now)
            (events_shown self.now.events)) }
        ensures audited { IfOk result (λ entries. IsAudited
            (meaning O.sequential self.now) entries.items self.now.returns) }
    {
        self.promise();
        joined_log_is_legal::<O>();
        joined_log_holds_responses::<O>();
        let ended = copied_entries::<O>(alloc, &self.ended)?;
        Log::of(&self.world).entries_after(alloc, ended)
    }

    /// What an audit of the entries of all eras and of the returns says: they agree, in every record. What that means
    /// says `audited` of `entries` (`IsAudited`). The entries are gone over one at a time, and not copied as a whole.
    ///
    /// An `Err` says that memory was refused.
    pub fn audit(&self, alloc: Global) -> Result<Verdict, AllocError>
        ensures agrees { IfOk result (λ verdict. verdict ≡ Verdict.Agrees) }
    {
        self.promise();
        joined_log_is_legal::<O>();
        joined_log_holds_responses::<O>();
        let object = self.world.object();
        let mut check = check_for(alloc, object, &self.ended)?;
        let verdict = check_entries(alloc, object, &mut check, &self.ended)?;
        let Verdict::Agrees = verdict else {
            return Ok(verdict);
        };
        let mut cursor = Log::of(&self.world).cursor();
        while let Some(entry) = cursor.next_entry(alloc)? {
            let verdict = check_entry(alloc, object, &mut check, &entry)?;
            let Verdict::Agrees = verdict else {
                return Ok(verdict);
            };
        }
        check_returns::<O>(alloc, &check, &self.returns)
    }

    /// What every record keeps, for proofs: the call does nothing.
    pub fn promise(&self)
        ensures recording { IsRecording O.sequential self.now }
        ensures promised { IsPromised O.sequential self.now }
    {
        self.world.shape();
        is_universal::<O>();
        links_soon::<O>();
        joined_log_only_grows::<O>();
    }
}

/// A copy of an entry.
///
/// An `Err` says that memory was refused.
fn copied_entry<O: SeqObject>(
    alloc: Global,
    entry: &Entry<O::Inv, O::Resp>,
) -> Result<Entry<O::Inv, O::Resp>, AllocError>
    ensures { IfOk result (λ copy. copy ≡ entry.now) }
{
    Ok(Entry {
        seq: entry.seq,
        call: entry.call,
        inv: O::copy_inv(alloc, &entry.inv)?,
        reply: entry.reply,
    })
}

/// A copy of entries.
///
/// An `Err` says that memory was refused.
fn copied_entries<O: SeqObject>(
    alloc: Global,
    entries: &[Entry<O::Inv, O::Resp>],
) -> Result<Vec<Entry<O::Inv, O::Resp>>, AllocError>
    ensures { IfOk result (λ copies. copies.items ≡ entries.now) }
{
    let mut copies = Vec::with_capacity(alloc, entries.len())?;
    for entry in entries {
        copies.push(copied_entry::<O>(alloc, entry)?)?;
    }
    Ok(copies)
}
