//! The check of a log and of what calls returned.

ghost use Rattle.std.specs.Prelude.{◌≡◌, ◌↔◌, List, [], ◌∷◌, ◌++◌, length, IfOk, true};
ghost use Rattle.std.specs.Option.{option_map_or};
ghost use Rattle.uni_log.specs.declared.entry.Entry.{Entry as Logged};
ghost use Rattle.uni_audit.specs.Verdict.{entry_verdict, entries_verdict, first, return_verdict, returns_verdict};
ghost use Rattle.uni_audit.specs.Verdict.{verdict_of};
ghost use Rattle.uni_audit.specs.CallPlaces.{AreMarked, HasGoneOver};
ghost use Rattle.uni_audit.specs.Audited.{IsAudited};
ghost use Rattle.uni_audit.specs.declared.verdict.Return.{Return};
ghost use Rattle.uni_audit.specs.declared.verdict.Verdict.TheVariants.{Agrees};

use crate::call_places::CallPlaces;
use crate::verdict::{Return, Verdict};
use seq_object::SeqObject;
use std::alloc::{AllocError, Global};
use uni_log::Entry;

/// What a check knows of the entries that it has gone over, from the first on. It keeps none of them.
#[derive(Drop)]
pub struct Check<S, R> {
    /// The object's state after them.
    state: S,
    /// Where the entry of each call stands.
    calls: CallPlaces,
    /// The reply of each entry.
    replies: Vec<Option<R>>,
}

/// Whether a reply is this answer, where there is one.
fn is_answered<R: Copy + Eq>(reply: Option<R>, answer: R) -> bool
    ensures { result ≡ option_map_or (λ r. R.eq r answer) reply true }
{
    match reply {
        Some(reply) => reply == answer,
        None => true,
    }
}

/// A check of an object that has gone over no entry, with room for these.
///
/// An `Err` says that memory was refused.
pub fn check_for<O: SeqObject>(
    alloc: Global,
    object: &O,
    entries: &[Entry<O::Inv, O::Resp>],
) -> Result<Check<O::State, O::Resp>, AllocError>
    ensures start { IfOk result (λ check. check.state ≡ (O.sequential object.now).initial) }
    ensures none { IfOk result (λ check. HasGoneOver {I = O.Inv} [] check) }
{
    Ok(Check {
        state: object.start(alloc)?,
        calls: CallPlaces::with_room_for(alloc, entries)?,
        replies: Vec::with_capacity(alloc, entries.len())?,
    })
}

/// The verdict on the entry after those that a check has gone over. Where there is no fault, the check has
/// gone over it too.
///
/// An `Err` says that memory was refused, or that there are more than 2^32 entries.
pub fn check_entry<O: SeqObject>(
    alloc: Global,
    object: &O,
    check: &mut Check<O::State, O::Resp>,
    entry: &Entry<O::Inv, O::Resp>,
) -> Result<Verdict, AllocError>
    ensures verdict { (earlier : List (Logged O.Inv O.Resp)) → HasGoneOver earlier check.old → IfOk result (λ v.
        v ≡ entry_verdict O.Resp.eq (O.sequential object.now) check.old.state earlier entry.now) }
    ensures state { IfOk result (λ v. v ≡ Agrees
        → check.new.state ≡ (O.sequential object.now).next check.old.state entry.now.inv) }
    ensures gone_over { (earlier : List (Logged O.Inv O.Resp)) → HasGoneOver earlier check.old → IfOk result (λ v.
        v ≡ Agrees → HasGoneOver (earlier ++ entry.now ∷ []) check.new) }
{
    let place = check.replies.len() as u64;
    let is_next = check.calls.push(alloc, entry.call, place)?;
    if !is_next {
        return Ok(Verdict::BadCall(place));
    }
    let (after, answer) = object.apply(alloc, &check.state, &entry.inv)?;
    if !is_answered(entry.reply, answer) {
        return Ok(Verdict::BadReply(place));
    }
    check.replies.push(entry.reply)?;
    check.state = after;
    Ok(Verdict::Agrees)
}

/// The verdict on entries, where a check has gone over none; `first` of it and of the verdict on later
/// entries is the verdict on all. Where there is no fault, the check has gone over them.
///
/// An `Err` says that memory was refused, or that there are more than 2^32 entries.
pub fn check_entries<O: SeqObject>(
    alloc: Global,
    object: &O,
    check: &mut Check<O::State, O::Resp>,
    entries: &[Entry<O::Inv, O::Resp>],
) -> Result<Verdict, AllocError>
    requires { HasGoneOver {I = O.Inv} [] check.old }
    ensures verdict { (later : List (Logged O.Inv O.Resp)) → IfOk result (λ v.
        first v (entries_verdict O.Resp.eq (O.sequential object.now) check.new.state entries.now later)
        ≡ entries_verdict O.Resp.eq (O.sequential object.now) check.old.state [] (entries.now ++ later)) }
    ensures gone_over { IfOk result (λ v. v ≡ Agrees → HasGoneOver entries.now check.new) }
{
    for entry in entries {
        let verdict = check_entry(alloc, object, check, entry)?;
        let Verdict::Agrees = verdict else {
            return Ok(verdict);
        };
    }
    Ok(Verdict::Agrees)
}

/// The verdict on a return, where the calls that returned before are marked. Where it agrees, its
/// call is marked too.
fn return_verdict<O: SeqObject>(
    check: &Check<O::State, O::Resp>,
    marks: &mut [bool],
    returned: &Return<O::Resp>,
) -> Verdict
    requires gone_over { (entries : List (Logged O.Inv O.Resp)) × HasGoneOver entries check.now }
    requires each { length marks.old ≡ length check.now.replies.items }
    ensures each { length marks.new ≡ length marks.old }
    ensures verdict { (entries : List (Logged O.Inv O.Resp)) (earlier : List (Return O.Resp))
        → HasGoneOver entries check.now → AreMarked entries earlier marks.old
        → result ≡ return_verdict O.Resp.eq entries earlier returned.now }
    ensures marked { (entries : List (Logged O.Inv O.Resp)) (earlier : List (Return O.Resp))
        → HasGoneOver entries check.now → AreMarked entries earlier marks.old → result ≡ Agrees
        → AreMarked entries (earlier ++ returned.now ∷ []) marks.new }
{
    let Some(place) = check.calls.place(returned.call) else {
        return Verdict::Missing(returned.call);
    };
    if marks[place] {
        return Verdict::Twice(returned.call);
    }
    let Some(reply) = check.replies[place] else {
        return Verdict::Missing(returned.call);
    };
    if reply != returned.reply {
        return Verdict::BadReturn(returned.call);
    }
    marks[place] = true;
    Verdict::Agrees
}

/// The verdict on returns, by the entries that a check has gone over.
///
/// An `Err` says that memory was refused.
pub fn check_returns<O: SeqObject>(
    alloc: Global,
    check: &Check<O::State, O::Resp>,
    returns: &[Return<O::Resp>],
) -> Result<Verdict, AllocError>
    requires gone_over { (entries : List (Logged O.Inv O.Resp)) × HasGoneOver entries check.now }
    ensures verdict { (entries : List (Logged O.Inv O.Resp)) → HasGoneOver entries check.now
        → IfOk result (λ v. v ≡ returns_verdict O.Resp.eq entries [] returns.now) }
{
    let mut marks = vec![in alloc; false; check.replies.len()]?;
    for returned in returns {
        let fault = return_verdict::<O>(check, &mut marks, returned);
        let Verdict::Agrees = fault else {
            return Ok(fault);
        };
    }
    Ok(Verdict::Agrees)
}

/// Checks entries and returns, and trusts neither. It goes over the entries in order, from the
/// object's start state, and then over the returns in order, and answers the first fault, or
/// `Agrees` where there is none. On one entry `BadCall` comes first; on one return the order is
/// `Twice`, `Missing`, `BadReturn`.
///
/// An `Err` says that memory was refused, or that there are more than 2^32 entries.
pub fn audit<O: SeqObject>(
    alloc: Global,
    object: &O,
    entries: &[Entry<O::Inv, O::Resp>],
    returns: &[Return<O::Resp>],
) -> Result<Verdict, AllocError>
    ensures verdict { IfOk result (λ v. v ≡ verdict_of O.Resp.eq (O.sequential object.now) entries.now returns.now) }
    ensures agrees { IfOk result (λ v. (v ≡ Agrees)
        ↔ IsAudited (O.sequential object.now) entries.now returns.now) }
{
    let mut check = check_for(alloc, object, entries)?;
    let verdict = check_entries(alloc, object, &mut check, entries)?;
    let Verdict::Agrees = verdict else {
        return Ok(verdict);
    };
    check_returns::<O>(alloc, &check, returns)
}
