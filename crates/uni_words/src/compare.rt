//! Comparing a log with what callers were told.
ghost use Rattle.std.specs.Prelude.{◌≡◌, ◌↔◌, ◌<◌, ◌^◌, ℕ, true, IfSome, None, Some, length};
ghost use Rattle.std.specs.Prelude.{map};
ghost use Rattle.std.specs.Prelude.{slice_get};
ghost use Rattle.uni_words.specs.Compare.{Agrees, DiffersFirstAt, IsFirstFault, IsFirstWrong, IsRight};
ghost use Rattle.uni_words.specs.Log.{calls_by, entry_shown, replied};

use crate::object::WordObject;
use crate::read::WordEntry;
use seq_object::CallId;

/// Whether the entry has the reply that the object gives in this state, and its process is one of so
/// many.
fn is_right<O: WordObject>(object: &O, state: u32, entry: WordEntry, processes: usize) -> bool
    requires { state < 2 ^ 31 }
    ensures { (result ≡ true) ↔ ((entry.reply ≡ Some ((O.sequential object.now).answer state entry.inv))
        × (entry.call.process < processes)) }
{
    let reply = object.answer(state, entry.inv);
    entry.reply == Some(reply) && (entry.call.process as usize) < processes
}

/// The call of the first entry whose reply is missing or not the object's, or whose process isn't one
/// of so many.
fn first_wrong<O: WordObject>(object: &O, entries: &[WordEntry], processes: usize) -> Option<CallId>
    ensures none { result ≡ None → (place : ℕ)
        → IsRight (O.sequential object.now) (map entry_shown entries.now) processes place }
    ensures some { IfSome result (IsFirstWrong (O.sequential object.now) (map entry_shown entries.now) processes) }
{
    let mut state = object.start();
    for place in 0..entries.len() {
        let entry = entries[place];
        if !is_right(object, state, entry, processes) {
            return Some(entry.call);
        }
        state = object.next(state, entry.inv);
    }
    None
}

/// Whether a list has the invocation and the reply of an entry at this place.
fn is_told(own: &[(u64, u32)], at: usize, entry: WordEntry) -> bool
    ensures { (result ≡ true) ↔ (slice_get (map replied own.now) at ≡ Some (entry.inv, entry.reply)) }
{
    match own.get(at) {
        Some(&(inv, reply)) => entry.inv == inv && entry.reply == Some(reply),
        None => false,
    }
}

/// The place of the first call in which a process's list isn't what the entries have of the process.
fn first_other(entries: &[WordEntry], process: u32, own: &[(u64, u32)]) -> Option<usize>
    ensures none { result ≡ None → calls_by process (map entry_shown entries.now) ≡ map replied own.now }
    ensures some { IfSome result (DiffersFirstAt (calls_by process (map entry_shown entries.now))
        (map replied own.now)) }
{
    let mut at = 0;
    for place in 0..entries.len() {
        let entry = entries[place];
        if entry.call.process == process {
            if !is_told(own, at, entry) {
                return Some(at);
            }
            at += 1;
        }
    }
    if at < own.len() { Some(at) } else { None }
}

/// The first call in which a log and what its callers were told differ. List p has the invocations
/// of process p with the replies that it was given.
///
/// `None` says exactly that each entry has the reply that the object gives at its place, from the
/// start state on, and that the lists are what the entries have of their processes, in order, with no
/// entry of any other process. Else this is the call of the first entry whose reply is missing or not
/// the object's, or whose process has no list; where there is none, it is the first call, by process
/// and by its place in the process's list, in which the list and the entries differ. It takes no
/// memory. There are fewer than 2^32 lists.
pub fn differs<O: WordObject>(
    object: &O,
    entries: &[WordEntry],
    lists: &[Vec<(u64, u32)>],
) -> Option<CallId>
    requires few { length lists.now < 2 ^ 32 }
    ensures agrees { (result ≡ None) ↔ Agrees (O.sequential object.now) (map entry_shown entries.now)
        (map (λ own. own.items) lists.now) }
    ensures first { IfSome result (IsFirstFault (O.sequential object.now) (map entry_shown entries.now)
        (map (λ own. own.items) lists.now)) }
{
    if let Some(call) = first_wrong(object, entries, lists.len()) {
        return Some(call);
    }
    for process in 0..lists.len() {
        if let Some(place) = first_other(entries, process as u32, &lists[process]) {
            return Some(CallId {
                process: process as u32,
                nth: place as u64,
            });
        }
    }
    None
}
