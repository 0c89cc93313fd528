//! Comparing a closed log with what a process was told.
ghost use Rattle.std.specs.Prelude.{◌≡◌, ◌≢◌, ◌↔◌, ◌⊎◌, true, map, slice_get, IfSome};
ghost use Rattle.std.specs.Prelude.{IsSomeAnd};
ghost use Rattle.std.specs.declared.option.Option.TheVariants.{None, Some};
ghost use Rattle.universal_c.specs.Calls.{entries_in};
ghost use Rattle.universal_c.specs.Told.{AreCallsIn, DifferFirstAt, told_call};

use crate::Call;
use crate::handle::Handle;
use crate::held::Held;
use crate::status::{DIFFERS, DONE, WRONG_HANDLE};
use std::alloc::Global;
use uni_words::WordEntry;

/// Whether calls have the invocation and the reply of an entry at this place.
fn is_told(calls: &[Call], at: usize, entry: &WordEntry) -> bool
    ensures { (result ≡ true) ↔ (slice_get (map told_call calls.now) at ≡ Some (entry.now.inv, entry.now.reply)) }
{
    match calls.get(at) {
        Some(call) => entry.inv == call.inv && entry.reply == Some(call.answer.reply),
        None => false,
    }
}

/// The place of the first call in which a process's calls aren't what the entries have of the process.
fn first_other(entries: &[WordEntry], process: u64, calls: &[Call]) -> Option<usize>
    ensures none { result ≡ None → AreCallsIn entries.now process calls.now }
    ensures some { IfSome result (DifferFirstAt entries.now process calls.now) }
{
    let mut at = 0;
    for place in 0..entries.len() {
        let entry = &entries[place];
        if entry.call.process as u64 == process {
            if !is_told(calls, at, entry) {
                return Some(at);
            }
            at += 1;
        }
    }
    if at < calls.len() { Some(at) } else { None }
}

/// Compares a closed log with the calls that a process made and the replies that it was given, in their
/// order. 0: the log has exactly these calls of the process. 9: it hasn't, and the first call in which
/// they differ is told, by its number from 0 on. 7: the handle has no entries.
#[unsafe(no_mangle)]
pub extern "C" fn universal_compare(
    alloc: Global,
    log: &mut Handle,
    process: u64,
    calls: &[Call],
    nth: &mut u64,
) -> u32
    ensures kept { log.new.value ≡ log.old.value }
    ensures wrong { (result ≡ 7) ↔ (entries_in log.old.value ≡ None) }
    ensures status { (result ≡ 0) ⊎ (result ≡ 7) ⊎ (result ≡ 9) }
    ensures same { result ≡ 0 → IsSomeAnd (entries_in log.old.value) (λ log. AreCallsIn log process calls.now) }
    ensures differs { result ≡ 9 →
        IsSomeAnd (entries_in log.old.value) (λ log. DifferFirstAt log process calls.now nth.new) }
    ensures unchanged { result ≢ 9 → nth.new ≡ nth.old }
{
    let Some(held) = log.take(alloc) else {
        return WRONG_HANDLE;
    };
    let status = match &*held {
        Held::Entries(entries) => match first_other(entries, process, calls) {
            Some(place) => {
                *nth = place as u64;
                DIFFERS
            }
            None => DONE,
        },
        _ => WRONG_HANDLE,
    };
    *log = Handle::of(held);
    status
}
