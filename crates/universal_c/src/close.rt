//! Closing a log, reading its entries, and letting a handle go.
ghost use Rattle.std.specs.Prelude.{◌≡◌, ◌≢◌, ◌↔◌, ◌⊎◌, ◌++◌, List, drop, length, map};
ghost use Rattle.std.specs.Prelude.{take, IfSome, IsSome};
ghost use Rattle.std.specs.declared.option.Option.TheVariants.{None, Some};
ghost use Rattle.uni_words.specs.declared.read.WordEntry.{WordEntry};
ghost use Rattle.uni_words.specs.Belongs.{log_in as log_told};
ghost use Rattle.universal_c.specs.Calls.{HasClosed, closed_in, entries_in, log_in, seat_in, unread_in};
ghost use Rattle.universal_c.specs.Told.{told};

use crate::Entry;
use crate::handle::Handle;
use crate::held::{Held, Seated};
use crate::status::{BUSY, DONE, MEMORY, WRONG_HANDLE};
use std::alloc::Global;
use std::mem::replace;
use std::sync::Arc;
use uni_words::{WordEntry, Words, read_log};

/// Reads the calls of a closed log.
fn read_closed(alloc: Global, words: Words, held: &mut Held) -> u32
    ensures status { (result ≡ 0) ⊎ (result ≡ 3) }
    ensures same { closed_in (Some held.new) ≡ Some (log_told words) }
    ensures read { result ≡ 0 → IsSome (entries_in (Some held.new)) }
    ensures unread { result ≡ 3 → IsSome (unread_in (Some held.new)) }
{
    match read_log(alloc, &words) {
        Ok(entries) => {
            *held = Held::Entries(entries);
            DONE
        }
        Err(_) => {
            *held = Held::Closed(words);
            MEMORY
        }
    }
}

/// Closes the log of a seat, by the last handle that has the log, and reads its entries.
/// 0: the entries are held in place of the seat. 3: memory was refused; the log is closed, and is held in place of
/// the seat: a further call reads the entries. 6: another handle has the log. 7: neither a seat nor such a log is
/// held. After 6 and 7 the handle is as before.
#[unsafe(no_mangle)]
pub extern "C" fn universal_close(alloc: Global, seat: &mut Handle) -> u32
    ensures wrong { (result ≡ 7) ↔ ((seat_in seat.old.value ≡ None) × (unread_in seat.old.value ≡ None)) }
    ensures status { (result ≡ 0) ⊎ (result ≡ 3) ⊎ (result ≡ 6) ⊎ (result ≡ 7) }
    ensures kept { result ≡ 7 → seat.new.value ≡ seat.old.value }
    ensures busy { result ≡ 6 → IsSome (seat_in seat.new.value)
        × (seat_in seat.new.value ≡ seat_in seat.old.value) × (log_in seat.new.value ≡ log_in seat.old.value) }
    ensures closed { IsSome (seat_in seat.old.value) → (result ≡ 0) ⊎ (result ≡ 3)
        → HasClosed seat.old.value seat.new.value }
    ensures again { IsSome (unread_in seat.old.value) → closed_in seat.new.value ≡ closed_in seat.old.value }
    ensures read { result ≡ 0 → IsSome (entries_in seat.new.value) }
    ensures unread { result ≡ 3 → IsSome (unread_in seat.new.value) }
{
    let Some(mut held) = seat.take(alloc) else {
        return WRONG_HANDLE;
    };
    let status = match replace(&mut *held, Held::Nothing) {
        Held::Seat(Seated { log, seat: last }) => match Arc::try_unwrap(log) {
            Ok(log) => read_closed(alloc, log.close_with(last), &mut held),
            Err(log) => {
                *held = Held::Seat(Seated { log, seat: last });
                BUSY
            }
        },
        Held::Closed(words) => read_closed(alloc, words, &mut held),
        other => {
            *held = other;
            WRONG_HANDLE
        }
    };
    *seat = Handle::of(held);
    status
}

fn entry_of(entry: &WordEntry) -> Entry
    ensures { result ≡ told entry.now }
{
    let (reply, is_replied) = match entry.reply {
        Some(reply) => (reply, 1),
        None => (0, 0),
    };
    Entry {
        seq: entry.seq,
        process: entry.call.process as u64,
        nth: entry.call.nth,
        inv: entry.inv,
        reply,
        is_replied,
    }
}

fn read(log: &[WordEntry], entries: &mut [Entry], count: &mut usize)
    ensures count { count.new ≡ length log.now }
    ensures entries { entries.new ≡ map told (take (length entries.old) log.now)
        ++ drop (length log.now) entries.old }
{
    *count = log.len();
    let most = log.len().min(entries.len());
    for i in 0..most {
        entries[i] = entry_of(&log[i]);
    }
}

/// Writes the first entries of a closed log, in order, as many as there is room for, and how many
/// there are in all. 7: the handle has no entries, and nothing is written.
#[unsafe(no_mangle)]
pub extern "C" fn universal_read(
    alloc: Global,
    log: &mut Handle,
    entries: &mut [Entry],
    count: &mut usize,
) -> u32
    ensures same { log.new.value ≡ log.old.value }
    ensures wrong { (result ≡ 7) ↔ (entries_in log.old.value ≡ None) }
    ensures status { (result ≡ 0) ⊎ (result ≡ 7) }
    ensures unchanged { result ≢ 0 → (entries.new ≡ entries.old) × (count.new ≡ count.old) }
    ensures count { IfSome (entries_in log.old.value) (λ log. count.new ≡ length log) }
    ensures read { IfSome (entries_in log.old.value) (λ log.
        entries.new ≡ map told (take (length entries.old) log) ++ drop (length log) entries.old) }
{
    let Some(held) = log.take(alloc) else {
        return WRONG_HANDLE;
    };
    let status = match &*held {
        Held::Entries(told) => {
            read(told, entries, count);
            DONE
        }
        _ => WRONG_HANDLE,
    };
    *log = Handle::of(held);
    status
}

/// Lets go what the handle has, which is nothing afterwards.
#[unsafe(no_mangle)]
pub extern "C" fn universal_drop(alloc: Global, handle: &mut Handle)
    ensures { handle.new.value ≡ None }
{
    *handle = Handle::empty(alloc);
}
