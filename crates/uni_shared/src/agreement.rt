//! Whether seats and their receipts agree with a record. Nothing is copied.

ghost use Rattle.std.specs.Prelude.{◌≡◌, ◌≢◌, ◌⊎◌, ◌↔◌, ℕ, ◌<◌, ◌≤◌, ◌++◌};
ghost use Rattle.std.specs.Prelude.{◌∷◌, [], None, Some, IfSome, IsTrue, length, map, take, option_map};
ghost use Rattle.std.specs.Prelude.{slice_get};
ghost use Rattle.std.specs.List.{All, Contains, filter_map};
ghost use Rattle.uni_model.specs.Worlds.{IsQuiescent};
ghost use Rattle.uni_core.specs.World.{world_of};
ghost use Rattle.uni_record.specs.Event.{event_lent};
ghost use Rattle.uni_shared.specs.Agreement.{DiffersFirstAt, IsBusy, IsClosed, IsFaultOfClosing, IsFirstMismatch};
ghost use Rattle.uni_shared.specs.Agreement.{IsLeast, IsMismatchOf, IsMissing, SeatAgrees, invocation_by};
ghost use Rattle.uni_shared.specs.Agreement.{completed_of_process, completed_of, seats_of};

use crate::closed::CloseFault;
use crate::receipt::Receipt;
use crate::seat::Seat;
use seq_object::{CallId, SeqObject};
use uni_record::{Counts, Event, Events, Recorded, Return};

/// How many of these seats are of a process.
fn seats_of<O: SeqObject>(seats: &[Seat<O>], p: u64) -> usize
    ensures { result ≡ seats_of p seats.now }
{
    seats.iter().filter(|seat| seat.process() == p).count()
}

/// The lesser of a process that was found, where one was, and another.
fn lesser(found: Option<u64>, p: u64) -> u64
    ensures below { result ≤ p }
    ensures below_found { (q : ℕ) → found ≡ Some q → result ≤ q }
    ensures either { (result ≡ p) ⊎ (found ≡ Some result) }
{
    match found {
        Some(q) => q.min(p),
        None => p,
    }
}

/// The least process that has a seat there and isn't below `n`.
fn other_seat<O: SeqObject>(seats: &[Seat<O>], n: u64) -> Option<u64>
    ensures only { result ≡ None → All (λ s. s.process < n) seats.now }
    ensures none { result ≡ None → (p : ℕ) → n ≤ p → seats_of p seats.now ≡ 0 }
    ensures least { IfSome result (IsLeast (λ p. (n ≤ p) × (seats_of p seats.now ≢ 0))) }
{
    let mut least = None;
    for seat in seats {
        let p = seat.process();
        if p >= n {
            least = Some(lesser(least, p));
        }
    }
    least
}

/// The process that `MissingSeat` names, among seats for `n` processes.
fn missing_seat<O: SeqObject>(seats: &[Seat<O>], n: u64) -> Option<u64>
    ensures each { result ≡ None → (p : ℕ) → p < n → seats_of p seats.now ≡ 1 }
    ensures only { result ≡ None → All (λ s. s.process < n) seats.now }
    ensures none { result ≡ None → (p : ℕ) → ¬ (IsMissing n seats.now p) }
    ensures least { IfSome result (IsLeast (IsMissing n seats.now)) }
{
    for p in 0..n {
        if seats_of(seats, p) != 1 {
            return Some(p);
        }
    }
    other_seat(seats, n)
}

/// The process that `PendingSeat` names.
fn pending_seat<O: SeqObject>(recorded: &Recorded<O>, seats: &[Seat<O>]) -> Option<u64>
    ensures idle { result ≡ None → All (λ s. s.pending ≡ None) seats.now }
    ensures quiet { result ≡ None → IsQuiescent (world_of recorded.now.world) }
    ensures least { IfSome result (IsLeast (IsBusy (world_of recorded.now.world) seats.now)) }
{
    let mut least = recorded.world().pending();
    for seat in seats {
        if seat.pending() {
            least = Some(lesser(least, seat.process()));
        }
    }
    least
}

/// What a call of this process asks for, where the event is one.
fn invocation_by<'a, I>(event: Event<&'a I>, p: u64) -> Option<&'a I>
    ensures { option_map (λ i. i.now) result ≡ invocation_by p (event_lent event.entry) }
{
    let Event::Call(q, inv) = event else {
        return None;
    };
    if q == p { Some(inv) } else { None }
}

/// How many receipts agree with the events up to this one, where `place` of them agree with those
/// before it; `None` where the next one doesn't.
fn place_after_event<O: SeqObject>(
    event: Event<&O::Inv>,
    p: u64,
    receipts: &[Receipt<O::Inv, O::Resp>],
    place: usize,
) -> Option<usize>
    requires { place ≤ length receipts.now }
    ensures within { IfSome result (λ next. next ≤ length receipts.now) }
    ensures other { result ≡ None → (inv : O.Inv) × (invocation_by p (event_lent event.entry) ≡ Some inv)
        × (slice_get (map (λ r. r.inv) receipts.now) place ≢ Some inv) }
    ensures next { IfSome result (λ next. map (λ r. r.inv) (take next receipts.now)
        ≡ map (λ r. r.inv) (take place receipts.now)
        ++ filter_map (invocation_by p) (event_lent event.entry ∷ [])) }
{
    let Some(inv) = invocation_by(event, p) else {
        return Some(place);
    };
    if place < receipts.len() && receipts[place].inv == *inv {
        return Some(place + 1);
    }
    None
}

/// The number of the first receipt that differs from the calls of a process in the history by what it
/// asked for.
fn other_invocation<O: SeqObject>(
    events: Events<'_, O::Inv>,
    p: u64,
    receipts: &[Receipt<O::Inv, O::Resp>],
) -> Option<usize>
    ensures none { result ≡ None → map (λ r. r.inv) receipts.now ≡ filter_map (invocation_by p) events.entry }
    ensures first { IfSome result (DiffersFirstAt (map (λ r. r.inv) receipts.now)
        (filter_map (invocation_by p) events.entry)) }
{
    let mut place = 0;
    for event in events {
        let Some(next) = place_after_event::<O>(event, p, receipts, place) else {
            return Some(place);
        };
        place = next;
    }
    if place < receipts.len() {
        return Some(place);
    }
    None
}

/// Whether a receipt tells of this return, with these counts.
fn tells_of<O: SeqObject>(
    receipt: &Receipt<O::Inv, O::Resp>,
    returned: &Return<O::Resp>,
    counts: &Counts,
) -> bool
    ensures { IsTrue result ↔ completed_of receipt.now ≡ record { returned = returned.now; counts = counts.now } }
{
    receipt.call == returned.call
        && receipt.reply == returned.reply
        && receipt.steps == counts.steps
        && receipt.turns == counts.turns
}

/// How many receipts agree with the returns up to this one, where `place` of them agree with those
/// before it; `None` where the next one doesn't.
fn place_after_return<O: SeqObject>(
    returned: &Return<O::Resp>,
    counts: &Counts,
    p: u64,
    receipts: &[Receipt<O::Inv, O::Resp>],
    place: usize,
) -> Option<usize>
    requires { place ≤ length receipts.now }
    ensures within { IfSome result (λ next. next ≤ length receipts.now) }
    ensures other { result ≡ None → (returned.now.call.process ≡ p)
        × (slice_get (map completed_of receipts.now) place
        ≢ Some (record { returned = returned.now; counts = counts.now })) }
    ensures next { IfSome result (λ next. map completed_of (take next receipts.now)
        ≡ map completed_of (take place receipts.now)
        ++ completed_of_process p (record { returned = returned.now; counts = counts.now } ∷ [])) }
{
    if u64::from(returned.call.process) != p {
        return Some(place);
    }
    if place < receipts.len() && tells_of::<O>(&receipts[place], returned, counts) {
        return Some(place + 1);
    }
    None
}

/// The number of the first receipt that differs from the returns of a process, with their counts.
fn other_return<O: SeqObject>(
    returns: &[Return<O::Resp>],
    counts: &[Counts],
    p: u64,
    receipts: &[Receipt<O::Inv, O::Resp>],
) -> Option<usize>
    requires { length returns.now ≡ length counts.now }
    ensures none { result ≡ None → (calls : _) → returns.now ≡ map (λ c. c.returned) calls
        → counts.now ≡ map (λ c. c.counts) calls
        → map completed_of receipts.now ≡ completed_of_process p calls }
    ensures first { IfSome result (λ place. (calls : _) → returns.now ≡ map (λ c. c.returned) calls
        → counts.now ≡ map (λ c. c.counts) calls
        → DiffersFirstAt (map completed_of receipts.now) (completed_of_process p calls) place) }
{
    let mut place = 0;
    for i in 0..returns.len() {
        let Some(next) = place_after_return::<O>(&returns[i], &counts[i], p, receipts, place) else {
            return Some(place);
        };
        place = next;
    }
    if place < receipts.len() {
        return Some(place);
    }
    None
}

/// The lesser of two places, where there is one.
fn first_of(one: Option<usize>, other: Option<usize>) -> Option<usize>
    ensures none { result ≡ None → (one ≡ None) × (other ≡ None) }
    ensures below_one { IfSome result (λ place. (a : ℕ) → one ≡ Some a → place ≤ a) }
    ensures below_other { IfSome result (λ place. (b : ℕ) → other ≡ Some b → place ≤ b) }
    ensures either { IfSome result (λ place. (one ≡ Some place) ⊎ (other ≡ Some place)) }
{
    match (one, other) {
        (None, None) => None,
        (Some(place), None) | (None, Some(place)) => Some(place),
        (Some(place), Some(further)) => Some(place.min(further)),
    }
}

/// The first call at which a seat's receipts differ from the history, where the seat is of process `p`.
fn mismatch_of<O: SeqObject>(recorded: &Recorded<O>, seat: &Seat<O>, p: u64) -> Option<CallId>
    ensures none { result ≡ None → seat.now.process ≡ p → SeatAgrees O.sequential recorded.now seat.now }
    ensures first { IfSome result (λ call. (call.process ≡ p)
        × IsMismatchOf O.sequential recorded.now seat.now call) }
{
    recorded.promise();
    if seat.process() != p {
        return None;
    }
    let receipts = seat.receipts();
    let by_call = other_invocation::<O>(recorded.events(), p, receipts);
    let by_return = other_return::<O>(recorded.returns(), recorded.counts(), p, receipts);
    let place = first_of(by_call, by_return)?;
    Some(CallId {
        process: p as u32,
        nth: place as u64,
    })
}

/// The first call at which the receipts of a process differ from the history.
fn mismatch_of_process<O: SeqObject>(
    recorded: &Recorded<O>,
    seats: &[Seat<O>],
    p: u64,
) -> Option<CallId>
    ensures none { result ≡ None → All (λ s. s.process ≡ p → SeatAgrees O.sequential recorded.now s)
        seats.now }
    ensures first { IfSome result (λ call. (call.process ≡ p)
        × ((seat : _) × Contains seats.now seat × IsMismatchOf O.sequential recorded.now seat call)) }
{
    for seat in seats {
        match mismatch_of(recorded, seat, p) {
            Some(call) => return Some(call),
            None => {}
        }
    }
    None
}

/// The call that `Mismatch` names.
fn first_mismatch<O: SeqObject>(recorded: &Recorded<O>, seats: &[Seat<O>]) -> Option<CallId>
    ensures none { result ≡ None → (p : ℕ) → p < recorded.now.processes
        → All (λ s. s.process ≡ p → SeatAgrees O.sequential recorded.now s) seats.now }
    ensures first { IfSome result (IsFirstMismatch O.sequential recorded.now seats.now) }
{
    for p in 0..recorded.processes() {
        if let Some(call) = mismatch_of_process(recorded, seats, p) {
            return Some(call);
        }
    }
    None
}

/// Why a record and seats of `n` processes can't be closed; `None` where they can.
pub(crate) fn first_fault<O: SeqObject>(
    recorded: &Recorded<O>,
    seats: &[Seat<O>],
    n: u64,
) -> Option<CloseFault>
    ensures processes { result ≡ None → recorded.now.processes ≡ n }
    ensures closed { result ≡ None → IsClosed O.sequential recorded.now seats.now }
    ensures fault { IfSome result (IsFaultOfClosing O.sequential n recorded.now seats.now) }
{
    match missing_seat(seats, n) {
        Some(p) => return Some(CloseFault::MissingSeat(p)),
        None => {}
    }
    if recorded.processes() != n {
        return Some(CloseFault::Stranger);
    }
    match pending_seat(recorded, seats) {
        Some(p) => return Some(CloseFault::PendingSeat(p)),
        None => {}
    }
    match first_mismatch(recorded, seats) {
        Some(call) => Some(CloseFault::Mismatch(call)),
        None => None,
    }
}
