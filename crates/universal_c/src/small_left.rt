//! Seats of small objects without an owner: how one is left, and how it is taken over.
ghost use Rattle.std.specs.Prelude.{◌≡◌, ◌≢◌, ◌↔◌, ◌⊎◌, ◌+◌, ◌≤◌, IfErr, IfOk, OnOk, length};
ghost use Rattle.std.specs.declared.option.Option.TheVariants.{None, Some};
ghost use Rattle.uni_small.specs.Belongs.{own_calls, process_of, reply_width_of, sizes_of, word_steps_of};
ghost use Rattle.uni_small.specs.Orphans.{IsInCall, calls_after, calls_before, orphan_process};
ghost use Rattle.uni_small.specs.Orphans.{orphan_steps, take_over_steps};
ghost use Rattle.universal_c.specs.SmallCalls.{place_in};
ghost use Rattle.universal_c.specs.SmallOrphans.{HasLeft, HasMade, HasOtherReply, HasResumed, orphan_in, seated_in};

use crate::handle::Handle;
use crate::held::{Held, SmallLeft, SmallPlace};
use crate::status::{BAD_WIDTH, DONE, MEMORY, WRONG_HANDLE};
use std::alloc::Global;
use std::mem::replace;

/// Leaves a seat of a small object, between calls: the handle has the seat without an owner then, which can be taken
/// over. It takes no memory.
/// 0: it is done. 7: the handle has no seat of a small object, and nothing is changed.
#[unsafe(no_mangle)]
pub extern "C" fn universal_small_leave(alloc: Global, seat: &mut Handle) -> u32
    ensures same { seated_in seat.new.value ≡ seated_in seat.old.value }
    ensures status { (result ≡ 0) ⊎ (result ≡ 7) }
    ensures wrong { (result ≡ 7) ↔ (place_in seat.old.value ≡ None) }
    ensures kept { result ≡ 7 → seat.new.value ≡ seat.old.value }
    ensures left { result ≡ 0 → HasLeft seat.old.value seat.new.value }
{
    let Some(mut held) = seat.take(alloc) else {
        return WRONG_HANDLE;
    };
    let status = match replace(&mut *held, Held::Nothing) {
        Held::Place(
            SmallPlace {
                shared,
                seat: owned,
            },
        ) => {
            let orphan = owned.leave();
            let left = SmallLeft { shared, orphan };
            *held = Held::Left(left);
            DONE
        }
        other => {
            *held = other;
            WRONG_HANDLE
        }
    };
    *seat = Handle::of(held);
    status
}

/// Why a seat was not taken over.
#[derive(Clone, Copy, Drop)]
enum ResumeFault {
    /// The reply hasn't as many words as those of the object.
    Width,
    /// Memory was refused.
    Memory,
}

impl SmallLeft {
    /// Takes the seat over, of whose calls `made` have returned: the seat, and the version of the call that it was
    /// in, if it was in one, whose reply is written.
    /// Errors, in this order: the reply hasn't as many words as those of the object; memory was refused. The seat
    /// without an owner comes back, and nothing is changed.
    fn resume(
        self,
        alloc: Global,
        made: u64,
        reply: &mut [u64],
    ) -> Result<(SmallPlace, Option<u64>), (SmallLeft, ResumeFault)>
        requires made { made ≡ length (calls_before self.orphan) }
        ensures shared { IfOk result (λ it. it.0.shared ≡ self.shared) }
        ensures wide { OnOk result (length reply.old ≡ reply_width_of self.shared.value) }
        ensures width { IfErr result (λ it.
            (it.1 ≡ ResumeFault.Width) ↔ (length reply.old ≢ reply_width_of self.shared.value)) }
        ensures resumed { IfOk result (λ it. (process_of it.0.seat ≡ orphan_process self.orphan)
            × ((it.1 ≢ None) ↔ IsInCall self.orphan)
            × (own_calls it.0.seat ≡ calls_after self.orphan reply.new it.1)
            × (word_steps_of it.0.seat ≤ orphan_steps self.orphan + take_over_steps (sizes_of self.shared.value))) }
        ensures unended { IfOk result (λ it. it.1 ≡ None → reply.new ≡ reply.old) }
        ensures unchanged { IfErr result (λ it. (it.0 ≡ self) × (reply.new ≡ reply.old)) }
    {
        if reply.len() as u64 != self.shared.reply_width() {
            return Err((self, ResumeFault::Width));
        }
        let SmallLeft { shared, orphan } = self;
        match orphan.take_over(alloc, &shared, made, reply) {
            Ok((seat, version)) => Ok((SmallPlace { shared, seat }, version)),
            Err(orphan) => Err((SmallLeft { shared, orphan }, ResumeFault::Memory)),
        }
    }
}

fn resume(
    alloc: Global,
    held: &mut Held,
    made: u64,
    reply: &mut [u64],
    ended: &mut u32,
    version: &mut u64,
) -> u32
    requires made { HasMade (Some held.old) made }
    ensures same { seated_in (Some held.new) ≡ seated_in (Some held.old) }
    ensures wrong { (result ≡ 7) ↔ (orphan_in (Some held.old) ≡ None) }
    ensures width { (result ≡ 11) ↔ HasOtherReply (Some held.old) reply.old }
    ensures status { (result ≡ 0) ⊎ (result ≡ 3) ⊎ (result ≡ 7) ⊎ (result ≡ 11) }
    ensures unchanged { result ≢ 0 → (held.new ≡ held.old) × (reply.new ≡ reply.old)
        × (ended.new ≡ ended.old) × (version.new ≡ version.old) }
    ensures resumed { result ≡ 0 →
        HasResumed (Some held.old) (Some held.new) reply.new ended.new version.new }
    ensures unended { result ≡ 0 → ended.new ≡ 0 → (reply.new ≡ reply.old) × (version.new ≡ version.old) }
{
    match replace(held, Held::Nothing) {
        Held::Left(left) => match left.resume(alloc, made, reply) {
            Ok((place, of_call)) => {
                *held = Held::Place(place);
                *ended = 0;
                if let Some(present) = of_call {
                    *ended = 1;
                    *version = present;
                }
                DONE
            }
            Err((left, fault)) => {
                *held = Held::Left(left);
                match fault {
                    ResumeFault::Width => BAD_WIDTH,
                    ResumeFault::Memory => MEMORY,
                }
            }
        },
        other => {
            *held = other;
            WRONG_HANDLE
        }
    }
}

/// Takes over a seat of a small object that has no owner, of whose calls `made` have returned. If its former owner had
/// begun one more, that is ended: its reply is written, and `ended` is 1, and `version` is one in which the call is;
/// else `ended` is 0, and reply and version stay. The handle has the seat then.
///
/// The caller answers for this: the former owner takes no more steps, has made its calls by
/// `universal_small_apply_announced`, and of them `made` have returned. That a call whose reply was
/// loaded, but not kept, may be counted as one that has not returned, and gets the same reply again, is argued by hand.
///
/// 0: it is done. 7: the handle has no seat without an owner. 11: the reply hasn't as many words as those of the
/// object. 3: memory was refused. In this order; after each but 0 nothing is changed.
#[unsafe(no_mangle)]
pub extern "C" fn universal_small_resume(
    alloc: Global,
    seat: &mut Handle,
    made: u64,
    reply: &mut [u64],
    ended: &mut u32,
    version: &mut u64,
) -> u32
    requires made { HasMade seat.old.value made }
    ensures same { seated_in seat.new.value ≡ seated_in seat.old.value }
    ensures wrong { (result ≡ 7) ↔ (orphan_in seat.old.value ≡ None) }
    ensures width { (result ≡ 11) ↔ HasOtherReply seat.old.value reply.old }
    ensures status { (result ≡ 0) ⊎ (result ≡ 3) ⊎ (result ≡ 7) ⊎ (result ≡ 11) }
    ensures unchanged { result ≢ 0 → (seat.new.value ≡ seat.old.value) × (reply.new ≡ reply.old)
        × (ended.new ≡ ended.old) × (version.new ≡ version.old) }
    ensures resumed { result ≡ 0 →
        HasResumed seat.old.value seat.new.value reply.new ended.new version.new }
    ensures unended { result ≡ 0 → ended.new ≡ 0 → (reply.new ≡ reply.old) × (version.new ≡ version.old) }
{
    let Some(mut held) = seat.take(alloc) else {
        return WRONG_HANDLE;
    };
    let status = resume(alloc, &mut held, made, reply, ended, version);
    *seat = Handle::of(held);
    status
}
