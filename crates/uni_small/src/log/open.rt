//! Opening an object.
ghost use Rattle.std.specs.Prelude.{All, IfOk, IsErrOf, [], ◌<◌, ◌≡◌, ◌≤◌, ◌⊎◌, ◌↔◌};
ghost use Rattle.std.specs.Prelude.{ℕ, length, map};
ghost use Rattle.uni_small.specs.Plays.{first_view};
ghost use Rattle.uni_small.specs.Board.{AreFew};
ghost use Rattle.uni_small.specs.TooWide.{IsTooWide};
ghost use Rattle.uni_small.specs.Image.{due_at, first_held};
ghost use Rattle.uni_small.specs.Touched.{all_changes};
ghost use Rattle.uni_small.specs.View.{at_rest};
ghost use Rattle.uni_small.specs.Belongs.{AreFirstSeats, IsSeatOf};
ghost use Rattle.uni_small.specs.Kept.{AreBuffers, HasInvocation, HasRoom};
ghost use Rattle.uni_small.specs.Belongs.{object_of, sizes_of};
ghost use Rattle.uni_small.specs.Kept.{seen_in};

use crate::log::{MAX_PROCESSES, SmallOpenFault, SmallShared, first_words};
use crate::object::SmallObject;
use crate::rule::First;
use crate::seat::{Buffers, Room, Seen, SmallSeat};
use crate::sizes::Sizes;
use crate::span::Span;
use crate::touched::Changes;
use crate::view::View;
use atomic_table::Seat;
use std::alloc::{AllocError, Global};

/// Room for what a process sees of the others.
fn seen_room(alloc: Global, sizes: &Sizes) -> Result<Vec<Seen>, AllocError>
    ensures long { IfOk result (λ seen. length seen.items ≡ sizes.now.processes) }
    ensures each { IfOk result (λ seen. All (HasInvocation sizes.now) seen.items) }
    ensures none { IfOk result (λ seen. (q : ℕ) → due_at (map seen_in seen.items) q ≡ 0) }
{
    let mut seen = Vec::new(alloc);
    for _ in 0..sizes.processes {
        let invocation = vec![in alloc; 0u64; sizes.invocation as usize]?;
        seen.push(Seen {
            due: false,
            invocation,
        })?;
    }
    Ok(seen)
}

/// Room for a process's copy of a buffer, and for what it sees.
pub(crate) fn room(alloc: Global, sizes: &Sizes) -> Result<Room, AllocError>
    requires { AreFew sizes.now }
    ensures room { IfOk result (λ room. HasRoom sizes.now room) }
    ensures of { IfOk result (λ room. room.of ≡ 2) }
{
    let n = sizes.processes;
    Ok(Room {
        of: 2,
        applied: vec![in alloc; 0u64; n as usize]?,
        reply: vec![in alloc; 0u64; (n * sizes.reply) as usize]?,
        state: vec![in alloc; 0u64; sizes.state as usize]?,
        seen: seen_room(alloc, sizes)?,
        busy: Span::NONE,
        saved: vec![in alloc; 0u64; sizes.state as usize]?,
    })
}

/// What a process knows of its buffers, which have the start state.
fn buffers<O: SmallObject>(alloc: Global, object: &O, sizes: &Sizes) -> Result<Buffers, AllocError>
    requires few { AreFew sizes.now }
    requires wide { length (O.meaning object.now).object.initial ≡ sizes.now.state }
    ensures held { IfOk result (λ own.
        AreBuffers sizes.now (at_rest (first_held (O.meaning object.now).object sizes.now)) own) }
    ensures apart { IfOk result (λ own. own.apart ≡ all_changes sizes.now.processes) }
{
    let first = first_words(alloc, object, sizes)?;
    let mut held = first_words(alloc, object, sizes)?;
    held.extend_from_slice(&first)?;
    Ok(Buffers {
        spare: 1,
        held,
        apart: Changes::all(sizes.processes),
    })
}

impl<O: SmallObject> SmallShared<O> {
    /// Cuts the seat of all processes into one for each.
    fn seats(
        &self,
        alloc: Global,
        all: Seat<Seen, View<O>>,
    ) -> Result<Vec<SmallSeat<O>>, AllocError>
        requires table { all.table_id ≡ self.now.table.shared.table_id }
        requires wide { length (O.meaning self.now.setup.object).object.initial ≡ self.now.setup.sizes.state }
        requires all { all.me ≡ (first_view O.meaning self.now.setup.object self.now.setup.sizes, []) }
        ensures first { IfOk result (λ seats. AreFirstSeats self.now self.now.setup.sizes.processes seats.items) }
        ensures own { IfOk result (λ seats. All (IsSeatOf self.now) seats.items) }
    {
        let sizes = &self.setup.sizes;
        let n = sizes.processes;
        let mut rest = all;
        let mut seats = Vec::new(alloc);
        for p in 0..n - 1 {
            let room = room(alloc, sizes)?;
            let own = buffers(alloc, &self.setup.object, sizes)?;
            let seat = self.table.shared.split_seat::<First>(&mut rest);
            seats.push(SmallSeat {
                seat,
                p,
                made: 0,
                own,
                room,
                read: None,
            })?;
        }
        let room = room(alloc, sizes)?;
        let own = buffers(alloc, &self.setup.object, sizes)?;
        seats.push(SmallSeat {
            seat: rest,
            p: n - 1,
            made: 0,
            own,
            room,
            read: None,
        })?;
        Ok(seats)
    }

    /// An object of several words, and the seats of its n processes, in order, none of which has made
    /// a call.
    ///
    /// Errors, in this order: `BadCount` where `n` isn't from 1 to 64; `BadWidth` where a state, an
    /// invocation or a reply has more than 65536 words, or a reply has none; `Memory`, where memory was refused (in no
    /// clause: by the clauses it may come wherever no other error does). After each the object is dropped.
    pub fn open(
        alloc: Global,
        object: O,
        n: u64,
    ) -> Result<(SmallShared<O>, Vec<SmallSeat<O>>), SmallOpenFault>
        ensures count { IsErrOf result SmallOpenFault.BadCount ↔ ((n ≡ 0) ⊎ (64 < n)) }
        ensures width { IsErrOf result SmallOpenFault.BadWidth ↔ (1 ≤ n) × (n ≤ 64) × IsTooWide
            (length (O.meaning object).object.initial) ((O.meaning object).invocation) ((O.meaning object).reply) }
        ensures object { IfOk result (λ opened. object_of opened.0 ≡ object) }
        ensures shape { IfOk result (λ opened. sizes_of opened.0 ≡ record {
          processes = n;
          state = length (O.meaning object).object.initial;
          invocation = (O.meaning object).invocation;
          reply = (O.meaning object).reply;
        }) }
        ensures seats { IfOk result (λ opened. AreFirstSeats opened.0 n opened.1.items) }
        ensures own { IfOk result (λ opened. All (IsSeatOf opened.0) opened.1.items) }
    {
        if n < 1 || n > MAX_PROCESSES {
            return Err(SmallOpenFault::BadCount);
        }
        let sizes = Sizes {
            processes: n,
            state: object.width(),
            invocation: object.invocation_width(),
            reply: object.reply_width(),
        };
        if sizes.are_too_wide() {
            return Err(SmallOpenFault::BadWidth);
        }
        let Ok((shared, all)) = SmallShared::with_one_seat(alloc, object, sizes) else {
            return Err(SmallOpenFault::Memory);
        };
        let Ok(seats) = shared.seats(alloc, all) else {
            return Err(SmallOpenFault::Memory);
        };
        Ok((shared, seats))
    }
}
