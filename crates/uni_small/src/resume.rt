//! A seat whose owner stopped, or left, is taken over, also in the midst of a call.
ghost use Rattle.std.specs.Prelude.{true, false, ◌≡◌, ◌≢◌, ◌↔◌, ◌+◌, ◌*◌, ◌<◌, ◌≤◌, ◌++◌};
ghost use Rattle.std.specs.Prelude.{◌∷◌, [], IfErr, IfOk, None, length};
ghost use Rattle.uni_small.specs.Image.{buffer_words};
ghost use Rattle.uni_small.specs.Belongs.{IsSeatOf, own_calls, process_of};
ghost use Rattle.uni_small.specs.Kept.{AreBuffers, HasRoom, IsKept};
ghost use Rattle.uni_small.specs.Touched.{all_changes};
ghost use Rattle.uni_small.specs.Belongs.{reply_width_of, sizes_of, word_steps_of};
ghost use Rattle.uni_small.specs.Invariant.{most_calls};
ghost use Rattle.uni_small.specs.Orphans.{IsInCall, IsOrphanOf, calls_after, calls_before, orphan_process};
ghost use Rattle.uni_small.specs.Orphans.{orphan_steps, take_over_steps};
ghost use Rattle.uni_small.specs.Plays.{IsLeft, has_begun, spare_at, stage_of};
ghost use Rattle.uni_small.specs.Standing.{IsOf, attempt_steps, local_of};
ghost use Rattle.uni_small.specs.View.Stage.{Idle};

use crate::log::SmallShared;
use crate::log::open::room;
use crate::object::SmallObject;
use crate::orphan::SmallOrphan;
use crate::seat::{Buffers, Room, Seen, SmallSeat};
use crate::touched::Changes;
use crate::view::View;
use atomic_table::Seat;
use std::alloc::Global;

impl<O: SmallObject> SmallShared<O> {
    /// Loads what the two buffers of process p hold, whatever it is at.
    fn reread_all(&self, seat: &mut Seat<Seen, View<O>>, p: u64, held: &mut [u64])
        requires table { seat.old.table_id ≡ self.now.table.shared.table_id }
        requires inside { p < self.now.setup.sizes.processes }
        requires of { IsOf self.now.setup.object self.now.setup.sizes p seat.old.me }
        requires long { length held.old ≡ 2 * buffer_words self.now.setup.sizes }
        requires known { length (local_of seat.old.me).held ≡ 2 * buffer_words self.now.setup.sizes }
        ensures same { (seat.new.table_id ≡ seat.old.table_id) × (seat.new.id ≡ seat.old.id) }
        ensures left { IsLeft seat.old.me (record (local_of seat.old.me)
            { steps = (local_of seat.old.me).steps + 2 * buffer_words self.now.setup.sizes }) seat.new.me }
        ensures held { held.new ≡ (local_of seat.old.me).held }
    {
        let words = self.buffer_words();
        for i in 0..words {
            held[i as usize] = self.reread(seat, p, 0, i);
        }
        for k in 0..words {
            held[(words + k) as usize] = self.reread(seat, p, 1, k);
        }
    }

    /// Which of the two buffers of process p the word S doesn't name.
    fn spare_beside(&self, p: u64, s: u64) -> u64
        requires inside { p < self.now.setup.sizes.processes }
        ensures { result ≡ spare_at p s }
    {
        if s % 128 == 2 * p + 1 { 0 } else { 1 }
    }

    /// Ends the call of process p that has begun, wherever it stood, by what the words of the table tell. The answer
    /// is a version in which the call is.
    pub(crate) fn resume(
        &self,
        seat: &mut Seat<Seen, View<O>>,
        p: u64,
        number: u64,
        own: &mut Buffers,
        room: &mut Room,
        reply: &mut [u64],
    ) -> u64
        requires table { seat.old.table_id ≡ self.now.table.shared.table_id }
        requires inside { p < self.now.setup.sizes.processes }
        requires of { IsOf self.now.setup.object self.now.setup.sizes p seat.old.me }
        requires begun { has_begun (stage_of seat.old.me) (local_of seat.old.me).direct ≡ true }
        requires number { (number ≡ length (local_of seat.old.me).own + 1) × (number ≤ most_calls) }
        requires wide { length reply.old ≡ self.now.setup.sizes.reply }
        requires known { length (local_of seat.old.me).held ≡ 2 * buffer_words self.now.setup.sizes }
        requires long { length own.old.held.items ≡ 2 * buffer_words self.now.setup.sizes }
        requires room { HasRoom self.now.setup.sizes room.old }
        requires afresh { (room.old.of ≡ 2) × (own.old.apart ≡ all_changes self.now.setup.sizes.processes) }
        ensures same { (seat.new.table_id ≡ seat.old.table_id) × (seat.new.id ≡ seat.old.id) }
        ensures of { IsOf self.now.setup.object self.now.setup.sizes p seat.new.me }
        ensures slots { seat.new.me.1 ≡ seat.old.me.1 }
        ensures taken { seat.new.me.0.known.taken ≡ seat.old.me.0.known.taken }
        ensures few_steps { (local_of seat.new.me).steps ≤ (local_of seat.old.me).steps
            + (2 * buffer_words self.now.setup.sizes + 2 * attempt_steps self.now.setup.sizes
            + self.now.setup.sizes.reply + 2) }
        ensures idle { stage_of seat.new.me ≡ Idle [] }
        ensures untried { (local_of seat.new.me).direct ≡ false }
        ensures ends { (local_of seat.new.me).own ≡ (local_of seat.old.me).own ++ record {
          inv = (local_of seat.old.me).inv;
          reply = reply.new;
          after = (local_of seat.old.me).after;
          version = result;
        } ∷ [] }
        ensures own { AreBuffers self.now.setup.sizes (local_of seat.new.me) own.new }
        ensures room { HasRoom self.now.setup.sizes room.new }
        ensures kept { IsKept self.now.setup.sizes own.new room.new }
    {
        self.reread_all(seat, p, &mut own.held);
        let s = self.restart(seat, p);
        own.spare = self.spare_beside(p, s);
        if let Some(s) = self.attempt(seat, p, number, 0, own, room) {
            return self.load_reply(seat, p, s, reply);
        }
        if let Some(s) = self.attempt(seat, p, number, 1, own, room) {
            return self.load_reply(seat, p, s, reply);
        }
        let s = self.turn(seat, p, 2);
        self.load_reply(seat, p, s, reply)
    }

    /// Puts process p, of which no call has begun, before its next call, wherever it stood: between calls, or in a
    /// direct attempt, which is given up.
    pub(crate) fn rejoin(&self, seat: &mut Seat<Seen, View<O>>, p: u64, own: &mut Buffers)
        requires table { seat.old.table_id ≡ self.now.table.shared.table_id }
        requires inside { p < self.now.setup.sizes.processes }
        requires of { IsOf self.now.setup.object self.now.setup.sizes p seat.old.me }
        requires none { has_begun (stage_of seat.old.me) (local_of seat.old.me).direct ≡ false }
        requires known { length (local_of seat.old.me).held ≡ 2 * buffer_words self.now.setup.sizes }
        requires long { length own.old.held.items ≡ 2 * buffer_words self.now.setup.sizes }
        ensures same { (seat.new.table_id ≡ seat.old.table_id) × (seat.new.id ≡ seat.old.id) }
        ensures of { IsOf self.now.setup.object self.now.setup.sizes p seat.new.me }
        ensures slots { seat.new.me.1 ≡ seat.old.me.1 }
        ensures taken { seat.new.me.0.known.taken ≡ seat.old.me.0.known.taken }
        ensures few_steps { (local_of seat.new.me).steps ≤ (local_of seat.old.me).steps
            + (2 * buffer_words self.now.setup.sizes + 1) }
        ensures idle { stage_of seat.new.me ≡ Idle [] }
        ensures untried { (local_of seat.new.me).direct ≡ false }
        ensures calls { (local_of seat.new.me).own ≡ (local_of seat.old.me).own }
        ensures own { AreBuffers self.now.setup.sizes (local_of seat.new.me) own.new }
        ensures apart { own.new.apart ≡ own.old.apart }
    {
        self.reread_all(seat, p, &mut own.held);
        let s = self.abandon(seat, p);
        own.spare = self.spare_beside(p, s);
    }
}

impl<O: SmallObject> SmallOrphan<O> {
    /// Takes the seat over. Of its calls `made` have returned; if its former owner had begun one more, that is
    /// ended by what the shared words tell: its reply is written, and the answer has a version in which it is.
    /// Else the answer has none, and the reply stays as it was. The seat goes on with its next call. An orphan has
    /// nothing of what its former owner kept for itself: its handle and its number are all that it is made of.
    ///
    /// It returns after at most `6 * W + (8 + 2 * I + 6 * R) * n + R + 9` word steps, whatever the other seats do.
    ///
    /// The error is the orphan, where memory was refused; nothing is changed then. That it comes only then is in no
    /// clause. In Rattle an orphan comes of `leave` alone, between calls, where `IsInCall` never holds: that a call is
    /// ended here is for processes that share the object's memory.
    ///
    /// A call whose reply wasn't kept is not among `made`, even if its owner had loaded it
    /// (`last_load_leaves_no_trace`): it is ended here, and that its reply is the same is argued by hand. In no clause:
    /// that the reply is the object's (as of `apply`, the law `every_execution_is_linearizable` and closing say so),
    /// that the call is in that version, that the version is greater than those which the seat had before, which
    /// version the seat follows then, and which calls of other seats it had taken in.
    pub fn take_over(
        self,
        alloc: Global,
        shared: &SmallShared<O>,
        made: u64,
        reply: &mut [u64],
    ) -> Result<(SmallSeat<O>, Option<u64>), SmallOrphan<O>>
        requires orphan { IsOrphanOf shared.now self }
        requires made { made ≡ length (calls_before self) }
        requires reply { length reply.old ≡ reply_width_of shared.now }
        ensures seat { IfOk result (λ it. IsSeatOf shared.now it.0 × (process_of it.0 ≡ orphan_process self)) }
        ensures ended { IfOk result (λ it. (it.1 ≢ None) ↔ IsInCall self) }
        ensures calls { IfOk result (λ it. own_calls it.0 ≡ calls_after self reply.new it.1) }
        ensures unchanged { IfOk result (λ it. it.1 ≡ None → reply.new ≡ reply.old) }
        ensures few_steps { IfOk result (λ it. word_steps_of it.0
            ≤ orphan_steps self + take_over_steps (sizes_of shared.now)) }
        ensures err { IfErr result (λ it. (it ≡ self) × (reply.new ≡ reply.old)) }
    {
        let Ok(mut room) = room(alloc, &shared.setup.sizes) else {
            return Err(self);
        };
        let words = shared.buffer_words();
        let Ok(held) = (vec![in alloc; 0u64; (2 * words) as usize]) else {
            return Err(self);
        };
        let SmallOrphan { mut seat, p } = self;
        let mut own = Buffers {
            spare: 0,
            held,
            apart: Changes::all(shared.setup.sizes.processes),
        };
        let told = shared.recount(&mut seat, p);
        let (made, version) = if told <= made {
            shared.rejoin(&mut seat, p, &mut own);
            (made, None)
        } else {
            let made = made + 1;
            let version = shared.resume(&mut seat, p, made, &mut own, &mut room, reply);
            (made, Some(version))
        };
        let seat = SmallSeat {
            seat,
            p,
            made,
            own,
            room,
            read: None,
        };
        Ok((seat, version))
    }
}
