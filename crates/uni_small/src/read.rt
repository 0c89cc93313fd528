//! The present state, read without a call.
ghost use Rattle.std.specs.Prelude.{◌≡◌, ◌↔◌, ◌+◌, ◌<◌, ◌≤◌, ◌∷◌, [], None, length};
ghost use Rattle.std.specs.Prelude.{IfOk, IfSome, IsErr, IsSome, OnErr, OnOk};
ghost use Rattle.uni_small.specs.Belongs.{IsSeatOf, calls_made, calls_of};
ghost use Rattle.uni_small.specs.Kept.{AreBuffers, HasRoom, IsKept, image_in};
ghost use Rattle.uni_small.specs.Belongs.{invocation_width_of, object_of, process_of, processes_of, reply_width_of};
ghost use Rattle.uni_small.specs.Belongs.{sizes_of, state_read, taken_calls, version_of, word_steps_of};
ghost use Rattle.uni_small.specs.Final.{IsVersion};
ghost use Rattle.uni_small.specs.Image.{AreWidths, IsReached, buffer_words};
ghost use Rattle.uni_small.specs.Invariant.{most_calls};
ghost use Rattle.uni_small.specs.Plays.{stage_of};
ghost use Rattle.uni_small.specs.Standing.{IsAnnounced, IsOf, ReadsWithin, local_of, read_steps};
ghost use Rattle.uni_small.specs.View.Stage.{Idle};

use crate::apply::{CallsSpent, MAX_CALLS};
use crate::log::SmallShared;
use crate::object::SmallObject;
use crate::seat::{Buffers, Room, Seen, SmallSeat};
use crate::view::View;
use atomic_table::Seat;

impl<O: SmallObject> SmallShared<O> {
    /// Copies the present buffer: its version, or `None` where another one came meanwhile.
    fn copy_present(
        &self,
        seat: &mut Seat<Seen, View<O>>,
        p: u64,
        own: &Buffers,
        room: &mut Room,
    ) -> Option<u64>
        requires table { seat.old.table_id ≡ self.now.table.shared.table_id }
        requires inside { p < self.now.setup.sizes.processes }
        requires of { IsOf self.now.setup.object self.now.setup.sizes p seat.old.me }
        requires stage { stage_of seat.old.me ≡ Idle [] }
        requires untried { IsAnnounced seat.old.me }
        requires calls { length (local_of seat.old.me).own + 1 ≤ most_calls }
        requires own { AreBuffers self.now.setup.sizes (local_of seat.old.me) own.now }
        requires room { HasRoom self.now.setup.sizes room.old }
        requires kept { IsKept self.now.setup.sizes own.now room.old }
        ensures same { (seat.new.table_id ≡ seat.old.table_id) × (seat.new.id ≡ seat.old.id) }
        ensures ends { ReadsWithin (buffer_words self.now.setup.sizes + 2) seat.old.me result room.new.state.items
            seat.new.me }
        ensures later { IfSome result (λ version. (local_of seat.old.me).after ≤ version) }
        ensures widths { IsSome result → AreWidths (O.meaning self.now.setup.object) self.now.setup.sizes }
        ensures told { IfSome result (λ version. IsVersion (O.meaning self.now.setup.object).object
            self.now.setup.sizes.processes (record { process = p; calls = (local_of seat.old.me).own } ∷ [])
            version room.new.state.items) }
        ensures room { HasRoom self.now.setup.sizes room.new }
        ensures kept { IsKept self.now.setup.sizes own.now room.new }
    {
        let s = self.begin(seat, p);
        self.copy(seat, p, 0, s, own, room);
        let again = self.confirm(seat, p, s);
        if again == s { Some(s / 128) } else { None }
    }

    /// Brings the present state into the room, and its version into `read`, or `None` where another one came meanwhile.
    /// Where `read` has a version before, the room has its state: as long as that is the present one, it stays.
    fn find_present(
        &self,
        seat: &mut Seat<Seen, View<O>>,
        p: u64,
        own: &Buffers,
        room: &mut Room,
        read: &mut Option<u64>,
    )
        requires table { seat.old.table_id ≡ self.now.table.shared.table_id }
        requires inside { p < self.now.setup.sizes.processes }
        requires of { IsOf self.now.setup.object self.now.setup.sizes p seat.old.me }
        requires stage { stage_of seat.old.me ≡ Idle [] }
        requires untried { IsAnnounced seat.old.me }
        requires calls { length (local_of seat.old.me).own + 1 ≤ most_calls }
        requires own { AreBuffers self.now.setup.sizes (local_of seat.old.me) own.now }
        requires room { HasRoom self.now.setup.sizes room.old }
        requires kept { IsKept self.now.setup.sizes own.now room.old }
        requires read { IfSome read.old (λ version. (local_of seat.old.me).read
            ≡ Some (record { version = version; state = room.old.state.items })) }
        ensures same { (seat.new.table_id ≡ seat.old.table_id) × (seat.new.id ≡ seat.old.id) }
        ensures ends { ReadsWithin (read_steps self.now.setup.sizes) seat.old.me read.new room.new.state.items
            seat.new.me }
        ensures later { IfSome read.new (λ version. (local_of seat.old.me).after ≤ version) }
        ensures widths { IsSome read.new → AreWidths (O.meaning self.now.setup.object) self.now.setup.sizes }
        ensures told { IfSome read.new (λ version. IsVersion (O.meaning self.now.setup.object).object
            self.now.setup.sizes.processes (record { process = p; calls = (local_of seat.old.me).own } ∷ [])
            version room.new.state.items) }
        ensures room { HasRoom self.now.setup.sizes room.new }
        ensures kept { IsKept self.now.setup.sizes own.now room.new }
    {
        if let Some(version) = *read {
            if self.recall(seat, p, version) == version {
                return;
            }
        }
        *read = self.copy_present(seat, p, own, room);
    }

    /// What the object answers to an invocation at the state in the room, which stays as it is.
    fn answer(&self, room: &mut Room, invocation: &[u64], reply: &mut [u64])
        requires wide { (length invocation.now ≡ self.now.setup.sizes.invocation)
            × (length reply.old ≡ self.now.setup.sizes.reply) }
        requires widths { AreWidths (O.meaning self.now.setup.object) self.now.setup.sizes }
        requires room { HasRoom self.now.setup.sizes room.old }
        requires reached { IsReached (O.meaning self.now.setup.object).object room.old.state.items }
        ensures reply { reply.new
            ≡ (O.meaning self.now.setup.object).object.answer room.old.state.items invocation.now }
        ensures same { (room.new.of ≡ room.old.of)
            × (image_in self.now.setup.sizes room.new ≡ image_in self.now.setup.sizes room.old) }
        ensures room { HasRoom self.now.setup.sizes room.new }
    {
        let touched = self.setup.object.touches(&room.state, invocation);
        touched.copy(&room.state, &mut room.saved);
        self.setup.object.apply(&mut room.state, invocation, reply);
        touched.copy(&room.saved, &mut room.state);
    }
}

impl<O: SmallObject> SmallSeat<O> {
    /// Reads a version of the state, without a call: the answer is its number, and `state` shows its state. `None` says
    /// that none was read, since another version came while words were loaded. Ask again, as often as you like: how
    /// often another one comes is up to the others. Who has to be answered within a bound makes a call that changes
    /// nothing.
    ///
    /// The state is that after some history which the atomic object accepts (`told`). The seat's own calls are in it,
    /// with their replies; which calls the other processes make in it is not said. The seat follows the version, which
    /// is no older than the one that it followed (`version`, `later`).
    ///
    /// It returns after at most `W + (1 + R) * n + 3` word steps. One word names the present version: where that is the
    /// one that the seat has read last, and it hasn't called since, no other word is loaded; where it names a buffer of
    /// the seat's own process, as after a call that it brought in itself, no word of the state is. The error says that
    /// the seat has made all the calls that it can make; nothing is changed then.
    ///
    /// In no clause: that the version is the present one, and so that the other calls in it were made; that `None`
    /// comes only where another one came meanwhile; that nothing is stored, and which words are loaded. A body that,
    /// where it isn't `CallsSpent`, loads one word and answers `None`, or that tells a seat without calls the start
    /// state, would meet the clauses.
    pub fn refresh(&mut self, shared: &SmallShared<O>) -> Result<Option<u64>, CallsSpent>
        requires seat { IsSeatOf shared.now self.old }
        ensures kept { IsSeatOf shared.now self.new × (process_of self.new ≡ process_of self.old) }
        ensures spent { IsErr result ↔ (calls_made self.old ≡ most_calls) }
        ensures unchanged { OnErr result (self.new ≡ self.old) }
        ensures calls { (calls_of self.new ≡ calls_of self.old) × (taken_calls self.new ≡ taken_calls self.old) }
        ensures told { IfOk result (λ found. IfSome found (λ version.
            IsVersion (O.meaning (object_of shared.now)).object (processes_of shared.now) (calls_of self.new ∷ [])
            version (state_read self.new))) }
        ensures version { IfOk result (λ found. IfSome found (λ version. version_of self.new ≡ version)) }
        ensures later { version_of self.old ≤ version_of self.new }
        ensures same { IfOk result (λ found. found ≡ None → version_of self.new ≡ version_of self.old) }
        ensures asks { OnOk result (word_steps_of self.old < word_steps_of self.new) }
        ensures few_steps { OnOk result (word_steps_of self.new
            ≤ word_steps_of self.old + read_steps (sizes_of shared.now)) }
    {
        if self.made == MAX_CALLS {
            return Err(CallsSpent);
        }
        shared.find_present(
            &mut self.seat,
            self.p,
            &self.own,
            &mut self.room,
            &mut self.read,
        );
        Ok(self.read)
    }

    /// The words of the state that `refresh` or `read` has read last; zeros where neither has read one (in no clause).
    /// After a call of the seat, or where the answer was `None`, they are of no use.
    pub fn state(&self) -> &[u64]
        ensures { result.now ≡ state_read self.now }
    {
        &self.room.state
    }

    /// What the object would answer to this invocation at a version of the state: the reply is written, and the answer
    /// is that version's number, whose state `state` shows (`told`, `answer`). No call is made: the seat's calls stay
    /// as they are, whatever the invocation is. One that only asks, as for the value of a key of a map, needs no call
    /// but this, and no other process waits for it.
    ///
    /// The answer is `None` where another version came meanwhile; the reply stays as it was then. What the version is,
    /// and what the seat follows, how many steps it takes and the error are as `refresh` has them, and so is what is in
    /// no clause.
    pub fn read(
        &mut self,
        shared: &SmallShared<O>,
        invocation: &[u64],
        reply: &mut [u64],
    ) -> Result<Option<u64>, CallsSpent>
        requires seat { IsSeatOf shared.now self.old }
        requires invocation { length invocation.now ≡ invocation_width_of shared.now }
        requires reply { length reply.old ≡ reply_width_of shared.now }
        ensures kept { IsSeatOf shared.now self.new × (process_of self.new ≡ process_of self.old) }
        ensures spent { IsErr result ↔ (calls_made self.old ≡ most_calls) }
        ensures unchanged { OnErr result ((self.new ≡ self.old) × (reply.new ≡ reply.old)) }
        ensures calls { (calls_of self.new ≡ calls_of self.old) × (taken_calls self.new ≡ taken_calls self.old) }
        ensures told { IfOk result (λ found. IfSome found (λ version.
            IsVersion (O.meaning (object_of shared.now)).object (processes_of shared.now) (calls_of self.new ∷ [])
            version (state_read self.new))) }
        ensures answer { IfOk result (λ found. IsSome found → reply.new
            ≡ (O.meaning (object_of shared.now)).object.answer (state_read self.new) invocation.now) }
        ensures version { IfOk result (λ found. IfSome found (λ version. version_of self.new ≡ version)) }
        ensures later { version_of self.old ≤ version_of self.new }
        ensures none { IfOk result (λ found. found ≡ None
            → (version_of self.new ≡ version_of self.old) × (reply.new ≡ reply.old)) }
        ensures asks { OnOk result (word_steps_of self.old < word_steps_of self.new) }
        ensures few_steps { OnOk result (word_steps_of self.new
            ≤ word_steps_of self.old + read_steps (sizes_of shared.now)) }
    {
        if self.made == MAX_CALLS {
            return Err(CallsSpent);
        }
        shared.find_present(
            &mut self.seat,
            self.p,
            &self.own,
            &mut self.room,
            &mut self.read,
        );
        if self.read.is_some() {
            shared.answer(&mut self.room, invocation, reply);
        }
        Ok(self.read)
    }
}
