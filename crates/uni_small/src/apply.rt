//! A call from its start to its answer, and what a seat asks between calls.
ghost use Rattle.std.specs.Prelude.{ℕ, ◌≡◌, ◌↔◌, ◌+◌, ◌*◌, ◌<◌, ◌≤◌, ◌++◌};
ghost use Rattle.std.specs.Prelude.{◌∷◌, []};
ghost use Rattle.std.specs.Prelude.{IsErr, IsTrue, IfOk, OnOk, OnErr, length};
ghost use Rattle.uni_small.specs.View.Stage.{Idle};
ghost use Rattle.uni_small.specs.Invariant.{most_calls};
ghost use Rattle.uni_small.specs.Plays.{stage_of};
ghost use Rattle.uni_small.specs.View.Stage.{Last};
ghost use Rattle.uni_small.specs.Board.{buffer_in, version_in};
ghost use Rattle.uni_small.specs.Standing.{CallEnds, GoesBy, IsAnnounced, IsOf, ReplyEnds, announced_steps};
ghost use Rattle.uni_small.specs.Standing.{call_steps, local_of};
ghost use Rattle.uni_small.specs.Belongs.{IsSeatOf, calls_made, calls_of, own_calls};
ghost use Rattle.uni_small.specs.Kept.{AreBuffers, IsKept, HasRoom};
ghost use Rattle.uni_small.specs.Belongs.{invocation_width_of, process_of, reply_width_of, sizes_of, taken_calls};
ghost use Rattle.uni_small.specs.Belongs.{announced_by, state_read, version_of, word_steps_of};

use crate::log::SmallShared;
use crate::object::SmallObject;
use crate::seat::{Buffers, Room, Seen, SmallSeat};
use crate::view::View;
use atomic_table::Seat;
use std::hint::spin_loop;

/// The greatest number of calls of a process.
pub const MAX_CALLS: u64 = 1_125_899_906_842_624;

/// How many times a process pauses after a direct attempt that has failed.
const PAUSES: u64 = 40;

/// Lets the process that was first go on from its own buffer, which it needn't copy.
fn pause() {
    for _ in 0..PAUSES {
        spin_loop();
    }
}

/// The seat has made all the calls that it can make, which are 2^50.
#[derive(Debug, Clone, Copy, PartialEq, Eq, Drop)]
pub struct CallsSpent;

impl<O: SmallObject> SmallShared<O> {
    /// Stores the invocation of the next call.
    fn store_argument(&self, seat: &mut Seat<Seen, View<O>>, p: u64, invocation: &[u64])
        requires table { seat.old.table_id ≡ self.now.table.shared.table_id }
        requires inside { (p < self.now.setup.sizes.processes)
            × (length invocation.now ≡ self.now.setup.sizes.invocation) }
        requires of { IsOf self.now.setup.object self.now.setup.sizes p seat.old.me }
        requires stage { stage_of seat.old.me ≡ Idle [] }
        requires calls { length (local_of seat.old.me).own + 1 ≤ most_calls }
        ensures same { (seat.new.table_id ≡ seat.old.table_id) × (seat.new.id ≡ seat.old.id) }
        ensures goes { GoesBy seat.old.me (length invocation.now) (Idle invocation.now) seat.new.me }
    {
        for k in 0..invocation.len() {
            self.store_word(seat, p, k as u64, invocation[k]);
        }
    }

    /// Loads the reply: the call returns, and is in the version that s names.
    pub(crate) fn load_reply(
        &self,
        seat: &mut Seat<Seen, View<O>>,
        p: u64,
        s: u64,
        reply: &mut [u64],
    ) -> u64
        requires table { seat.old.table_id ≡ self.now.table.shared.table_id }
        requires inside { (p < self.now.setup.sizes.processes) × (length reply.old ≡ self.now.setup.sizes.reply) }
        requires of { IsOf self.now.setup.object self.now.setup.sizes p seat.old.me }
        requires stage { stage_of seat.old.me ≡ Last s [] }
        requires named { buffer_in s < 2 * self.now.setup.sizes.processes }
        ensures same { (seat.new.table_id ≡ seat.old.table_id) × (seat.new.id ≡ seat.old.id) }
        ensures left { ReplyEnds seat.old.me s reply.new self.now.setup.sizes.reply seat.new.me }
        ensures version { result ≡ version_in s }
        ensures later { (local_of seat.old.me).after < version_in s }
    {
        let last = reply.len() - 1;
        for k in 0..last {
            reply[k] = self.load_word(seat, p, s, k as u64);
        }
        reply[last] = self.load_last(seat, p, s, last as u64);
        s / 128
    }

    /// The call of this number, which is announced, from its start to its reply: a version in which it is.
    fn call_announced(
        &self,
        seat: &mut Seat<Seen, View<O>>,
        p: u64,
        number: u64,
        own: &mut Buffers,
        room: &mut Room,
        invocation: &[u64],
        reply: &mut [u64],
    ) -> u64
        requires table { seat.old.table_id ≡ self.now.table.shared.table_id }
        requires inside { p < self.now.setup.sizes.processes }
        requires wide { (length invocation.now ≡ self.now.setup.sizes.invocation)
            × (length reply.old ≡ self.now.setup.sizes.reply) }
        requires of { IsOf self.now.setup.object self.now.setup.sizes p seat.old.me }
        requires stage { stage_of seat.old.me ≡ Idle [] }
        requires number { (number ≡ length (local_of seat.old.me).own + 1) × (number ≤ most_calls) }
        requires own { AreBuffers self.now.setup.sizes (local_of seat.old.me) own.old }
        requires room { HasRoom self.now.setup.sizes room.old }
        requires kept { IsKept self.now.setup.sizes own.old room.old }
        ensures same { (seat.new.table_id ≡ seat.old.table_id) × (seat.new.id ≡ seat.old.id) }
        ensures ends { CallEnds (announced_steps self.now.setup.sizes) (length (local_of seat.old.me).own + 1)
            seat.old.me invocation.now reply.new result own.new seat.new.me }
        ensures own { AreBuffers self.now.setup.sizes (local_of seat.new.me) own.new }
        ensures room { HasRoom self.now.setup.sizes room.new }
        ensures kept { IsKept self.now.setup.sizes own.new room.new }
    {
        self.store_argument(seat, p, invocation);
        self.announce(seat, p, number);
        if let Some(s) = self.attempt(seat, p, number, 0, own, room) {
            return self.load_reply(seat, p, s, reply);
        }
        if let Some(s) = self.attempt(seat, p, number, 1, own, room) {
            return self.load_reply(seat, p, s, reply);
        }
        let s = self.turn(seat, p, 2);
        self.load_reply(seat, p, s, reply)
    }

    /// The call of this number, from its start to its reply: a version in which it is.
    fn call(
        &self,
        seat: &mut Seat<Seen, View<O>>,
        p: u64,
        number: u64,
        own: &mut Buffers,
        room: &mut Room,
        invocation: &[u64],
        reply: &mut [u64],
    ) -> u64
        requires table { seat.old.table_id ≡ self.now.table.shared.table_id }
        requires inside { p < self.now.setup.sizes.processes }
        requires wide { (length invocation.now ≡ self.now.setup.sizes.invocation)
            × (length reply.old ≡ self.now.setup.sizes.reply) }
        requires of { IsOf self.now.setup.object self.now.setup.sizes p seat.old.me }
        requires stage { stage_of seat.old.me ≡ Idle [] }
        requires untried { IsAnnounced seat.old.me }
        requires number { (number ≡ length (local_of seat.old.me).own + 1) × (number ≤ most_calls) }
        requires own { AreBuffers self.now.setup.sizes (local_of seat.old.me) own.old }
        requires room { HasRoom self.now.setup.sizes room.old }
        requires kept { IsKept self.now.setup.sizes own.old room.old }
        ensures same { (seat.new.table_id ≡ seat.old.table_id) × (seat.new.id ≡ seat.old.id) }
        ensures ends { (told : ℕ) × CallEnds (call_steps self.now.setup.sizes) told
            seat.old.me invocation.now reply.new result own.new seat.new.me }
        ensures own { AreBuffers self.now.setup.sizes (local_of seat.new.me) own.new }
        ensures room { HasRoom self.now.setup.sizes room.new }
        ensures kept { IsKept self.now.setup.sizes own.new room.new }
    {
        if let Some(s) = self.attempt_directly(seat, p, own, room, invocation) {
            return self.load_reply(seat, p, s, reply);
        }
        pause();
        self.call_announced(seat, p, number, own, room, invocation, reply)
    }
}

impl<O: SmallObject> SmallSeat<O> {
    /// Applies the invocation, and writes its reply. The answer is the number of a version that has the call: version 0
    /// is the start state, and each exchange of the current buffer makes the next one. The seat is one of this
    /// object's; `invocation` and `reply` have as many words as `invocation_width` and `reply_width` of the object say.
    ///
    /// Where a state has W words, an invocation I and a reply R, it returns after at most
    /// `6 * W + (9 + 3 * I + 6 * R) * n + I + R + 11` word steps with n processes, whatever the other seats do,
    /// and takes no memory and no lock: it is passed neither. Where its direct attempt fails it pauses 40 times, which
    /// touches no word (in no clause).
    ///
    /// The new version is greater than the one that the seat followed, and the seat follows it then. In no clause here:
    /// that the reply is the object's, that the call is in that version, and that it comes after all calls of the
    /// version followed before. Closing says so (`own` and `stand` of `HasHistory`), and so does the law
    /// `every_execution_is_linearizable`: by the rule, `ShowsBoard` in Shown, what seats know is at each moment that of
    /// an execution.
    ///
    /// The error says that the seat has made all the calls that it can make; nothing is changed then.
    pub fn apply(
        &mut self,
        shared: &SmallShared<O>,
        invocation: &[u64],
        reply: &mut [u64],
    ) -> Result<u64, CallsSpent>
        requires seat { IsSeatOf shared.now self.old }
        requires invocation { length invocation.now ≡ invocation_width_of shared.now }
        requires reply { length reply.old ≡ reply_width_of shared.now }
        ensures kept { IsSeatOf shared.now self.new × (process_of self.new ≡ process_of self.old) }
        ensures spent { IsErr result ↔ (calls_made self.old ≡ most_calls) }
        ensures unchanged { OnErr result ((self.new ≡ self.old) × (reply.new ≡ reply.old)) }
        ensures taken { taken_calls self.new ≡ taken_calls self.old }
        ensures own { IfOk result (λ version. own_calls self.new ≡ own_calls self.old ++ record {
          inv = invocation.now;
          reply = reply.new;
          after = version_of self.old;
          version = version;
        } ∷ []) }
        ensures later { IfOk result (λ version. version_of self.old < version) }
        ensures version { IfOk result (λ version. version_of self.new ≡ version) }
        ensures made { OnOk result (calls_made self.new ≡ calls_made self.old + 1) }
        ensures few_steps { OnOk result (word_steps_of self.new
            ≤ word_steps_of self.old + call_steps (sizes_of shared.now)) }
    {
        if self.made == MAX_CALLS {
            return Err(CallsSpent);
        }
        self.read = None;
        let version = shared.call(
            &mut self.seat,
            self.p,
            self.made + 1,
            &mut self.own,
            &mut self.room,
            invocation,
            reply,
        );
        self.made += 1;
        Ok(version)
    }

    /// Applies the invocation as `apply` does, but announces it at once, where `apply` makes a direct attempt first.
    /// Its number is told by a word, so a process that shares the object's memory and dies in such a call can be
    /// taken over.
    ///
    /// It returns after at most `4 * W + (6 + 2 * I + 4 * R) * n + I + R + 8` word steps.
    pub fn apply_announced(
        &mut self,
        shared: &SmallShared<O>,
        invocation: &[u64],
        reply: &mut [u64],
    ) -> Result<u64, CallsSpent>
        requires seat { IsSeatOf shared.now self.old }
        requires invocation { length invocation.now ≡ invocation_width_of shared.now }
        requires reply { length reply.old ≡ reply_width_of shared.now }
        ensures kept { IsSeatOf shared.now self.new × (process_of self.new ≡ process_of self.old) }
        ensures spent { IsErr result ↔ (calls_made self.old ≡ most_calls) }
        ensures unchanged { OnErr result ((self.new ≡ self.old) × (reply.new ≡ reply.old)) }
        ensures taken { taken_calls self.new ≡ taken_calls self.old }
        ensures own { IfOk result (λ version. own_calls self.new ≡ own_calls self.old ++ record {
          inv = invocation.now;
          reply = reply.new;
          after = version_of self.old;
          version = version;
        } ∷ []) }
        ensures later { IfOk result (λ version. version_of self.old < version) }
        ensures version { IfOk result (λ version. version_of self.new ≡ version) }
        ensures made { OnOk result (calls_made self.new ≡ calls_made self.old + 1) }
        ensures announced { OnOk result (announced_by self.new ≡ calls_made self.new) }
        ensures few_steps { OnOk result (word_steps_of self.new
            ≤ word_steps_of self.old + announced_steps (sizes_of shared.now)) }
    {
        if self.made == MAX_CALLS {
            return Err(CallsSpent);
        }
        self.read = None;
        let version = shared.call_announced(
            &mut self.seat,
            self.p,
            self.made + 1,
            &mut self.own,
            &mut self.room,
            invocation,
            reply,
        );
        self.made += 1;
        Ok(version)
    }

    /// Asks whether this version has come, by one load of the word that names the present one. The seat has
    /// the version that it finds then: later calls of this seat come after all calls that are in it, and their
    /// versions are greater. The answer is `true` exactly where that version is at least the one that was
    /// asked for.
    ///
    /// A version that an answer had has come: the law `returned_has_come` says so, and no clause of this call.
    /// So whoever was told of a call's version, by whatever means, and follows it, makes its later calls come
    /// after that call.
    ///
    /// In no clause: that the version which is found is the present one, and which word is loaded. A body that loads
    /// one word and answers by the version that the seat had would meet the clauses.
    pub fn follows(&mut self, shared: &SmallShared<O>, version: u64) -> bool
        requires seat { IsSeatOf shared.now self.old }
        ensures kept { IsSeatOf shared.now self.new × (calls_of self.new ≡ calls_of self.old) }
        ensures made { calls_made self.new ≡ calls_made self.old }
        ensures taken { taken_calls self.new ≡ taken_calls self.old }
        ensures asked { IsTrue result ↔ (version ≤ version_of self.new) }
        ensures later { version_of self.old ≤ version_of self.new }
        ensures state { state_read self.new ≡ state_read self.old }
        ensures one_step { word_steps_of self.new ≡ word_steps_of self.old + 1 }
    {
        let present = shared.present(&mut self.seat, self.p);
        version <= present
    }
}
