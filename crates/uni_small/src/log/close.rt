//! Closing an object.
ghost use Rattle.std.specs.Prelude.{◌≡◌, ◌++◌, ◌+◌, ◌*◌, ◌<◌, ◌≤◌, [], All, flat_map};
ghost use Rattle.std.specs.Prelude.{length, slice_index};
ghost use Rattle.std.specs.Mem.Slots.{IsFull, slots_items, slots_len};
ghost use Rattle.uni_small.specs.Belongs.{IsSeatOf, calls_made, calls_of, known_calls, object_of, sizes_of};
ghost use Rattle.uni_small.specs.Belongs.{state_read, version_of};
ghost use Rattle.uni_small.specs.Belongs.{invocation_width_of, processes_of, reply_width_of, width_of, word_steps_of};
ghost use Rattle.uni_small.specs.Board.{AreFew, buffer_in, words_of};
ghost use Rattle.uni_small.specs.Ended.{HasRunTo};
ghost use Rattle.uni_small.specs.Final.{HasHistory};
ghost use Rattle.uni_small.specs.Reading.{IsStateIn};

use crate::log::SmallShared;
use crate::object::SmallObject;
use crate::rule::{Setup, TakesIn};
use crate::seat::{Seen, SmallSeat};
use crate::sizes::Sizes;
use atomic_table::Closed;
use std::alloc::Global;

/// Writes the state that is in a closed table of an object of these sizes.
fn write_state(closed: Closed<Seen, Global>, sizes: &Sizes, state: &mut [u64])
    requires full { IsFull closed.words × (slots_len closed.words ≡ words_of sizes.now) }
    requires slotless { slots_len closed.slots ≡ 0 }
    requires few { AreFew sizes.now }
    requires named { buffer_in (slice_index (slots_items closed.words) 0) < 2 * sizes.now.processes }
    requires wide { length state.old ≡ sizes.now.state }
    ensures read { IsStateIn sizes.now (slots_items closed.words) state.new }
{
    let n = sizes.processes;
    let at_state = n + n * sizes.reply;
    let buffer = closed.word(0) % 128;
    let from = 1 + n + n * sizes.invocation + buffer * (at_state + sizes.state) + at_state;
    for i in 0..sizes.state {
        state[i as usize] = closed.word((from + i) as usize);
    }
    closed.free();
}

impl<O: SmallObject> SmallShared<O> {
    /// How many words a state has.
    pub fn width(&self) -> u64
        ensures { result ≡ width_of self.now }
    {
        self.setup.sizes.state
    }

    /// How many words an invocation has.
    pub fn invocation_width(&self) -> u64
        ensures { result ≡ invocation_width_of self.now }
    {
        self.setup.sizes.invocation
    }

    /// How many words a reply has.
    pub fn reply_width(&self) -> u64
        ensures { result ≡ reply_width_of self.now }
    {
        self.setup.sizes.reply
    }

    /// Closes the object with no seat, and writes its state: that after a list of calls, in the order in which they
    /// took effect. Which calls the seats made is not said, nor that the state is the last one: the start state would
    /// meet the clauses. All seats may be dropped. A call that a seat was in when its thread died has taken effect
    /// whole, or not at all: `told` has no half call, since the state is that after whole ones.
    pub fn close(self, state: &mut [u64])
        requires wide { length state.old ≡ width_of self }
        ensures told { HasHistory (O.meaning (object_of self)).object (processes_of self) [] state.new }
        ensures ran { HasRunTo (O.meaning (object_of self)).object (sizes_of self) [] state.new }
    {
        let SmallShared { setup, table } = self;
        let Setup { object, sizes } = setup;
        drop(object);
        write_state(table.close(), &sizes, state);
    }

    /// Closes the object with the seat of one of its processes, which is one of this object's, and writes its
    /// state. Other seats may be dropped: which calls they made is not said.
    ///
    /// The calls of the seat's process, and of each process whose seat it has taken in, with the replies
    /// that they were given, are those of a history that the atomic object accepts. The state is that
    /// after the calls of this history, in the order in which they took effect. In that order each known call
    /// comes after all calls of the version that its seat had followed, and is among those of its own version.
    ///
    /// The history is made by the word steps of an execution from the opening (`ran`). It is chosen by the clauses:
    /// that its other calls were made, and that the state is the one which the word S names at the end, is in no
    /// clause. A body that wrote the start state, for a seat without calls that has taken in none, would meet them.
    pub fn close_with(self, seat: SmallSeat<O>, state: &mut [u64])
        requires seat { IsSeatOf self seat }
        requires wide { length state.old ≡ width_of self }
        ensures told { HasHistory (O.meaning (object_of self)).object (processes_of self) (known_calls seat) state.new }
        ensures ran { HasRunTo (O.meaning (object_of self)).object (sizes_of self) (known_calls seat) state.new }
    {
        let SmallShared { setup, table } = self;
        let Setup { object, sizes } = setup;
        drop(object);
        let SmallSeat { seat, .. } = seat;
        write_state(table.close_with(seat), &sizes, state);
    }

    /// Closes the object with these seats, of all processes, of some, or of none: what `close_with` tells of one
    /// seat's calls is told of each one's. It takes no memory, and a load for each seat but one (in no clause).
    pub fn close_all(self, seats: Vec<SmallSeat<O>>, state: &mut [u64])
        requires seats { All (IsSeatOf self) seats.items }
        requires wide { length state.old ≡ width_of self }
        ensures told { HasHistory (O.meaning (object_of self)).object (processes_of self)
            (flat_map known_calls seats.items) state.new }
        ensures ran { HasRunTo (O.meaning (object_of self)).object (sizes_of self)
            (flat_map known_calls seats.items) state.new }
    {
        let mut seats = seats;
        let Some(mut first) = seats.pop() else {
            return self.close(state);
        };
        for seat in seats {
            first.take_in(&self, seat);
        }
        self.close_with(first, state);
    }
}

impl<O: SmallObject> SmallSeat<O> {
    /// Takes in another seat of this object: this seat knows its calls then. It costs one load (in no clause), which
    /// the seat doesn't count among its word steps (`steps`). For this seat's later calls to come after the other's,
    /// follow the version of its last call.
    pub fn take_in(&mut self, shared: &SmallShared<O>, other: SmallSeat<O>)
        requires seats { IsSeatOf shared.now self.old × IsSeatOf shared.now other }
        ensures kept { IsSeatOf shared.now self.new × (calls_of self.new ≡ calls_of self.old) }
        ensures made { calls_made self.new ≡ calls_made self.old }
        ensures version { version_of self.new ≡ version_of self.old }
        ensures steps { word_steps_of self.new ≡ word_steps_of self.old }
        ensures state { state_read self.new ≡ state_read self.old }
        ensures known { known_calls self.new ≡ known_calls self.old ++ known_calls other }
    {
        let SmallSeat { seat, .. } = other;
        shared
            .table
            .shared
            .join_seat::<TakesIn>(&mut self.seat, seat);
    }
}
