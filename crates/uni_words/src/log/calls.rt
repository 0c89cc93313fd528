//! The word steps that begin a call, read settled words, settle a state, and end a call.
ghost use Rattle.std.specs.Prelude.{◌≡◌, ◌+◌, ◌*◌, ◌<◌, ◌≤◌, ◌^◌};
ghost use Rattle.uni_words.specs.Standing.{GoesBy, HasCell, IsCursor, IsIdle, Stands, cell_at, head_at};
ghost use Rattle.uni_words.specs.Seats.{HasLooked, HasFinished};
ghost use Rattle.uni_model.specs.Indices.{index_of};
ghost use Rattle.uni_words.specs.Words.{state_in, reply_in};
ghost use Rattle.uni_words.specs.View.{begun_by};
ghost use Rattle.uni_words.specs.View.Reading.{Applied, Invocation, Nothing, Reply};
ghost use Rattle.uni_model.specs.Stages.Stage.{Announce, DecideNew, WriteBefore, Finish};

use crate::cursor::Cursor;
use crate::log::WordLog;
use crate::object::WordObject;
use crate::rule::{Begins, Ends, LooksInv, LooksNew, LooksReply, Moves};
use crate::view::View;
use atomic_table::Seat;

impl<O: WordObject> WordLog<O> {
    /// The cell of a call.
    pub(crate) fn cell(&self, p: u64, nth: u64) -> u64
        requires { (p < self.now.setup.n) × (nth < self.now.setup.k) }
        ensures { (result ≡ index_of self.now.setup.n p nth) × HasCell self.now result }
    {
        1 + nth * self.setup.n + p
    }

    /// Stores the invocation of the next call: the call begins.
    pub(crate) fn store_inv(&self, seat: &mut Seat<u8, View>, at: Cursor, nth: u64, inv: u64)
        requires table { seat.old.table_id ≡ self.now.table.shared.table_id }
        requires cursor { IsCursor self.now at }
        requires inside { nth < self.now.setup.k }
        requires cell { at.cell ≡ index_of self.now.setup.n at.process nth }
        requires idle { IsIdle self.now.setup.n self.now.setup.k at.process nth seat.old.me }
        ensures same { (seat.new.table_id ≡ seat.old.table_id) × (seat.new.id ≡ seat.old.id) }
        ensures stands { Stands self.now at Announce seat.new.me }
        ensures begun { seat.new.me ≡ (record { known = begun_by seat.old.me.0.known inv }, seat.old.me.1) }
    {
        self.table
            .shared
            .store::<Begins>(seat, self.inv_word(at.cell), inv);
    }

    /// Loads the invocation of d.
    pub(crate) fn load_inv(&self, seat: &mut Seat<u8, View>, at: Cursor, d: u64) -> u64
        requires table { seat.old.table_id ≡ self.now.table.shared.table_id }
        requires cursor { IsCursor self.now at }
        requires inside { HasCell self.now d }
        requires stands { Stands self.now at (DecideNew (head_at self.now at) at.number (cell_at self.now d))
            seat.old.me }
        requires fresh { seat.old.me.0.known.its.read ≡ Nothing }
        ensures same { (seat.new.table_id ≡ seat.old.table_id) × (seat.new.id ≡ seat.old.id) }
        ensures stands { Stands self.now at (DecideNew (head_at self.now at) at.number (cell_at self.now d))
            seat.new.me }
        ensures goes { GoesBy seat.old.me seat.new.me 1 0 }
        ensures read { seat.new.me.0.known.its.read ≡ Invocation result }
    {
        self.table.shared.load::<LooksInv>(seat, self.inv_word(d))
    }

    /// Loads what is settled in the head.
    pub(crate) fn load_new(&self, seat: &mut Seat<u8, View>, at: Cursor, d: u64, inv: u64) -> u64
        requires table { seat.old.table_id ≡ self.now.table.shared.table_id }
        requires cursor { IsCursor self.now at }
        requires read { seat.old.me.0.known.its.read ≡ Invocation inv }
        requires stands { Stands self.now at (DecideNew (head_at self.now at) at.number (cell_at self.now d))
            seat.old.me }
        ensures same { (seat.new.table_id ≡ seat.old.table_id) × (seat.new.id ≡ seat.old.id) }
        ensures stands { Stands self.now at (DecideNew (head_at self.now at) at.number (cell_at self.now d))
            seat.new.me }
        ensures goes { GoesBy seat.old.me seat.new.me 1 0 }
        ensures read { seat.new.me.0.known.its.read ≡ Applied inv (state_in result) }
        ensures fits { state_in result < 2 ^ 31 }
    {
        self.table
            .shared
            .load::<LooksNew>(seat, self.new_word(at.head))
    }

    /// `DecideNew`: proposes the state and the reply of d.
    pub(crate) fn decide_new(
        &self,
        seat: &mut Seat<u8, View>,
        at: Cursor,
        d: u64,
        inv: u64,
        state: u32,
    ) -> u64
        requires table { seat.old.table_id ≡ self.now.table.shared.table_id }
        requires cursor { IsCursor self.now at }
        requires inside { HasCell self.now d × (state < 2 ^ 31) }
        requires read { seat.old.me.0.known.its.read ≡ Applied inv state }
        requires stands { Stands self.now at (DecideNew (head_at self.now at) at.number (cell_at self.now d))
            seat.old.me }
        ensures same { (seat.new.table_id ≡ seat.old.table_id) × (seat.new.id ≡ seat.old.id) }
        ensures stands { Stands self.now at (WriteBefore (head_at self.now at) at.number (cell_at self.now d))
            seat.new.me }
        ensures goes { GoesBy seat.old.me seat.new.me 1 0 }
    {
        let next = self.setup.object.next(state, inv);
        let reply = self.setup.object.answer(state, inv);
        let new = 1 + 2 * (reply as u64) + 4_294_967_296 * (next as u64);
        self.table
            .shared
            .compare_exchange::<Moves>(seat, self.new_word(d), 0, new)
    }

    /// Loads the reply of the call: its last step where the head stays.
    pub(crate) fn load_reply(&self, seat: &mut Seat<u8, View>, at: Cursor, mine_seq: u64) -> u64
        requires table { seat.old.table_id ≡ self.now.table.shared.table_id }
        requires cursor { IsCursor self.now at }
        requires stands { Stands self.now at (Finish at.number mine_seq) seat.old.me }
        requires fresh { seat.old.me.0.known.its.read ≡ Nothing }
        ensures same { (seat.new.table_id ≡ seat.old.table_id) × (seat.new.id ≡ seat.old.id) }
        ensures looked { at.number < mine_seq → HasLooked seat.old.me (Reply (reply_in result)) seat.new.me }
        ensures finished { mine_seq ≤ at.number → HasFinished seat.old.me 0 (reply_in result) seat.new.me }
    {
        self.table
            .shared
            .load::<LooksReply>(seat, self.new_word(at.cell))
    }

    /// `Finish`: stores the call's cell in the process's head.
    pub(crate) fn finish(&self, seat: &mut Seat<u8, View>, at: Cursor, mine_seq: u64, reply: u32)
        requires table { seat.old.table_id ≡ self.now.table.shared.table_id }
        requires cursor { IsCursor self.now at }
        requires later { at.number < mine_seq }
        requires stands { Stands self.now at (Finish at.number mine_seq) seat.old.me }
        requires read { seat.old.me.0.known.its.read ≡ Reply reply }
        ensures same { (seat.new.table_id ≡ seat.old.table_id) × (seat.new.id ≡ seat.old.id) }
        ensures finished { HasFinished seat.old.me 1 reply seat.new.me }
    {
        self.table
            .shared
            .store::<Ends>(seat, self.head_word(at.process), at.cell);
    }
}
