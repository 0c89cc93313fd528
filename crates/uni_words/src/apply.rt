//! A call from its start to its reply.
ghost use Rattle.std.specs.Prelude.{◌≡◌, ◌↔◌, ◌+◌, ◌*◌, ◌<◌, ◌≤◌, ◌++◌, ◌∷◌};
ghost use Rattle.std.specs.Prelude.{[], IsErr, IfOk, OnOk, OnErr};
ghost use Rattle.uni_words.specs.Standing.{GetsOn, GoesBy, HasTakenSteps, IsCursor};
ghost use Rattle.uni_words.specs.Standing.{IsIdle, Stands, IsAtStage, cell_at, head_at};
ghost use Rattle.uni_words.specs.Words.{cells_of};
ghost use Rattle.uni_words.specs.Belongs.{IsSeatOf, processes_of, row_of, process_of, calls_made, own_calls};
ghost use Rattle.uni_words.specs.Belongs.{taken_calls, seen_by, latest_number, latest_turns, view_of, word_steps_of};
ghost use Rattle.uni_model.specs.Places.Name.{Anchor};
ghost use Rattle.uni_model.specs.Stages.Stage.{ScanHead, WriteScan, Test, ReadAnnounce, Finish};
ghost use Rattle.uni_words.specs.View.Reading.{Nothing};

use crate::cursor::Cursor;
use crate::log::WordLog;
use crate::object::WordObject;
use crate::seat::WordSeat;
use crate::view::View;
use atomic_table::Seat;
use seq_object::CallId;

/// What a call answers.
#[derive(Debug, Clone, Copy, PartialEq, Eq, Drop)]
pub struct Answer {
    /// The call, by which others can ask about it.
    pub call: CallId,
    /// Its reply.
    pub reply: u32,
    /// Its number in the log, whose first entry has 2.
    pub number: u64,
    /// How many turns it took.
    pub turns: u32,
}

/// The seat has made all the calls that it can make.
#[derive(Debug, Clone, Copy, PartialEq, Eq, Drop)]
pub struct RowFull;

impl<O: WordObject> WordLog<O> {
    /// The scan of the heads: the greatest cell that it finds is the head.
    pub(crate) fn scan(&self, seat: &mut Seat<u8, View>, at: Cursor) -> Cursor
        requires table { seat.old.table_id ≡ self.now.table.shared.table_id }
        requires cursor { IsCursor self.now at }
        requires stands { Stands self.now at (ScanHead 0 Anchor 0) seat.old.me }
        ensures same { (seat.new.table_id ≡ seat.old.table_id) × (seat.new.id ≡ seat.old.id) }
        ensures on { GetsOn self.now at result }
        ensures stands { Stands self.now result (WriteScan (head_at self.now result) result.number) seat.new.me }
        ensures goes { GoesBy seat.old.me seat.new.me (2 * self.now.setup.n) 0 }
    {
        let mut best = at;
        best.head = 0;
        best.number = 0;
        for q in 0..self.setup.n {
            let h = self.scan_head(seat, best, q);
            let s = self.scan_seq(seat, best, q, h);
            if s > best.number {
                best.head = h;
                best.number = s;
            }
        }
        best
    }

    /// A turn, after a test that found no number: the head is the cell after the head then.
    pub(crate) fn turn(&self, seat: &mut Seat<u8, View>, at: Cursor) -> Cursor
        requires table { seat.old.table_id ≡ self.now.table.shared.table_id }
        requires cursor { IsCursor self.now at }
        requires stands { Stands self.now at (ReadAnnounce (head_at self.now at) at.number) seat.old.me }
        ensures same { (seat.new.table_id ≡ seat.old.table_id) × (seat.new.id ≡ seat.old.id) }
        ensures on { GetsOn self.now at result }
        ensures next { result.number ≡ at.number + 1 }
        ensures stands { Stands self.now result (Test (head_at self.now result) result.number) seat.new.me }
        ensures goes { GoesBy seat.old.me seat.new.me 9 0 }
    {
        let help = self.read_announce(seat, at);
        let help_seq = self.read_help_seq(seat, at, help);
        let prefer = if help_seq == 0 { help } else { at.cell };
        let found = self.decide_after(seat, at, prefer);
        let d = if found == 0 { prefer } else { found - 1 };
        let inv = self.load_inv(seat, at, d);
        let new = self.load_new(seat, at, d, inv);
        let state = (new / 4_294_967_296) as u32;
        self.decide_new(seat, at, d, inv, state);
        self.write_before(seat, at, d);
        self.write_seq(seat, at, d);
        self.write_head(seat, at, d);
        let mut next = at;
        next.head = d;
        next.number += 1;
        next
    }

    /// Turns until the call's cell has a number: how many there were, the number of the process's head, and
    /// that of the cell.
    pub(crate) fn turns(&self, seat: &mut Seat<u8, View>, at: Cursor) -> (u64, u64, u64)
        requires table { seat.old.table_id ≡ self.now.table.shared.table_id }
        requires cursor { IsCursor self.now at }
        requires stands { Stands self.now at (Test (head_at self.now at) at.number) seat.old.me }
        requires first { seat.old.me.0.known.its.turns ≡ 0 }
        ensures same { (seat.new.table_id ≡ seat.old.table_id) × (seat.new.id ≡ seat.old.id) }
        ensures stands { IsAtStage self.now.setup.n self.now.setup.k at.process (cell_at self.now at.cell)
            (Finish result.1 result.2) seat.new.me }
        ensures fresh { seat.new.me.0.known.its.read ≡ Nothing }
        ensures number { result.1 ≤ cells_of self.now.setup.n self.now.setup.k }
        ensures goes { GoesBy seat.old.me seat.new.me (10 * result.0 + 1) result.0 }
        ensures bound { result.0 ≤ self.now.setup.n + 1 }
        ensures own_cell { result.0 ≡ self.now.setup.n + 1 → result.2 ≤ result.1 }
    {
        let mut at = at;
        for turns in 0..self.setup.n + 2 {
            let found = self.test(seat, at);
            if found != 0 {
                return (turns, at.number, found);
            }
            at = self.turn(seat, at);
        }
        unreachable!()
    }

    /// The call number `nth` of process p, from its start to its reply.
    pub(crate) fn call(&self, seat: &mut Seat<u8, View>, p: u64, nth: u64, inv: u64) -> Answer
        requires table { seat.old.table_id ≡ self.now.table.shared.table_id }
        requires inside { (p < self.now.setup.n) × (nth < self.now.setup.k) }
        requires idle { IsIdle self.now.setup.n self.now.setup.k p nth seat.old.me }
        ensures same { (seat.new.table_id ≡ seat.old.table_id) × (seat.new.id ≡ seat.old.id) }
        ensures idle { IsIdle self.now.setup.n self.now.setup.k p (nth + 1) seat.new.me }
        ensures own { seat.new.me.0.known.its.own ≡ seat.old.me.0.known.its.own ++ (inv, result.reply) ∷ [] }
        ensures call { (result.call.process ≡ p) × (result.call.nth ≡ nth) }
        ensures number { seat.new.me.0.known.its.number ≡ result.number }
        ensures rises { seat.old.me.0.known.its.number < result.number }
        ensures taken { seat.new.me.0.known.taken ≡ seat.old.me.0.known.taken }
        ensures seen { seat.new.me.0.known.seen ≡ seat.old.me.0.known.seen }
        ensures turns { seat.new.me.0.known.its.turns ≡ result.turns }
        ensures few_turns { result.turns ≤ self.now.setup.n + 1 }
        ensures steps { HasTakenSteps self.now.setup.n seat.new.me.0.known.its.turns
            seat.old.me.0.known seat.new.me.0.known }
    {
        let at = Cursor {
            process: p,
            cell: self.cell(p, nth),
            head: 0,
            number: 0,
        };
        self.store_inv(seat, at, nth, inv);
        self.announce(seat, at);
        let mut at = self.scan(seat, at);
        self.write_scan(seat, at);
        let (turns, number, mine_seq) = self.turns(seat, at);
        at.number = number;
        let word = self.load_reply(seat, at, mine_seq);
        let reply = (word % 4_294_967_296 / 2) as u32;
        if mine_seq > number {
            self.finish(seat, at, mine_seq, reply);
        }
        Answer {
            call: CallId {
                process: p as u32,
                nth,
            },
            reply,
            number: mine_seq,
            turns: turns as u32,
        }
    }
}

impl WordSeat {
    /// Applies the invocation: the call, its reply, its number, and how many turns it took. It returns after at most
    /// `12 * n + 15` word steps, whatever the other seats do, and takes no memory and no lock: no allocator and no lock
    /// come in. The seat is one of this log's. With n processes a call of so many turns takes `2n + 5` word steps and
    /// ten a turn; where its last step stores the head that is one more, which the seat counts, and which comes only
    /// after n turns at most. The numbers of a seat's calls rise.
    ///
    /// That the reply is the object's is in no clause here: `close_with` says it of all calls of the seat at once. The
    /// law `every_execution_is_linearizable` says it of executions, and the rule of the table keeps, step by step, that
    /// one has led to its words. That the number is that of the call's entry says `close_with` of the latest call.
    ///
    /// The error says that the seat has made all the calls that it can make; nothing is changed then.
    pub fn apply<O: WordObject>(&mut self, log: &WordLog<O>, inv: u64) -> Result<Answer, RowFull>
        requires seat { IsSeatOf log.now self.old }
        ensures kept { IsSeatOf log.now self.new × (process_of self.new ≡ process_of self.old) }
        ensures full { IsErr result ↔ (calls_made self.old ≡ row_of log.now) }
        ensures unchanged { OnErr result (self.new ≡ self.old) }
        ensures own { IfOk result (λ answer. own_calls self.new ≡ own_calls self.old ++ (inv, answer.reply) ∷ []) }
        ensures call { IfOk result (λ answer. (answer.call.process ≡ process_of self.old)
            × (answer.call.nth ≡ calls_made self.old)) }
        ensures number { IfOk result (λ answer. latest_number self.new ≡ answer.number) }
        ensures rises { IfOk result (λ answer. latest_number self.old < answer.number) }
        ensures taken { taken_calls self.new ≡ taken_calls self.old }
        ensures seen { seen_by self.new ≡ seen_by self.old }
        ensures made { OnOk result (calls_made self.new ≡ calls_made self.old + 1) }
        ensures turns { IfOk result (λ answer. latest_turns self.new ≡ answer.turns) }
        ensures few_turns { IfOk result (λ answer. answer.turns ≤ processes_of log.now + 1) }
        ensures steps { IfOk result (λ answer.
            HasTakenSteps (processes_of log.now) answer.turns (view_of self.old) (view_of self.new)) }
        ensures few_steps { OnOk result
            (word_steps_of self.new ≤ word_steps_of self.old + (12 * processes_of log.now + 15)) }
    {
        if self.made == self.k {
            return Err(RowFull);
        }
        let answer = log.call(&mut self.seat, self.p, self.made, inv);
        self.made += 1;
        Ok(answer)
    }
}
