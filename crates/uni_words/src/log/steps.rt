//! The word steps, each one function.
ghost use Rattle.std.specs.Prelude.{◌≡◌, ◌+◌, ◌<◌, ◌≤◌, ◌==◌, if◌then◌else◌};
ghost use Rattle.std.specs.Prelude.{unwrap_or, Some};
ghost use Rattle.uni_words.specs.Standing.{GoesBy, HasCell, IsCursor, Stands};
ghost use Rattle.uni_words.specs.Standing.{cell_at, head_at};
ghost use Rattle.uni_model.specs.Places.Name.{Anchor};
ghost use Rattle.uni_model.specs.Transition.{stage_after_scan};
ghost use Rattle.uni_words.specs.Words.{cells_of, link_of};
ghost use Rattle.uni_model.specs.Stages.Stage.{Announce, ScanHead, ScanSeq, WriteScan, Test, ReadAnnounce};
ghost use Rattle.uni_model.specs.Stages.Stage.{ReadHelpSeq};
ghost use Rattle.uni_model.specs.Stages.Stage.{DecideAfter, DecideNew, WriteBefore, WriteSeq, WriteHead, Finish};
ghost use Rattle.uni_words.specs.View.Reading.{Nothing};

use crate::cursor::Cursor;
use crate::log::WordLog;
use crate::object::WordObject;
use crate::rule::Moves;
use crate::view::View;
use atomic_table::Seat;

impl<O: WordObject> WordLog<O> {
    /// `Announce`: stores the call's cell in the announce entry of the process.
    pub(crate) fn announce(&self, seat: &mut Seat<u8, View>, at: Cursor)
        requires table { seat.old.table_id ≡ self.now.table.shared.table_id }
        requires cursor { IsCursor self.now at }
        requires stands { Stands self.now at Announce seat.old.me }
        ensures same { (seat.new.table_id ≡ seat.old.table_id) × (seat.new.id ≡ seat.old.id) }
        ensures stands { Stands self.now at (ScanHead 0 Anchor 0) seat.new.me }
        ensures goes { GoesBy seat.old.me seat.new.me 1 0 }
    {
        self.table
            .shared
            .store::<Moves>(seat, self.announce_word(at.process), at.cell);
    }

    /// `ScanHead`: loads the head of process q. The cursor has the best one so far.
    pub(crate) fn scan_head(&self, seat: &mut Seat<u8, View>, at: Cursor, q: u64) -> u64
        requires table { seat.old.table_id ≡ self.now.table.shared.table_id }
        requires cursor { IsCursor self.now at }
        requires inside { q < self.now.setup.n }
        requires stands { Stands self.now at (ScanHead q (head_at self.now at) at.number) seat.old.me }
        ensures same { (seat.new.table_id ≡ seat.old.table_id) × (seat.new.id ≡ seat.old.id) }
        ensures stands { Stands self.now at (ScanSeq q (head_at self.now at) at.number (cell_at self.now result))
            seat.new.me }
        ensures goes { GoesBy seat.old.me seat.new.me 1 0 }
        ensures within { HasCell self.now result }
    {
        self.table.shared.load::<Moves>(seat, self.head_word(q))
    }

    /// `ScanSeq`: loads the number of the head of process q.
    pub(crate) fn scan_seq(&self, seat: &mut Seat<u8, View>, at: Cursor, q: u64, h: u64) -> u64
        requires table { seat.old.table_id ≡ self.now.table.shared.table_id }
        requires cursor { IsCursor self.now at }
        requires inside { HasCell self.now h }
        requires stands { Stands self.now at (ScanSeq q (head_at self.now at) at.number (cell_at self.now h))
            seat.old.me }
        ensures same { (seat.new.table_id ≡ seat.old.table_id) × (seat.new.id ≡ seat.old.id) }
        ensures stands { Stands self.now at (stage_after_scan self.now.setup.n q (head_at self.now at) at.number
            (cell_at self.now h) result) seat.new.me }
        ensures goes { GoesBy seat.old.me seat.new.me 1 0 }
        ensures within { result ≤ cells_of self.now.setup.n self.now.setup.k }
    {
        self.table.shared.load::<Moves>(seat, self.seq_word(h))
    }

    /// `WriteScan`: stores the best cell of the scan in the process's head.
    pub(crate) fn write_scan(&self, seat: &mut Seat<u8, View>, at: Cursor)
        requires table { seat.old.table_id ≡ self.now.table.shared.table_id }
        requires cursor { IsCursor self.now at }
        requires stands { Stands self.now at (WriteScan (head_at self.now at) at.number) seat.old.me }
        ensures same { (seat.new.table_id ≡ seat.old.table_id) × (seat.new.id ≡ seat.old.id) }
        ensures stands { Stands self.now at (Test (head_at self.now at) at.number) seat.new.me }
        ensures goes { GoesBy seat.old.me seat.new.me 1 0 }
    {
        self.table
            .shared
            .store::<Moves>(seat, self.head_word(at.process), at.head);
    }

    /// `Test`: loads the number of the call's cell.
    pub(crate) fn test(&self, seat: &mut Seat<u8, View>, at: Cursor) -> u64
        requires table { seat.old.table_id ≡ self.now.table.shared.table_id }
        requires cursor { IsCursor self.now at }
        requires stands { Stands self.now at (Test (head_at self.now at) at.number) seat.old.me }
        ensures same { (seat.new.table_id ≡ seat.old.table_id) × (seat.new.id ≡ seat.old.id) }
        ensures stands { Stands self.now at (if result == 0 then ReadAnnounce (head_at self.now at) at.number
            else Finish at.number result) seat.new.me }
        ensures fresh { seat.new.me.0.known.its.read ≡ Nothing }
        ensures goes { GoesBy seat.old.me seat.new.me 1 (if result == 0 then 1 else 0) }
        ensures within { result ≤ cells_of self.now.setup.n self.now.setup.k }
        ensures bound { seat.new.me.0.known.its.turns ≤ self.now.setup.n + 1 }
        ensures own_cell { seat.new.me.0.known.its.turns ≡ self.now.setup.n + 1 → result ≤ at.number }
    {
        self.table
            .shared
            .load::<Moves>(seat, self.seq_word(at.cell))
    }

    /// `ReadAnnounce`: loads the announce entry of the process whose turn it is.
    pub(crate) fn read_announce(&self, seat: &mut Seat<u8, View>, at: Cursor) -> u64
        requires table { seat.old.table_id ≡ self.now.table.shared.table_id }
        requires cursor { IsCursor self.now at }
        requires stands { Stands self.now at (ReadAnnounce (head_at self.now at) at.number) seat.old.me }
        ensures same { (seat.new.table_id ≡ seat.old.table_id) × (seat.new.id ≡ seat.old.id) }
        ensures stands { Stands self.now at (ReadHelpSeq (head_at self.now at) at.number (cell_at self.now result))
            seat.new.me }
        ensures goes { GoesBy seat.old.me seat.new.me 1 0 }
        ensures within { HasCell self.now result }
    {
        self.table
            .shared
            .load::<Moves>(seat, self.announce_word(at.number % self.setup.n))
    }

    /// `ReadHelpSeq`: loads the number of the cell to be helped.
    pub(crate) fn read_help_seq(&self, seat: &mut Seat<u8, View>, at: Cursor, help: u64) -> u64
        requires table { seat.old.table_id ≡ self.now.table.shared.table_id }
        requires cursor { IsCursor self.now at }
        requires inside { HasCell self.now help }
        requires stands { Stands self.now at (ReadHelpSeq (head_at self.now at) at.number (cell_at self.now help))
            seat.old.me }
        ensures same { (seat.new.table_id ≡ seat.old.table_id) × (seat.new.id ≡ seat.old.id) }
        ensures stands { Stands self.now at (DecideAfter (head_at self.now at) at.number
            (if result == 0 then cell_at self.now help else cell_at self.now at.cell)) seat.new.me }
        ensures goes { GoesBy seat.old.me seat.new.me 1 0 }
        ensures within { result ≤ cells_of self.now.setup.n self.now.setup.k }
    {
        self.table.shared.load::<Moves>(seat, self.seq_word(help))
    }

    /// `DecideAfter`: proposes `prefer` after the head.
    pub(crate) fn decide_after(&self, seat: &mut Seat<u8, View>, at: Cursor, prefer: u64) -> u64
        requires table { seat.old.table_id ≡ self.now.table.shared.table_id }
        requires cursor { IsCursor self.now at }
        requires inside { HasCell self.now prefer }
        requires stands { Stands self.now at (DecideAfter (head_at self.now at) at.number (cell_at self.now prefer))
            seat.old.me }
        ensures same { (seat.new.table_id ≡ seat.old.table_id) × (seat.new.id ≡ seat.old.id) }
        ensures stands { Stands self.now at (DecideNew (head_at self.now at) at.number
            (unwrap_or (link_of self.now.setup.n result) (cell_at self.now prefer))) seat.new.me }
        ensures fresh { seat.new.me.0.known.its.read ≡ Nothing }
        ensures goes { GoesBy seat.old.me seat.new.me 1 0 }
        ensures within { result ≤ cells_of self.now.setup.n self.now.setup.k }
    {
        self.table
            .shared
            .compare_exchange::<Moves>(seat, self.after_word(at.head), 0, prefer + 1)
    }

    /// `WriteBefore`: stores the head before d.
    pub(crate) fn write_before(&self, seat: &mut Seat<u8, View>, at: Cursor, d: u64)
        requires table { seat.old.table_id ≡ self.now.table.shared.table_id }
        requires cursor { IsCursor self.now at }
        requires inside { HasCell self.now d }
        requires stands { Stands self.now at (WriteBefore (head_at self.now at) at.number (cell_at self.now d))
            seat.old.me }
        ensures same { (seat.new.table_id ≡ seat.old.table_id) × (seat.new.id ≡ seat.old.id) }
        ensures stands { Stands self.now at (WriteSeq (head_at self.now at) at.number (cell_at self.now d))
            seat.new.me }
        ensures goes { GoesBy seat.old.me seat.new.me 1 0 }
    {
        self.table
            .shared
            .store::<Moves>(seat, self.before_word(d), 1 + at.head);
    }

    /// `WriteSeq`: stores the number of d.
    pub(crate) fn write_seq(&self, seat: &mut Seat<u8, View>, at: Cursor, d: u64)
        requires table { seat.old.table_id ≡ self.now.table.shared.table_id }
        requires cursor { IsCursor self.now at }
        requires inside { HasCell self.now d }
        requires stands { Stands self.now at (WriteSeq (head_at self.now at) at.number (cell_at self.now d))
            seat.old.me }
        ensures same { (seat.new.table_id ≡ seat.old.table_id) × (seat.new.id ≡ seat.old.id) }
        ensures stands { Stands self.now at (WriteHead (head_at self.now at) at.number (cell_at self.now d))
            seat.new.me }
        ensures goes { GoesBy seat.old.me seat.new.me 1 0 }
        ensures within { at.number + 1 ≤ cells_of self.now.setup.n self.now.setup.k }
    {
        self.table
            .shared
            .store::<Moves>(seat, self.seq_word(d), at.number + 1);
    }

    /// `WriteHead`: stores d in the process's head.
    pub(crate) fn write_head(&self, seat: &mut Seat<u8, View>, at: Cursor, d: u64)
        requires table { seat.old.table_id ≡ self.now.table.shared.table_id }
        requires cursor { IsCursor self.now at }
        requires inside { HasCell self.now d }
        requires stands { Stands self.now at (WriteHead (head_at self.now at) at.number (cell_at self.now d))
            seat.old.me }
        ensures same { (seat.new.table_id ≡ seat.old.table_id) × (seat.new.id ≡ seat.old.id) }
        ensures stands { Stands self.now at (Test (cell_at self.now d) (at.number + 1)) seat.new.me }
        ensures goes { GoesBy seat.old.me seat.new.me 1 0 }
    {
        self.table
            .shared
            .store::<Moves>(seat, self.head_word(at.process), d);
    }
}
