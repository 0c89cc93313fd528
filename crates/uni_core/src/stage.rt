//! Where a process stands in its call.

ghost use Rattle.std.specs.Prelude.{◌≡◌, ◌<◌, ℕ};
ghost use Rattle.uni_model.specs.Transition.{place_of};
ghost use Rattle.uni_model.specs.Places.{Name};

use cell_arena::CellId;

/// The kinds of step, in the order in which a call takes them.
#[derive(Clone, Copy, Debug, PartialEq, Eq)]
pub enum StepKind {
    /// The process announces its cell.
    Announce,
    /// It reads the head of one process of the scan.
    ScanHead,
    /// It reads the number of that head, and keeps the best one.
    ScanSeq,
    /// It makes the best head its own.
    WriteScan,
    /// It tests whether its cell is threaded; where it isn't, a turn begins.
    Test,
    /// It reads what the process whose turn it is announces.
    ReadAnnounce,
    /// It reads whether that cell is threaded.
    ReadHelpSeq,
    /// It proposes a cell after its head.
    DecideAfter,
    /// It proposes the state and the response of the cell that was decided.
    DecideNew,
    /// It writes the way back from that cell.
    WriteBefore,
    /// It writes that cell's number.
    WriteSeq,
    /// It makes that cell its head.
    WriteHead,
    /// It makes its own cell its head where that is farther, and its call ends.
    Finish,
}

/// A shared place.
#[derive(Clone, Copy, Debug, PartialEq, Eq)]
pub enum Place {
    /// The announce entry of a process.
    Announced(u64),
    /// The head entry of a process.
    HeadOf(u64),
    /// The number of a cell.
    SeqOf(CellId),
    /// The decision on the cell after a cell.
    AfterOf(CellId),
    /// The decision on the state and the response of a cell's call.
    NewOf(CellId),
    /// The cell before a cell.
    BeforeOf(CellId),
}

/// The kind of a process's next step, with what the process has read that it still needs.
#[derive(Clone, Copy, PartialEq, Eq)]
pub(crate) enum Stage {
    Announce,
    ScanHead {
        q: u64,
        best: CellId,
        best_seq: u64,
    },
    ScanSeq {
        q: u64,
        best: CellId,
        best_seq: u64,
        head: CellId,
    },
    WriteScan {
        best: CellId,
        best_seq: u64,
    },
    Test {
        c: CellId,
        c_seq: u64,
    },
    ReadAnnounce {
        c: CellId,
        c_seq: u64,
    },
    ReadHelpSeq {
        c: CellId,
        c_seq: u64,
        help: CellId,
    },
    DecideAfter {
        c: CellId,
        c_seq: u64,
        prefer: CellId,
    },
    DecideNew {
        c: CellId,
        c_seq: u64,
        d: CellId,
    },
    WriteBefore {
        c: CellId,
        c_seq: u64,
        d: CellId,
    },
    WriteSeq {
        c: CellId,
        c_seq: u64,
        d: CellId,
    },
    WriteHead {
        c: CellId,
        c_seq: u64,
        d: CellId,
    },
    Finish {
        c_seq: u64,
        mine_seq: u64,
    },
}

impl Stage {
    ghost use Rattle.uni_core.specs.Stage.{stage_of};
    ghost use Rattle.std.specs.Prelude.{option_map};
    ghost use Rattle.uni_core.specs.Readers.{kind_of, place_named, proposed_at};

    /// The kind of the next step.
    pub(crate) fn kind(self) -> StepKind
        ensures { (name : ℕ → Name) → result ≡ kind_of (stage_of name self) }
    {
        match self {
            Stage::Announce => StepKind::Announce,
            Stage::ScanHead { .. } => StepKind::ScanHead,
            Stage::ScanSeq { .. } => StepKind::ScanSeq,
            Stage::WriteScan { .. } => StepKind::WriteScan,
            Stage::Test { .. } => StepKind::Test,
            Stage::ReadAnnounce { .. } => StepKind::ReadAnnounce,
            Stage::ReadHelpSeq { .. } => StepKind::ReadHelpSeq,
            Stage::DecideAfter { .. } => StepKind::DecideAfter,
            Stage::DecideNew { .. } => StepKind::DecideNew,
            Stage::WriteBefore { .. } => StepKind::WriteBefore,
            Stage::WriteSeq { .. } => StepKind::WriteSeq,
            Stage::WriteHead { .. } => StepKind::WriteHead,
            Stage::Finish { .. } => StepKind::Finish,
        }
    }

    /// The cell that the next step proposes after the head of its process, if it proposes one.
    pub(crate) fn proposed(self) -> Option<CellId>
        ensures { (name : ℕ → Name) → option_map name result ≡ proposed_at (stage_of name self) }
    {
        match self {
            Stage::DecideAfter { prefer, .. } => Some(prefer),
            _ => None,
        }
    }

    /// The one place that the next step of process `p` touches, of `n` processes, in the call of
    /// cell `mine`.
    pub(crate) fn place(self, n: u64, p: u64, mine: CellId) -> Place
        requires { p < n }
        ensures { (name : ℕ → Name) → place_named name result ≡ place_of n p (name mine) (stage_of name self) }
    {
        match self {
            Stage::Announce => Place::Announced(p),
            Stage::ScanHead { q, .. } => Place::HeadOf(q),
            Stage::ScanSeq { head, .. } => Place::SeqOf(head),
            Stage::WriteScan { .. } | Stage::WriteHead { .. } | Stage::Finish { .. } => {
                Place::HeadOf(p)
            }
            Stage::Test { .. } => Place::SeqOf(mine),
            Stage::ReadAnnounce { c: _, c_seq } => Place::Announced(c_seq % n),
            Stage::ReadHelpSeq { help, .. } => Place::SeqOf(help),
            Stage::DecideAfter { c, .. } => Place::AfterOf(c),
            Stage::DecideNew { d, .. } => Place::NewOf(d),
            Stage::WriteBefore { d, .. } => Place::BeforeOf(d),
            Stage::WriteSeq { d, .. } => Place::SeqOf(d),
        }
    }
}

/// A call that is pending: its cell, and where its process stands.
#[derive(Clone, Copy, PartialEq, Eq)]
pub(crate) struct Pending {
    pub(crate) mine: CellId,
    pub(crate) stage: Stage,
}
