//! The steps of a call: a function for each letter of the page of pseudo-code in `docs/course.md`, but for `V` and `F`.
//! Each of them answers what the call's next step is.

use crate::flaw::Flaw;
use crate::memory::{Call, CellId, Memory, Stage};

impl Memory {
    /// Makes the next step of a process's call, where that isn't `V` or `F`.
    pub(crate) fn step(&mut self, p: u64, call: &mut Call) -> Stage {
        match call.stage {
            Stage::Announce => self.announce(p, call),
            Stage::ReadHead => self.read_head(call),
            Stage::ReadNumber => self.read_number(call),
            Stage::Raise => self.raise(p, call.at),
            Stage::Turn => self.turn(call),
            Stage::ReadHelped => self.read_helped(call),
            Stage::Prefer => self.prefer(call),
            Stage::Link => self.link(call),
            Stage::Back => self.back(call),
            Stage::Number => self.number(call),
            Stage::Follow => self.follow(p, call),
            Stage::Settle | Stage::Finish => call.stage,
        }
    }

    /// The pending call of a process is this, or it has none.
    pub(crate) fn keep(&mut self, p: u64, call: Option<Call>) {
        if let Some(process) = self.processes.get_mut(p as usize) {
            process.call = call;
        }
    }

    /// `A`, lines 1 to 3.
    fn announce(&mut self, p: u64, call: &mut Call) -> Stage {
        if let Some(process) = self.processes.get_mut(p as usize) {
            process.announce = call.mine;
        }
        call.at = self.anchor;
        Stage::ReadHead
    }

    /// `H`, line 4.
    fn read_head(&self, call: &mut Call) -> Stage {
        call.read = match self.processes.get(call.scanned as usize) {
            Some(process) => process.head,
            None => self.anchor,
        };
        Stage::ReadNumber
    }

    /// `S`, line 5.
    fn read_number(&self, call: &mut Call) -> Stage {
        let seq = self.seq(call.read);
        if seq > call.at_seq {
            call.at = call.read;
            call.at_seq = seq;
        }
        call.scanned = call.scanned.saturating_add(1);
        if call.scanned < self.count {
            Stage::ReadHead
        } else {
            Stage::Raise
        }
    }

    /// `G`, line 6: the head of a process names a cell.
    pub(crate) fn raise(&mut self, p: u64, cell: CellId) -> Stage {
        if let Some(process) = self.processes.get_mut(p as usize) {
            process.head = cell;
        }
        Stage::Turn
    }

    /// `T`, line 7.
    fn turn(&self, call: &mut Call) -> Stage {
        call.found = self.seq(call.mine);
        if call.found > 0 {
            return Stage::Finish;
        }
        call.turns = call.turns.saturating_add(1);
        Stage::ReadHelped
    }

    /// `R`, line 8.
    fn read_helped(&self, call: &mut Call) -> Stage {
        let whose = call.at_seq.checked_rem(self.count).unwrap_or(0);
        call.read = match self.processes.get(whose as usize) {
            Some(process) => process.announce,
            None => self.anchor,
        };
        Stage::Prefer
    }

    /// `N`, line 9, of which two flaws leave one half.
    fn prefer(&self, call: &mut Call) -> Stage {
        let helps = match self.flaw {
            Flaw::NeverHelps => false,
            Flaw::HelpsBlindly => true,
            _ => self.seq(call.read) == 0,
        };
        if !helps {
            call.read = call.mine;
        }
        Stage::Link
    }

    /// `L`, line 10: the first proposal stands, or with a flaw the last one.
    fn link(&mut self, call: &mut Call) -> Stage {
        if let Some(cell) = self.cells.get_mut(call.at.0) {
            match cell.after {
                Some(after) if self.flaw != Flaw::LastWins => call.read = after,
                _ => cell.after = Some(call.read),
            }
        }
        match self.flaw {
            Flaw::NumberFirst => Stage::Number,
            _ => Stage::Settle,
        }
    }

    /// `B`, line 12.
    fn back(&mut self, call: &Call) -> Stage {
        if let Some(cell) = self.cells.get_mut(call.read.0) {
            cell.before = Some(call.at);
        }
        match self.flaw {
            Flaw::NumberFirst => Stage::Follow,
            _ => Stage::Number,
        }
    }

    /// `W`, line 13.
    fn number(&mut self, call: &Call) -> Stage {
        if let Some(cell) = self.cells.get_mut(call.read.0) {
            cell.seq = call.at_seq.saturating_add(1);
        }
        match self.flaw {
            Flaw::NumberFirst => Stage::Settle,
            _ => Stage::Follow,
        }
    }

    /// `U`, line 14.
    fn follow(&mut self, p: u64, call: &mut Call) -> Stage {
        call.at = call.read;
        call.at_seq = call.at_seq.saturating_add(1);
        self.raise(p, call.read)
    }
}
