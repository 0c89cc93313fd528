//! The shared places, and what each process keeps for itself: plain data, whatever the object is.

use crate::flaw::Flaw;
use seq_object::CallId;
use std::alloc::{AllocError, Global};
use uni_script::Refusal;

/// The most processes that there can be.
const MOST_PROCESSES: u32 = 64;

/// Where a cell stands among the cells.
#[derive(Clone, Copy)]
pub(crate) struct CellId(pub(crate) usize);

/// What is settled in a cell, by places among the states and the replies of a world. An anchor has no reply.
#[derive(Clone, Copy)]
pub(crate) struct Settled {
    pub(crate) state: usize,
    pub(crate) reply: Option<usize>,
}

/// A cell: an anchor, or one of a call, by its place among those of a world. The other fields are shared places.
#[derive(Clone, Copy)]
pub(crate) struct Cell {
    pub(crate) asked: Option<usize>,
    pub(crate) seq: u64,
    pub(crate) after: Option<CellId>,
    pub(crate) before: Option<CellId>,
    pub(crate) new: Option<Settled>,
}

/// The next step of a call, by its letter.
#[derive(Clone, Copy)]
pub(crate) enum Stage {
    /// `A`: announces the call's cell.
    Announce,
    /// `H`: reads a head.
    ReadHead,
    /// `S`: reads the number of that head's cell.
    ReadNumber,
    /// `G`: raises the process's own head.
    Raise,
    /// `T`: begins a turn, or finds that the call is over.
    Turn,
    /// `R`: reads who is to be helped.
    ReadHelped,
    /// `N`: reads that cell's number, and prefers a cell.
    Prefer,
    /// `L`: decides the next cell.
    Link,
    /// `V`: decides the state and the reply.
    Settle,
    /// `B`: writes the way back.
    Back,
    /// `W`: writes the number.
    Number,
    /// `U`: goes on to the next cell.
    Follow,
    /// `F`: returns.
    Finish,
}

/// A call that is pending, with what its process keeps for itself.
#[derive(Clone, Copy)]
pub(crate) struct Call {
    pub(crate) id: CallId,
    /// The call's cell.
    pub(crate) mine: CellId,
    pub(crate) stage: Stage,
    /// How many heads were read.
    pub(crate) scanned: u64,
    /// Where the process stands in the list: `best` of the page, and `c`.
    pub(crate) at: CellId,
    /// The number of that: `best_seq`, and `c.seq`.
    pub(crate) at_seq: u64,
    /// The cell that was read last: `h`, `help`, `prefer` or `d`.
    pub(crate) read: CellId,
    /// The number that the call's own cell had when the last turn began.
    pub(crate) found: u64,
    pub(crate) steps: u64,
    pub(crate) turns: u64,
    /// The bound on the steps, as it was when the call began.
    pub(crate) most: u64,
}

/// What a process shares, and what it has done.
#[derive(Clone, Copy)]
pub(crate) struct Process {
    pub(crate) announce: CellId,
    pub(crate) head: CellId,
    /// The name of its next call.
    pub(crate) next: CallId,
    /// How many calls it had begun when the era did.
    pub(crate) earlier: u64,
    pub(crate) call: Option<Call>,
}

/// The cells and the processes.
#[derive(Drop)]
pub(crate) struct Memory {
    pub(crate) flaw: Flaw,
    pub(crate) cells: Vec<Cell>,
    pub(crate) anchor: CellId,
    pub(crate) processes: Vec<Process>,
    /// How many of the processes there are now.
    pub(crate) count: u64,
    pub(crate) row: u64,
}

impl Memory {
    /// No call was made, and the anchor has the first state.
    ///
    /// An `Err` says that memory was refused.
    pub(crate) fn new(
        alloc: Global,
        flaw: Flaw,
        count: u64,
        row: u64,
    ) -> Result<Memory, AllocError> {
        let mut processes = Vec::new(alloc);
        for process in 0..MOST_PROCESSES {
            processes.push(Process {
                announce: CellId(0),
                head: CellId(0),
                next: CallId { process, nth: 0 },
                earlier: 0,
                call: None,
            })?;
        }
        let mut memory = Memory {
            flaw,
            cells: Vec::new(alloc),
            anchor: CellId(0),
            processes,
            count,
            row,
        };
        memory.open(1, 0)?;
        Ok(memory)
    }

    /// An era begins: the anchor alone, with this number and the state at this place.
    ///
    /// An `Err` says that memory was refused.
    pub(crate) fn open(&mut self, seq: u64, state: usize) -> Result<(), AllocError> {
        let anchor = CellId(self.cells.len());
        self.cells.push(Cell {
            asked: None,
            seq,
            after: None,
            before: None,
            new: Some(Settled { state, reply: None }),
        })?;
        self.anchor = anchor;
        for process in self.processes.iter_mut() {
            process.announce = anchor;
            process.head = anchor;
            process.earlier = process.next.nth;
        }
        Ok(())
    }

    /// A process begins a call, which has this place among the calls; the answer is the call's name, where there is
    /// such a
    /// process.
    ///
    /// An `Err` says that memory was refused.
    pub(crate) fn begin(&mut self, p: u64, asked: usize) -> Result<Option<CallId>, AllocError> {
        let most = self.most_steps();
        let mine = CellId(self.cells.len());
        self.cells.push(Cell {
            asked: Some(asked),
            seq: 0,
            after: None,
            before: None,
            new: None,
        })?;
        let Some(process) = self.processes.get_mut(p as usize) else {
            return Ok(None);
        };
        let id = process.next;
        process.next.nth = id.nth.saturating_add(1);
        process.call = Some(Call {
            id,
            mine,
            stage: Stage::Announce,
            scanned: 0,
            at: mine,
            at_seq: 0,
            read: mine,
            found: 0,
            steps: 0,
            turns: 0,
            most,
        });
        Ok(Some(id))
    }

    /// The most steps that a call among as many processes takes on the construction.
    pub(crate) fn most_steps(&self) -> u64 {
        self.count.saturating_mul(10).saturating_add(12)
    }

    /// A process; `None` where there is none of this number.
    pub(crate) fn process(&self, p: u64) -> Option<&Process> {
        if p < self.count {
            self.processes.get(p as usize)
        } else {
            None
        }
    }

    /// The number of a cell.
    pub(crate) fn seq(&self, cell: CellId) -> u64 {
        match self.cells.get(cell.0) {
            Some(cell) => cell.seq,
            None => 0,
        }
    }

    /// What is settled in a cell.
    pub(crate) fn settled(&self, cell: CellId) -> Option<Settled> {
        self.cells.get(cell.0)?.new
    }

    /// Why a process can't begin a call; `None` where it can.
    pub(crate) fn refusal_of_call(&self, p: u64) -> Option<Refusal> {
        let Some(process) = self.process(p) else {
            return Some(Refusal::Process(p));
        };
        if process.call.is_some() {
            return Some(Refusal::Busy(p));
        }
        if process.next.nth.saturating_sub(process.earlier) >= self.row {
            return Some(Refusal::Row(p));
        }
        None
    }

    /// Why a process can't take a step; `None` where it can.
    pub(crate) fn refusal_of_step(&self, p: u64) -> Option<Refusal> {
        let Some(process) = self.process(p) else {
            return Some(Refusal::Process(p));
        };
        if process.call.is_none() {
            return Some(Refusal::Idle(p));
        }
        None
    }

    /// Why an era with so many processes can't begin; `None` where it can. One flaw takes no notice of pending calls.
    pub(crate) fn refusal_of_end(&self, count: u64) -> Option<Refusal> {
        if count == 0 || count > 64 {
            return Some(Refusal::Count(count));
        }
        if self.flaw == Flaw::TrimsPending {
            return None;
        }
        let mut p = 0u64;
        for process in self.processes.iter() {
            if process.call.is_some() {
                return Some(Refusal::Pending(p));
            }
            p = p.saturating_add(1);
        }
        None
    }
}
