//! A world of processes that share an object, and its answers.

use crate::flaw::Flaw;
use crate::list::{Linked, Walk};
use crate::memory::{Call, CellId, Memory, Settled, Stage};
use crate::text::{push_bound, push_call, push_progress, push_refusal, push_with_number};
use ready_objects::Spoken;
use seq_object::CallId;
use std::alloc::{AllocError, Global};
use uni_log::Entry;
use uni_record::{Return, Verdict, audit};
use uni_script::{BenchFault, Command, Header, ObjectName, push_fault};

/// A call, with what it asks for.
#[derive(Drop)]
struct Asked<I: Drop> {
    call: CallId,
    inv: I,
}

/// Processes that share an object.
#[derive(Drop)]
pub(crate) struct World<O: Spoken> {
    object: O,
    memory: Memory,
    asked: Vec<Asked<O::Inv>>,
    states: Vec<O::State>,
    replies: Vec<O::Resp>,
    /// The entries of eras that have ended.
    entries: Vec<Entry<O::Inv, O::Resp>>,
    returns: Vec<Return<O::Resp>>,
    /// The lines that say what broke.
    pub(crate) broken: Vec<u8>,
}

impl<O: Spoken> World<O> {
    /// The world of a header.
    ///
    /// An `Err` says that memory was refused.
    pub(crate) fn new(
        alloc: Global,
        object: O,
        flaw: Flaw,
        header: Header<ObjectName>,
    ) -> Result<World<O>, AllocError> {
        let mut states = Vec::new(alloc);
        states.push(object.start(alloc)?)?;
        Ok(World {
            object,
            memory: Memory::new(alloc, flaw, header.processes, header.row)?,
            asked: Vec::new(alloc),
            states,
            replies: Vec::new(alloc),
            entries: Vec::new(alloc),
            returns: Vec::new(alloc),
            broken: Vec::new(alloc),
        })
    }

    /// `V`, line 11: the first proposal stands, or with a flaw the last one.
    ///
    /// An `Err` says that memory was refused.
    fn settle(&mut self, alloc: Global, call: &Call) -> Result<(), AllocError> {
        if self.memory.settled(call.read).is_some() && self.memory.flaw != Flaw::LastWins {
            return Ok(());
        }
        let Some((next, answer)) = self.applied(alloc, call)? else {
            return Ok(());
        };
        let state = self.states.len();
        let reply = Some(self.replies.len());
        self.states.push(next)?;
        self.replies.push(answer)?;
        if let Some(cell) = self.memory.cells.get_mut(call.read.0) {
            cell.new = Some(Settled { state, reply });
        }
        Ok(())
    }

    /// The state and the reply of the cell that was read last, after the one at which a process stands; `None` where
    /// that
    /// has no state, or the other is no call's.
    ///
    /// An `Err` says that memory was refused.
    fn applied(
        &self,
        alloc: Global,
        call: &Call,
    ) -> Result<Option<(O::State, O::Resp)>, AllocError> {
        let Some(settled) = self.memory.settled(call.at) else {
            return Ok(None);
        };
        let Some(state) = self.states.get(settled.state) else {
            return Ok(None);
        };
        let Some(place) = self.asked_in(call.read) else {
            return Ok(None);
        };
        let Some(asked) = self.asked.get(place) else {
            return Ok(None);
        };
        Ok(Some(self.object.apply(alloc, state, &asked.inv)?))
    }

    /// The place of a cell's call.
    fn asked_in(&self, cell: CellId) -> Option<usize> {
        self.memory.cells.get(cell.0)?.asked
    }

    /// A reply that is settled.
    fn reply_in(&self, settled: Option<Settled>) -> Option<O::Resp> {
        Some(*self.replies.get(settled?.reply?)?)
    }

    /// `F`, line 15: the reply, where there is one. What broke is noted.
    ///
    /// An `Err` says that memory was refused.
    fn finish(&mut self, p: u64, own: &Call) -> Result<Option<O::Resp>, AllocError> {
        let mut newest = own.at;
        if own.at_seq < own.found {
            newest = own.mine;
            self.memory.raise(p, newest);
        }
        self.memory.keep(p, None);
        push_bound(&mut self.broken, own)?;
        let told = match self.memory.flaw {
            Flaw::NewestReply => newest,
            _ => own.mine,
        };
        let call = own.id;
        let Some(reply) = self.reply_in(self.memory.settled(told)) else {
            push_call(
                &mut self.broken,
                b"call ",
                call,
                b" has returned without a reply\n",
            )?;
            return Ok(None);
        };
        self.returns.push(Return { call, reply })?;
        Ok(Some(reply))
    }

    /// Takes steps of a process until its call returns, at most so many, and writes how far it has come.
    ///
    /// An `Err` says that memory was refused.
    fn steps(
        &mut self,
        alloc: Global,
        p: u64,
        most: u64,
        text: &mut Vec<u8>,
    ) -> Result<(), AllocError> {
        let Some(mut call) = self.memory.process(p).and_then(|process| process.call) else {
            return Ok(());
        };
        for _ in 0..most {
            call.steps = call.steps.saturating_add(1);
            match call.stage {
                Stage::Finish => {
                    let reply = self.finish(p, &call)?;
                    push_call(text, b"returned ", call.id, b" ")?;
                    push_reply::<O>(text, reply)?;
                    return push_progress(text, &call);
                }
                Stage::Settle => {
                    self.settle(alloc, &call)?;
                    call.stage = Stage::Back;
                }
                _ => call.stage = self.memory.step(p, &mut call),
            }
        }
        self.memory.keep(p, Some(call));
        push_call(text, b"going ", call.id, b"")?;
        push_progress(text, &call)
    }

    /// The entry of a linked cell; `None` of an anchor.
    ///
    /// An `Err` says that memory was refused.
    fn entry_of(
        &self,
        alloc: Global,
        linked: Linked,
    ) -> Result<Option<Entry<O::Inv, O::Resp>>, AllocError> {
        let Some(cell) = self.memory.cells.get(linked.cell.0) else {
            return Ok(None);
        };
        let Some(asked) = cell.asked.and_then(|place| self.asked.get(place)) else {
            return Ok(None);
        };
        Ok(Some(Entry {
            seq: linked.seq,
            call: asked.call,
            inv: O::copy_inv(alloc, &asked.inv)?,
            reply: self.reply_in(cell.new),
        }))
    }

    /// Keeps the entries of a list, and notes its circle.
    ///
    /// An `Err` says that memory was refused.
    fn keep(&mut self, alloc: Global, walk: &Walk) -> Result<(), AllocError> {
        for linked in walk.cells.iter() {
            if let Some(entry) = self.entry_of(alloc, *linked)? {
                self.entries.push(entry)?;
            }
        }
        let Some(circle) = walk.circle else {
            return Ok(());
        };
        match self.entry_of(
            alloc,
            Linked {
                seq: 0,
                cell: circle,
            },
        )? {
            Some(entry) => {
                push_call(
                    &mut self.broken,
                    b"the list has a circle at ",
                    entry.call,
                    b"\n",
                )
            }
            None => self
                .broken
                .extend_from_slice(b"the list has a circle at the anchor\n"),
        }
    }

    /// The era ends: the list is replaced by its last cell that has a state, and there are so many processes. The
    /// answer
    /// is that cell's number.
    ///
    /// An `Err` says that memory was refused.
    fn end_era(&mut self, alloc: Global, count: u64) -> Result<u64, AllocError> {
        let walk = self.memory.walk(alloc)?;
        self.keep(alloc, &walk)?;
        self.memory.count = count;
        self.memory.open(walk.seq, walk.state)?;
        Ok(walk.seq)
    }

    /// Says last what broke: calls that took too long, circles, and the first fault that an audit finds; or `end`.
    ///
    /// An `Err` says that memory was refused.
    pub(crate) fn close(&mut self, alloc: Global) -> Result<(), AllocError> {
        for process in self.memory.processes.iter() {
            if let Some(call) = process.call {
                push_bound(&mut self.broken, &call)?;
            }
        }
        let walk = self.memory.walk(alloc)?;
        self.keep(alloc, &walk)?;
        let (entries, returns) = (self.entries.as_slice(), self.returns.as_slice());
        let verdict = audit(alloc, &self.object, entries, returns)?;
        if verdict != Verdict::Agrees {
            return push_fault(&mut self.broken, BenchFault::Audit(verdict));
        }
        if self.broken.is_empty() {
            return self.broken.extend_from_slice(b"end\n");
        }
        Ok(())
    }

    /// Makes a command, and writes its answer after a text.
    ///
    /// An `Err` says that memory was refused.
    pub(crate) fn make(
        &mut self,
        alloc: Global,
        command: Command<O::Inv>,
        text: &mut Vec<u8>,
    ) -> Result<(), AllocError> {
        match command {
            Command::Call { process, inv } => self.call(process, inv, text),
            Command::Step { process, count } => self.go(alloc, process, count, text),
            Command::Finish { process } => {
                let most = self.memory.most_steps();
                self.go(alloc, process, most, text)
            }
            Command::Log => self.log(alloc, text),
            Command::Heads => self.memory.push_heads(text),
            Command::Trim => {
                let count = self.memory.count;
                self.end(alloc, count, b"trimmed ", text)
            }
            Command::Reshape { processes } => {
                let mut prefix = Vec::new(alloc);
                push_with_number(&mut prefix, b"reshaped ", processes, b" at ")?;
                self.end(alloc, processes, prefix.as_slice(), text)
            }
        }
    }

    /// Answers a call.
    ///
    /// An `Err` says that memory was refused.
    fn call(&mut self, p: u64, inv: O::Inv, text: &mut Vec<u8>) -> Result<(), AllocError> {
        if let Some(refusal) = self.memory.refusal_of_call(p) {
            return push_refusal(text, refusal);
        }
        let Some(call) = self.memory.begin(p, self.asked.len())? else {
            return Ok(());
        };
        self.asked.push(Asked { call, inv })?;
        push_call(text, b"called ", call, b"\n")
    }

    /// Answers at most so many steps.
    ///
    /// An `Err` says that memory was refused.
    fn go(
        &mut self,
        alloc: Global,
        p: u64,
        most: u64,
        text: &mut Vec<u8>,
    ) -> Result<(), AllocError> {
        match self.memory.refusal_of_step(p) {
            Some(refusal) => push_refusal(text, refusal),
            None => self.steps(alloc, p, most, text),
        }
    }

    /// Answers the end of an era, by a text and the number of the new anchor.
    ///
    /// An `Err` says that memory was refused.
    fn end(
        &mut self,
        alloc: Global,
        count: u64,
        prefix: &[u8],
        text: &mut Vec<u8>,
    ) -> Result<(), AllocError> {
        if let Some(refusal) = self.memory.refusal_of_end(count) {
            return push_refusal(text, refusal);
        }
        let seq = self.end_era(alloc, count)?;
        push_with_number(text, prefix, seq, b"\n")
    }

    /// Writes the entries of the era.
    ///
    /// An `Err` says that memory was refused.
    fn log(&self, alloc: Global, text: &mut Vec<u8>) -> Result<(), AllocError> {
        let walk = self.memory.walk(alloc)?;
        for linked in walk.cells.iter() {
            if let Some(entry) = self.entry_of(alloc, *linked)? {
                push_with_number(text, b"", entry.seq, b" ")?;
                push_call(text, b"", entry.call, b" ")?;
                O::push_inv(text, &entry.inv)?;
                text.extend_from_slice(b" -> ")?;
                push_reply::<O>(text, entry.reply)?;
                text.extend_from_slice(b"\n")?;
            }
        }
        Ok(())
    }
}

/// Writes a reply, or `?` where there is none.
///
/// An `Err` says that memory was refused.
fn push_reply<O: Spoken>(text: &mut Vec<u8>, reply: Option<O::Resp>) -> Result<(), AllocError> {
    match reply {
        Some(reply) => O::push_resp(text, reply),
        None => text.extend_from_slice(b"?"),
    }
}
