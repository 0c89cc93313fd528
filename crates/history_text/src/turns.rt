//! Whose turn it is.

ghost use Rattle.std.specs.Prelude.{◌≡◌, ◌<◌, ℕ, [], IfNone, IfOk, IfSome, None, OnErr, OnOk, Some, length};
ghost use Rattle.history_text.specs.Turns.{process_of, turn_after, turn_at, turn_of};

use crate::fault::Reason;
use crate::history::Told;
use std::alloc::{AllocError, Global};

/// What a process can do next.
#[derive(Clone, Copy)]
pub(crate) enum Turn {
    /// It can begin a call.
    Idle,
    /// Its call can return.
    Busy,
    /// Nothing.
    Lost,
}

/// What each process can do next; one that isn't listed can begin a call.
#[derive(Drop)]
pub(crate) struct Turns {
    turns: Vec<Turn>,
}

/// The turn after what is told.
fn next<I: Drop, R: Drop>(turn: Turn, told: &Told<I, R>) -> Result<Turn, Reason>
    ensures after { IfOk result (λ after. turn_after turn told.now ≡ Some after) }
    ensures none { OnErr result (turn_after turn told.now ≡ None) }
{
    match told {
        Told::Begins(_, _) => match turn {
            Turn::Idle => Ok(Turn::Busy),
            Turn::Busy => Err(Reason::Busy),
            Turn::Lost => Err(Reason::Lost),
        },
        Told::Ends(_, _) => match turn {
            Turn::Idle => Err(Reason::Idle),
            Turn::Busy => Ok(Turn::Idle),
            Turn::Lost => Err(Reason::Lost),
        },
        Told::Ceases(_) => Ok(Turn::Lost),
    }
}

/// The process of what is told.
fn process_of<I: Drop, R: Drop>(told: &Told<I, R>) -> usize
    ensures { result ≡ process_of told.now }
{
    match told {
        Told::Begins(process, _) => *process,
        Told::Ends(process, _) => *process,
        Told::Ceases(process) => *process,
    }
}

impl Turns {
    /// Each process can begin a call.
    pub(crate) fn new(alloc: Global) -> Turns
        ensures { result.turns.items ≡ [] }
    {
        Turns {
            turns: Vec::new(alloc),
        }
    }

    /// Lists the processes up to this one.
    fn list(&mut self, process: usize) -> Result<(), AllocError>
        ensures same { OnOk result ((p : ℕ) → turn_at self.new.turns.items p ≡ turn_at self.old.turns.items p) }
        ensures listed { OnOk result (process < length self.new.turns.items) }
    {
        while self.turns.len() <= process {
            self.turns.push(Turn::Idle)?;
        }
        Ok(())
    }

    /// Takes what is told of a process, where it can do that; else the answer is the reason why it can't.
    pub(crate) fn take<I: Drop, R: Drop>(
        &mut self,
        told: &Told<I, R>,
    ) -> Result<Option<Reason>, AllocError>
        ensures taken { IfOk result (λ reason. IfNone reason ((p : ℕ) →
            turn_of p (turn_at self.old.turns.items p) told.now ≡ Some (turn_at self.new.turns.items p))) }
        ensures refused { IfOk result (λ reason. IfSome reason (λ _.
            turn_after (turn_at self.old.turns.items (process_of told.now)) told.now ≡ None)) }
    {
        let process = process_of(told);
        self.list(process)?;
        match next(self.turns[process], told) {
            Ok(after) => {
                self.turns[process] = after;
                Ok(None)
            }
            Err(reason) => Ok(Some(reason)),
        }
    }
}
