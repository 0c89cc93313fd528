//! What lines tell, and the history that they are.

ghost use Rattle.std.specs.Prelude.{◌≡◌, ◌++◌, ◌∷◌, [], IfErr, IfOk, OnOk, map};
ghost use Rattle.history_text.specs.Refused.{IsRefusal};
ghost use Rattle.history_text.specs.Told.{events_of};
ghost use Rattle.history_text.specs.Turns.{AreInTurn};

use crate::fault::{ReadError, Spot};
use crate::turns::Turns;
use lin_check::Event;
use std::alloc::{AllocError, Global};

/// What is told of a process.
#[derive(Drop)]
pub enum Told<I: Drop, R: Drop> {
    /// It begins a call.
    Begins(usize, I),
    /// Its call returns, with this response.
    Ends(usize, R),
    /// It makes no more calls, and a call that it has doesn't return.
    Ceases(usize),
}

/// What is told, and where.
#[derive(Drop)]
pub struct Placed<I: Drop, R: Drop> {
    /// The number of the line, from 1.
    pub line: u64,
    /// The byte of the line, from 0.
    pub start: usize,
    /// What is told.
    pub told: Told<I, R>,
}

/// A recorded history.
#[derive(Drop)]
pub struct History<I: Drop, R: Drop> {
    /// The events, in the order in which they were seen.
    pub events: Vec<Event<I, R>>,
    /// For each event the number of its line, from 1.
    pub lines: Vec<u64>,
}

impl<I: Drop, R: Drop> History<I, R> {
    /// Adds an event.
    fn push(&mut self, line: u64, event: Event<I, R>) -> Result<(), AllocError>
        ensures { OnOk result (self.new.events.items ≡ self.old.events.items ++ event ∷ []) }
    {
        self.events.push(event)?;
        self.lines.push(line)?;
        Ok(())
    }

    /// Adds what is told of a process: an event, unless it makes no more calls.
    fn add(&mut self, line: u64, told: Told<I, R>) -> Result<(), AllocError>
        ensures { OnOk result (self.new.events.items ≡ self.old.events.items ++ events_of (told ∷ [])) }
    {
        match told {
            Told::Begins(process, inv) => self.push(line, Event::Call(process, inv)),
            Told::Ends(process, resp) => self.push(line, Event::Return(process, resp)),
            Told::Ceases(_) => Ok(()),
        }
    }
}

/// The history that is told so.
///
/// An `Err` is the first place where a process begins a call while it has one, returns without a call, or does
/// something after it was lost; or says that memory was refused.
pub(crate) fn history_of<I: Drop, R: Drop>(
    alloc: Global,
    tolds: Vec<Placed<I, R>>,
) -> Result<History<I, R>, ReadError>
    ensures events { IfOk result (λ history.
        history.events.items ≡ events_of (map (λ placed. placed.told) tolds.items)) }
    ensures in_turn { OnOk result (AreInTurn (map (λ placed. placed.told) tolds.items)) }
    ensures refused { IfErr result (λ error. IsRefusal error
        → ¬ (AreInTurn (map (λ placed. placed.told) tolds.items))) }
{
    let mut turns = Turns::new(alloc);
    let mut history = History {
        events: Vec::new(alloc),
        lines: Vec::new(alloc),
    };
    for placed in tolds {
        if let Some(reason) = turns.take(&placed.told)? {
            let spot = Spot {
                start: placed.start,
                reason,
            };
            return Err(spot.on(placed.line));
        }
        history.add(placed.line, placed.told)?;
    }
    Ok(history)
}
