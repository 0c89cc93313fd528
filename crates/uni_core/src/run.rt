//! The run of a list of commands.

ghost use Rattle.std.specs.Prelude.{◌≡◌, IfOk, OnOk, OnErr};
ghost use Rattle.uni_model.specs.Worlds.{AreAccepted, world_after_all};
ghost use Rattle.uni_model.specs.Laws.{LogGrows, BoundedAlong};
ghost use Rattle.uni_model.specs.History.{history_of};
ghost use Rattle.uni_core.specs.World.{world_of, Follows, KeepsFixed};
ghost use Rattle.uni_core.specs.Run.{TakesCommand, AreOutcomes, events_of};
ghost use Rattle.uni_core.specs.declared.command.Command.TheVariants.{Call, Step};

use crate::command::{Command, Outcome, Refusal};
use crate::fault::{BeginFault, Progress};
use crate::world::World;
use seq_object::SeqObject;
use std::alloc::{AllocError, Global};

impl<O: SeqObject> World<O> {
    /// Process `p` is asked to begin a call.
    fn take_call(&mut self, alloc: Global, p: u64, inv: &O::Inv) -> Outcome<O::Resp>
        ensures takes { TakesCommand (O.sequential self.old.object) (world_of self.old) self.old.row
            (Call p inv.now) result (world_of self.new) }
        ensures fixed { KeepsFixed self.old self.new }
    {
        self.shape();
        match self.begin(alloc, p, inv) {
            Ok(call) => Outcome::Called(call),
            Err(BeginFault::BadProcess) => Outcome::Refused(Refusal::BadProcess),
            Err(BeginFault::Busy(q)) => Outcome::Refused(Refusal::Busy(q)),
            Err(BeginFault::RowFull(q)) => Outcome::Refused(Refusal::RowFull(q)),
            Err(BeginFault::Memory) => Outcome::Refused(Refusal::Memory),
        }
    }

    /// Process `p` is asked to take a step.
    fn take_step(&mut self, alloc: Global, p: u64) -> Outcome<O::Resp>
        ensures takes { TakesCommand (O.sequential self.old.object) (world_of self.old) self.old.row (Step p) result
            (world_of self.new) }
        ensures fixed { KeepsFixed self.old self.new }
    {
        if p >= self.processes() {
            return Outcome::Refused(Refusal::BadProcess);
        }
        let Some(call) = self.current(p) else {
            return Outcome::Refused(Refusal::Idle(p));
        };
        match self.step(alloc, p) {
            Ok(Progress::Going) => Outcome::Went,
            Ok(Progress::Done(response)) => Outcome::Returned(call, response),
            Err(_) => Outcome::Refused(Refusal::Memory),
        }
    }

    /// The world takes a command.
    fn take(&mut self, alloc: Global, command: &Command<O::Inv>) -> Outcome<O::Resp>
        ensures takes { TakesCommand (O.sequential self.old.object) (world_of self.old) self.old.row command.now result
            (world_of self.new) }
        ensures fixed { KeepsFixed self.old self.new }
    {
        match command {
            Command::Call(p, inv) => self.take_call(alloc, *p, inv),
            Command::Step(p) => self.take_step(alloc, *p),
        }
    }

    /// The world takes these commands, one after the other, and answers what each did. A command
    /// that is refused changes nothing and is passed over: the run goes on with the next one. After each
    /// prefix of the events each process's latest call is within the bound (`bounded`).
    ///
    /// `outcomes` and `ran` say what is done. The rest follows, with what every world keeps: each event could come
    /// (`accepted`), the atomic object takes the acts of the run (`simulated`), and the log after each prefix of the
    /// events is a prefix of the log after all, but for a response that its last entry lacks (`log`).
    ///
    /// An `Err` says that memory for the answer was refused; then nothing is done.
    pub fn run(
        &mut self,
        alloc: Global,
        commands: &[Command<O::Inv>],
    ) -> Result<Vec<Outcome<O::Resp>>, AllocError>
        ensures outcomes { IfOk result (λ outcomes. AreOutcomes (O.sequential self.old.object)
            (world_of self.old) self.old.row commands.now outcomes.items) }
        ensures ran { IfOk result (λ outcomes. world_of self.new
            ≡ world_after_all (O.sequential self.old.object) (world_of self.old)
            (events_of commands.now outcomes.items)) }
        ensures simulated { IfOk result (λ outcomes. Follows (O.sequential self.old.object) (world_of self.old)
            (world_of self.new)
            (history_of (O.sequential self.old.object) (world_of self.old) (events_of commands.now outcomes.items))) }
        ensures accepted { IfOk result (λ outcomes. AreAccepted (O.sequential self.old.object) (world_of self.old)
            (events_of commands.now outcomes.items)) }
        ensures log { IfOk result (λ outcomes. LogGrows (O.sequential self.old.object) (world_of self.old)
            (events_of commands.now outcomes.items)) }
        ensures bounded { IfOk result (λ outcomes. BoundedAlong (O.sequential self.old.object) (world_of self.old)
            (events_of commands.now outcomes.items)) }
        ensures fixed { KeepsFixed self.old self.new }
        ensures unchanged { OnErr result (self.new ≡ self.old) }
    {
        self.shape();
        let mut outcomes = Vec::with_capacity(alloc, commands.len())?;
        for command in commands {
            let outcome = self.take(alloc, command);
            outcomes.push_reserved(outcome);
        }
        Ok(outcomes)
    }
}
