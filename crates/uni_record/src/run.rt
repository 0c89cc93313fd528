//! The run of a list of commands.

ghost use Rattle.std.specs.Prelude.{◌≡◌, ◌++◌, IfOk, OnOk, OnErr};
ghost use Rattle.uni_record.specs.Recorded.{KeepsOpening, IsPromised, untrimmed_world};
ghost use Rattle.uni_record.specs.Refusals.{standing_of};
ghost use Rattle.uni_record.specs.Run.{AreAnswersUntrimmed, AreOutcomes, TakesCommand, events_of};
ghost use Rattle.uni_record.specs.declared.command.Command.TheVariants.{Call, Step, Trim, Reshape};

use crate::command::{Command, Outcome, Refusal};
use crate::fault::{RecordBeginFault, RecordReshapeFault, RecordStepFault, RecordTrimFault};
use crate::recorded::Recorded;
use seq_object::SeqObject;
use std::alloc::{AllocError, Global};
use uni_core::Progress;
use uni_model::trims_change_nothing;

impl<O: SeqObject> Recorded<O> {
    /// Process `p` is asked to begin a call.
    fn take_call(&mut self, alloc: Global, p: u64, inv: &O::Inv) -> Outcome<O::Resp>
        ensures takes { TakesCommand O.sequential self.old (Call p inv.now) result self.new }
    {
        match self.begin(alloc, p, inv) {
            Ok(call) => Outcome::Called(call),
            Err(RecordBeginFault::BadProcess) => Outcome::Refused(Refusal::BadProcess),
            Err(RecordBeginFault::Busy(q)) => Outcome::Refused(Refusal::Busy(q)),
            Err(RecordBeginFault::RowFull(q)) => Outcome::Refused(Refusal::RowFull(q)),
            Err(RecordBeginFault::HistoryFull) => Outcome::Refused(Refusal::HistoryFull),
            Err(RecordBeginFault::Memory) => Outcome::Refused(Refusal::Memory),
        }
    }

    /// Process `p` is asked to take a step.
    fn take_step(&mut self, alloc: Global, p: u64) -> Outcome<O::Resp>
        ensures takes { TakesCommand O.sequential self.old (Step p) result self.new }
    {
        if p >= self.world.processes() {
            return Outcome::Refused(Refusal::BadProcess);
        }
        let Some(call) = self.world.current(p) else {
            return Outcome::Refused(Refusal::Idle(p));
        };
        match self.step(alloc, p) {
            Ok(Progress::Going) => Outcome::Went,
            Ok(Progress::Done(response)) => Outcome::Returned(call, response),
            Err(RecordStepFault::BadProcess) => Outcome::Refused(Refusal::BadProcess),
            Err(RecordStepFault::Idle(q)) => Outcome::Refused(Refusal::Idle(q)),
            Err(RecordStepFault::Memory) => Outcome::Refused(Refusal::Memory),
        }
    }

    /// The era is asked to end.
    fn take_trim(&mut self, alloc: Global) -> Outcome<O::Resp>
        ensures takes { TakesCommand O.sequential self.old Trim result self.new }
    {
        match self.trim(alloc) {
            Ok(number) => Outcome::Trimmed(number),
            Err(RecordTrimFault::Pending(p)) => Outcome::Refused(Refusal::Pending(p)),
            Err(RecordTrimFault::SeqFull) => Outcome::Refused(Refusal::SeqFull),
            Err(RecordTrimFault::HistoryFull) => Outcome::Refused(Refusal::HistoryFull),
            Err(RecordTrimFault::Memory) => Outcome::Refused(Refusal::Memory),
        }
    }

    /// The era is asked to end for `m` processes.
    fn take_reshape(&mut self, alloc: Global, m: u64) -> Outcome<O::Resp>
        ensures takes { TakesCommand O.sequential self.old (Reshape m) result self.new }
    {
        match self.reshape(alloc, m) {
            Ok(number) => Outcome::Reshaped(m, number),
            Err(RecordReshapeFault::BadCount) => Outcome::Refused(Refusal::BadCount),
            Err(RecordReshapeFault::Pending(p)) => Outcome::Refused(Refusal::Pending(p)),
            Err(RecordReshapeFault::SeqFull) => Outcome::Refused(Refusal::SeqFull),
            Err(RecordReshapeFault::HistoryFull) => Outcome::Refused(Refusal::HistoryFull),
            Err(RecordReshapeFault::Memory) => Outcome::Refused(Refusal::Memory),
        }
    }

    /// The record takes a command.
    fn take(&mut self, alloc: Global, command: &Command<O::Inv>) -> Outcome<O::Resp>
        ensures takes { TakesCommand O.sequential self.old command.now result self.new }
    {
        match command {
            Command::Call(p, inv) => self.take_call(alloc, *p, inv),
            Command::Step(p) => self.take_step(alloc, *p),
            Command::Trim => self.take_trim(alloc),
            Command::Reshape(m) => self.take_reshape(alloc, *m),
        }
    }

    /// The record takes these commands, one after the other, and answers what each did. A command that
    /// is refused changes nothing and is passed over: the run goes on with the next one.
    ///
    /// An `Err` says that memory for the answer was refused; then nothing is done.
    pub fn run(
        &mut self,
        alloc: Global,
        commands: &[Command<O::Inv>],
    ) -> Result<Vec<Outcome<O::Resp>>, AllocError>
        ensures outcomes { IfOk result (λ outcomes. AreOutcomes (O.sequential self.old.world.object)
            (standing_of self.old) commands.now outcomes.items) }
        ensures events { IfOk result (λ outcomes. self.new.events
            ≡ self.old.events ++ events_of commands.now outcomes.items) }
        ensures untrimmed { IfOk result (λ outcomes. AreAnswersUntrimmed (O.sequential self.old.world.object)
            (untrimmed_world O.sequential self.old) commands.now outcomes.items) }
        ensures promised { OnOk result (IsPromised O.sequential self.new) }
        ensures fixed { KeepsOpening self.old self.new }
        ensures unchanged { OnErr result (self.new ≡ self.old) }
    {
        self.promise();
        trims_change_nothing::<O>();
        let mut outcomes = Vec::with_capacity(alloc, commands.len())?;
        for command in commands {
            let outcome = self.take(alloc, command);
            outcomes.push_reserved(outcome);
        }
        self.promise();
        Ok(outcomes)
    }
}
