//! Any object of finitely many states, by its tables.

ghost use Rattle.std.specs.Prelude.{◌≡◌, ◌^◌, ◌<◌, nat_le, position};
ghost use Rattle.std.specs.Prelude.{IfErr, IfNone, IfOk, OnOk};
ghost use Rattle.word_objects.specs.Machine.{machine, machine_fault, place};
ghost use Rattle.word_objects.specs.Tables.{AreSound};

use std::marker::Model;
use thiserror::Error;
use uni_words::WordObject;

/// The greatest number of states of a machine.
const MOST_STATES: u32 = 2_147_483_648;

/// The least number that is no reply.
const REPLY_END: u32 = 2_147_483_648;

/// What is wrong with the tables of a machine.
#[derive(Clone, Copy, Debug, PartialEq, Eq, Drop, Error)]
pub enum MachineFault {
    /// The number of states isn't from 1 to 2^31.
    #[error("the number of states isn't from 1 to 2^31")]
    BadStates,
    /// There is no invocation.
    #[error("there is no invocation")]
    NoInvocation,
    /// The table of next states doesn't have an entry for each state and invocation, or has more.
    #[error("the table of next states hasn't an entry for each state and invocation")]
    NextSize,
    /// The table of replies doesn't have an entry for each state and invocation, or has more.
    #[error("the table of replies hasn't an entry for each state and invocation")]
    ReplySize,
    /// The entry at this index of the table of next states, the first such one, isn't a state.
    #[error("entry {0} of the table of next states is no state")]
    NextOutside(usize),
    /// The entry at this index of the table of replies, the first such one, isn't below 2^31.
    #[error("entry {0} of the table of replies isn't below 2^31")]
    ReplyOutside(usize),
}

/// An object by its two tables: the next state, and the reply, for each state and invocation.
///
/// Its states are the numbers below `states`, of which 0 is the start; its invocations those below
/// `invocations`, and each greater number is the last of them. The entry of a state `s` and an
/// invocation `i` is at `s * invocations + i`: a table has a row for each state.
#[derive(Drop)]
pub struct WordMachine {
    pub(crate) states: u32,
    invocations: u32,
    next: Vec<u32>,
    reply: Vec<u32>,
}

impl Model for WordMachine {
    ghost use Rattle.word_objects.specs.Tables.{Tables, AreSound};

    ghost Value = { Tables };

    ghost view = { λ m. record {
      states = m.states;
      invocations = m.invocations;
      next = m.next.items;
      reply = m.reply.items;
    } };

    ghost invariant = { λ m. AreSound (record {
      states = m.states;
      invocations = m.invocations;
      next = m.next.items;
      reply = m.reply.items;
    }) };
}

/// The index of the first entry that isn't below a bound.
fn first_outside(entries: &[u32], bound: u32) -> Option<usize>
    ensures { result ≡ position (nat_le bound) entries.now }
{
    entries.iter().position(|entry| *entry >= bound)
}

/// What is wrong with tables, if anything is: the fault that `WordMachine::new` would tell.
pub fn table_fault(
    states: u32,
    invocations: u32,
    next: &[u32],
    reply: &[u32],
) -> Option<MachineFault>
    ensures fault { result ≡ machine_fault (record {
      states = states;
      invocations = invocations;
      next = next.now;
      reply = reply.now;
    }) }
    ensures sound { IfNone result (AreSound (record {
      states = states;
      invocations = invocations;
      next = next.now;
      reply = reply.now;
    })) }
{
    if states == 0 || states > MOST_STATES {
        return Some(MachineFault::BadStates);
    }
    if invocations == 0 {
        return Some(MachineFault::NoInvocation);
    }
    let entries = states as u64 * invocations as u64;
    if next.len() as u64 != entries {
        return Some(MachineFault::NextSize);
    }
    if reply.len() as u64 != entries {
        return Some(MachineFault::ReplySize);
    }
    if let Some(index) = first_outside(next, states) {
        return Some(MachineFault::NextOutside(index));
    }
    if let Some(index) = first_outside(reply, REPLY_END) {
        return Some(MachineFault::ReplyOutside(index));
    }
    None
}

impl WordMachine {
    /// The machine of two tables, each with the entry of state `s` and invocation `i` at
    /// `s * invocations + i`.
    ///
    /// Errors, in this order: `BadStates` where `states` isn't from 1 to 2^31; `NoInvocation` where
    /// `invocations` is 0; `NextSize` and `ReplySize` where a table doesn't have
    /// `states * invocations` entries; `NextOutside` where an entry of `next` isn't below `states`;
    /// `ReplyOutside` where one of `reply` isn't below 2^31. After each the tables are dropped.
    pub fn new(
        states: u32,
        invocations: u32,
        next: Vec<u32>,
        reply: Vec<u32>,
    ) -> Result<WordMachine, MachineFault>
        ensures tables { IfOk result (λ machine. machine ≡ record {
          states = states;
          invocations = invocations;
          next = next.items;
          reply = reply.items;
        }) }
        ensures right { OnOk result (machine_fault (record {
          states = states;
          invocations = invocations;
          next = next.items;
          reply = reply.items;
        }) ≡ None) }
        ensures wrong { IfErr result (λ fault. machine_fault (record {
          states = states;
          invocations = invocations;
          next = next.items;
          reply = reply.items;
        }) ≡ Some fault) }
    {
        match table_fault(states, invocations, &next, &reply) {
            Some(fault) => Err(fault),
            None => Ok(WordMachine {
                states,
                invocations,
                next,
                reply,
            }),
        }
    }

    /// The index of the entry of a state and an invocation.
    fn index_of(&self, state: u32, inv: u64) -> usize
        requires { state < 2 ^ 31 }
        ensures { result ≡ place self.now state inv }
    {
        let row = state as u64 * self.invocations as u64;
        (row + inv.min(self.invocations as u64 - 1)) as usize
    }
}

impl WordObject for WordMachine {
    ghost sequential = { machine };

    fn start(&self) -> u32 {
        0
    }

    fn next(&self, state: u32, inv: u64) -> u32 {
        let index = self.index_of(state, inv);
        self.next.get(index).copied().unwrap_or(0)
    }

    fn answer(&self, state: u32, inv: u64) -> u32 {
        let index = self.index_of(state, inv);
        self.reply.get(index).copied().unwrap_or(0)
    }
}
