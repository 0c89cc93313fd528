//! A list of events in a byte an event.

ghost use Rattle.std.specs.Prelude.{◌≡◌, ◌+◌, ◌-◌, ◌<◌, ◌≤◌, ◌++◌, ◌∷◌, [], OnOk};
ghost use Rattle.std.specs.Prelude.{length};
ghost use Rattle.uni_record.specs.Event.{calls_in, events_shown};
ghost use Rattle.uni_record.specs.Packed.{HasCode, asked_by};

use crate::event::Event;
use std::alloc::{AllocError, Global};
use std::iter::{ExactSizeIterator, Iterator};
use std::marker::Model;

/// The code of a call of process 0. Below it a code is the process that takes a step.
const CALL: u8 = 64;

/// The code of a trim. One above it is a reshape to as many processes as it is above.
const TRIM: u8 = 128;

/// Events, packed: a code each, and beside them what the calls ask for, in order.
#[derive(Drop)]
pub(crate) struct PackedEvents<I> {
    codes: Vec<u8>,
    invocations: Vec<I>,
}

impl<I> Model for PackedEvents<I> {
    ghost use Rattle.std.specs.Prelude.{◌-◌, length, vec_capacity};
    ghost use Rattle.uni_record.specs.Packed.{Kept, unpacked, ArePacked};

    ghost Value = { Kept I };

    ghost view = { λ p. record {
      events = unpacked p.codes.items p.invocations.items;
      room = vec_capacity p.codes;
      room_for_calls = vec_capacity p.invocations - length p.invocations.items;
    } };

    ghost invariant = { λ p. ArePacked p.codes.items p.invocations.items };
}

impl<I> PackedEvents<I> {
    /// No event, and no room for any.
    pub(crate) fn new(alloc: Global) -> PackedEvents<I>
        ensures { result.events ≡ [] }
    {
        PackedEvents {
            codes: Vec::new(alloc),
            invocations: Vec::new(alloc),
        }
    }

    /// How many events there are.
    pub(crate) fn len(&self) -> usize
        ensures { result ≡ length self.now.events }
    {
        self.codes.len()
    }

    /// For how many events there is room.
    pub(crate) fn room(&self) -> usize
        ensures { result ≡ self.now.room }
    {
        self.codes.capacity()
    }

    /// Makes room for so many events more. It grows by doubling, so that a history isn't copied at each
    /// call.
    ///
    /// An `Err` says that memory was refused.
    pub(crate) fn reserve(&mut self, more: u64) -> Result<(), AllocError>
        ensures events { self.new.events ≡ self.old.events }
        ensures grows { self.old.room ≤ self.new.room }
        ensures fits { OnOk result (length self.old.events + more ≤ self.new.room) }
    {
        self.codes.try_reserve(more as usize)
    }

    /// The same, and room for what one of them asks for.
    ///
    /// An `Err` says that memory was refused.
    pub(crate) fn reserve_call(&mut self, more: u64) -> Result<(), AllocError>
        ensures events { self.new.events ≡ self.old.events }
        ensures grows { self.old.room ≤ self.new.room }
        ensures fits { OnOk result (length self.old.events + more ≤ self.new.room) }
        ensures call_fits { OnOk result (1 ≤ self.new.room_for_calls) }
    {
        self.reserve(more)?;
        self.invocations.try_reserve(1)
    }

    /// Stores an event, for which there is room.
    pub(crate) fn push(&mut self, event: Event<I>)
        requires coded { HasCode event }
        requires fits { length self.old.events < self.old.room }
        requires call_fits { length (asked_by event) ≤ self.old.room_for_calls }
        ensures events { self.new.events ≡ self.old.events ++ event ∷ [] }
        ensures room { self.new.room ≡ self.old.room }
    {
        match event {
            Event::Step(p) => self.codes.push_reserved(p as u8),
            Event::Call(p, inv) => {
                self.invocations.push_reserved(inv);
                self.codes.push_reserved(CALL + p as u8)
            }
            Event::Trim => self.codes.push_reserved(TRIM),
            Event::Reshape(n) => self.codes.push_reserved(TRIM + n as u8),
        }
    }

    /// The events, in order.
    pub(crate) fn iter(&self) -> Events<'_, I>
        ensures { result ≡ self.now.events }
    {
        Events {
            codes: self.codes.as_slice(),
            invocations: self.invocations.as_slice(),
        }
    }
}

/// The events of a record, in order, each with what it asks for lent where it is a call. A contract
/// sees it as the list of those that are still to come.
#[derive(Drop)]
pub struct Events<'a, I> {
    codes: &'a [u8],
    invocations: &'a [I],
}

impl<'a, I> Model for Events<'a, I> {
    ghost use Rattle.std.specs.Prelude.{List};
    ghost use Rattle.uni_record.specs.Packed.{unpacked, ArePacked};
    ghost use Rattle.uni_record.specs.declared.event.Event.{Event};

    ghost Value = { List (Event I) };

    ghost view = { λ e. unpacked e.codes.now e.invocations.now };

    ghost invariant = { λ e. ArePacked e.codes.now e.invocations.now };
}

impl<'a, I> Events<'a, I> {
    /// How many of the events that are still to come are calls. None of them is gone over.
    pub fn calls(&self) -> u64
        ensures { result ≡ calls_in (events_shown self.now) }
    {
        self.invocations.len() as u64
    }
}

impl<'a, I> Iterator for Events<'a, I> {
    ghost use Rattle.std.specs.Iterator.{item_count, YieldsFirstBy};
    ghost use Rattle.uni_record.specs.Event.{event_lent};

    type Item = Event<&'a I>;

    ghost next_gives = { YieldsFirstBy event_lent (λ s. s) };

    ghost remaining = { item_count (λ s. s) };

    fn next(&mut self) -> Option<Event<&'a I>> {
        let (code, codes) = self.codes.split_first()?;
        let code = *code;
        self.codes = codes;
        if code < CALL {
            return Some(Event::Step(code as u64));
        }
        if code < TRIM {
            let (inv, invocations) = self.invocations.split_first()?;
            self.invocations = invocations;
            return Some(Event::Call((code - CALL) as u64, inv));
        }
        if code == TRIM {
            return Some(Event::Trim);
        }
        Some(Event::Reshape((code - TRIM) as u64))
    }

    fn size_hint(&self) -> (usize, Option<usize>) {
        let len = self.len();
        (len, Some(len))
    }
}

impl<'a, I> ExactSizeIterator for Events<'a, I> {
    fn len(&self) -> usize {
        self.codes.len()
    }
}
