//! Where the entries of calls stand, in a row for each process.

ghost use Rattle.std.specs.Prelude.{◌≡◌, ℕ, ◌+◌, ◌≤◌, ◌↔◌, ◌==◌, [], ◌∷◌, ◌++◌};
ghost use Rattle.std.specs.Prelude.{IfOk, OnOk, length, true, if◌then◌else◌};
ghost use Rattle.uni_audit.specs.CallPlaces.{place_of, room_of, row_of};

use seq_object::CallId;
use std::alloc::{AllocError, Global};
use std::collections::BTreeMap;
use uni_log::Entry;

/// Places of entries, from 0: the entry of each call of a process has its place in the row of that
/// process, by the call's number.
#[derive(Drop)]
pub struct CallPlaces {
    rows: BTreeMap<u32, Vec<u32>>,
}

impl CallPlaces {
    /// No calls. Each row has room for the calls that its process has in these entries, where they
    /// number the calls of a process from 0 without a gap: the last of them tells how many there are. The
    /// rows have room for no more calls than there are entries.
    pub fn with_room_for<I, R>(
        alloc: Global,
        entries: &[Entry<I, R>],
    ) -> Result<CallPlaces, AllocError>
        ensures empty { IfOk result (λ calls. (q : ℕ) → row_of calls q ≡ []) }
        ensures room { IfOk result (λ calls. room_of calls ≤ length entries.now) }
    {
        let mut calls = CallPlaces {
            rows: BTreeMap::new(alloc),
        };
        let mut room = entries.len() as u64;
        for entry in entries.iter().rev() {
            if room == 0 {
                break;
            }
            let CallId { process, nth } = entry.call;
            if !calls.rows.contains_key(&process) {
                let count = nth.saturating_add(1).min(room);
                calls.add_row(alloc, process, count as usize)?;
                room -= count;
            }
        }
        Ok(calls)
    }

    /// Makes the row of a process, with room for so many calls.
    fn add_row(&mut self, alloc: Global, process: u32, count: usize) -> Result<(), AllocError>
        ensures rows { OnOk result ((q : ℕ)
            → row_of self.new q ≡ (if process == q then [] else row_of self.old q)) }
        ensures room { OnOk result (room_of self.new ≤ room_of self.old + count) }
    {
        self.rows
            .insert(process, Vec::with_capacity(alloc, count)?)?;
        Ok(())
    }

    /// Adds a call, whose entry stands at this place, where it is the next one of its process. The answer
    /// says whether it is.
    ///
    /// An `Err` says that memory was refused, or that the place doesn't fit a `u32`.
    pub fn push(&mut self, alloc: Global, call: CallId, place: u64) -> Result<bool, AllocError>
        ensures next { IfOk result (λ next. (next ≡ true) ↔ (call.nth ≡ length (row_of self.old call.process))) }
        ensures rows { IfOk result (λ next. next ≡ true → (q : ℕ)
            → row_of self.new q ≡ (if call.process == q then row_of self.old q ++ place
            ∷ [] else row_of self.old q)) }
    {
        let Ok(place) = u32::try_from(place) else {
            return Err(AllocError);
        };
        match self.rows.get_mut(&call.process) {
            Some(row) => {
                if row.len() as u64 != call.nth {
                    return Ok(false);
                }
                row.push(place)?;
            }
            None => {
                if call.nth != 0 {
                    return Ok(false);
                }
                let mut row = Vec::new(alloc);
                row.push(place)?;
                self.rows.insert(call.process, row)?;
            }
        }
        Ok(true)
    }

    /// Where the entry of a call stands, or `None` where it has none.
    pub fn place(&self, call: CallId) -> Option<usize>
        ensures { result ≡ place_of self.now call }
    {
        let row = self.rows.get(&call.process)?;
        let place = *row.get(call.nth as usize)?;
        Some(place as usize)
    }
}
