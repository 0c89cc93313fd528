//! The list of an era.

use crate::memory::{CellId, Memory};
use std::alloc::{AllocError, Global};

/// A call that is linked: its number, and its cell.
#[derive(Clone, Copy)]
pub(crate) struct Linked {
    pub(crate) seq: u64,
    pub(crate) cell: CellId,
}

/// What a walk along the list of an era has found.
#[derive(Drop)]
pub(crate) struct Walk {
    /// The cells, in order, the anchor first.
    pub(crate) cells: Vec<Linked>,
    /// The number of the last one that has a state.
    pub(crate) seq: u64,
    /// That state, by its place.
    pub(crate) state: usize,
    /// The cell at which the list comes back, if it does.
    pub(crate) circle: Option<CellId>,
}

impl Memory {
    /// Walks along the list of the era, from the anchor to its end, or to a cell where it was before.
    ///
    /// An `Err` says that memory was refused.
    pub(crate) fn walk(&self, alloc: Global) -> Result<Walk, AllocError> {
        let mut seen = vec![in alloc; false; self.cells.len()]?;
        let mut walk = Walk {
            cells: Vec::new(alloc),
            seq: 0,
            state: 0,
            circle: None,
        };
        let mut seq = self.seq(self.anchor);
        let mut next = Some(self.anchor);
        for _ in 0..=self.cells.len() {
            let Some(id) = next else { break };
            let Some(cell) = self.cells.get(id.0) else {
                break;
            };
            let Some(mark) = seen.get_mut(id.0) else {
                break;
            };
            if *mark {
                walk.circle = Some(id);
                break;
            }
            *mark = true;
            if let Some(settled) = cell.new {
                walk.seq = seq;
                walk.state = settled.state;
            }
            walk.cells.push(Linked { seq, cell: id })?;
            seq = seq.saturating_add(1);
            next = cell.after;
        }
        Ok(walk)
    }
}
