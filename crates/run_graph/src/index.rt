//! An index of nodes, by a key of their worlds. It only says where to look: two worlds are one node
//! only where they are the same.

ghost use Rattle.std.specs.Prelude.{IsSome};
ghost use Rattle.cell_arena.specs.Arena.{cell_of};

use crate::fault::ExploreFault;
use cell_arena::{CellId, Cells};
use seq_object::{CallId, SeqObject};
use std::alloc::Global;
use uni_core::{Place, StepKind, World};

/// How many buckets there are.
const BUCKETS: usize = 65536;

/// A key with one more number.
fn with(key: u64, x: u64) -> u64 {
    (key ^ x)
        .wrapping_mul(0x9E37_79B9_7F4A_7C15)
        .rotate_left(29)
}

/// A number for a kind of step.
fn kind_number(kind: StepKind) -> u64 {
    match kind {
        StepKind::Announce => 1,
        StepKind::ScanHead => 2,
        StepKind::ScanSeq => 3,
        StepKind::WriteScan => 4,
        StepKind::Test => 5,
        StepKind::ReadAnnounce => 6,
        StepKind::ReadHelpSeq => 7,
        StepKind::DecideAfter => 8,
        StepKind::DecideNew => 9,
        StepKind::WriteBefore => 10,
        StepKind::WriteSeq => 11,
        StepKind::WriteHead => 12,
        StepKind::Finish => 13,
    }
}

/// A number for a place.
fn place_number(place: Place) -> u64 {
    match place {
        Place::Announced(p) | Place::HeadOf(p) => p,
        Place::SeqOf(cell) | Place::AfterOf(cell) | Place::NewOf(cell) | Place::BeforeOf(cell) => {
            u64::from(cell.index())
        }
    }
}

/// A number for a cell that there may be.
fn link_number(cell: Option<CellId>) -> u64 {
    match cell {
        None => 0,
        Some(cell) => 1 + u64::from(cell.index()),
    }
}

/// The key with what a cell contains.
fn with_cell<O: SeqObject>(mut key: u64, world: &World<O>, cell: CellId) -> u64
    requires { IsSome (cell_of world.now.shared.cells cell) }
{
    key = with(key, world.seq(cell));
    key = with(key, link_number(world.before(cell)));
    key = with(key, link_number(world.after(cell)));
    with(key, u64::from(world.new_of(cell).is_some()))
}

/// A key of a world.
pub(crate) fn key_of<O: SeqObject>(world: &World<O>) -> u64 {
    world.shape();
    let mut key = with_cell(0, world, CellId::anchor());
    for p in 0..world.processes() {
        key = with(key, world.begun(p));
        key = with(key, world.head_seq(p));
        if let Some(kind) = world.next_kind(p) {
            key = with(key, kind_number(kind));
        }
        if let Some(place) = world.next_place(p) {
            key = with(key, place_number(place));
        }
        for nth in 0..world.begun(p) {
            if let Some(cell) = world.cell_of(CallId {
                process: p as u32,
                nth,
            }) {
                key = with_cell(key, world, cell);
            }
        }
    }
    key
}

/// For each bucket the latest node in it, and for each node the one before it in its bucket.
#[derive(Drop)]
pub(crate) struct Index {
    latest: Vec<Option<usize>>,
    keys: Vec<u64>,
    before: Vec<Option<usize>>,
}

impl Index {
    /// No nodes.
    pub(crate) fn new(alloc: Global) -> Result<Index, ExploreFault> {
        let Ok(latest) = vec![in alloc; None; BUCKETS] else {
            return Err(ExploreFault::Memory);
        };
        Ok(Index {
            latest,
            keys: Vec::new(alloc),
            before: Vec::new(alloc),
        })
    }

    /// The latest node in the bucket of a key.
    pub(crate) fn first(&self, key: u64) -> Option<usize> {
        match self.latest.get((key % BUCKETS as u64) as usize) {
            Some(node) => *node,
            None => None,
        }
    }

    /// The node before a node in its bucket.
    pub(crate) fn next(&self, node: usize) -> Option<usize> {
        match self.before.get(node) {
            Some(node) => *node,
            None => None,
        }
    }

    /// Whether a node has a key.
    pub(crate) fn has(&self, node: usize, key: u64) -> bool {
        match self.keys.get(node) {
            Some(k) => *k == key,
            None => false,
        }
    }

    /// Adds the next node, with a key.
    pub(crate) fn add(&mut self, key: u64) -> Result<(), ExploreFault> {
        let node = self.keys.len();
        let first = self.first(key);
        if self.keys.push(key).is_err() || self.before.push(first).is_err() {
            return Err(ExploreFault::Memory);
        }
        if let Some(latest) = self.latest.get_mut((key % BUCKETS as u64) as usize) {
            *latest = Some(node);
        }
        Ok(())
    }
}
