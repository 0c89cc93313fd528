//! Nodes that nothing comes of, with an index of them. The index only says where to look: two nodes are one only where
//! they are the same.

ghost use Rattle.std.specs.Prelude.{◌≡◌, ◌≢◌, ◌<◌, ◌++◌, ◌∷◌, [], ℕ, IfOk, IsTrue, OnOk};
ghost use Rattle.std.specs.Prelude.{false, length, true};
ghost use Rattle.lin_check.specs.Search.{IsSameNode, IsNodeAt};

use crate::checkable::Checkable;
use crate::node::{Node, Slot};
use std::alloc::{AllocError, Global};

/// A key with one more number.
fn with(key: u64, x: u64) -> u64 {
    (key ^ x)
        .wrapping_mul(0x9E37_79B9_7F4A_7C15)
        .rotate_left(29)
}

/// A key of a node.
fn key_of<O: Checkable>(node: &Node<O::State>) -> u64 {
    let mut key = with(O::key(&node.state), node.at as u64);
    for slot in &node.slots {
        let number = match *slot {
            Slot::Idle => 0,
            Slot::Open(at) => at as u64,
            Slot::Done => u64::MAX,
        };
        key = with(key, number);
    }
    key
}

/// Whether two slots are the same.
pub(crate) fn is_same_slot(a: Slot, b: Slot) -> bool
    ensures same { result ≡ true → a ≡ b }
    ensures other { result ≡ false → a ≢ b }
{
    match a {
        Slot::Idle => match b {
            Slot::Idle => true,
            _ => false,
        },
        Slot::Open(x) => match b {
            Slot::Open(y) => x == y,
            _ => false,
        },
        Slot::Done => match b {
            Slot::Done => true,
            _ => false,
        },
    }
}

/// Whether the slots are the same.
fn are_same_slots(a: &[Slot], b: &[Slot]) -> bool
    ensures { IsTrue result → a.now ≡ b.now }
{
    if a.len() != b.len() {
        return false;
    }
    for i in 0..a.len() {
        if !is_same_slot(a[i], b[i]) {
            return false;
        }
    }
    true
}

/// Whether two nodes are the same. A `false` says nothing.
fn is_same<O: Checkable>(a: &Node<O::State>, b: &Node<O::State>) -> bool
    ensures { IsTrue result → IsSameNode a.now b.now }
{
    if a.at != b.at {
        return false;
    }
    if !are_same_slots(&a.slots, &b.slots) {
        return false;
    }
    O::is_same(&a.state, &b.state)
}

/// Nodes, for each bucket the latest one in it, and for each node the one before it in its bucket.
#[derive(Drop)]
pub(crate) struct Failed<S: Drop> {
    pub(crate) nodes: Vec<Node<S>>,
    keys: Vec<u64>,
    before: Vec<Option<usize>>,
    latest: Vec<Option<usize>>,
}

impl<S: Drop> Failed<S> {
    /// None, with so many buckets.
    pub(crate) fn new(alloc: Global, buckets: usize) -> Result<Failed<S>, AllocError>
        ensures { IfOk result (λ failed. failed.nodes.items ≡ []) }
    {
        Ok(Failed {
            nodes: Vec::new(alloc),
            keys: Vec::new(alloc),
            before: Vec::new(alloc),
            latest: vec![in alloc; None; buckets]?,
        })
    }

    /// The latest node in the bucket of a key.
    fn first(&self, key: u64) -> Option<usize> {
        if self.latest.len() == 0 {
            return None;
        }
        match self.latest.get((key % self.latest.len() as u64) as usize) {
            Some(node) => *node,
            None => None,
        }
    }
}

/// Whether one of them is the same as the node. A `false` says nothing.
pub(crate) fn has<O: Checkable>(failed: &Failed<O::State>, node: &Node<O::State>) -> bool
    ensures { result ≡ true
        → (k : ℕ) × (k < length failed.now.nodes.items) × IsNodeAt failed.now.nodes.items k node.now }
{
    let key = key_of::<O>(node);
    let mut next = failed.first(key);
    for _ in 0..failed.nodes.len() {
        let Some(j) = next else {
            return false;
        };
        if let Some(k) = failed.keys.get(j) {
            if *k == key {
                if let Some(other) = failed.nodes.get(j) {
                    if is_same::<O>(other, node) {
                        return true;
                    }
                }
            }
        }
        next = match failed.before.get(j) {
            Some(node) => *node,
            None => None,
        };
    }
    false
}

/// Adds a node.
pub(crate) fn add<O: Checkable>(
    failed: &mut Failed<O::State>,
    node: Node<O::State>,
) -> Result<(), AllocError>
    ensures { OnOk result (failed.new.nodes.items ≡ failed.old.nodes.items ++ node ∷ []) }
{
    let key = key_of::<O>(&node);
    let number = failed.nodes.len();
    let first = failed.first(key);
    failed.keys.push(key)?;
    failed.before.push(first)?;
    failed.nodes.push(node)?;
    if failed.latest.len() > 0 {
        let bucket = (key % failed.latest.len() as u64) as usize;
        if let Some(latest) = failed.latest.get_mut(bucket) {
            *latest = Some(number);
        }
    }
    Ok(())
}
