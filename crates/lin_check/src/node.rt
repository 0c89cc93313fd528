//! What a search knows at a place of the history.

/// Where a process stands.
#[derive(Clone, Copy, Debug, PartialEq, Eq)]
pub(crate) enum Slot {
    /// It has no call pending.
    Idle,
    /// Its call, the event at this place, is pending and has not taken effect.
    Open(usize),
    /// Its call is pending and has taken effect.
    Done,
}

/// So many events have passed; where each process stands then; and the object's state.
#[derive(Drop)]
pub(crate) struct Node<S: Drop> {
    pub(crate) at: usize,
    pub(crate) slots: Vec<Slot>,
    pub(crate) state: S,
}

/// A node on the path, the processes that are tried first in it, how many candidates are tried where nothing comes of
/// the next node, and the event of the call that leads to that.
#[derive(Drop)]
pub(crate) struct Frame<S: Drop> {
    pub(crate) node: Node<S>,
    pub(crate) order: Vec<usize>,
    pub(crate) next: usize,
    pub(crate) call: usize,
}
