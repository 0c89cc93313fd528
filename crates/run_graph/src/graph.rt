//! The graph.

/// Worlds, and the events that lead from one to another.
///
/// Node 0 is the opening. A node is named by its number, and has a path: the processes whose events,
/// in this order, lead from the opening to it.
#[derive(Drop)]
pub struct Graph {
    /// The path to each node.
    pub paths: Vec<Vec<u64>>,
    /// For each node, and in it each process, the node after its event, where it has one.
    pub targets: Vec<Option<usize>>,
}
