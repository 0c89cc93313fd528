//! All schedules of the construction: the worlds that they lead to, as a graph.
#![tactic(auto)]

mod fault;
mod graph;
mod index;
mod laws;
mod plan;
mod replay;
mod schedules;
mod worlds;

pub use fault::ExploreFault;
pub use graph::Graph;
pub use laws::each_world_has_a_node;
pub use plan::Plan;
pub use replay::world_at;
pub use schedules::explore;
pub use worlds::{keep_world, no_worlds, take_world};
