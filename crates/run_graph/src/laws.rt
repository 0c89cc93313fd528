//! What holds of each graph, as the contract of a function that does nothing.

ghost use Rattle.std.specs.Prelude.{ℕ, List, Option, Vec};
ghost use Rattle.std.specs.declared.alloc.Global.{Global};
ghost use Rattle.run_graph.specs.Graph.{HasEachWorld, IsGraph};
ghost use Rattle.run_graph.specs.Schedule.{Plan as Schedules};

use seq_object::SeqObject;

/// In a graph of all schedules of a plan each world that can be reached has a node.
pub fn each_world_has_a_node<O: SeqObject>()
    ensures { (plan : Schedules O.State O.Inv O.Resp) (paths : List (Vec ℕ Global)) (targets : List (Option ℕ))
        → IsGraph plan paths targets → HasEachWorld plan paths }
{}
