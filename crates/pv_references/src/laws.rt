//! What holds of every schema.

ghost use Rattle.std.specs.Prelude.{◌≡◌, [], false};
ghost use Rattle.pv_graph.specs.Reaching.{has_cycle};
ghost use Rattle.pv_node.specs.declared.Node.{Node};
ghost use Rattle.pv_references.specs.Cycles.{cycle_names};
ghost use Rattle.pv_references.specs.Edges.{graph_of};

/// Where no node that has a name leads back to itself without entering the input, no node does.
#[tactic(auto, using(crate::proofs::Circling::cycles_named))]
pub fn cycles_have_names()
    ensures { (root : Node) → cycle_names root ≡ [] → has_cycle (graph_of root) ≡ false }
{}
