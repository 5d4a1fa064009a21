//! Chains of edges along which a schema stays at one input.

ghost use Rattle.std.specs.Prelude.{◌≡◌, []};
ghost use Rattle.pv_graph.specs.Walks.{IsLongest};
ghost use Rattle.pv_node.specs.declared.Node.{Node};
ghost use Rattle.pv_references.specs.Cycles.{chain, cycle_names};
ghost use Rattle.pv_references.specs.Edges.{graph_of};

/// In a schema without empty cycles, the chain is the most edges in a row that do not enter the
/// input: so many may follow one another, and never more. So many nodes and one are at most
/// entered one below another before a step is made into the input.
#[tactic(auto, using(crate::proofs::ChainLengths::chain_is_most))]
pub fn chain_is_the_most()
    ensures { (root : Node) → cycle_names root ≡ [] → IsLongest (graph_of root) (chain root) }
{}
