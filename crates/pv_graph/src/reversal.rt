//! The graph with each edge turned round. No contract speaks of it: what a search finds in it is
//! checked against the graph itself.

use crate::graph::Graph;
use pv_text::Memory;
use std::alloc::Global;

fn push_edges_back(reversed: &mut Graph, node: u32, successors: &[u32]) -> Result<(), Memory> {
    for successor in successors {
        reversed.push_edge(*successor, node)?;
    }
    Ok(())
}

fn without_edges(alloc: Global, nodes: usize) -> Result<Graph, Memory> {
    let mut graph = Graph::new(alloc);
    for _ in 0..nodes {
        graph.push(&[])?;
    }
    Ok(graph)
}

pub(crate) fn reversed(alloc: Global, graph: &Graph) -> Result<Graph, Memory> {
    let mut reversed = without_edges(alloc, graph.len())?;
    for node in 0..graph.len() {
        let number = u32::try_from(node).map_err(|_| Memory)?;
        push_edges_back(&mut reversed, number, graph.successors(node))?;
    }
    Ok(reversed)
}
