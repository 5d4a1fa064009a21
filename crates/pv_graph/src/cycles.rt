ghost use Rattle.std.specs.Prelude.{◌≡◌, IfOk, IfSome, map};
ghost use Rattle.pv_graph.specs.Cycles.{IsAcyclic, MarksCycles, Tells, IsAnswer};

use crate::forest::Forest;
use crate::graph::Graph;
use crate::heights::{are_heights, greatest, heights_in_order};
use crate::marks::{Mark, are_sound, marks_of};
use crate::reversal::reversed;
use crate::search::{search_all, search_from_last};
use pv_text::Memory;
use std::alloc::Global;

/// Whether nodes of a graph reach themselves by its edges.
#[derive(Debug, PartialEq, Eq, Drop)]
pub enum Cycles {
    /// No node does. The longest walk has so many steps.
    Absent { longest: u64 },
    /// Some do: of each node, whether it does.
    Present { nodes: Vec<bool> },
}

/// Of each node whether it is marked as one that reaches itself.
fn flags(alloc: Global, marks: &[Mark]) -> Result<Vec<bool>, Memory>
    ensures { IfOk result (λ nodes. nodes.items ≡ map (λ m. m.cyclic) marks.now) }
{
    let nodes = marks.iter().map(|mark| mark.cyclic).collect(alloc)?;
    Ok(nodes)
}

/// Of each node whether it reaches itself, if the marks are right and some node does.
fn nodes_of(alloc: Global, graph: &Graph, marks: &[Mark]) -> Result<Vec<bool>, Memory>
    ensures { IfOk result (λ nodes. MarksCycles graph.now nodes.items) }
{
    let nodes = flags(alloc, marks)?;
    if !are_sound(graph, marks) || !nodes.contains(&true) {
        return Err(Memory);
    }
    Ok(nodes)
}

/// Of each node whether it reaches itself, after a first search through the graph.
fn cyclic_nodes(alloc: Global, graph: &Graph, forward: &Forest) -> Result<Vec<bool>, Memory>
    ensures { IfOk result (λ nodes. MarksCycles graph.now nodes.items) }
{
    let reversed = reversed(alloc, graph)?;
    let backward = search_from_last(alloc, &reversed, forward.finished())?;
    let marks = marks_of(alloc, graph, forward, &backward)?;
    let nodes = nodes_of(alloc, graph, &marks)?;
    Ok(nodes)
}

/// How many steps the longest walk has, if these are the heights of the nodes.
fn longest_walk(graph: &Graph, heights: &[u64]) -> Option<u64>
    ensures { IfSome result (IsAcyclic graph.now) }
{
    if are_heights(graph, heights) {
        Some(greatest(heights))
    } else {
        None
    }
}

/// Whether nodes of the graph reach themselves, and which. It takes time in proportion to the nodes
/// and edges.
///
/// A search finds the answer, and a check proves it. Were the search wrong, the check would fail,
/// and the answer would be want of memory. So it is where a `u32` cannot number all nodes.
#[tactic(auto, using(crate::proofs::ReachingItself::marks_right))]
pub fn find_cycles(alloc: Global, graph: &Graph) -> Result<Cycles, Memory>
    ensures told { IfOk result (Tells graph.now) }
    ensures answer { IfOk result (IsAnswer graph.now) }
{
    let forward = search_all(alloc, graph)?;
    let heights = heights_in_order(alloc, graph, forward.finished())?;
    match longest_walk(graph, &heights) {
        Some(longest) => Ok(Cycles::Absent { longest }),
        None => {
            let nodes = cyclic_nodes(alloc, graph, &forward)?;
            Ok(Cycles::Present { nodes })
        }
    }
}
