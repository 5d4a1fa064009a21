//! Search in depth, with a stack of its own. No contract says what it finds: the answer is made of
//! it, and is checked against the graph.

use crate::forest::Forest;
use crate::graph::Graph;
use pv_text::Memory;
use std::alloc::Global;

/// A node that was reached, and the place of its successor that is next.
#[derive(Clone, Copy)]
struct Open {
    node: u32,
    next: usize,
}

#[derive(Drop)]
struct Search {
    forest: Forest,
    /// The nodes on the way from the start to where the search is.
    open: Vec<Open>,
}

impl Search {
    fn new(alloc: Global, graph: &Graph) -> Result<Search, Memory> {
        Ok(Search {
            forest: Forest::new(alloc, graph.len())?,
            open: Vec::new(alloc),
        })
    }

    /// Follows one edge from the last node, or is done with it. It answers false where no node is
    /// left.
    fn step(&mut self, graph: &Graph) -> Result<bool, Memory> {
        let Some(Open { node, next }) = self.open.pop() else {
            return Ok(false);
        };
        match graph.successors(node as usize).get(next) {
            Some(successor) => {
                self.open.push(Open {
                    node,
                    next: next + 1,
                })?;
                if self.forest.follow(node, next, *successor)? {
                    self.open.push(Open {
                        node: *successor,
                        next: 0,
                    })?;
                }
            }
            None => self.forest.finish(node)?,
        }
        Ok(true)
    }

    /// Reaches all nodes to which edges lead from `start` and that were not reached before. A step
    /// follows an edge or is done with a node, so that the steps end by themselves.
    fn start(&mut self, graph: &Graph, start: u32) -> Result<(), Memory> {
        if !self.forest.start(start)? {
            return Ok(());
        }
        self.open.push(Open {
            node: start,
            next: 0,
        })?;
        for _ in 0..u64::MAX {
            if !self.step(graph)? {
                return Ok(());
            }
        }
        Err(Memory)
    }
}

/// Starts at each node in the order of their numbers.
pub(crate) fn search_all(alloc: Global, graph: &Graph) -> Result<Forest, Memory> {
    let mut search = Search::new(alloc, graph)?;
    for node in 0..graph.len() {
        let node = u32::try_from(node).map_err(|_| Memory)?;
        search.start(graph, node)?;
    }
    let Search { forest, open: _ } = search;
    Ok(forest)
}

/// Starts at these nodes, the last of them first.
pub(crate) fn search_from_last(
    alloc: Global,
    graph: &Graph,
    starts: &[u32],
) -> Result<Forest, Memory> {
    let mut search = Search::new(alloc, graph)?;
    for start in starts.iter().rev() {
        search.start(graph, *start)?;
    }
    let Search { forest, open: _ } = search;
    Ok(forest)
}
