use pv_text::Memory;
use sqlite_items::Items;
use std::alloc::Global;
use std::marker::Model;

/// A graph, seen as the successors of each node. Nodes are numbered from 0 in the order in which
/// they were added. A successor may be a node that is added later, and may stand twice.
#[derive(Drop)]
pub struct Graph {
    alloc: Global,
    nodes: Vec<Items<u32>>,
}

impl Model for Graph {
    ghost use Rattle.std.specs.Prelude.{List, ℕ};

    ghost Value = { List (List ℕ) };

    ghost view = { λ g. g.nodes.items };
}

impl Graph {
    ghost use Rattle.std.specs.Prelude.{◌≡◌, [], ◌∷◌, ◌++◌, IfOk, OnOk, OnErr, length, slice_index_or};

    /// A graph without nodes.
    pub fn new(alloc: Global) -> Graph
        ensures { result ≡ [] }
    {
        Graph {
            alloc,
            nodes: Vec::new(alloc),
        }
    }

    /// Adds a node with these successors.
    pub fn push(&mut self, successors: &[u32]) -> Result<(), Memory>
        ensures ok { OnOk result (self.new ≡ self.old ++ successors.now ∷ []) }
        ensures err { OnErr result (self.new ≡ self.old) }
    {
        let successors = Items::from_slice(self.alloc, successors)?;
        self.nodes.push(successors)?;
        Ok(())
    }

    /// How many nodes there are.
    pub fn len(&self) -> usize
        ensures { result ≡ length self.now }
    {
        self.nodes.len()
    }

    /// The successors of a node, in the order in which they were given. A number that is no node
    /// has none.
    pub fn successors(&self, node: usize) -> &[u32]
        ensures { result.now ≡ slice_index_or self.now node [] }
    {
        match self.nodes.get(node) {
            Some(successors) => successors.as_slice(),
            None => &[],
        }
    }

    /// Adds an edge from a node that is there to another. From a number that is no node it adds
    /// none.
    pub(crate) fn push_edge(&mut self, from: u32, to: u32) -> Result<(), Memory> {
        if (from as usize) < self.nodes.len() {
            self.nodes[from as usize].push(to)?;
        }
        Ok(())
    }
}
