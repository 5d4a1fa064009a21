use pv_text::Memory;
use std::alloc::Global;

/// How a search reached a node.
#[derive(Clone, Copy)]
pub(crate) struct Visit {
    /// How many nodes were reached before.
    pub(crate) number: usize,
    /// The node where the search started from which it was reached, and that node's number.
    pub(crate) start: u32,
    pub(crate) start_number: usize,
    /// The node whose successor it is, and at which place: for a start itself, and 0.
    pub(crate) parent: u32,
    pub(crate) place: usize,
}

/// What a search has reached.
#[derive(Drop)]
pub(crate) struct Forest {
    /// For each node how it was reached.
    visits: Vec<Option<Visit>>,
    /// How many nodes were reached.
    reached: usize,
    /// The nodes all of whose successors were followed, in the order in which the search was done
    /// with them.
    finished: Vec<u32>,
}

impl Forest {
    pub(crate) fn new(alloc: Global, nodes: usize) -> Result<Forest, Memory> {
        Ok(Forest {
            visits: vec![in alloc; None; nodes]?,
            reached: 0,
            finished: Vec::new(alloc),
        })
    }

    pub(crate) fn visit(&self, node: u32) -> Option<Visit> {
        *self.visits.get(node as usize)?
    }

    pub(crate) fn finished(&self) -> &[u32] {
        self.finished.as_slice()
    }

    pub(crate) fn finish(&mut self, node: u32) -> Result<(), Memory> {
        self.finished.push(node)?;
        Ok(())
    }

    /// Notes how a node was reached, and answers whether it is a node that was not reached before.
    fn add(&mut self, node: u32, visit: Visit) -> Result<bool, Memory> {
        let node = node as usize;
        if node >= self.visits.len() || self.visits[node].is_some() {
            return Ok(false);
        }
        self.visits[node] = Some(visit);
        self.reached = self.reached.checked_add(1).ok_or(Memory)?;
        Ok(true)
    }

    /// The search starts at a node, unless it was reached before.
    pub(crate) fn start(&mut self, node: u32) -> Result<bool, Memory> {
        let visit = Visit {
            number: self.reached,
            start: node,
            start_number: self.reached,
            parent: node,
            place: 0,
        };
        self.add(node, visit)
    }

    /// The search follows the edge from `parent` to its successor `node` at this place, unless the
    /// node was reached before.
    pub(crate) fn follow(&mut self, parent: u32, place: usize, node: u32) -> Result<bool, Memory> {
        let Some(above) = self.visit(parent) else {
            return Err(Memory);
        };
        let visit = Visit {
            number: self.reached,
            start: above.start,
            start_number: above.start_number,
            parent,
            place,
        };
        self.add(node, visit)
    }
}
