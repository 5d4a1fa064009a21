//! The edges of a schema that do not lead into the input, as a graph of its numbered nodes.

ghost use Rattle.std.specs.Prelude.{◌≡◌, ◌<◌, ◌++◌, length, slice_set, IfOk, OnOk};
ghost use Rattle.std.specs.List.{flat_map};
ghost use Rattle.pv_node.specs.Lending.{lent};
ghost use Rattle.pv_node.specs.Places.{body_of, slots_of};
ghost use Rattle.pv_node.specs.Preorder.{optional, parts, preorder};
ghost use Rattle.pv_references.specs.Edges as spec;
ghost use Rattle.pv_references.specs.Edges.{graph_from, stays_by, staying, target_of};
ghost use Rattle.pv_references.specs.Targets.{reference_of};

use crate::names::{Names, number};
use crate::targets::reference;
use pv_graph::Graph;
use pv_node::{ChildSlot, Edge, Node};
use pv_text::Memory;
use sqlite_items::Items;
use std::alloc::Global;

/// How many rows there are.
fn size(rows: &Vec<Items<u32>>) -> usize
    ensures { result ≡ length rows.now.items }
{
    rows.len()
}

/// Puts a row in the place of one that is there.
fn settle(rows: &mut Vec<Items<u32>>, at: usize, row: Items<u32>)
    requires { at < length rows.old.items }
    ensures { rows.new.items ≡ slice_set rows.old.items at row }
{
    rows[at] = row;
}

/// Adds the number of the node that is written in a slot, unless the edge to it enters the input.
fn add_edge(slot: &ChildSlot<'_>, at: u32, row: &mut Items<u32>) -> Result<(), Memory>
    ensures { OnOk result (row.new
        ≡ row.old ++ stays_by (lent slot.now).edge (lent slot.now).node at) }
{
    match slot.edge {
        Edge::Enters => Ok(()),
        Edge::Absent => Ok(()),
        Edge::Stays => match slot.node {
            None => Ok(()),
            Some(_) => {
                row.push(at)?;
                Ok(())
            }
        },
    }
}

/// The making of the rows of a schema's graph: for each node the numbers of those to which it
/// leads.
#[derive(Clone, Copy)]
struct Rows<'a> {
    alloc: Global,
    names: &'a Names<'a>,
}

impl Rows<'_> {
    /// Adds the number of the node that a node refers to, where it is a reference.
    fn add_target(&self, node: &Node, row: &mut Items<u32>) -> Result<(), Memory>
        ensures { OnOk result (row.new ≡ row.old
            ++ target_of self.now.names.now (reference_of (body_of node.now))) }
    {
        let Some(name) = reference(&node.body) else {
            return Ok(());
        };
        match self.names.find(name) {
            None => Ok(()),
            Some(number) => {
                row.push(number)?;
                Ok(())
            }
        }
    }

    /// Adds the row of a node and those of all inside it.
    #[cycle(edges)]
    fn add_rows(&self, rows: &mut Vec<Items<u32>>, node: &Node) -> Result<(), Memory>
        ensures { OnOk result (rows.new.items ≡ rows.old.items
            ++ graph_from self.now.names.now (length rows.old.items) (preorder node.now)) }
    {
        let at = size(rows);
        rows.push(Items::new(self.alloc))?;
        let mut row = Items::new(self.alloc);
        self.add_slots(rows, node, &mut row)?;
        self.add_target(node, &mut row)?;
        settle(rows, at, row);
        Ok(())
    }

    /// Adds the rows of the child schemas of a node and of all inside them, and to `row` the
    /// numbers of those to which the node leads.
    #[cycle(edges)]
    fn add_slots(
        &self,
        rows: &mut Vec<Items<u32>>,
        node: &Node,
        row: &mut Items<u32>,
    ) -> Result<(), Memory>
        ensures rows { OnOk result (rows.new.items ≡ rows.old.items
            ++ graph_from self.now.names.now (length rows.old.items)
            (flat_map preorder (parts node.now))) }
        ensures row { OnOk result (row.new ≡ row.old
            ++ staying (length rows.old.items) (slots_of node.now)) }
    {
        for place in 0..usize::MAX {
            let Some(slot) = node.slot(place) else {
                return Ok(());
            };
            self.add_slot(rows, &slot, row)?;
        }
        Err(Memory)
    }

    /// The same of one slot.
    #[cycle(edges)]
    fn add_slot(
        &self,
        rows: &mut Vec<Items<u32>>,
        slot: &ChildSlot<'_>,
        row: &mut Items<u32>,
    ) -> Result<(), Memory>
        ensures rows { OnOk result (rows.new.items ≡ rows.old.items
            ++ graph_from self.now.names.now (length rows.old.items)
            (flat_map preorder (optional (lent slot.now).node))) }
        ensures row { OnOk result (row.new ≡ row.old
            ++ stays_by (lent slot.now).edge (lent slot.now).node (length rows.old.items)) }
    {
        let at = number(size(rows))?;
        add_edge(slot, at, row)?;
        match slot.node {
            None => Ok(()),
            Some(node) => self.add_rows(rows, node),
        }
    }
}

/// The rows of a schema's graph.
fn rows_of(alloc: Global, names: &Names<'_>) -> Result<Vec<Items<u32>>, Memory>
    ensures { IfOk result (λ rows. rows.items ≡ spec.graph_of names.now) }
{
    let mut rows = Vec::new(alloc);
    let making = Rows { alloc, names };
    making.add_rows(&mut rows, names.root())?;
    Ok(rows)
}

/// The graph of a schema's nodes, by the edges that do not enter the input.
pub(crate) fn graph_of(alloc: Global, names: &Names<'_>) -> Result<Graph, Memory>
    ensures { IfOk result (λ graph. graph ≡ spec.graph_of names.now) }
{
    let rows = rows_of(alloc, names)?;
    let mut graph = Graph::new(alloc);
    for place in 0..rows.len() {
        graph.push(rows[place].as_slice())?;
    }
    Ok(graph)
}
