//! Marks of nodes, by which it can be checked which nodes reach themselves.

ghost use Rattle.std.specs.Prelude.{◌≡◌, IsTrue, slice_get, All};
ghost use Rattle.pv_graph.specs.Marks as spec;

use crate::forest::{Forest, Visit};
use crate::graph::Graph;
use pv_text::Memory;
use std::alloc::Global;

/// What is claimed of a node. Nodes that reach each other form a component.
#[derive(Clone, Copy)]
pub(crate) struct Mark {
    /// Whether the node reaches itself.
    pub(crate) cyclic: bool,
    /// The number of its component. No edge leads to a component with a lower number.
    component: usize,
    /// A node of the component.
    root: u32,
    /// The node from which an edge leads here on the way from the root, and this node's place among
    /// its successors.
    parent: u32,
    place: usize,
    /// A number that rises along the way from the root to here, and one that falls along a way to
    /// the root.
    from_root: usize,
    to_root: usize,
}

/// Whether an edge leads to a node that the search reached from the same start.
fn leads_within(search: &Forest, start: u32, successors: &[u32]) -> bool {
    for successor in successors {
        if let Some(visit) = search.visit(*successor) {
            if visit.start == start {
                return true;
            }
        }
    }
    false
}

fn mark_of(forward: &Visit, backward: &Visit, cyclic: bool) -> Mark {
    Mark {
        cyclic,
        component: backward.start_number,
        root: backward.start,
        parent: forward.parent,
        place: forward.place,
        from_root: forward.number,
        to_root: backward.number,
    }
}

/// The marks of the nodes, by a search through the graph, and one against its edges from the nodes
/// with which the first was done last. No contract says that they are right: `are_sound` tells
/// whether they are.
pub(crate) fn marks_of(
    alloc: Global,
    graph: &Graph,
    forward: &Forest,
    backward: &Forest,
) -> Result<Vec<Mark>, Memory> {
    let mut marks = Vec::new(alloc);
    for node in 0..graph.len() {
        let number = u32::try_from(node).map_err(|_| Memory)?;
        let (Some(there), Some(back)) = (forward.visit(number), backward.visit(number)) else {
            return Err(Memory);
        };
        let cyclic = leads_within(backward, back.start, graph.successors(node));
        marks.push(mark_of(&there, &back, cyclic))?;
    }
    Ok(marks)
}

fn mark_at(marks: &[Mark], node: u32) -> Option<Mark>
    ensures { result ≡ slice_get marks.now node }
{
    marks.get(node as usize).copied()
}

/// Whether the first node is in no higher component than the second, and in a lower one unless it
/// is cyclic.
fn is_no_higher(mark: &Mark, next: &Mark) -> bool
    ensures { IsTrue result → spec.IsNoHigher mark.now next.now }
{
    if mark.cyclic {
        mark.component <= next.component
    } else {
        mark.component < next.component
    }
}

/// Whether a node with this mark is so to a successor. A successor past the last node has no mark.
fn is_below(mark: &Mark, successor: u32, marks: &[Mark]) -> bool
    ensures { IsTrue result → spec.IsBelow marks.now mark.now successor }
{
    match mark_at(marks, successor) {
        Some(next) => is_no_higher(mark, &next),
        None => true,
    }
}

fn is_below_each(mark: &Mark, successors: &[u32], marks: &[Mark]) -> bool
    ensures { IsTrue result → All (spec.IsBelow marks.now mark.now) successors.now }
{
    for successor in successors {
        if !is_below(mark, *successor, marks) {
            return false;
        }
    }
    true
}

/// Whether an edge leads to a cyclic node with the same root, and nearer to it unless this node is
/// the root.
fn nears_root(node: u32, mark: &Mark, successors: &[u32], marks: &[Mark]) -> bool
    ensures { IsTrue result → spec.NearsRoot marks.now node mark.now successors.now }
{
    for successor in successors {
        match mark_at(marks, *successor) {
            Some(next) => {
                if next.cyclic
                    && next.root == mark.root
                    && (node == mark.root || next.to_root < mark.to_root)
                {
                    return true;
                }
            }
            None => {}
        }
    }
    false
}

/// Whether the node is the root, or an edge leads to it from a cyclic node with the same root that
/// is nearer to it.
fn comes_from_root(node: u32, mark: &Mark, graph: &Graph, marks: &[Mark]) -> bool
    ensures { IsTrue result → spec.ComesFromRoot graph.now marks.now node mark.now }
{
    if node == mark.root {
        return true;
    }
    match mark_at(marks, mark.parent) {
        Some(parent) => {
            parent.cyclic
                && parent.root == mark.root
                && parent.from_root < mark.from_root
                && graph.successors(mark.parent as usize).get(mark.place) == Some(&node)
        }
        None => false,
    }
}

fn is_sound(node: u32, mark: &Mark, graph: &Graph, marks: &[Mark]) -> bool
    ensures { IsTrue result → spec.IsSound graph.now marks.now node mark.now }
{
    let successors = graph.successors(node as usize);
    if !is_below_each(mark, successors, marks) {
        return false;
    }
    if !mark.cyclic {
        return true;
    }
    nears_root(node, mark, successors, marks) && comes_from_root(node, mark, graph, marks)
}

/// Whether the marks are right: where they are, exactly the nodes marked so reach themselves.
pub(crate) fn are_sound(graph: &Graph, marks: &[Mark]) -> bool
    ensures { IsTrue result → spec.AreSound graph.now marks.now }
{
    if marks.len() != graph.len() {
        return false;
    }
    for (node, mark) in marks.iter().enumerate() {
        match u32::try_from(node) {
            Ok(number) => {
                if !is_sound(number, mark, graph, marks) {
                    return false;
                }
            }
            Err(_) => return false,
        }
    }
    true
}
