//! The height of a node: how many steps the longest walk from it has, where no node reaches itself.

ghost use Rattle.std.specs.Prelude.{◌≡◌, ◌≤◌, IsTrue, All, Contains, slice_get};
ghost use Rattle.pv_graph.specs.Heights.{IsBelow, IsMet, IsHeight, AreHeights, IsGreatest};

use crate::graph::Graph;
use pv_text::Memory;
use std::alloc::Global;

/// One more than the greatest height of the successors, or 0 where there is none.
fn height_over(successors: &[u32], heights: &[u64]) -> u64 {
    let mut height = 0u64;
    for successor in successors {
        if let Some(below) = heights.get(*successor as usize) {
            height = height.max(below.saturating_add(1));
        }
    }
    height
}

/// Heights of the nodes, worked out in this order. They are right where each node comes after its
/// successors, which no contract says: `are_heights` tells whether they are.
pub(crate) fn heights_in_order(
    alloc: Global,
    graph: &Graph,
    order: &[u32],
) -> Result<Vec<u64>, Memory> {
    let mut heights = vec![in alloc; 0u64; graph.len()]?;
    for node in order {
        let node = *node as usize;
        let height = height_over(graph.successors(node), &heights);
        if node < heights.len() {
            heights[node] = height;
        }
    }
    Ok(heights)
}

fn height_at(heights: &[u64], node: u32) -> Option<u64>
    ensures { result ≡ slice_get heights.now node }
{
    heights.get(node as usize).copied()
}

/// Whether a height is above the heights of all successors.
fn is_above(height: u64, successors: &[u32], heights: &[u64]) -> bool
    ensures { IsTrue result → All (IsBelow heights.now height) successors.now }
{
    for successor in successors {
        match height_at(heights, *successor) {
            Some(below) => {
                if below >= height {
                    return false;
                }
            }
            None => {}
        }
    }
    true
}

/// Whether a height is 0, or one more than the height of a successor.
fn is_met(height: u64, successors: &[u32], heights: &[u64]) -> bool
    ensures { IsTrue result → IsMet successors.now heights.now height }
{
    if height == 0 {
        return true;
    }
    for successor in successors {
        if height_at(heights, *successor) == Some(height - 1) {
            return true;
        }
    }
    false
}

fn is_height(height: u64, successors: &[u32], heights: &[u64]) -> bool
    ensures { IsTrue result → IsHeight successors.now heights.now height }
{
    is_above(height, successors, heights) && is_met(height, successors, heights)
}

pub(crate) fn are_heights(graph: &Graph, heights: &[u64]) -> bool
    ensures { IsTrue result → AreHeights graph.now heights.now }
{
    if heights.len() != graph.len() {
        return false;
    }
    for (node, height) in heights.iter().enumerate() {
        if !is_height(*height, graph.successors(node), heights) {
            return false;
        }
    }
    true
}

/// The greatest of the heights, or 0 where there is none.
pub(crate) fn greatest(heights: &[u64]) -> u64
    ensures { IsGreatest heights.now result }
{
    let mut greatest = 0u64;
    for height in heights {
        if *height > greatest {
            greatest = *height;
        }
    }
    greatest
}
