//! The nodes of a schema in their order.

ghost use Rattle.std.specs.Prelude.{◌≡◌, ◌++◌, IfOk, OnOk};
ghost use Rattle.pv_node.specs.Preorder.{preorder};
ghost use Rattle.pv_references.specs.Nodes.{nodes_lent};

use pv_node::Node;
use pv_text::Memory;
use std::alloc::Global;

/// Adds a node and all that its child schemas hold.
#[cycle(gather)]
fn add_nodes<'a>(node: &'a Node, all: &mut Vec<&'a Node>) -> Result<(), Memory>
    ensures { OnOk result (nodes_lent all.new.items
        ≡ nodes_lent all.old.items ++ preorder node.now) }
{
    all.push(node)?;
    for place in 0..usize::MAX {
        let Some(slot) = node.slot(place) else {
            return Ok(());
        };
        let Some(inner) = slot.node else {
            continue;
        };
        add_nodes(inner, all)?;
    }
    Err(Memory)
}

/// All nodes of a schema, in their order.
pub fn nodes_of(alloc: Global, root: &Node) -> Result<Vec<&Node>, Memory>
    ensures { IfOk result (λ all. nodes_lent all.items ≡ preorder root.now) }
{
    let mut all = Vec::new(alloc);
    add_nodes(root, &mut all)?;
    Ok(all)
}
