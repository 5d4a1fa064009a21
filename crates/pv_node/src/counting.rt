//! How many nodes there are.

ghost use Rattle.std.specs.Prelude.{◌≡◌, ◌+◌, IfOk};
ghost use Rattle.pv_node.specs.Preorder.{node_count};

use crate::node::Node;
use pv_text::Memory;

/// No memory holds as many nodes as a `u64` cannot count.
fn add(a: u64, b: u64) -> Result<u64, Memory>
    ensures { IfOk result (λ n. n ≡ a + b) }
{
    match a.checked_add(b) {
        Some(sum) => Ok(sum),
        None => Err(Memory),
    }
}

/// How many nodes a schema has: the node and all that its child schemas hold.
#[cycle(count)]
pub fn count_nodes(node: &Node) -> Result<u64, Memory>
    ensures { IfOk result (λ n. n ≡ node_count node.now) }
{
    let mut total = 1;
    for place in 0..usize::MAX {
        let Some(slot) = node.slot(place) else {
            return Ok(total);
        };
        let Some(inner) = slot.node else {
            continue;
        };
        total = add(total, count_nodes(inner)?)?;
    }
    Err(Memory)
}
