//! One node of a schema, by its name or by its number. A schema has so few nodes that the places of
//! their slots can be counted.

ghost use Rattle.std.specs.Prelude.{◌≡◌, ◌≤◌, ◌+◌, slice_get, None};
ghost use Rattle.std.specs.List.{find};
ghost use Rattle.std.specs.Option.{option_copied};
ghost use Rattle.pv_node.specs.Preorder.{node_count, preorder};
ghost use Rattle.pv_node.specs.References.{has_name};

use crate::node::Node;
use crate::schema::MAX_NODES;
use pv_text::Text;

/// Whether a node has this name.
fn is_named(node: &Node, name: &Text) -> bool
    ensures { result ≡ has_name name.now node.now }
{
    match &node.own_ref {
        Some(own) => name == own,
        None => false,
    }
}

/// The first node that has this name.
#[cycle(named)]
pub fn first_named<'a>(node: &'a Node, name: &Text) -> Option<&'a Node>
    requires { node_count node.now ≤ MAX_NODES }
    ensures { option_copied result ≡ find (has_name name.now) (preorder node.now) }
{
    if is_named(node, name) {
        return Some(node);
    }
    let mut place = 0;
    while let Some(slot) = node.slot(place) {
        if let Some(inner) = slot.node {
            if let Some(found) = first_named(inner, name) {
                return Some(found);
            }
        }
        place += 1;
    }
    None
}

/// The node that has `left` nodes before it. The nodes that are passed are taken off that number,
/// all of them where there are not so many.
#[cycle(numbered)]
pub fn node_behind<'a>(node: &'a Node, left: &mut u64) -> Option<&'a Node>
    requires { node_count node.now ≤ MAX_NODES }
    ensures found { option_copied result ≡ slice_get (preorder node.now) left.old }
    ensures passed { result ≡ None → left.new + node_count node.now ≡ left.old }
{
    if *left == 0 {
        return Some(node);
    }
    *left -= 1;
    let mut place = 0;
    while let Some(slot) = node.slot(place) {
        if let Some(inner) = slot.node {
            if let Some(found) = node_behind(inner, left) {
                return Some(found);
            }
        }
        place += 1;
    }
    None
}
