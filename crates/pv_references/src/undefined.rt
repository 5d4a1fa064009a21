//! References whose names no node has.

ghost use Rattle.std.specs.Prelude.{◌≡◌};
ghost use Rattle.std.specs.Option.{option_copied};
ghost use Rattle.pv_node.specs.Preorder.{preorder};
ghost use Rattle.pv_references.specs.Names as spec;
ghost use Rattle.pv_references.specs.Names.{undefined_at};
ghost use Rattle.pv_references.specs.Nodes.{nodes_lent};

use crate::names::Names;
use crate::targets::reference;
use pv_node::Node;
use pv_text::Text;

/// The name that a node refers to, where no node has it.
fn undefined<'a>(node: &'a Node, names: &Names<'_>) -> Option<&'a Text>
    ensures { option_copied result ≡ undefined_at names.now node.now }
{
    match reference(&node.body) {
        None => None,
        Some(name) => {
            if names.contains(name) {
                None
            } else {
                Some(name)
            }
        }
    }
}

/// The first name that a node refers to and no node has.
#[tactic(auto, unfolding(crate::specs::Names::first_undefined))]
pub(crate) fn first_undefined<'a>(nodes: &[&'a Node], names: &Names<'_>) -> Option<&'a Text>
    requires { nodes_lent nodes.now ≡ preorder names.now }
    ensures { option_copied result ≡ spec.first_undefined names.now }
{
    for place in 0..nodes.len() {
        match undefined(nodes[place], names) {
            Some(name) => return Some(name),
            None => {}
        }
    }
    None
}
