//! Names that stand twice.

ghost use Rattle.std.specs.Prelude.{◌≡◌, ◌∷◌, ◌++◌, List, length};
ghost use Rattle.std.specs.Option.{option_copied};
ghost use Rattle.pv_node.specs.declared.Node.{Node as NodeValue, out-Node};
ghost use Rattle.pv_node.specs.Preorder.{preorder};
ghost use Rattle.pv_references.specs.Names as spec;
ghost use Rattle.pv_references.specs.Names.{repeated_by};
ghost use Rattle.pv_references.specs.Nodes.{nodes_lent};

use crate::names::Names;
use pv_node::Node;
use pv_text::Text;

/// The name of the node of this number, where a node before it has the name too.
fn repeated<'a>(node: &'a Node, place: usize, names: &Names<'_>) -> Option<&'a Text>
    ensures { (before after : List NodeValue) → preorder names.now ≡ before ++ node.now ∷ after
        → length before ≡ place
        → option_copied result ≡ repeated_by before (out-Node node.now).own_ref }
{
    match &node.own_ref {
        None => None,
        Some(name) => match names.find(name) {
            None => None,
            Some(number) => {
                if (number as usize) < place {
                    Some(name)
                } else {
                    None
                }
            }
        },
    }
}

/// The name of the first node whose name a node before it has.
pub(crate) fn first_duplicate<'a>(nodes: &[&'a Node], names: &Names<'_>) -> Option<&'a Text>
    requires { nodes_lent nodes.now ≡ preorder names.now }
    ensures { option_copied result ≡ spec.first_duplicate names.now }
{
    for place in 0..nodes.len() {
        match repeated(nodes[place], place, names) {
            Some(name) => return Some(name),
            None => {}
        }
    }
    None
}
