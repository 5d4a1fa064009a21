//! The names of nodes that lead back to themselves without entering the input.

ghost use Rattle.std.specs.Prelude.{◌≡◌, ℕ, ◌++◌, List, IfOk, OnOk, slice_get};
ghost use Rattle.std.specs.Option.{option_copied};
ghost use Rattle.pv_node.specs.declared.Node.{out-Node};
ghost use Rattle.pv_references.specs.Cycles.{marked_at, named_marked};
ghost use Rattle.pv_references.specs.Names.{with_name};
ghost use Rattle.pv_references.specs.Nodes.{nodes_lent};

use pv_node::Node;
use pv_text::{Memory, Text};
use pv_tree::{Names, Row};
use std::alloc::Global;

/// The name of the node of this number, if its flag is true.
fn marked<'a>(node: &'a Node, place: usize, flags: &[bool]) -> Option<&'a Text>
    ensures { option_copied result
        ≡ marked_at (slice_get flags.now place) (out-Node node.now).own_ref }
{
    match flags.get(place) {
        Some(true) => node.own_ref.as_ref(),
        Some(false) => None,
        None => None,
    }
}

/// Adds a name where there is one.
fn add(alloc: Global, names: &mut Vec<Text>, name: Option<&Text>) -> Result<(), Memory>
    ensures { OnOk result ((more : List (List ℕ)) → names.new.items ++ more
        ≡ names.old.items ++ with_name (option_copied name.entry) more) }
{
    match name {
        None => Ok(()),
        Some(name) => {
            names.push(name.share(alloc)?)?;
            Ok(())
        }
    }
}

/// The names of the nodes whose flags are true.
pub(crate) fn marked_names(alloc: Global, nodes: &[&Node], flags: &[bool]) -> Result<Names, Memory>
    ensures { IfOk result (λ names. names ≡ named_marked flags.now (nodes_lent nodes.now)) }
{
    let mut names = Vec::new(alloc);
    for place in 0..nodes.len() {
        add(alloc, &mut names, marked(nodes[place], place, flags))?;
    }
    let names = Row::from_vec(alloc, names)?;
    Ok(names)
}
