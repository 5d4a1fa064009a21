//! The schema that a tree is, where nothing is wrong with it.

ghost use Rattle.std.specs.Prelude.{◌≡◌, IfOk, map};
ghost use Rattle.pv_schema_check.specs.Find.{itself, tree_at};
ghost use Rattle.pv_schema.specs.Making as spec;
ghost use Rattle.pv_schema.specs.Making.{made, part_at};
ghost use Rattle.pv_schema_table.specs.declared.Kind.TheVariants as kinds;

use crate::bodies::make_body;
use crate::written::{flag_at, text_at};
use pv_node::{Node, any_node};
use pv_schema_check::row_of;
use pv_schema_table::{Key, Makes, NodeType, node_types};
use pv_text::Memory;
use pv_tree::{Members, Tree};
use sqlite_items::Items;
use std::alloc::Global;

/// A node of a type.
#[cycle(make)]
fn make_node_of_type(alloc: Global, node_type: NodeType, members: &Members) -> Result<Node, Memory>
    ensures { IfOk result (λ node. node ≡ spec.node_of_type (tree_at itself members.now.members)
        (part_at itself made members.now.members) node_type) }
{
    let keys = members.as_slice();
    Ok(Node {
        own_ref: text_at(alloc, keys, Key::Ref)?,
        strict: flag_at(keys, Key::Strict),
        body: make_body(alloc, node_type, members)?,
    })
}

#[cycle(make)]
fn make_items(alloc: Global, items: &[Tree]) -> Result<Items<Node>, Memory>
    ensures { IfOk result (λ nodes. nodes ≡ map (λ t. made t kinds.Schema) items.now) }
{
    let mut nodes = Vec::with_capacity(alloc, items.len())?;
    for item in items {
        nodes.push(make_node(alloc, item)?)?;
    }
    Ok(Items::from_vec(nodes))
}

/// The list of schemas that a tree is.
#[cycle(make)]
#[tactic(auto, using(crate::proofs::MakeOpens::nodes_open))]
pub(crate) fn make_nodes(alloc: Global, tree: &Tree) -> Result<Items<Node>, Memory>
    ensures { IfOk result (λ nodes. nodes ≡ made tree.now kinds.Schemas) }
{
    match tree {
        Tree::Array(items) => {
            let nodes = make_items(alloc, items.as_slice())?;
            Ok(nodes)
        }
        Tree::Null | Tree::Bool(_) | Tree::Num(_) | Tree::Str(_) | Tree::Object(_) => {
            Ok(Items::new(alloc))
        }
    }
}

/// The schema that an object with these members is.
#[cycle(make)]
pub(crate) fn make_object(alloc: Global, members: &Members) -> Result<Node, Memory>
    ensures { IfOk result (λ node. node ≡ spec.node_in itself made members.now.members) }
{
    match row_of(node_types(), members.as_slice()) {
        Ok(row) => match row.makes {
            Makes::NotBuilt | Makes::Field => Ok(any_node()),
            Makes::Node(node_type) => make_node_of_type(alloc, node_type, members),
        },
        Err(_) => Ok(any_node()),
    }
}

/// The schema that a tree is.
#[cycle(make)]
#[tactic(auto, using(crate::proofs::MakeOpens::node_opens))]
pub(crate) fn make_node(alloc: Global, tree: &Tree) -> Result<Node, Memory>
    ensures { IfOk result (λ node. node ≡ made tree.now kinds.Schema) }
{
    match tree {
        Tree::Object(members) => {
            let node = make_object(alloc, members)?;
            Ok(node)
        }
        Tree::Null | Tree::Bool(_) | Tree::Num(_) | Tree::Str(_) | Tree::Array(_) => {
            Ok(any_node())
        }
    }
}
