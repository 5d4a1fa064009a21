//! The schemas of the choices of unions and of tagged unions.

ghost use Rattle.std.specs.Prelude.{◌≡◌, IfOk};
ghost use Rattle.pv_schema_table.specs.declared.Kind.TheVariants as kinds;
ghost use Rattle.pv_schema.specs.Choices.{choice_schemas, tagged_schemas};
ghost use Rattle.pv_schema_check.specs.Find.{itself};
ghost use Rattle.pv_schema.specs.Making.{choices_in, made, named_in, part_at, schema_in};
ghost use Rattle.pv_schema.specs.Written.{or_empty};

use crate::making::{make_node, make_object};
use pv_node::{Node, any_node};
use pv_schema_table::Key;
use pv_text::Memory;
use pv_tree::{Members, Tree};
use sqlite_items::Items;
use std::alloc::Global;

/// The schema of a choice that is a list of a schema and its label.
#[cycle(make)]
fn make_labelled(alloc: Global, items: &[Tree]) -> Result<Node, Memory>
    ensures { IfOk result (λ node. node ≡ schema_in itself made items.now) }
{
    match items {
        [schema, _label] => Ok(make_node(alloc, schema)?),
        _ => Ok(any_node()),
    }
}

/// The schema of a choice of a union.
#[cycle(make)]
fn make_choice(alloc: Global, tree: &Tree) -> Result<Node, Memory>
    ensures { IfOk result (λ node. node ≡ (made tree.now kinds.Choice).schema) }
{
    match tree {
        Tree::Object(members) => {
            let node = make_object(alloc, members)?;
            Ok(node)
        }
        Tree::Array(items) => {
            let node = make_labelled(alloc, items.as_slice())?;
            Ok(node)
        }
        Tree::Null | Tree::Bool(_) | Tree::Num(_) | Tree::Str(_) => Ok(any_node()),
    }
}

/// The schemas of the choices that a list has.
#[cycle(make)]
fn make_choices(alloc: Global, choices: &[Tree]) -> Result<Items<Node>, Memory>
    ensures { IfOk result (λ nodes. nodes
        ≡ choice_schemas (choices_in itself made choices.now)) }
{
    let mut nodes = Vec::with_capacity(alloc, choices.len())?;
    for choice in choices {
        nodes.push(make_choice(alloc, choice)?)?;
    }
    Ok(Items::from_vec(nodes))
}

/// The schemas of the choices that a tree has.
#[cycle(make)]
#[tactic(auto, using(crate::proofs::MakeOpens::choices_open))]
fn make_choices_of(alloc: Global, tree: &Tree) -> Result<Items<Node>, Memory>
    ensures { IfOk result (λ nodes. nodes
        ≡ choice_schemas (made tree.now kinds.Choices)) }
{
    match tree {
        Tree::Array(choices) => {
            let nodes = make_choices(alloc, choices.as_slice())?;
            Ok(nodes)
        }
        Tree::Null | Tree::Bool(_) | Tree::Num(_) | Tree::Str(_) | Tree::Object(_) => {
            Ok(Items::new(alloc))
        }
    }
}

/// The schemas of the choices under the key `choices` of a union.
#[cycle(make)]
pub(crate) fn make_choices_under(alloc: Global, members: &Members) -> Result<Items<Node>, Memory>
    ensures { IfOk result (λ nodes. nodes ≡ choice_schemas
        (or_empty (part_at itself made members.now.members kinds.Choices Key.Choices))) }
{
    for (name, value) in members.as_slice() {
        if Key::Choices.text() == name.as_str() {
            return Ok(make_choices_of(alloc, value)?);
        }
    }
    Ok(Items::new(alloc))
}

/// The schemas of the tagged choices that an object has.
#[cycle(make)]
fn make_tagged(alloc: Global, choices: &Members) -> Result<Items<Node>, Memory>
    ensures { IfOk result (λ nodes. nodes
        ≡ tagged_schemas (named_in itself made kinds.Schema choices.now.members)) }
{
    let mut nodes = Vec::with_capacity(alloc, choices.as_slice().len())?;
    for (_, choice) in choices.as_slice() {
        nodes.push(make_node(alloc, choice)?)?;
    }
    Ok(Items::from_vec(nodes))
}

/// The schemas of the tagged choices that a tree has.
#[cycle(make)]
#[tactic(auto, using(crate::proofs::MakeOpens::tagged_opens))]
fn make_tagged_of(alloc: Global, tree: &Tree) -> Result<Items<Node>, Memory>
    ensures { IfOk result (λ nodes. nodes
        ≡ tagged_schemas (made tree.now kinds.Tagged)) }
{
    match tree {
        Tree::Object(choices) => {
            let nodes = make_tagged(alloc, choices)?;
            Ok(nodes)
        }
        Tree::Null | Tree::Bool(_) | Tree::Num(_) | Tree::Str(_) | Tree::Array(_) => {
            Ok(Items::new(alloc))
        }
    }
}

/// The schemas of the choices under the key `choices` of a tagged union.
#[cycle(make)]
pub(crate) fn make_tagged_under(alloc: Global, members: &Members) -> Result<Items<Node>, Memory>
    ensures { IfOk result (λ nodes. nodes ≡ tagged_schemas
        (or_empty (part_at itself made members.now.members kinds.Tagged Key.Choices))) }
{
    for (name, value) in members.as_slice() {
        if Key::Choices.text() == name.as_str() {
            return Ok(make_tagged_of(alloc, value)?);
        }
    }
    Ok(Items::new(alloc))
}
