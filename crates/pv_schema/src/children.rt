//! The schemas that stand inside an object, under its keys.

ghost use Rattle.std.specs.Prelude.{◌≡◌, IfOk};
ghost use Rattle.pv_node.specs.Absent.{or_any};
ghost use Rattle.pv_schema.specs.Fields.{field_schemas};
ghost use Rattle.pv_schema_check.specs.Find.{itself};
ghost use Rattle.pv_schema.specs.Making.{fields_in, made, part_at};
ghost use Rattle.pv_schema.specs.Written.{or_empty};
ghost use Rattle.pv_schema_table.specs.declared.Kind.TheVariants as kinds;

use crate::making::{make_node, make_nodes};
use pv_node::{Node, any_node};
use pv_rules::FieldsKind;
use pv_schema_table::Key;
use pv_text::Memory;
use pv_tree::{Members, Tree};
use sqlite_items::{Boxed, Items};
use std::alloc::Global;

/// The schema under a key.
#[cycle(make)]
pub(crate) fn make_child(
    alloc: Global,
    members: &Members,
    key: Key,
) -> Result<Option<Boxed<Node>>, Memory>
    ensures { IfOk result (λ node. node
        ≡ part_at itself made members.now.members kinds.Schema key) }
{
    for (name, value) in members.as_slice() {
        if key.text() == name.as_str() {
            return Ok(Some(Boxed::new(alloc, make_node(alloc, value)?)?));
        }
    }
    Ok(None)
}

/// The list of schemas under a key.
#[cycle(make)]
pub(crate) fn make_children(
    alloc: Global,
    members: &Members,
    key: Key,
) -> Result<Items<Node>, Memory>
    ensures { IfOk result (λ nodes. nodes
        ≡ or_empty (part_at itself made members.now.members kinds.Schemas key)) }
{
    for (name, value) in members.as_slice() {
        if key.text() == name.as_str() {
            return Ok(make_nodes(alloc, value)?);
        }
    }
    Ok(Items::new(alloc))
}

/// The definitions under the key `definitions`. Each is made as any schema is.
#[cycle(make)]
#[tactic(auto, using(crate::proofs::MakeOpens::definitions_made))]
pub(crate) fn make_definitions_under(
    alloc: Global,
    members: &Members,
) -> Result<Items<Node>, Memory>
    ensures { IfOk result (λ nodes. nodes
        ≡ or_empty (part_at itself made members.now.members kinds.Definitions Key.Definitions)) }
{
    let nodes = make_children(alloc, members, Key::Definitions)?;
    Ok(nodes)
}

/// The schema under a key, where it has to stand.
#[cycle(make)]
pub(crate) fn make_required(alloc: Global, members: &Members, key: Key) -> Result<Node, Memory>
    ensures { IfOk result (λ node. node
        ≡ or_any (part_at itself made members.now.members kinds.Schema key)) }
{
    for (name, value) in members.as_slice() {
        if key.text() == name.as_str() {
            return Ok(make_node(alloc, value)?);
        }
    }
    Ok(any_node())
}

/// The schema of a field.
#[cycle(make)]
fn make_field_schema(alloc: Global, kind: FieldsKind, tree: &Tree) -> Result<Node, Memory>
    ensures { IfOk result (λ node. node ≡ (made tree.now (kinds.Field kind)).schema) }
{
    match tree {
        Tree::Object(members) => {
            let schema = make_required(alloc, members, Key::Schema)?;
            Ok(schema)
        }
        Tree::Null | Tree::Bool(_) | Tree::Num(_) | Tree::Str(_) | Tree::Array(_) => {
            Ok(any_node())
        }
    }
}

/// The schemas of the fields that an object has.
#[cycle(make)]
fn make_field_schemas(
    alloc: Global,
    kind: FieldsKind,
    fields: &Members,
) -> Result<Items<Node>, Memory>
    ensures { IfOk result (λ nodes. nodes
        ≡ field_schemas (fields_in itself made kind fields.now.members)) }
{
    let mut nodes = Vec::with_capacity(alloc, fields.as_slice().len())?;
    for (_, field) in fields.as_slice() {
        nodes.push(make_field_schema(alloc, kind, field)?)?;
    }
    Ok(Items::from_vec(nodes))
}

/// The schemas of the fields that a tree has.
#[cycle(make)]
#[tactic(auto, using(crate::proofs::MakeOpens::schemas_open))]
fn make_fields_of(alloc: Global, kind: FieldsKind, tree: &Tree) -> Result<Items<Node>, Memory>
    ensures { IfOk result (λ nodes. nodes
        ≡ field_schemas (made tree.now (kinds.Fields kind))) }
{
    match tree {
        Tree::Object(fields) => {
            let schemas = make_field_schemas(alloc, kind, fields)?;
            Ok(schemas)
        }
        Tree::Null | Tree::Bool(_) | Tree::Num(_) | Tree::Str(_) | Tree::Array(_) => {
            Ok(Items::new(alloc))
        }
    }
}

/// The schemas of the fields under the key `fields`.
#[cycle(make)]
pub(crate) fn make_fields_under(
    alloc: Global,
    kind: FieldsKind,
    members: &Members,
) -> Result<Items<Node>, Memory>
    ensures { IfOk result (λ nodes. nodes ≡ field_schemas
        (or_empty (part_at itself made members.now.members (kinds.Fields kind) Key.Fields))) }
{
    for (name, value) in members.as_slice() {
        if Key::Fields.text() == name.as_str() {
            return Ok(make_fields_of(alloc, kind, value)?);
        }
    }
    Ok(Items::new(alloc))
}
