//! What is wrong with a tree as what it is asked to be, up to the first refusal.

ghost use Rattle.std.specs.Prelude.{◌≡◌, Some};
ghost use Rattle.std.specs.List.{flat_map};
ghost use Rattle.pv_tree.specs.Parts.{items_at, members_at};
ghost use Rattle.pv_tree.specs.declared.Step.TheVariants.{Index, Name};
ghost use Rattle.pv_tree.specs.declared.Tree.{out-Tree};
ghost use Rattle.pv_schema_check.specs.Answers.{Answers};
ghost use Rattle.pv_schema_check.specs.Checking as spec;
ghost use Rattle.pv_schema_check.specs.Checking.{faults};
ghost use Rattle.pv_schema_check.specs.Find.{itself, tree_at};
ghost use Rattle.pv_schema_table.specs.Rows.{object_in, types_in};
ghost use Rattle.pv_schema_table.specs.Table as table;

use crate::check_fault::CheckFault;
use crate::fault::{Code, ShapeCode};
use crate::finding::find;
use crate::fits::check_tests;
use crate::missing::check_missing;
use crate::object_type::row_of;
use crate::refusals::{refused, refused_at, under_item, under_key};
use pv_schema_table::{Key, Kind, ObjectRow, TypeRow, config, field_types, kind_under, node_types};
use pv_schema_values::{ValueKind, is_value, text_of};
use pv_text::Text;
use pv_tree::{Members, Tree};
use std::alloc::Global;

/// A value that holds no schema.
fn check_value(alloc: Global, kind: ValueKind, tree: &Tree) -> Result<(), CheckFault>
    ensures { Answers result (spec.value_faults kind tree.now) }
{
    if is_value(alloc, kind, tree)? {
        Ok(())
    } else {
        Err(refused(alloc, Code::Shape(ShapeCode::BadValue)))
    }
}

/// What is left to say of an object whose keys are right.
#[tactic(auto, using(crate::proofs::Rest::rest_splits))]
fn check_rest(alloc: Global, object: ObjectRow, members: &[(Text, Tree)]) -> Result<(), CheckFault>
    ensures { Answers result
        (spec.rest_faults (tree_at itself members.now) (object_in object)) }
{
    check_missing(alloc, object.shared, members)?;
    check_missing(alloc, object.own, members)?;
    check_tests(alloc, object.tests, members)
}

/// What stands under a key, where this may stand there.
#[cycle(check)]
fn check_under(alloc: Global, kind: Option<Kind>, tree: &Tree) -> Result<(), CheckFault>
    ensures { Answers result (spec.faults_under itself faults kind tree.now) }
{
    match kind {
        Some(kind) => check(alloc, kind, tree),
        None => Err(refused(alloc, Code::Shape(ShapeCode::UnknownKey))),
    }
}

#[cycle(check)]
fn check_member(
    alloc: Global,
    object: ObjectRow,
    name: &Text,
    value: &Tree,
) -> Result<(), CheckFault>
    ensures { Answers result
        (spec.member_faults itself faults (object_in object) (name.now, value.now)) }
{
    match check_under(alloc, kind_under(object, name.as_str()), value) {
        Ok(()) => Ok(()),
        Err(fault) => Err(under_key(alloc, fault, name.as_str())),
    }
}

/// The members of an object in the order in which they stand.
#[cycle(check)]
fn check_members(alloc: Global, object: ObjectRow, members: &Members) -> Result<(), CheckFault>
    ensures { Answers result
        (flat_map (spec.member_faults itself faults (object_in object)) members.now.members) }
{
    for (name, value) in members.as_slice() {
        check_member(alloc, object, name, value)?;
    }
    Ok(())
}

/// An object that takes what the row says.
#[cycle(check)]
fn check_object(alloc: Global, object: ObjectRow, members: &Members) -> Result<(), CheckFault>
    ensures { Answers result
        (spec.object_faults itself faults (object_in object) members.now.members) }
{
    check_members(alloc, object, members)?;
    check_rest(alloc, object, members.as_slice())
}

/// An object with these members, of one of these types.
#[cycle(check)]
fn check_row(alloc: Global, rows: &[TypeRow], members: &Members) -> Result<(), CheckFault>
    ensures { Answers result
        (spec.typed_faults itself faults (types_in rows.now) (Some members.now.members)) }
{
    match row_of(rows, members.as_slice()) {
        Ok(row) => check_object(alloc, row.object, members),
        Err(code) => Err(refused_at(alloc, Key::Type, code)),
    }
}

/// A schema with these members.
#[cycle(check)]
fn check_schema(alloc: Global, members: &Members) -> Result<(), CheckFault>
    ensures { Answers result
        (spec.typed_faults itself faults table.node_types (Some members.now.members)) }
{
    check_row(alloc, node_types(), members)
}

/// An object of one of these types.
#[cycle(check)]
fn check_typed(alloc: Global, rows: &[TypeRow], tree: &Tree) -> Result<(), CheckFault>
    ensures { Answers result
        (spec.typed_faults itself faults (types_in rows.now) (members_at (out-Tree tree.now))) }
{
    match tree {
        Tree::Object(members) => check_row(alloc, rows, members),
        Tree::Null | Tree::Bool(_) | Tree::Num(_) | Tree::Str(_) | Tree::Array(_) => {
            Err(refused(alloc, Code::Shape(ShapeCode::NotObject)))
        }
    }
}

/// An object without a type.
#[cycle(check)]
fn check_untyped(alloc: Global, object: ObjectRow, tree: &Tree) -> Result<(), CheckFault>
    ensures { Answers result
        (spec.untyped_faults itself faults (object_in object) (members_at (out-Tree tree.now))) }
{
    match tree {
        Tree::Object(members) => check_object(alloc, object, members),
        Tree::Null | Tree::Bool(_) | Tree::Num(_) | Tree::Str(_) | Tree::Array(_) => {
            Err(refused(alloc, Code::Shape(ShapeCode::NotObject)))
        }
    }
}

/// What stands under a name, as a kind.
#[cycle(check)]
fn check_named(alloc: Global, kind: Kind, name: &Text, value: &Tree) -> Result<(), CheckFault>
    ensures { Answers result (spec.all_under (Name name.now) (faults value.now kind)) }
{
    match check(alloc, kind, value) {
        Ok(()) => Ok(()),
        Err(inside) => Err(under_key(alloc, inside, name.as_str())),
    }
}

/// What stands under each name of an object, as a kind.
#[cycle(check)]
fn check_each(alloc: Global, kind: Kind, members: &Members) -> Result<(), CheckFault>
    ensures { Answers result (spec.each_faults itself faults kind members.now.members) }
{
    for (name, value) in members.as_slice() {
        check_named(alloc, kind, name, value)?;
    }
    Ok(())
}

/// An object under whose names stands what is of a kind.
#[cycle(check)]
fn check_names(alloc: Global, kind: Kind, tree: &Tree) -> Result<(), CheckFault>
    ensures { Answers result
        (spec.named_faults itself faults kind (members_at (out-Tree tree.now))) }
{
    match tree {
        Tree::Object(members) => check_each(alloc, kind, members),
        Tree::Null | Tree::Bool(_) | Tree::Num(_) | Tree::Str(_) | Tree::Array(_) => {
            Err(refused(alloc, Code::Shape(ShapeCode::BadValue)))
        }
    }
}

#[cycle(check)]
fn check_item(alloc: Global, kind: Kind, place: u64, item: &Tree) -> Result<(), CheckFault>
    ensures { Answers result (spec.all_under (Index place) (faults item.now kind)) }
{
    match check(alloc, kind, item) {
        Ok(()) => Ok(()),
        Err(fault) => Err(under_item(fault, place)),
    }
}

#[cycle(check)]
fn check_items(alloc: Global, kind: Kind, items: &[Tree]) -> Result<(), CheckFault>
    ensures { Answers result (spec.item_faults itself faults kind 0 items.now) }
{
    for (place, item) in items.iter().enumerate() {
        check_item(alloc, kind, place as u64, item)?;
    }
    Ok(())
}

/// A list of items of a kind.
#[cycle(check)]
fn check_list(alloc: Global, kind: Kind, tree: &Tree) -> Result<(), CheckFault>
    ensures { Answers result
        (spec.list_faults itself faults kind (items_at (out-Tree tree.now))) }
{
    match tree {
        Tree::Array(items) => check_items(alloc, kind, items.as_slice()),
        Tree::Null | Tree::Bool(_) | Tree::Num(_) | Tree::Str(_) | Tree::Object(_) => {
            Err(refused(alloc, Code::Shape(ShapeCode::BadValue)))
        }
    }
}

/// That a list has items.
fn check_some_items(alloc: Global, tree: &Tree) -> Result<(), CheckFault>
    ensures { Answers result (spec.nothing_faults (items_at (out-Tree tree.now))) }
{
    match tree.as_array() {
        None => Ok(()),
        Some([]) => Err(refused(alloc, Code::Shape(ShapeCode::BadValue))),
        Some([_first, ..]) => Ok(()),
    }
}

/// That an object has members.
fn check_some_members(alloc: Global, tree: &Tree) -> Result<(), CheckFault>
    ensures { Answers result (spec.nothing_faults (members_at (out-Tree tree.now))) }
{
    match tree.as_object() {
        None => Ok(()),
        Some([]) => Err(refused(alloc, Code::Shape(ShapeCode::BadValue))),
        Some([_first, ..]) => Ok(()),
    }
}

/// A schema with a label.
#[cycle(check)]
fn check_labelled(alloc: Global, schema: &Tree, label: &Tree) -> Result<(), CheckFault>
    ensures { Answers result (spec.labelled_faults itself faults schema.now label.now) }
{
    if text_of(label).is_some() {
        check_item(alloc, Kind::Schema, 0, schema)
    } else {
        Err(refused(alloc, Code::Shape(ShapeCode::BadValue)))
    }
}

/// A list of a schema and its label.
#[cycle(check)]
fn check_pair(alloc: Global, items: &[Tree]) -> Result<(), CheckFault>
    ensures { Answers result (spec.pair_faults itself faults items.now) }
{
    match items {
        [schema, label] => check_labelled(alloc, schema, label),
        _ => Err(refused(alloc, Code::Shape(ShapeCode::BadValue))),
    }
}

/// A choice of a union.
#[cycle(check)]
fn check_choice(alloc: Global, tree: &Tree) -> Result<(), CheckFault>
    ensures { Answers result (spec.choice_faults itself faults (out-Tree tree.now)) }
{
    match tree {
        Tree::Object(members) => check_schema(alloc, members),
        Tree::Array(items) => check_pair(alloc, items.as_slice()),
        Tree::Null | Tree::Bool(_) | Tree::Num(_) | Tree::Str(_) => {
            Err(refused(alloc, Code::Shape(ShapeCode::BadValue)))
        }
    }
}

/// The choices of a union.
#[cycle(check)]
fn check_choices(alloc: Global, tree: &Tree) -> Result<(), CheckFault>
    ensures { Answers result
        (spec.choices_faults itself faults (items_at (out-Tree tree.now))) }
{
    check_some_items(alloc, tree)?;
    check_list(alloc, Kind::Choice, tree)
}

/// The choices of a tagged union.
#[cycle(check)]
fn check_tagged(alloc: Global, tree: &Tree) -> Result<(), CheckFault>
    ensures { Answers result
        (spec.tagged_faults itself faults (members_at (out-Tree tree.now))) }
{
    check_some_members(alloc, tree)?;
    check_names(alloc, Kind::Schema, tree)
}

/// That a schema has a name.
fn check_name(alloc: Global, members: &[(Text, Tree)]) -> Result<(), CheckFault>
    ensures { Answers result (spec.unnamed_faults (tree_at itself members.now Key.Ref)) }
{
    match find(members, Key::Ref) {
        Some(_name) => Ok(()),
        None => Err(refused_at(alloc, Key::Ref, Code::Shape(ShapeCode::MissingKey))),
    }
}

/// A schema with these members, which has to have a name.
#[cycle(check)]
fn check_named_schema(alloc: Global, members: &Members) -> Result<(), CheckFault>
    ensures { Answers result
        (spec.definition_faults itself faults (Some members.now.members)) }
{
    check_schema(alloc, members)?;
    check_name(alloc, members.as_slice())
}

/// A schema in a list of definitions.
#[cycle(check)]
fn check_definition(alloc: Global, tree: &Tree) -> Result<(), CheckFault>
    ensures { Answers result
        (spec.definition_faults itself faults (members_at (out-Tree tree.now))) }
{
    match tree {
        Tree::Object(members) => check_named_schema(alloc, members),
        Tree::Null | Tree::Bool(_) | Tree::Num(_) | Tree::Str(_) | Tree::Array(_) => {
            Err(refused(alloc, Code::Shape(ShapeCode::NotObject)))
        }
    }
}

/// The first of all that is wrong with a tree as a kind.
#[cycle(check)]
#[tactic(auto, using(crate::proofs::CheckOpens::faults_open))]
pub fn check(alloc: Global, kind: Kind, tree: &Tree) -> Result<(), CheckFault>
    ensures { Answers result (faults tree.now kind) }
{
    match kind {
        Kind::Value(kind) => check_value(alloc, kind, tree),
        Kind::Schema => check_typed(alloc, node_types(), tree),
        Kind::Schemas => check_list(alloc, Kind::Schema, tree),
        Kind::Choices => check_choices(alloc, tree),
        Kind::Choice => check_choice(alloc, tree),
        Kind::Tagged => check_tagged(alloc, tree),
        Kind::Fields(kind) => check_names(alloc, Kind::Field(kind), tree),
        Kind::Field(kind) => check_typed(alloc, field_types(kind), tree),
        Kind::Definitions => check_list(alloc, Kind::Definition, tree),
        Kind::Definition => check_definition(alloc, tree),
        Kind::Config => check_untyped(alloc, config(), tree),
        Kind::NotBuilt => Err(refused(alloc, Code::NotYet)),
    }
}
