//! Rules of lists of fields, apart from the schemas of the fields.

ghost use Rattle.std.specs.Prelude.{◌≡◌, IfOk};
ghost use Rattle.pv_schema_values.specs.Values as value;
ghost use Rattle.pv_schema_check.specs.Find.{itself, tree_at};
ghost use Rattle.pv_schema.specs.Fields as spec;
ghost use Rattle.pv_schema.specs.Making.{fields_in, made, part_at};
ghost use Rattle.pv_schema.specs.Written.{or_empty, read};
ghost use Rattle.pv_schema_table.specs.declared.Kind.TheVariants as kinds;

use crate::written::{alias_at, extra_behavior_at, flag_at, flag_or, text_at};
use pv_rules::{FieldRule, FieldsKind, FieldsRule};
use pv_schema_check::find;
use pv_schema_table::Key;
use pv_text::{Memory, Text};
use pv_tree::Tree;
use sqlite_items::Items;
use std::alloc::Global;

/// Whether a field has to be given, by its own word and that of the node.
fn is_required(kind: FieldsKind, total: Option<bool>, own: Option<bool>) -> bool
    ensures { result ≡ spec.is_required kind total own }
{
    match kind {
        FieldsKind::Model => true,
        FieldsKind::TypedDict => own.unwrap_or(total.unwrap_or(true)),
    }
}

/// The rule of a field of this name that has these members.
fn field_rule(
    alloc: Global,
    kind: FieldsKind,
    total: Option<bool>,
    name: &Text,
    members: &[(Text, Tree)],
) -> Result<FieldRule, Memory>
    ensures { IfOk result (λ rule. rule
        ≡ spec.field_rule kind total name.now (spec.written_field (tree_at itself members.now))) }
{
    Ok(FieldRule {
        name: name.share(alloc)?,
        validation_alias: alias_at(alloc, members, Key::ValidationAlias)?,
        serialization_alias: text_at(alloc, members, Key::SerializationAlias)?,
        serialization_exclude: flag_or(false, members, Key::SerializationExclude),
        required: is_required(kind, total, flag_at(members, Key::Required)),
    })
}

/// The rule of a field of this name that a tree is.
#[tactic(auto, using(crate::proofs::MakeOpens::field_opens))]
fn rule_of(
    alloc: Global,
    kind: FieldsKind,
    total: Option<bool>,
    name: &Text,
    tree: &Tree,
) -> Result<FieldRule, Memory>
    ensures { IfOk result (λ rule. rule
        ≡ spec.field_rule kind total name.now (made tree.now (kinds.Field kind)).keys) }
{
    match tree.as_object() {
        Some(members) => field_rule(alloc, kind, total, name, members),
        None => field_rule(alloc, kind, total, name, &[]),
    }
}

/// The rules of the fields that an object has.
fn field_rules(
    alloc: Global,
    kind: FieldsKind,
    total: Option<bool>,
    fields: &[(Text, Tree)],
) -> Result<Items<FieldRule>, Memory>
    ensures { IfOk result (λ rules. rules
        ≡ spec.field_rules kind total (fields_in itself made kind fields.now)) }
{
    let mut rules = Vec::with_capacity(alloc, fields.len())?;
    for (name, field) in fields {
        rules.push(rule_of(alloc, kind, total, name, field)?)?;
    }
    Ok(Items::from_vec(rules))
}

/// The rules of the fields that a tree has.
#[tactic(auto, using(crate::proofs::MakeOpens::fields_open))]
fn rules_of(
    alloc: Global,
    kind: FieldsKind,
    total: Option<bool>,
    tree: &Tree,
) -> Result<Items<FieldRule>, Memory>
    ensures { IfOk result (λ rules. rules
        ≡ spec.field_rules kind total (made tree.now (kinds.Fields kind))) }
{
    match tree.as_object() {
        Some(fields) => field_rules(alloc, kind, total, fields),
        None => Ok(Items::new(alloc)),
    }
}

/// The rules of the fields under the key `fields`.
#[tactic(auto, using(crate::proofs::MakeOpens::part_found))]
fn rules_under(
    alloc: Global,
    kind: FieldsKind,
    total: Option<bool>,
    members: &[(Text, Tree)],
) -> Result<Items<FieldRule>, Memory>
    ensures { IfOk result (λ rules. rules ≡ spec.field_rules kind total
        (or_empty (part_at itself made members.now (kinds.Fields kind) Key.Fields))) }
{
    match find(members, Key::Fields) {
        Some(tree) => rules_of(alloc, kind, total, tree),
        None => Ok(Items::new(alloc)),
    }
}

/// The rule of a node with fields of a kind.
pub(crate) fn fields_rule(
    alloc: Global,
    kind: FieldsKind,
    total: Option<bool>,
    members: &[(Text, Tree)],
) -> Result<FieldsRule, Memory>
    ensures { IfOk result (λ rule. rule ≡ spec.fields_rule kind total
        (read value.extra_behavior_of (tree_at itself members.now Key.ExtraBehavior))
        (or_empty (part_at itself made members.now (kinds.Fields kind) Key.Fields))) }
{
    Ok(FieldsRule {
        kind,
        fields: rules_under(alloc, kind, total, members)?,
        extra_behavior: extra_behavior_at(members, Key::ExtraBehavior),
    })
}
