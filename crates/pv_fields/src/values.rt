//! The value of fields and extra keys: a model or a dict.

ghost use Rattle.std.specs.Prelude.{◌≡◌, ◌++◌, map, IfOk, OnOk, IsTrue};
ghost use Rattle.pv_tree.specs.Names.{HasDistinctNames};
ghost use Rattle.pv_tree.specs.declared.Value.TheViews.{out-Value};
ghost use Rattle.pv_equality.specs.Equality.{is_str};
ghost use Rattle.pv_equality.specs.Merging.{AreDistinct, merged_entries};
ghost use Rattle.pv_fields.specs.FieldList as spec;
ghost use Rattle.pv_fields.specs.FieldList.{text_entry};
ghost use Rattle.pv_fields.specs.Planned.{among};

use crate::plan::FieldPlan;
use pv_distinct::merged;
use pv_rules::FieldsKind;
use pv_text::{Memory, Text};
use pv_tree::{Entries, Members, Row, Tree, Value};
use std::alloc::Global;

/// Whether the value is the text of the name.
fn is_name(name: &Text, value: &Value) -> bool
    ensures { result ≡ is_str name.now (out-Value value.now) }
{
    match value {
        Value::Str(text) => name == text,
        _ => false,
    }
}

/// Whether the keys of the entries are some of the members' names, in their order.
fn are_among(members: &[(Text, Tree)], entries: &[(Value, Value)]) -> bool
    ensures { result ≡ among members.now entries.now }
{
    let mut left = entries;
    for (name, _) in members {
        let [entry, more @ ..] = left else {
            return true;
        };
        if is_name(name, &entry.0) {
            left = more;
        }
    }
    left.is_empty()
}

/// Adds values under names as entries.
fn add_entries(entries: &mut Vec<(Value, Value)>, named: Vec<(Text, Value)>) -> Result<(), Memory>
    ensures { OnOk result (entries.new.items ≡ entries.old.items ++ map text_entry named.items) }
{
    for (name, value) in named {
        entries.push((Value::Str(name), value))?;
    }
    Ok(())
}

fn entries_of(
    alloc: Global,
    fields: Vec<(Text, Value)>,
    extra: Vec<(Text, Value)>,
) -> Result<Vec<(Value, Value)>, Memory>
    ensures { IfOk result (λ es. es.items ≡ map text_entry (fields.items ++ extra.items)) }
{
    let mut entries = Vec::with_capacity(alloc, fields.len().saturating_add(extra.len()))?;
    add_entries(&mut entries, fields)?;
    add_entries(&mut entries, extra)?;
    Ok(entries)
}

/// The entries that a dict keeps. Where their keys are some of these names, in their order, it
/// takes one pass.
#[tactic(auto, using(crate::proofs::Among::entries_among))]
fn merged_among(
    alloc: Global,
    names: &Members,
    entries: Vec<(Value, Value)>,
) -> Result<Vec<(Value, Value)>, Memory>
    ensures { IfOk result (λ kept. kept.items ≡ merged_entries entries.items) }
{
    if are_among(names.as_slice(), entries.as_slice()) {
        return Ok(entries);
    }
    merged(alloc, entries)
}

impl FieldPlan {
    /// The value of fields and extra keys.
    pub(crate) fn value_of(
        &self,
        alloc: Global,
        fields: Vec<(Text, Value)>,
        given: Vec<Text>,
        extra: Vec<(Text, Value)>,
    ) -> Result<Value, Memory>
        ensures { IfOk result (λ v. v
            ≡ spec.value_of self.now.0.kind fields.items given.items extra.items) }
    {
        match self.rule.kind {
            FieldsKind::Model => Ok(Value::Model {
                cls: self.blank.cls(alloc)?,
                fields: Row::from_vec(alloc, fields)?,
                set: Row::from_vec(alloc, given)?,
                extra: self.blank.extra(alloc, extra)?,
            }),
            FieldsKind::TypedDict => {
                let entries = entries_of(alloc, fields, extra)?;
                let entries = merged_among(alloc, &self.names, entries)?;
                Ok(Value::Dict(Entries::from_vec(entries)))
            }
        }
    }
}
