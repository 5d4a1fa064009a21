//! Rules of unions and of tagged unions, apart from the schemas of their choices.

ghost use Rattle.std.specs.Prelude.{◌≡◌, IfOk, unwrap_or};
ghost use Rattle.pv_schema_values.specs.Values as value;
ghost use Rattle.pv_tree.specs.Names.{names};
ghost use Rattle.pv_schema_table.specs.declared.Kind.TheVariants as kinds;
ghost use Rattle.pv_schema.specs.Choices as spec;
ghost use Rattle.pv_schema_check.specs.Find.{itself, tree_at};
ghost use Rattle.pv_schema.specs.Making.{choices_in, made, named_in, part_at};
ghost use Rattle.pv_schema.specs.Written.{or_empty, read};

use crate::written::{alias_at, union_mode_at};
use pv_rules::{AliasRule, TagRule, UnionMode, UnionRule};
use pv_schema_check::find;
use pv_schema_table::Key;
use pv_schema_values::text_of;
use pv_text::{Memory, Text};
use pv_tree::{Names, Row, Tree};
use sqlite_items::Items;
use std::alloc::Global;

/// The label that is written for a choice.
#[tactic(auto, using(crate::proofs::MakeOpens::label_opens))]
fn label_of(alloc: Global, choice: &Tree) -> Result<Option<Text>, Memory>
    ensures { IfOk result (λ label. label ≡ (made choice.now kinds.Choice).label) }
{
    match choice.as_array() {
        Some([_schema, label]) => match text_of(label) {
            Some(text) => Ok(Some(text.share(alloc)?)),
            None => Ok(None),
        },
        _ => Ok(None),
    }
}

/// The labels of the choices that a list has.
fn labels_in(alloc: Global, choices: &[Tree]) -> Result<Items<Option<Text>>, Memory>
    ensures { IfOk result (λ labels. labels
        ≡ spec.labels (choices_in itself made choices.now)) }
{
    let mut labels = Vec::with_capacity(alloc, choices.len())?;
    for choice in choices {
        labels.push(label_of(alloc, choice)?)?;
    }
    Ok(Items::from_vec(labels))
}

/// The labels of the choices that a tree has.
#[tactic(auto, using(crate::proofs::MakeOpens::choices_open))]
fn labels_of(alloc: Global, tree: &Tree) -> Result<Items<Option<Text>>, Memory>
    ensures { IfOk result (λ labels. labels ≡ spec.labels (made tree.now kinds.Choices)) }
{
    match tree.as_array() {
        Some(choices) => labels_in(alloc, choices),
        None => Ok(Items::new(alloc)),
    }
}

/// The labels of the choices under the key `choices`.
#[tactic(auto, using(crate::proofs::MakeOpens::part_found))]
fn labels_under(alloc: Global, members: &[(Text, Tree)]) -> Result<Items<Option<Text>>, Memory>
    ensures { IfOk result (λ labels. labels ≡ spec.labels
        (or_empty (part_at itself made members.now kinds.Choices Key.Choices))) }
{
    match find(members, Key::Choices) {
        Some(tree) => labels_of(alloc, tree),
        None => Ok(Items::new(alloc)),
    }
}

/// The rule of a union.
pub(crate) fn union_rule(alloc: Global, members: &[(Text, Tree)]) -> Result<UnionRule, Memory>
    ensures { IfOk result (λ rule. rule ≡ spec.union_rule
        (read value.union_mode_of (tree_at itself members.now Key.Mode))
        (or_empty (part_at itself made members.now kinds.Choices Key.Choices))) }
{
    Ok(UnionRule {
        mode: union_mode_at(members, Key::Mode).unwrap_or(UnionMode::Smart),
        labels: labels_under(alloc, members)?,
    })
}

/// The tags of the choices that an object has.
fn tags_in(alloc: Global, choices: &[(Text, Tree)]) -> Result<Names, Memory>
    ensures { IfOk result (λ tags. tags
        ≡ names (named_in itself made kinds.Schema choices.now)) }
{
    let mut tags = Vec::with_capacity(alloc, choices.len())?;
    for (tag, _) in choices {
        tags.push(tag.share(alloc)?)?;
    }
    Row::from_vec(alloc, tags)
}

/// The tags of the choices that a tree has.
#[tactic(auto, using(crate::proofs::MakeOpens::tagged_opens))]
fn tags_of(alloc: Global, tree: &Tree) -> Result<Names, Memory>
    ensures { IfOk result (λ tags. tags ≡ names (made tree.now kinds.Tagged)) }
{
    match tree.as_object() {
        Some(choices) => tags_in(alloc, choices),
        None => Row::from_vec(alloc, Vec::new(alloc)),
    }
}

/// The tags of the choices under the key `choices`.
#[tactic(auto, using(crate::proofs::MakeOpens::part_found))]
fn tags_under(alloc: Global, members: &[(Text, Tree)]) -> Result<Names, Memory>
    ensures { IfOk result (λ tags. tags ≡ names
        (or_empty (part_at itself made members.now kinds.Tagged Key.Choices))) }
{
    match find(members, Key::Choices) {
        Some(tree) => tags_of(alloc, tree),
        None => Row::from_vec(alloc, Vec::new(alloc)),
    }
}

/// The alias under the key `discriminator`, where it has to stand.
fn discriminator(alloc: Global, members: &[(Text, Tree)]) -> Result<AliasRule, Memory>
    ensures { IfOk result (λ alias. alias ≡ unwrap_or
        (read value.alias_of (tree_at itself members.now Key.Discriminator)) spec.no_alias) }
{
    match alias_at(alloc, members, Key::Discriminator)? {
        Some(alias) => Ok(alias),
        None => Ok(AliasRule {
            paths: Items::new(alloc),
        }),
    }
}

/// The rule of a tagged union.
pub(crate) fn tag_rule(alloc: Global, members: &[(Text, Tree)]) -> Result<TagRule, Memory>
    ensures { IfOk result (λ rule. rule ≡ spec.tag_rule
        (read value.alias_of (tree_at itself members.now Key.Discriminator))
        (or_empty (part_at itself made members.now kinds.Tagged Key.Choices))) }
{
    Ok(TagRule {
        discriminator: discriminator(alloc, members)?,
        tags: tags_under(alloc, members)?,
    })
}
