//! Single values under the keys of a node.

ghost use Rattle.std.specs.Prelude.{◌≡◌, IfOk, unwrap_or};
ghost use Rattle.pv_schema_values.specs.Values as value;
ghost use Rattle.pv_schema_check.specs.Find.{itself, tree_at};
ghost use Rattle.pv_schema.specs.Written as spec;
ghost use Rattle.pv_schema.specs.Written.{or_empty, read};

use pv_rules::{AliasRule, EnumMember, ExtraBehavior, Literal, OnError, SubType, UnionMode};
use pv_schema_check::find;
use pv_schema_table::Key;
use pv_schema_values::{
    alias_of, count_of, extra_behavior_of, flag_of, function_of, int_of, literals_of, members_of,
    on_error_of, positive_of, sub_type_of, text_of, texts_of, union_mode_of, version_of,
};
use pv_text::{Memory, Text};
use pv_tree::{Names, Tree};
use sqlite_items::Items;
use std::alloc::Global;

pub(crate) fn flag_at(members: &[(Text, Tree)], key: Key) -> Option<bool>
    ensures { result ≡ read value.flag_of (tree_at itself members.now key) }
{
    match find(members, key) {
        Some(tree) => flag_of(tree),
        None => None,
    }
}

/// A flag, or another one where none is written.
pub(crate) fn flag_or(other: bool, members: &[(Text, Tree)], key: Key) -> bool
    ensures { result ≡ spec.flag_or other (tree_at itself members.now key) }
{
    flag_at(members, key).unwrap_or(other)
}

/// The default of a node, where it has to stand.
pub(crate) fn default_at(alloc: Global, members: &[(Text, Tree)]) -> Result<Tree, Memory>
    ensures { IfOk result (λ tree. tree ≡ spec.or_null (tree_at itself members.now Key.Default)) }
{
    match find(members, Key::Default) {
        Some(tree) => tree.share(alloc),
        None => Ok(Tree::Null),
    }
}

/// What is done where the inner schema of a default fails.
pub(crate) fn on_error_at(members: &[(Text, Tree)]) -> OnError
    ensures { result ≡ unwrap_or
        (read value.on_error_of (tree_at itself members.now Key.OnError)) OnError.Raise }
{
    match find(members, Key::OnError) {
        Some(tree) => on_error_of(tree).unwrap_or(OnError::Raise),
        None => OnError::Raise,
    }
}

pub(crate) fn extra_behavior_at(members: &[(Text, Tree)], key: Key) -> Option<ExtraBehavior>
    ensures { result ≡ read value.extra_behavior_of (tree_at itself members.now key) }
{
    match find(members, key) {
        Some(tree) => extra_behavior_of(tree),
        None => None,
    }
}

pub(crate) fn alias_at(
    alloc: Global,
    members: &[(Text, Tree)],
    key: Key,
) -> Result<Option<AliasRule>, Memory>
    ensures { IfOk result (λ found. found ≡ read value.alias_of (tree_at itself members.now key)) }
{
    match find(members, key) {
        Some(tree) => alias_of(alloc, tree),
        None => Ok(None),
    }
}

pub(crate) fn int_at(members: &[(Text, Tree)], key: Key) -> Option<i128>
    ensures { result ≡ read value.int_of (tree_at itself members.now key) }
{
    match find(members, key) {
        Some(tree) => int_of(tree),
        None => None,
    }
}

pub(crate) fn positive_at(members: &[(Text, Tree)], key: Key) -> Option<i128>
    ensures { result ≡ read value.positive_of (tree_at itself members.now key) }
{
    match find(members, key) {
        Some(tree) => positive_of(tree),
        None => None,
    }
}

pub(crate) fn count_at(members: &[(Text, Tree)], key: Key) -> Option<u64>
    ensures { result ≡ read value.count_of (tree_at itself members.now key) }
{
    match find(members, key) {
        Some(tree) => count_of(tree),
        None => None,
    }
}

pub(crate) fn version_at(members: &[(Text, Tree)], key: Key) -> Option<u64>
    ensures { result ≡ read value.version_of (tree_at itself members.now key) }
{
    match find(members, key) {
        Some(tree) => version_of(tree),
        None => None,
    }
}

pub(crate) fn sub_type_at(members: &[(Text, Tree)], key: Key) -> Option<SubType>
    ensures { result ≡ read value.sub_type_of (tree_at itself members.now key) }
{
    match find(members, key) {
        Some(tree) => sub_type_of(tree),
        None => None,
    }
}

pub(crate) fn text_at(
    alloc: Global,
    members: &[(Text, Tree)],
    key: Key,
) -> Result<Option<Text>, Memory>
    ensures { IfOk result (λ found. found ≡ read value.text_of (tree_at itself members.now key)) }
{
    match find(members, key) {
        Some(tree) => match text_of(tree) {
            Some(text) => Ok(Some(text.share(alloc)?)),
            None => Ok(None),
        },
        None => Ok(None),
    }
}

/// The name of a function under a key.
pub(crate) fn function_at(
    alloc: Global,
    members: &[(Text, Tree)],
    key: Key,
) -> Result<Option<Text>, Memory>
    ensures { IfOk result (λ found. found
        ≡ read value.function_of (tree_at itself members.now key)) }
{
    match find(members, key) {
        Some(tree) => match function_of(tree) {
            Some(name) => Ok(Some(name.share(alloc)?)),
            None => Ok(None),
        },
        None => Ok(None),
    }
}

pub(crate) fn union_mode_at(members: &[(Text, Tree)], key: Key) -> Option<UnionMode>
    ensures { result ≡ read value.union_mode_of (tree_at itself members.now key) }
{
    match find(members, key) {
        Some(tree) => union_mode_of(tree),
        None => None,
    }
}

pub(crate) fn texts_at(
    alloc: Global,
    members: &[(Text, Tree)],
    key: Key,
) -> Result<Option<Names>, Memory>
    ensures { IfOk result (λ found. found ≡ read value.texts_of (tree_at itself members.now key)) }
{
    match find(members, key) {
        Some(tree) => texts_of(alloc, tree),
        None => Ok(None),
    }
}

pub(crate) fn literals_at(
    alloc: Global,
    members: &[(Text, Tree)],
    key: Key,
) -> Result<Items<Literal>, Memory>
    ensures { IfOk result (λ found. found
        ≡ or_empty (read value.literals_of (tree_at itself members.now key))) }
{
    let Some(tree) = find(members, key) else {
        return Ok(Items::new(alloc));
    };
    match literals_of(alloc, tree)? {
        Some(literals) => Ok(literals),
        None => Ok(Items::new(alloc)),
    }
}

pub(crate) fn enum_members_at(
    alloc: Global,
    members: &[(Text, Tree)],
    key: Key,
) -> Result<Items<EnumMember>, Memory>
    ensures { IfOk result (λ found. found
        ≡ or_empty (read value.members_of (tree_at itself members.now key))) }
{
    let Some(tree) = find(members, key) else {
        return Ok(Items::new(alloc));
    };
    match members_of(alloc, tree)? {
        Some(values) => Ok(values),
        None => Ok(Items::new(alloc)),
    }
}
