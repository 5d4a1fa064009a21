//! Rules by the keys of a node.

ghost use Rattle.std.specs.Prelude.{◌≡◌, IfOk};
ghost use Rattle.pv_schema_values.specs.Values as value;
ghost use Rattle.pv_schema_check.specs.Find.{itself, tree_at};
ghost use Rattle.pv_schema.specs.NodeRules as spec;
ghost use Rattle.pv_schema.specs.Written.{or_empty, read};

use crate::written::{
    count_at, enum_members_at, flag_at, function_at, int_at, positive_at, sub_type_at, text_at,
    texts_at,
};
use pv_rules::{BytesRule, Collection, EnumRule, FuncRule, GatherRule, IntRule, StrRule, UrlRule};
use pv_schema_table::Key;
use pv_text::{Memory, Text};
use pv_tree::Tree;
use std::alloc::Global;

pub(crate) fn int_rule(members: &[(Text, Tree)]) -> IntRule
    ensures { result ≡ spec.int_rule (tree_at itself members.now) }
{
    IntRule {
        multiple_of: positive_at(members, Key::MultipleOf),
        le: int_at(members, Key::Le),
        lt: int_at(members, Key::Lt),
        ge: int_at(members, Key::Ge),
        gt: int_at(members, Key::Gt),
    }
}

pub(crate) fn str_rule(alloc: Global, members: &[(Text, Tree)]) -> Result<StrRule, Memory>
    ensures { IfOk result (λ rule. rule ≡ spec.str_rule (tree_at itself members.now)) }
{
    Ok(StrRule {
        min_length: count_at(members, Key::MinLength),
        max_length: count_at(members, Key::MaxLength),
        pattern: text_at(alloc, members, Key::Pattern)?,
        strip_whitespace: flag_at(members, Key::StripWhitespace),
    })
}

pub(crate) fn bytes_rule(members: &[(Text, Tree)]) -> BytesRule
    ensures { result ≡ spec.bytes_rule (tree_at itself members.now) }
{
    BytesRule {
        min_length: count_at(members, Key::MinLength),
        max_length: count_at(members, Key::MaxLength),
    }
}

pub(crate) fn url_rule(alloc: Global, members: &[(Text, Tree)]) -> Result<UrlRule, Memory>
    ensures { IfOk result (λ rule. rule ≡ spec.url_rule (tree_at itself members.now)) }
{
    Ok(UrlRule {
        max_length: count_at(members, Key::MaxLength),
        allowed_schemes: texts_at(alloc, members, Key::AllowedSchemes)?,
    })
}

/// The text under a key, where one has to stand.
pub(crate) fn required_text(
    alloc: Global,
    members: &[(Text, Tree)],
    key: Key,
) -> Result<Text, Memory>
    ensures { IfOk result (λ text. text
        ≡ or_empty (read value.text_of (tree_at itself members.now key))) }
{
    match text_at(alloc, members, key)? {
        Some(text) => Ok(text),
        None => Text::from_str(alloc, ""),
    }
}

pub(crate) fn enum_rule(alloc: Global, members: &[(Text, Tree)]) -> Result<EnumRule, Memory>
    ensures { IfOk result (λ rule. rule ≡ spec.enum_rule (tree_at itself members.now)) }
{
    Ok(EnumRule {
        cls: required_text(alloc, members, Key::Cls)?,
        members: enum_members_at(alloc, members, Key::Members)?,
        sub_type: sub_type_at(members, Key::SubType),
    })
}

/// The rule of a list, a set, a frozenset or a dict.
pub(crate) fn gather_rule(kind: Collection, members: &[(Text, Tree)]) -> GatherRule
    ensures { result ≡ spec.gather_rule (tree_at itself members.now) kind }
{
    GatherRule {
        kind,
        positions: 0,
        variadic_item_index: None,
        min_length: count_at(members, Key::MinLength),
        max_length: count_at(members, Key::MaxLength),
    }
}

pub(crate) fn tuple_rule(positions: u64, members: &[(Text, Tree)]) -> GatherRule
    ensures { result ≡ spec.tuple_rule (tree_at itself members.now) positions }
{
    GatherRule {
        kind: Collection::Tuple,
        positions,
        variadic_item_index: count_at(members, Key::VariadicItemIndex),
        min_length: count_at(members, Key::MinLength),
        max_length: count_at(members, Key::MaxLength),
    }
}

/// The function that a node names.
pub(crate) fn func_rule(alloc: Global, members: &[(Text, Tree)]) -> Result<FuncRule, Memory>
    ensures { IfOk result (λ rule. rule ≡ spec.func_rule (tree_at itself members.now)) }
{
    match function_at(alloc, members, Key::Function)? {
        Some(function) => Ok(FuncRule { function }),
        None => Ok(FuncRule {
            function: Text::from_str(alloc, "")?,
        }),
    }
}
