//! Values of each kind.

ghost use Rattle.std.specs.Prelude.{◌≡◌, IfOk};
ghost use Rattle.pv_tree.specs.Parts.{items_at};
ghost use Rattle.pv_tree.specs.declared.Tree.{out-Tree};
ghost use Rattle.pv_schema_values.specs.Values as spec;

use crate::aliases::alias_of;
use crate::functions::function_of;
use crate::literals::literals_of;
use crate::members::members_of;
use crate::numbers::{count_of, int_of, positive_of, version_of};
use crate::plain_values::{flag_of, text_of};
use crate::texts::texts_of;
use crate::value_kind::ValueKind;
use crate::words::{extra_behavior_of, is_word, on_error_of, sub_type_of, union_mode_of};
use pv_text::Memory;
use pv_tree::Tree;
use std::alloc::Global;

fn is_false(flag: Option<bool>) -> bool
    ensures { result ≡ spec.is_false flag }
{
    match flag {
        None => false,
        Some(flag) => !flag,
    }
}

fn is_true(flag: Option<bool>) -> bool
    ensures { result ≡ spec.is_true flag }
{
    match flag {
        None => false,
        Some(flag) => flag,
    }
}

fn is_revalidation(tree: &Tree) -> bool
    ensures { result ≡ spec.is_revalidation (spec.text_of tree.now) }
{
    match text_of(tree) {
        None => false,
        Some(text) => match text.as_str() {
            "always" => true,
            "never" => true,
            "subclass-instances" => true,
            _ => false,
        },
    }
}

fn is_empty_list(tree: &Tree) -> bool
    ensures { result ≡ spec.is_empty_list (items_at (out-Tree tree.now)) }
{
    match tree.as_array() {
        None => false,
        Some(items) => items.is_empty(),
    }
}

/// Whether a tree may stand for a value of this kind.
#[tactic(auto, unfolding(crate::specs::Values::is_value))]
pub fn is_value(alloc: Global, kind: ValueKind, tree: &Tree) -> Result<bool, Memory>
    ensures { IfOk result (λ b. b ≡ spec.is_value kind tree.now) }
{
    match kind {
        ValueKind::Anything => Ok(true),
        ValueKind::Text => Ok(text_of(tree).is_some()),
        ValueKind::Flag => Ok(flag_of(tree).is_some()),
        ValueKind::False => Ok(is_false(flag_of(tree))),
        ValueKind::True => Ok(is_true(flag_of(tree))),
        ValueKind::Count => Ok(count_of(tree).is_some()),
        ValueKind::Int => Ok(int_of(tree).is_some()),
        ValueKind::AtLeastOne => Ok(positive_of(tree).is_some()),
        ValueKind::Version => Ok(version_of(tree).is_some()),
        ValueKind::Engine => Ok(is_word("rust-regex", tree)),
        ValueKind::SubType => Ok(sub_type_of(tree).is_some()),
        ValueKind::Texts => Ok(texts_of(alloc, tree)?.is_some()),
        ValueKind::Literals => Ok(literals_of(alloc, tree)?.is_some()),
        ValueKind::Members => Ok(members_of(alloc, tree)?.is_some()),
        ValueKind::ExtraBehavior => Ok(extra_behavior_of(tree).is_some()),
        ValueKind::OnError => Ok(on_error_of(tree).is_some()),
        ValueKind::Revalidation => Ok(is_revalidation(tree)),
        ValueKind::EmptyList => Ok(is_empty_list(tree)),
        ValueKind::Alias => Ok(alias_of(alloc, tree)?.is_some()),
        ValueKind::UnionMode => Ok(union_mode_of(tree).is_some()),
        ValueKind::Function => Ok(function_of(tree).is_some()),
    }
}
