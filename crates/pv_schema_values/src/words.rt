//! What words stand for.

ghost use Rattle.std.specs.Prelude.{◌≡◌};
ghost use Rattle.pv_schema_values.specs.Values as spec;

use crate::plain_values::text_of;
use pv_rules::{ExtraBehavior, OnError, SubType, UnionMode};
use pv_tree::Tree;

/// Whether a tree is this text.
pub(crate) fn is_word(word: &str, tree: &Tree) -> bool
    ensures { result ≡ spec.is_word word.now (spec.text_of tree.now) }
{
    match text_of(tree) {
        None => false,
        Some(text) => text.as_str() == word,
    }
}

/// `int` or `str`.
#[tactic(auto, unfolding(crate::specs::Values::sub_type_of))]
pub fn sub_type_of(tree: &Tree) -> Option<SubType>
    ensures { result ≡ spec.sub_type_of tree.now }
{
    match text_of(tree) {
        None => None,
        Some(text) => match text.as_str() {
            "int" => Some(SubType::Int),
            "str" => Some(SubType::Text),
            _ => None,
        },
    }
}

/// `ignore`, `allow` or `forbid`.
#[tactic(auto, unfolding(crate::specs::Values::extra_behavior_of))]
pub fn extra_behavior_of(tree: &Tree) -> Option<ExtraBehavior>
    ensures { result ≡ spec.extra_behavior_of tree.now }
{
    match text_of(tree) {
        None => None,
        Some(text) => match text.as_str() {
            "ignore" => Some(ExtraBehavior::Ignore),
            "allow" => Some(ExtraBehavior::Allow),
            "forbid" => Some(ExtraBehavior::Forbid),
            _ => None,
        },
    }
}

/// `raise` or `default`.
#[tactic(auto, unfolding(crate::specs::Values::on_error_of))]
pub fn on_error_of(tree: &Tree) -> Option<OnError>
    ensures { result ≡ spec.on_error_of tree.now }
{
    match text_of(tree) {
        None => None,
        Some(text) => match text.as_str() {
            "raise" => Some(OnError::Raise),
            "default" => Some(OnError::Default),
            _ => None,
        },
    }
}

/// `smart` or `left_to_right`.
#[tactic(auto, unfolding(crate::specs::Values::union_mode_of))]
pub fn union_mode_of(tree: &Tree) -> Option<UnionMode>
    ensures { result ≡ spec.union_mode_of tree.now }
{
    match text_of(tree) {
        None => None,
        Some(text) => match text.as_str() {
            "smart" => Some(UnionMode::Smart),
            "left_to_right" => Some(UnionMode::LeftToRight),
            _ => None,
        },
    }
}
