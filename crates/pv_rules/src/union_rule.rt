use crate::fields_rule::AliasRule;
use pv_text::Text;
use pv_tree::Names;
use sqlite_items::Items;

/// How a union takes one of its choices.
#[derive(Clone, Copy, Debug, PartialEq, Eq)]
pub enum UnionMode {
    /// The best of those that succeed.
    Smart,
    /// The first that succeeds.
    LeftToRight,
}

/// What a union asks for, apart from its choices: how it takes one, and for each choice, in order,
/// the label that is written for it.
#[derive(Drop)]
pub struct UnionRule {
    pub mode: UnionMode,
    pub labels: Items<Option<Text>>,
}

/// What a tagged union asks for, apart from its choices: where the tag of an input stands, and the
/// tags of the choices, in order and distinct.
#[derive(Drop)]
pub struct TagRule {
    pub discriminator: AliasRule,
    pub tags: Names,
}
