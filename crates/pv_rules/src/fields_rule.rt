use crate::settings::ExtraBehavior;
use pv_text::Text;
use pv_tree::Loc;
use sqlite_items::Items;

/// The paths at which the value of a field is looked for, in order. There is at least one, and each
/// begins with a name.
#[derive(Drop)]
pub struct AliasRule {
    pub paths: Items<Loc>,
}

/// The kinds of nodes that have a list of fields.
#[derive(Clone, Copy, Debug, PartialEq, Eq)]
pub enum FieldsKind {
    Model,
    TypedDict,
}

/// A field, apart from its schema. A field of a model is always required, unless its schema has a
/// default.
#[derive(Drop)]
pub struct FieldRule {
    pub name: Text,
    pub validation_alias: Option<AliasRule>,
    pub serialization_alias: Option<Text>,
    pub serialization_exclude: bool,
    pub required: bool,
}

/// What a model or a typed dict asks for, apart from the schemas of its fields and of its extra
/// keys. The names of the fields are distinct.
#[derive(Drop)]
pub struct FieldsRule {
    pub kind: FieldsKind,
    pub fields: Items<FieldRule>,
    pub extra_behavior: Option<ExtraBehavior>,
}

/// What is done where the inner schema of a default fails.
#[derive(Clone, Copy, Debug, PartialEq, Eq)]
pub enum OnError {
    /// Its errors stand.
    Raise,
    /// The default is taken.
    Default,
}
