//! What the nodes of a schema ask for, apart from their child schemas: rules and settings.
#![tactic(auto)]

mod copying;
mod fields_rule;
mod func_rule;
mod gather_rule;
mod literal;
mod scalar_rule;
mod settings;
mod union_rule;

pub use copying::{copy_literals, copy_members, copy_names};
pub use fields_rule::{AliasRule, FieldRule, FieldsKind, FieldsRule, OnError};
pub use func_rule::FuncRule;
pub use gather_rule::{Collection, GatherRule};
pub use literal::{EnumMember, Literal};
pub use scalar_rule::{BytesRule, EnumRule, IntRule, ScalarRule, StrRule, SubType, UrlRule};
pub use settings::{ExtraBehavior, Settings};
pub use union_rule::{TagRule, UnionMode, UnionRule};
