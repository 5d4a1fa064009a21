use crate::literal::{EnumMember, Literal};
use pv_text::Text;
use pv_tree::Names;
use sqlite_items::Items;

/// What a node without child schemas asks for: its type and the keys of the type. An absent bound
/// does not bind.
#[derive(Drop)]
pub enum ScalarRule {
    Any,
    None,
    Bool,
    Int(IntRule),
    Str(StrRule),
    Bytes(BytesRule),
    /// The version of the UUID, from 1 to 8, where one is asked for.
    Uuid(Option<u64>),
    Url(UrlRule),
    /// The values of which one is expected.
    Literal(Items<Literal>),
    Enum(EnumRule),
}

/// Bounds of an int. A `multiple_of` is at least 1.
#[derive(Clone, Copy, Debug, PartialEq, Eq)]
pub struct IntRule {
    pub multiple_of: Option<i128>,
    pub le: Option<i128>,
    pub lt: Option<i128>,
    pub ge: Option<i128>,
    pub gt: Option<i128>,
}

/// Tests of a text. Lengths count characters, and a pattern may match anywhere in the text.
#[derive(Drop)]
pub struct StrRule {
    pub min_length: Option<u64>,
    pub max_length: Option<u64>,
    pub pattern: Option<Text>,
    pub strip_whitespace: Option<bool>,
}

/// Bounds of a number of bytes.
#[derive(Clone, Copy, Debug, PartialEq, Eq)]
pub struct BytesRule {
    pub min_length: Option<u64>,
    pub max_length: Option<u64>,
}

/// Tests of a URL. The length counts the characters of the input.
#[derive(Drop)]
pub struct UrlRule {
    pub max_length: Option<u64>,
    pub allowed_schemes: Option<Names>,
}

/// What every value of an enum is.
#[derive(Clone, Copy, Debug, PartialEq, Eq)]
pub enum SubType {
    Int,
    Text,
}

/// The class of an enum and its members, in the order of the schema.
#[derive(Drop)]
pub struct EnumRule {
    pub cls: Text,
    pub members: Items<EnumMember>,
    pub sub_type: Option<SubType>,
}
