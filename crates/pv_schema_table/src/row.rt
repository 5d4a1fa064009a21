//! What a row of the table says.

use crate::key::Key;
use crate::kind::Kind;
use crate::node_type::NodeType;

/// A key: what may stand under it, whether it has to be there, and whether it has an effect.
#[derive(Clone, Copy, Debug, PartialEq, Eq)]
pub struct KeyRow {
    pub key: Key,
    pub kind: Kind,
    pub required: bool,
    pub effect: bool,
}

/// How two values have to fit.
#[derive(Clone, Copy, Debug, PartialEq, Eq)]
pub enum Fit {
    /// A place lies in a list.
    PlaceInList,
    /// The values of members are of a sub type.
    OfSubType,
    /// Of two flags not both are false.
    NotBothFalse,
}

/// What the value under a key has to fit, where both are there. The first key is refused.
#[derive(Clone, Copy, Debug, PartialEq, Eq)]
pub struct Test {
    pub key: Key,
    pub other: Key,
    pub fit: Fit,
}

/// What an object takes: keys that it shares with others, keys of its own, and the tests that come
/// after all keys.
#[derive(Clone, Copy)]
pub struct ObjectRow {
    pub shared: &'static [KeyRow],
    pub own: &'static [KeyRow],
    pub tests: &'static [Test],
}

/// What is made of an object of a type.
#[derive(Clone, Copy, Debug, PartialEq, Eq)]
pub enum Makes {
    /// The type is not built yet.
    NotBuilt,
    Node(NodeType),
    Field,
}

/// A type by its name.
#[derive(Clone, Copy)]
pub struct TypeRow {
    pub name: &'static str,
    pub makes: Makes,
    pub object: ObjectRow,
}
