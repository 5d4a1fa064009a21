use crate::row::Row;
use pv_number::Lexeme;
use pv_text::{Bytes, Text};
use sqlite_items::{Boxed, Items};

/// The items of a list, a tuple, a set or a frozenset.
pub type Values = Items<Value>;

/// Names, in order. They take one word, so that a value stays small.
pub type Names = Row<Text>;

/// Pairs of a name and a value, in order. They take one word, so that a value stays small.
pub type Named = Row<(Text, Value)>;

/// Pairs of a key and a value, in order.
pub type Entries = Items<(Value, Value)>;

/// What the text of an atom is the text of.
#[derive(Clone, Copy, Debug, PartialEq, Eq)]
pub enum AtomKind {
    Uuid,
    Url,
    Date,
    Time,
    DateTime,
    Decimal,
}

/// A value that validation gives.
#[derive(Drop)]
pub enum Value {
    None,
    Bool(bool),
    Int(i128),
    Lexeme(Lexeme),
    Str(Text),
    Bytes(Bytes),
    Atom {
        kind: AtomKind,
        text: Text,
    },
    Enum {
        cls: Text,
        name: Text,
        value: Boxed<Value>,
    },
    List(Values),
    Tuple(Values),
    Set(Values),
    Frozen(Values),
    Dict(Entries),
    /// The fields in their order, the names of those that were given, and what was there besides.
    Model {
        cls: Text,
        fields: Named,
        set: Names,
        extra: Named,
    },
    Root {
        cls: Text,
        value: Boxed<Value>,
    },
}

const _: () = prove!(size_of::<Value>() == 48);
