//! Texts, bytes, numbers, trees and values, written as text. Tables are texts too, a row a line: a
//! proof does not look into them.

use pv_json::read;
use pv_notation::{write_loc, write_tree, write_value};
use pv_number::Lexeme;
use pv_text::{ByteBuf, Bytes, Text};
use pv_tree::{AtomKind, Entries, Loc, Named, Names, Row, Tree, Value, Values, plain_value};
use sqlite_items::{Boxed, Items};
use std::alloc::Global;
use std::process::Abort;

pub(crate) fn text(rt: &impl Abort, alloc: Global, s: &str) -> Text {
    Text::from_str(alloc, s).expect(rt, "memory")
}

/// What stands before and behind the first space of a row.
pub(crate) fn cut<'a>(rt: &impl Abort, row: &'a str) -> (&'a str, &'a str) {
    row.split_once(' ').expect(rt, "a space")
}

/// The bytes of a text in which `%` and two digits stand for a byte.
pub(crate) fn bytes_of(rt: &impl Abort, alloc: Global, s: &str) -> ByteBuf {
    let mut out = ByteBuf::new(alloc);
    let mut parts = s.split('%');
    if let Some(first) = parts.next() {
        out.push_slice(first.as_bytes()).expect(rt, "memory");
    }
    for part in parts {
        let (digits, rest) = part.as_bytes().split_at_checked(2).expect(rt, "two digits");
        let byte = hex::decode(alloc, digits).expect(rt, "two digits");
        out.push_slice(&byte).expect(rt, "memory");
        out.push_slice(rest).expect(rt, "memory");
    }
    out
}

pub(crate) fn lexeme(rt: &impl Abort, alloc: Global, spelling: &[u8]) -> Lexeme {
    Lexeme::from_slice(alloc, spelling).expect(rt, "a number")
}

/// The tree of a JSON document.
pub(crate) fn tree(rt: &impl Abort, alloc: Global, json: &str) -> Tree {
    read(alloc, json.as_bytes()).expect(rt, "a document")
}

/// The compact JSON of a tree.
pub(crate) fn compact(rt: &impl Abort, alloc: Global, tree: &Tree) -> ByteBuf {
    let mut out = ByteBuf::new(alloc);
    write_tree(tree, &mut out).expect(rt, "memory");
    out
}

pub(crate) fn location(rt: &impl Abort, alloc: Global, loc: &Loc) -> ByteBuf {
    let mut out = ByteBuf::new(alloc);
    write_loc(loc, &mut out).expect(rt, "memory");
    out
}

/// The notation of a value.
pub(crate) fn notation(rt: &impl Abort, alloc: Global, value: &Value) -> ByteBuf {
    let mut out = ByteBuf::new(alloc);
    write_value(value, &mut out).expect(rt, "memory");
    out
}

/// The value of a notation.
pub(crate) fn value(rt: &impl Abort, alloc: Global, notation: &str) -> Value {
    value_of(rt, alloc, &tree(rt, alloc, notation))
}

/// The values of a list's notation.
pub(crate) fn values_of(rt: &impl Abort, alloc: Global, notation: &str) -> Vec<Value> {
    let list = tree(rt, alloc, notation);
    let mut all = Vec::new(alloc);
    for part in list.as_array().expect(rt, "a list") {
        all.push(value_of(rt, alloc, part)).expect(rt, "memory");
    }
    all
}

/// The entries of the notation of a list of pairs.
pub(crate) fn entries_of(rt: &impl Abort, alloc: Global, notation: &str) -> Vec<(Value, Value)> {
    let list = tree(rt, alloc, notation);
    let mut all = Vec::new(alloc);
    for pair in list.as_array().expect(rt, "a list") {
        if let Some([key, value]) = pair.as_array() {
            all.push((value_of(rt, alloc, key), value_of(rt, alloc, value)))
                .expect(rt, "memory");
        }
    }
    all
}

#[cycle(value)]
fn value_of(rt: &impl Abort, alloc: Global, tree: &Tree) -> Value {
    match tree {
        Tree::Array(items) => Value::List(values(rt, alloc, items.as_slice())),
        Tree::Object(members) => match members.as_slice() {
            [(kind, Tree::Str(part))] => of_text(rt, alloc, kind.as_str(), part.as_str()),
            [(kind, Tree::Array(parts))] => of_parts(rt, alloc, kind.as_str(), parts.as_slice()),
            _ => Value::None,
        },
        _ => plain_value(alloc, tree).expect(rt, "memory"),
    }
}

fn of_text(rt: &impl Abort, alloc: Global, kind: &str, part: &str) -> Value {
    match kind {
        "number" => Value::Lexeme(lexeme(rt, alloc, part.as_bytes())),
        "bytes" => Value::Bytes(bytes(rt, alloc, part)),
        "uuid" => atom(rt, alloc, AtomKind::Uuid, part),
        "url" => atom(rt, alloc, AtomKind::Url, part),
        "date" => atom(rt, alloc, AtomKind::Date, part),
        "time" => atom(rt, alloc, AtomKind::Time, part),
        "datetime" => atom(rt, alloc, AtomKind::DateTime, part),
        "decimal" => atom(rt, alloc, AtomKind::Decimal, part),
        _ => Value::None,
    }
}

fn bytes(rt: &impl Abort, alloc: Global, digits: &str) -> Bytes {
    Bytes::from_vec(hex::decode(alloc, digits).expect(rt, "digits"))
}

fn atom(rt: &impl Abort, alloc: Global, kind: AtomKind, s: &str) -> Value {
    Value::Atom {
        kind,
        text: text(rt, alloc, s),
    }
}

#[cycle(value)]
fn of_parts(rt: &impl Abort, alloc: Global, kind: &str, parts: &[Tree]) -> Value {
    match kind {
        "tuple" => Value::Tuple(values(rt, alloc, parts)),
        "set" => Value::Set(values(rt, alloc, parts)),
        "frozenset" => Value::Frozen(values(rt, alloc, parts)),
        "dict" => Value::Dict(entries(rt, alloc, parts)),
        "enum" => member(rt, alloc, parts),
        "model" => model(rt, alloc, parts),
        "root" => root(rt, alloc, parts),
        _ => Value::None,
    }
}

#[cycle(value)]
fn values(rt: &impl Abort, alloc: Global, parts: &[Tree]) -> Values {
    let mut all = Items::new(alloc);
    for part in parts {
        all.push(value_of(rt, alloc, part)).expect(rt, "memory");
    }
    all
}

#[cycle(value)]
fn entries(rt: &impl Abort, alloc: Global, pairs: &[Tree]) -> Entries {
    let mut all = Items::new(alloc);
    for pair in pairs {
        if let Tree::Array(parts) = pair
            && let [key, value] = parts.as_slice()
        {
            all.push((value_of(rt, alloc, key), value_of(rt, alloc, value)))
                .expect(rt, "memory");
        }
    }
    all
}

#[cycle(value)]
fn member(rt: &impl Abort, alloc: Global, parts: &[Tree]) -> Value {
    match parts {
        [Tree::Str(cls), Tree::Str(name), value] => Value::Enum {
            cls: text(rt, alloc, cls.as_str()),
            name: text(rt, alloc, name.as_str()),
            value: Boxed::new(alloc, value_of(rt, alloc, value)).expect(rt, "memory"),
        },
        _ => Value::None,
    }
}

#[cycle(value)]
fn root(rt: &impl Abort, alloc: Global, parts: &[Tree]) -> Value {
    match parts {
        [Tree::Str(cls), value] => Value::Root {
            cls: text(rt, alloc, cls.as_str()),
            value: Boxed::new(alloc, value_of(rt, alloc, value)).expect(rt, "memory"),
        },
        _ => Value::None,
    }
}

#[cycle(value)]
fn model(rt: &impl Abort, alloc: Global, parts: &[Tree]) -> Value {
    match parts {
        [
            Tree::Str(cls),
            Tree::Array(fields),
            Tree::Array(set),
            Tree::Array(extra),
        ] => Value::Model {
            cls: text(rt, alloc, cls.as_str()),
            fields: named(rt, alloc, fields.as_slice()),
            set: names(rt, alloc, set.as_slice()),
            extra: named(rt, alloc, extra.as_slice()),
        },
        _ => Value::None,
    }
}

#[cycle(value)]
fn named(rt: &impl Abort, alloc: Global, pairs: &[Tree]) -> Named {
    let mut all = Vec::new(alloc);
    for pair in pairs {
        if let Tree::Array(parts) = pair
            && let [Tree::Str(name), value] = parts.as_slice()
        {
            all.push((text(rt, alloc, name.as_str()), value_of(rt, alloc, value)))
                .expect(rt, "memory");
        }
    }
    Row::from_vec(alloc, all).expect(rt, "memory")
}

fn names(rt: &impl Abort, alloc: Global, parts: &[Tree]) -> Names {
    let mut all = Vec::new(alloc);
    for part in parts {
        if let Tree::Str(name) = part {
            all.push(text(rt, alloc, name.as_str()))
                .expect(rt, "memory");
        }
    }
    Row::from_vec(alloc, all).expect(rt, "memory")
}
