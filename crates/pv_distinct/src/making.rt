//! How keys are made.

ghost use Rattle.std.specs.Prelude.{◌≡◌, [], ◌∷◌, ◌++◌, map, pos, if◌then◌else◌};
ghost use Rattle.std.specs.Prelude.{OnOk, IfOk};
ghost use Rattle.pv_distinct.specs.Keys as spec;
ghost use Rattle.pv_distinct.specs.Keys.{key};

use crate::key::Key;
use crate::split_key::SplitKey;
use crate::token::Token;
use pv_text::{Bytes, Memory, Text};
use pv_tree::Value;
use std::alloc::Global;
use std::collections::BTreeSet;

fn flag_value(flag: bool) -> i128
    ensures { result ≡ pos (if flag then 1 else 0) }
{
    if flag { 1 } else { 0 }
}

/// Appends a name, which is shared.
fn push_name(alloc: Global, name: &Text, out: &mut Key) -> Result<(), Memory>
    ensures { OnOk result (out.new ≡ out.old ++ Token.Name name.now ∷ []) }
{
    let name = name.share(alloc)?;
    out.push(Token::Name(name))
}

/// Appends the keys of a set's items, which came in the order of the keys.
fn append_set(out: &mut Key, keys: BTreeSet<Key>) -> Result<(), Memory>
    ensures { OnOk result (out.new
        ≡ out.old ++ Token.Open ∷ (spec.joined keys.keys ++ Token.End ∷ [])) }
{
    out.push(Token::Open)?;
    for key in keys {
        out.append(key)?;
    }
    out.push(Token::End)
}

#[cycle(key)]
fn write_items(alloc: Global, values: &[Value], out: &mut Key) -> Result<(), Memory>
    ensures { OnOk result (out.new ≡ out.old ++ spec.joined (map key values.now)) }
{
    for value in values {
        write_key(alloc, value, out)?;
    }
    Ok(())
}

/// A key, and behind it the key of a value and a name.
#[cycle(key)]
fn named_key(alloc: Global, item: Key, value: &Value, name: &Text) -> Result<Key, Memory>
    ensures { IfOk result (λ k. k ≡ (item ++ key value.now) ++ Token.Name name.now ∷ []) }
{
    let mut item = item;
    write_key(alloc, value, &mut item)?;
    push_name(alloc, name, &mut item)?;
    Ok(item)
}

/// The key of a value and, behind it, a name.
#[cycle(key)]
fn item_key(alloc: Global, value: &Value, name: &Text) -> Result<Key, Memory>
    ensures { IfOk result (λ k. k ≡ key value.now ++ Token.Name name.now ∷ []) }
{
    named_key(alloc, Key::new(alloc, 2)?, value, name)
}

/// The key of a value, with room for one more value and a name.
#[cycle(key)]
fn first_key(alloc: Global, value: &Value) -> Result<Key, Memory>
    ensures { IfOk result (λ k. k ≡ key value.now) }
{
    let mut item = Key::new(alloc, 3)?;
    write_key(alloc, value, &mut item)?;
    Ok(item)
}

#[cycle(key)]
fn write_set(alloc: Global, values: &[Value], out: &mut Key) -> Result<(), Memory>
    ensures { OnOk result (out.new
        ≡ out.old ++ spec.set_key (map spec.item_key (map key values.now))) }
{
    let name = Text::from_str(alloc, "")?;
    let mut keys = BTreeSet::new(alloc);
    for value in values {
        keys.insert(item_key(alloc, value, &name)?)?;
    }
    append_set(out, keys)
}

#[cycle(key)]
fn write_entries(alloc: Global, entries: &[(Value, Value)], out: &mut Key) -> Result<(), Memory>
    ensures { OnOk result (out.new ≡ out.old
        ++ spec.set_key (map spec.entry_key (map (λ e. (key e.0, key e.1)) entries.now))) }
{
    let name = Text::from_str(alloc, "")?;
    let mut keys = BTreeSet::new(alloc);
    for (first, second) in entries {
        let item = first_key(alloc, first)?;
        keys.insert(named_key(alloc, item, second, &name)?)?;
    }
    append_set(out, keys)
}

#[cycle(key)]
fn write_fields(alloc: Global, fields: &[(Text, Value)], out: &mut Key) -> Result<(), Memory>
    ensures { OnOk result (out.new ≡ out.old
        ++ spec.set_key (map spec.field_key (map (λ f. (f.0, key f.1)) fields.now))) }
{
    let mut keys = BTreeSet::new(alloc);
    for (name, value) in fields {
        keys.insert(item_key(alloc, value, name)?)?;
    }
    append_set(out, keys)
}

/// The first token of a value's key.
fn start(alloc: Global, value: &Value) -> Result<Token, Memory>
    ensures { IfOk result (λ t. t ≡ spec.start value.now) }
{
    Ok(match value {
        Value::None => Token::None,
        Value::Bool(flag) => Token::Int(flag_value(*flag)),
        Value::Int(n) => Token::Int(*n),
        Value::Lexeme(lexeme) => Token::Lexeme(lexeme.share(alloc)?),
        Value::Str(text) => Token::Str(text.share(alloc)?),
        Value::Bytes(bytes) => Token::Bytes(Bytes::from_slice(alloc, bytes.as_slice())?),
        Value::Atom { kind, text } => Token::Atom(*kind, text.share(alloc)?),
        Value::Enum { cls, name, .. } => Token::Enum(cls.share(alloc)?, name.share(alloc)?),
        Value::List(_) => Token::List,
        Value::Tuple(_) => Token::Tuple,
        Value::Set(_) | Value::Frozen(_) => Token::Set,
        Value::Dict(_) => Token::Dict,
        Value::Model { cls, .. } => Token::Model(cls.share(alloc)?),
        Value::Root { cls, .. } => Token::Root(cls.share(alloc)?),
    })
}

/// Appends the keys of the values that a value holds.
#[cycle(key)]
fn write_parts(alloc: Global, value: &Value, out: &mut Key) -> Result<(), Memory>
    ensures { OnOk result (out.new ≡ out.old ++ spec.parts value.now) }
{
    match value {
        Value::None
        | Value::Bool(_)
        | Value::Int(_)
        | Value::Lexeme(_)
        | Value::Str(_)
        | Value::Bytes(_)
        | Value::Atom { .. } => Ok(()),
        Value::Enum { value, .. } | Value::Root { value, .. } => write_key(alloc, value.get(), out),
        Value::List(values) | Value::Tuple(values) => write_items(alloc, values.as_slice(), out),
        Value::Set(values) | Value::Frozen(values) => write_set(alloc, values.as_slice(), out),
        Value::Dict(entries) => write_entries(alloc, entries.as_slice(), out),
        Value::Model { fields, extra, .. } => {
            write_fields(alloc, fields.as_slice(), out)?;
            write_fields(alloc, extra.as_slice(), out)
        }
    }
}

/// Appends the key of a value.
#[cycle(key)]
fn write_key(alloc: Global, value: &Value, out: &mut Key) -> Result<(), Memory>
    ensures { OnOk result (out.new ≡ out.old ++ key value.now) }
{
    let start = start(alloc, value)?;
    let opens = start.opens();
    out.push(start)?;
    if !opens {
        return Ok(());
    }
    write_parts(alloc, value, out)?;
    out.push(Token::End)
}

/// The key of a value, its first token apart.
pub fn make_key(alloc: Global, value: &Value) -> Result<SplitKey, Memory>
    ensures { IfOk result (λ k. k ≡ key value.now) }
{
    let first = start(alloc, value)?;
    let mut rest = Key::new(alloc, 0)?;
    if first.opens() {
        write_parts(alloc, value, &mut rest)?;
        rest.push(Token::End)?;
    }
    Ok(SplitKey::new(first, rest))
}
