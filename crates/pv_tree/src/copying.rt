//! Copies of values. The texts and lexemes in them are shared.

ghost use Rattle.std.specs.Prelude.{◌≡◌, IfOk};

use crate::row::Row;
use crate::value::{Entries, Named, Names, Value, Values};
use pv_text::{Bytes, Memory, Text};
use sqlite_items::{Boxed, Items};
use std::alloc::Global;

fn copy_names(alloc: Global, names: &Names) -> Result<Names, Memory>
    ensures { IfOk result (λ all. all ≡ names.now) }
{
    if let Some(row) = names.try_share() {
        return Ok(row);
    }
    let mut all = Vec::with_capacity(alloc, names.len())?;
    for name in names.as_slice() {
        all.push(name.share(alloc)?)?;
    }
    Row::from_vec(alloc, all)
}

#[cycle(copy)]
fn copy_values(alloc: Global, values: &[Value]) -> Result<Values, Memory>
    ensures { IfOk result (λ all. all ≡ values.now) }
{
    let mut all = Vec::with_capacity(alloc, values.len())?;
    for value in values {
        all.push(value.copy(alloc)?)?;
    }
    Ok(Items::from_vec(all))
}

#[cycle(copy)]
fn copy_named(alloc: Global, named: &Named) -> Result<Named, Memory>
    ensures { IfOk result (λ all. all ≡ named.now) }
{
    if let Some(row) = named.try_share() {
        return Ok(row);
    }
    let mut all = Vec::with_capacity(alloc, named.len())?;
    for (name, value) in named.as_slice() {
        let name = name.share(alloc)?;
        let value = value.copy(alloc)?;
        all.push((name, value))?;
    }
    Row::from_vec(alloc, all)
}

#[cycle(copy)]
fn copy_entries(alloc: Global, entries: &[(Value, Value)]) -> Result<Entries, Memory>
    ensures { IfOk result (λ all. all ≡ entries.now) }
{
    let mut all = Vec::with_capacity(alloc, entries.len())?;
    for (key, value) in entries {
        let key = key.copy(alloc)?;
        let Ok(value) = value.copy(alloc) else {
            // One call: a value that goes out of scope here is proved variant by variant.
            drop(key);
            return Err(Memory);
        };
        all.push((key, value))?;
    }
    Ok(Items::from_vec(all))
}

#[cycle(copy)]
fn copy_boxed(alloc: Global, value: &Boxed<Value>) -> Result<Boxed<Value>, Memory>
    ensures { IfOk result (λ b. b ≡ value.now) }
{
    Ok(Boxed::new(alloc, value.get().copy(alloc)?)?)
}

/// An enum's member with these names, shared, and this value.
fn enum_of(alloc: Global, cls: &Text, name: &Text, value: Boxed<Value>) -> Result<Value, Memory>
    ensures { IfOk result (λ v. v ≡ Value.Enum cls.now name.now value) }
{
    let cls = cls.share(alloc)?;
    let name = name.share(alloc)?;
    Ok(Value::Enum { cls, name, value })
}

/// A model with this class and these names, shared, and these fields.
fn model_of(
    alloc: Global,
    cls: &Text,
    set: &Names,
    fields: Named,
    extra: Named,
) -> Result<Value, Memory>
    ensures { IfOk result (λ v. v ≡ Value.Model cls.now fields set.now extra) }
{
    let cls = cls.share(alloc)?;
    let set = copy_names(alloc, set)?;
    Ok(Value::Model {
        cls,
        fields,
        set,
        extra,
    })
}

impl Value {
    /// An identical value.
    #[cycle(copy)]
    pub fn copy(&self, alloc: Global) -> Result<Value, Memory>
        ensures { IfOk result (λ v. v ≡ self.now) }
    {
        match self {
            Value::None => Ok(Value::None),
            Value::Bool(b) => Ok(Value::Bool(*b)),
            Value::Int(n) => Ok(Value::Int(*n)),
            Value::Lexeme(lexeme) => Ok(Value::Lexeme(lexeme.share(alloc)?)),
            Value::Str(text) => Ok(Value::Str(text.share(alloc)?)),
            Value::Bytes(bytes) => Ok(Value::Bytes(Bytes::from_slice(alloc, bytes.as_slice())?)),
            Value::Atom { kind, text } => Ok(Value::Atom {
                kind: *kind,
                text: text.share(alloc)?,
            }),
            Value::Enum { cls, name, value } => {
                enum_of(alloc, cls, name, copy_boxed(alloc, value)?)
            }
            Value::List(values) => Ok(Value::List(copy_values(alloc, values.as_slice())?)),
            Value::Tuple(values) => Ok(Value::Tuple(copy_values(alloc, values.as_slice())?)),
            Value::Set(values) => Ok(Value::Set(copy_values(alloc, values.as_slice())?)),
            Value::Frozen(values) => Ok(Value::Frozen(copy_values(alloc, values.as_slice())?)),
            Value::Dict(entries) => Ok(Value::Dict(copy_entries(alloc, entries.as_slice())?)),
            Value::Model {
                cls,
                fields,
                set,
                extra,
            } => {
                let fields = copy_named(alloc, fields)?;
                let extra = copy_named(alloc, extra)?;
                model_of(alloc, cls, set, fields, extra)
            }
            Value::Root { cls, value } => Ok(Value::Root {
                cls: cls.share(alloc)?,
                value: copy_boxed(alloc, value)?,
            }),
        }
    }
}
