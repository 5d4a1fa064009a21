//! Equality of values.

ghost use Rattle.std.specs.Prelude.{◌≡◌, ◌&&◌, bytes_eq, map};
ghost use Rattle.std.specs.List.{list_all, list_any};
ghost use Rattle.pv_tree.specs.declared.Value.TheViews.{out-Value};
ghost use Rattle.pv_equality.specs.Equality as spec;

use crate::leaves::{is_atom, is_bytes, is_flag, is_int, is_lexeme, is_none, is_str};
use pv_text::Text;
use pv_tree::Value;

#[cycle(same)]
#[tactic(auto, using(crate::proofs::SameLevels::items_of))]
fn same_items(values: &[Value], others: &[Value]) -> bool
    ensures { result ≡ spec.same_items (map spec.same values.now) others.now }
{
    if values.len() != others.len() {
        return false;
    }
    for (i, value) in values.iter().enumerate() {
        if !same(value, &others[i]) {
            return false;
        }
    }
    true
}

#[cycle(same)]
fn are_among(values: &[Value], others: &[Value]) -> bool
    ensures { result ≡ list_all (λ x. list_any (λ y. spec.same x y) others.now) values.now }
{
    'next: for value in values {
        for other in others {
            if same(value, other) {
                continue 'next;
            }
        }
        return false;
    }
    true
}

#[cycle(same)]
fn have(values: &[Value], others: &[Value]) -> bool
    ensures { result ≡ list_all (λ y. list_any (λ x. spec.same x y) values.now) others.now }
{
    'next: for other in others {
        for value in values {
            if same(value, other) {
                continue 'next;
            }
        }
        return false;
    }
    true
}

#[cycle(same)]
#[tactic(auto, using(crate::proofs::SameLevels::set_of))]
fn same_sets(values: &[Value], others: &[Value]) -> bool
    ensures { result ≡ spec.same_set (map spec.same values.now) others.now }
{
    are_among(values, others) && have(values, others)
}

#[cycle(same)]
fn are_entries_among(entries: &[(Value, Value)], others: &[(Value, Value)]) -> bool
    ensures { result ≡ list_all (λ x. list_any (λ y. spec.same x.0 y.0 && spec.same x.1 y.1) others.now) entries.now }
{
    'next: for entry in entries {
        for other in others {
            if same(&entry.0, &other.0) && same(&entry.1, &other.1) {
                continue 'next;
            }
        }
        return false;
    }
    true
}

#[cycle(same)]
fn have_entries(entries: &[(Value, Value)], others: &[(Value, Value)]) -> bool
    ensures { result ≡ list_all (λ y. list_any (λ x. spec.same x.0 y.0 && spec.same x.1 y.1) entries.now) others.now }
{
    'next: for other in others {
        for entry in entries {
            if same(&entry.0, &other.0) && same(&entry.1, &other.1) {
                continue 'next;
            }
        }
        return false;
    }
    true
}

#[cycle(same)]
#[tactic(auto, using(crate::proofs::SameLevels::dict_of))]
fn same_dicts(entries: &[(Value, Value)], others: &[(Value, Value)]) -> bool
    ensures { result ≡ spec.same_dict (map (λ x. (spec.same x.0, spec.same x.1)) entries.now) others.now }
{
    are_entries_among(entries, others) && have_entries(entries, others)
}

#[cycle(same)]
fn are_fields_among(fields: &[(Text, Value)], others: &[(Text, Value)]) -> bool
    ensures { result ≡ list_all (λ x. list_any (λ y. bytes_eq x.0 y.0 && spec.same x.1 y.1) others.now) fields.now }
{
    'next: for field in fields {
        for other in others {
            if field.0 == other.0 && same(&field.1, &other.1) {
                continue 'next;
            }
        }
        return false;
    }
    true
}

#[cycle(same)]
fn have_fields(fields: &[(Text, Value)], others: &[(Text, Value)]) -> bool
    ensures { result ≡ list_all (λ y. list_any (λ x. bytes_eq x.0 y.0 && spec.same x.1 y.1) fields.now) others.now }
{
    'next: for other in others {
        for field in fields {
            if field.0 == other.0 && same(&field.1, &other.1) {
                continue 'next;
            }
        }
        return false;
    }
    true
}

#[cycle(same)]
#[tactic(auto, using(crate::proofs::SameLevels::fields_of))]
fn same_fields(fields: &[(Text, Value)], others: &[(Text, Value)]) -> bool
    ensures { result ≡ spec.same_fields (map (λ x. (x.0, spec.same x.1)) fields.now) others.now }
{
    are_fields_among(fields, others) && have_fields(fields, others)
}

#[cycle(same)]
fn is_set(values: &[Value], other: &Value) -> bool
    ensures { result ≡ spec.is_set (map spec.same values.now) (out-Value other.now) }
{
    match other {
        Value::Set(others) => same_sets(values, others.as_slice()),
        Value::Frozen(others) => same_sets(values, others.as_slice()),
        _ => false,
    }
}

/// Whether two values are equal. Flags, whole numbers and lexemes are equal where their exact numbers are, a
/// set and a frozen set where each item of one has an equal among those of the other, and models whichever of
/// their fields were given.
///
/// It takes no memory. So two sets or dicts take time in proportion to the product of their lengths, and each
/// level of sets within sets doubles it. To find equals among many values, make a key of each once.
#[cycle(same)]
pub fn same(a: &Value, b: &Value) -> bool
    ensures { result ≡ spec.same a.now b.now }
{
    match a {
        Value::None => is_none(b),
        Value::Bool(flag) => is_flag(*flag, b),
        Value::Int(n) => is_int(*n, b),
        Value::Lexeme(lexeme) => is_lexeme(lexeme, b),
        Value::Str(text) => is_str(text, b),
        Value::Bytes(bytes) => is_bytes(bytes.as_slice(), b),
        Value::Atom { kind, text } => is_atom(*kind, text, b),
        Value::Enum { cls, name, value } => match b {
            Value::Enum {
                cls: other_cls,
                name: other_name,
                value: other,
            } => cls == other_cls && name == other_name && same(value.get(), other.get()),
            _ => false,
        },
        Value::List(values) => match b {
            Value::List(others) => same_items(values.as_slice(), others.as_slice()),
            _ => false,
        },
        Value::Tuple(values) => match b {
            Value::Tuple(others) => same_items(values.as_slice(), others.as_slice()),
            _ => false,
        },
        Value::Set(values) => is_set(values.as_slice(), b),
        Value::Frozen(values) => is_set(values.as_slice(), b),
        Value::Dict(entries) => match b {
            Value::Dict(others) => same_dicts(entries.as_slice(), others.as_slice()),
            _ => false,
        },
        Value::Model {
            cls,
            fields,
            extra,
            ..
        } => {
            let Value::Model {
                cls: other_cls,
                fields: other_fields,
                extra: other_extra,
                ..
            } = b
            else {
                return false;
            };
            if cls != other_cls {
                return false;
            }
            if !same_fields(fields.as_slice(), other_fields.as_slice()) {
                return false;
            }
            same_fields(extra.as_slice(), other_extra.as_slice())
        }
        Value::Root { cls, value } => match b {
            Value::Root {
                cls: other_cls,
                value: other,
            } => cls == other_cls && same(value.get(), other.get()),
            _ => false,
        },
    }
}
