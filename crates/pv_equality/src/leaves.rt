//! Values that hold no others.

ghost use Rattle.std.specs.Prelude.{◌≡◌, pos, if◌then◌else◌};
ghost use Rattle.pv_number.specs.ExactNumber.{number};
ghost use Rattle.pv_number.specs.NumberEquality.{int_number};
ghost use Rattle.pv_tree.specs.declared.Value.TheViews.{out-Value};
ghost use Rattle.pv_equality.specs.Equality as spec;

use pv_number::{Lexeme, compare, compare_int};
use pv_text::Text;
use pv_tree::{AtomKind, Value};

pub fn is_none(value: &Value) -> bool
    ensures { result ≡ spec.is_none (out-Value value.now) }
{
    matches!(value, Value::None)
}

fn flag_value(flag: bool) -> i128
    ensures { result ≡ pos (if flag then 1 else 0) }
{
    if flag { 1 } else { 0 }
}

#[tactic(auto, using(crate::proofs::Numbers::ints_same))]
fn same_ints(m: i128, n: i128) -> bool
    ensures { result ≡ spec.same_number (int_number m) (int_number n) }
{
    m.cmp(&n).is_eq()
}

#[tactic(auto, using(crate::proofs::Numbers::turned))]
fn is_of_int(n: i128, lexeme: &Lexeme) -> bool
    ensures { result ≡ spec.same_number (int_number n) (number lexeme.now) }
{
    compare_int(lexeme, n).is_eq()
}

pub fn is_int(n: i128, value: &Value) -> bool
    ensures { result ≡ spec.is_number (int_number n) (out-Value value.now) }
{
    match value {
        Value::Bool(flag) => same_ints(n, flag_value(*flag)),
        Value::Int(m) => same_ints(n, *m),
        Value::Lexeme(lexeme) => is_of_int(n, lexeme),
        _ => false,
    }
}

pub fn is_flag(flag: bool, value: &Value) -> bool
    ensures { result ≡ spec.is_number (spec.flag_number flag) (out-Value value.now) }
{
    is_int(flag_value(flag), value)
}

pub fn is_lexeme(lexeme: &Lexeme, value: &Value) -> bool
    ensures { result ≡ spec.is_number (number lexeme.now) (out-Value value.now) }
{
    match value {
        Value::Bool(flag) => compare_int(lexeme, flag_value(*flag)).is_eq(),
        Value::Int(n) => compare_int(lexeme, *n).is_eq(),
        Value::Lexeme(other) => compare(lexeme, other).is_eq(),
        _ => false,
    }
}

pub fn is_str(text: &Text, value: &Value) -> bool
    ensures { result ≡ spec.is_str text.now (out-Value value.now) }
{
    match value {
        Value::Str(other) => text == other,
        _ => false,
    }
}

pub fn is_bytes(bytes: &[u8], value: &Value) -> bool
    ensures { result ≡ spec.is_bytes bytes.now (out-Value value.now) }
{
    match value {
        Value::Bytes(other) => bytes == other.as_slice(),
        _ => false,
    }
}

pub fn is_atom(kind: AtomKind, text: &Text, value: &Value) -> bool
    ensures { result ≡ spec.is_atom kind text.now (out-Value value.now) }
{
    match value {
        Value::Atom {
            kind: other_kind,
            text: other,
        } => kind == *other_kind && text == other,
        _ => false,
    }
}
