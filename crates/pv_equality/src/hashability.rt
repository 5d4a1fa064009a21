ghost use Rattle.std.specs.Prelude.{◌≡◌};
ghost use Rattle.std.specs.List.{list_all};
ghost use Rattle.pv_equality.specs.Hashable as spec;

use pv_tree::Value;

#[cycle(hashable)]
fn all_hashable(values: &[Value]) -> bool
    ensures { result ≡ list_all spec.hashable values.now }
{
    for value in values {
        if !hashable(value) {
            return false;
        }
    }
    true
}

/// Whether the value may be an item of a set and a key of a dict: none, flags, numbers, texts, bytes, atoms
/// and enum members may, and so may tuples and frozen sets of such values.
#[cycle(hashable)]
#[tactic(auto, using(crate::proofs::HashableLevels::hashable_tuple, crate::proofs::HashableLevels::hashable_frozen))]
pub fn hashable(value: &Value) -> bool
    ensures { result ≡ spec.hashable value.now }
{
    match value {
        Value::None => true,
        Value::Bool(_) => true,
        Value::Int(_) => true,
        Value::Lexeme(_) => true,
        Value::Str(_) => true,
        Value::Bytes(_) => true,
        Value::Atom { .. } => true,
        Value::Enum { .. } => true,
        Value::List(_) => false,
        Value::Tuple(values) => all_hashable(values.as_slice()),
        Value::Set(_) => false,
        Value::Frozen(values) => all_hashable(values.as_slice()),
        Value::Dict(_) => false,
        Value::Model { .. } => false,
        Value::Root { .. } => false,
    }
}
