ghost use Rattle.std.specs.Prelude.{◌≡◌};
ghost use Rattle.pv_tree.specs.declared.Value.TheViews.{out-Value};
ghost use Rattle.pv_shipped.specs.Shipped.{int_at};

use pv_tree::Value;

/// The whole number that a value is.
pub(crate) fn whole_number(value: &Value) -> Option<i128>
    ensures { result ≡ int_at (out-Value value.now) }
{
    match value {
        Value::Int(n) => Some(*n),
        Value::None
        | Value::Bool(_)
        | Value::Lexeme(_)
        | Value::Str(_)
        | Value::Bytes(_)
        | Value::Atom { .. }
        | Value::Enum { .. }
        | Value::List(_)
        | Value::Tuple(_)
        | Value::Set(_)
        | Value::Frozen(_)
        | Value::Dict(_)
        | Value::Model { .. }
        | Value::Root { .. } => None,
    }
}
