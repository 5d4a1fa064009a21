//! Ints and texts that come in ascending order are distinct as they stand.

ghost use Rattle.std.specs.Prelude.{◌≡◌, IsTrue, map};
ghost use Rattle.pv_tree.specs.declared.Value.TheViews.{out-Value};
ghost use Rattle.pv_equality.specs.Merging.{AreDistinct};
ghost use Rattle.pv_distinct.specs.Ascending as spec;

use pv_tree::Value;

/// Whether both are ints or both are texts, and the first is the lesser.
fn ascend(first: &Value, second: &Value) -> bool
    ensures { result ≡ spec.ascend_at (out-Value first.now) (out-Value second.now) }
{
    match first {
        Value::Int(m) => match second {
            Value::Int(n) => m.cmp(n).is_lt(),
            _ => false,
        },
        Value::Str(text) => match second {
            Value::Str(other) => text.cmp(other).is_lt(),
            _ => false,
        },
        _ => false,
    }
}

/// Whether the values ascend. One value alone does.
pub(crate) fn are_ascending(values: &[Value]) -> bool
    ensures { IsTrue result → AreDistinct values.now }
{
    for i in 1..values.len() {
        if !ascend(&values[i - 1], &values[i]) {
            return false;
        }
    }
    true
}

/// Whether the keys of the entries ascend. One key alone does.
pub(crate) fn have_ascending_keys(entries: &[(Value, Value)]) -> bool
    ensures { IsTrue result → AreDistinct (map (λ e. e.0) entries.now) }
{
    for i in 1..entries.len() {
        if !ascend(&entries[i - 1].0, &entries[i].0) {
            return false;
        }
    }
    true
}
