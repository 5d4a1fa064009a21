//! Keys that are the names of an object are distinct, since its names are.

ghost use Rattle.std.specs.Prelude.{◌≡◌, IsTrue, map};
ghost use Rattle.pv_tree.specs.Names.{HasDistinctNames};
ghost use Rattle.pv_tree.specs.declared.Value.TheViews.{out-Value};
ghost use Rattle.pv_equality.specs.Equality.{is_str};
ghost use Rattle.pv_equality.specs.Merging.{AreDistinct};

use pv_text::Text;
use pv_tree::{Tree, Value};

/// Whether the value is the text of the name.
fn is_name(name: &Text, value: &Value) -> bool
    ensures { result ≡ is_str name.now (out-Value value.now) }
{
    match value {
        Value::Str(text) => name == text,
        _ => false,
    }
}

/// Whether the keys of the entries are the members' names, one by one.
pub(crate) fn are_named(members: &[(Text, Tree)], entries: &[(Value, Value)]) -> bool
    ensures { HasDistinctNames members.now → IsTrue result → AreDistinct (map (λ e. e.0) entries.now) }
{
    if members.len() != entries.len() {
        return false;
    }
    for (i, entry) in entries.iter().enumerate() {
        if !is_name(&members[i].0, &entry.0) {
            return false;
        }
    }
    true
}
