//! What holds of keys.

ghost use Rattle.std.specs.Prelude.{◌≡◌};
ghost use Rattle.std.specs.Ordering.{is_eq};
ghost use Rattle.pv_tree.specs.declared.Value.{Value};
ghost use Rattle.pv_equality.specs.Equality.{same};
ghost use Rattle.pv_distinct.specs.Keys.{key, key_cmp};

/// Two values are the same exactly where their keys compare equal.
pub fn keys_tell_values()
    ensures { (v w : Value) → is_eq (key_cmp (key v) (key w)) ≡ same v w }
{}
