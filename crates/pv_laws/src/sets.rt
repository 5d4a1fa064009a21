//! The items of sets and the entries of dicts.

ghost use Rattle.std.specs.Prelude.{◌≡◌, true, List, ◌∷◌, ◌++◌, map};
ghost use Rattle.std.specs.List.{Contains};
ghost use Rattle.pv_tree.specs.declared.Value.{Value};
ghost use Rattle.pv_equality.specs.Equality.{same};
ghost use Rattle.pv_equality.specs.Merging.{first_of_each, merged_entries};
ghost use Rattle.pv_laws.specs.Kept.{AreKept, HasNoKey};

/// A set keeps no two items that are the same, and of each item one that is the same. It keeps
/// nothing else.
#[tactic(auto, using(crate::proofs::Keeping::keeps, crate::proofs::Keeping::keeps_nothing_else))]
pub fn sets_keep_each_item_once()
    ensures kept { (values : List Value) → AreKept values (first_of_each values) }
    ensures nothing_else { (values : List Value) (v : Value)
        → Contains (first_of_each values) v → Contains values v }
{}

/// The keys of a dict are kept as the items of a set are, each with the value of the last entry
/// with an equal key: where an entry comes behind which none has an equal key, the kept entry of
/// an equal key has its value.
#[tactic(auto, using(pv_equality::proofs::Merging::keys_kept, crate::proofs::Keeping::last_values))]
pub fn dicts_keep_each_key_once()
    ensures keys { (entries : List (Value × Value)) →
        map (λ e. e.0) (merged_entries entries) ≡ first_of_each (map (λ e. e.0) entries) }
    ensures values { (before : List (Value × Value)) (last : Value × Value)
        (after : List (Value × Value)) (kept : Value × Value) →
        HasNoKey after last.0 → Contains (merged_entries (before ++ last ∷ after)) kept →
        same kept.0 last.0 ≡ true → kept.1 ≡ last.1 }
{}
