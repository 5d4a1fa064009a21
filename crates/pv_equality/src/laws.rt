//! What holds of equality.

ghost use Rattle.std.specs.Prelude.{◌≡◌, true, List, [], ◌∷◌, ◌++◌, map};
ghost use Rattle.pv_tree.specs.declared.Value.{Value};
ghost use Rattle.pv_equality.specs.Equality.{same};
ghost use Rattle.pv_equality.specs.Merging.{AreDistinct, first_of_each, merged_entries};
ghost use Rattle.pv_equality.specs.Steps.{put_entry, put_item};

/// Equality of values is an equivalence.
pub fn sameness_is_equivalence()
    ensures reflexive { (v : Value) → same v v ≡ true }
    ensures symmetric { (v w : Value) → same v w ≡ true → same w v ≡ true }
    ensures transitive { (u v w : Value) → same u v ≡ true → same v w ≡ true → same u w ≡ true }
{}

/// What is kept of a set's items when one more came, which has to be compared with the kept ones alone; and
/// that all are kept, where no two are the same.
#[tactic(auto, using(crate::proofs::Keeping::first_none, crate::proofs::Keeping::first_more, crate::proofs::Keeping::distinct_stay))]
pub fn items_come_one_by_one()
    ensures none { first_of_each [] ≡ [] }
    ensures more { (vs : List Value) (v : Value) → first_of_each (vs ++ v ∷ []) ≡ put_item (first_of_each vs) v }
    ensures distinct { (vs : List Value) → AreDistinct vs → first_of_each vs ≡ vs }
{}

/// What is kept of a dict's entries when one more came, that their keys are kept as a set's items are, and
/// that all are kept, where no two keys are the same.
#[tactic(auto, using(crate::proofs::Merging::merged_none, crate::proofs::Merging::merged_more, crate::proofs::Merging::keys_kept, crate::proofs::Merging::entries_stay))]
pub fn entries_come_one_by_one()
    ensures none { merged_entries [] ≡ [] }
    ensures more { (es : List (Value × Value)) (e : Value × Value) → merged_entries (es ++ e ∷ []) ≡ put_entry (merged_entries es) e.0 e.1 }
    ensures keys { (es : List (Value × Value)) → map (λ e. e.0) (merged_entries es) ≡ first_of_each (map (λ e. e.0) es) }
    ensures distinct { (es : List (Value × Value)) → AreDistinct (map (λ e. e.0) es) → merged_entries es ≡ es }
{}
