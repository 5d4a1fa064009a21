//! What holds of merging.

ghost use Rattle.std.specs.Prelude.{◌≡◌, ℕ, List, map};
ghost use Rattle.pv_tree.specs.declared.tree.Tree.{Tree};
ghost use Rattle.pv_tree.specs.Merging.{merged};
ghost use Rattle.pv_tree.specs.Merged.{first_names, last_value, value_at};

/// Of members that are merged, each name stands once, in the order of the first places, and has the
/// value of its last member.
#[tactic(auto, using(crate::proofs::MergedLaws::names_merged, crate::proofs::MergedLaws::values_merged))]
pub fn merging_keeps_first_places_and_last_values()
    ensures names { (ms : List (List ℕ × Tree)) → map (λ m. m.0) (merged ms) ≡ first_names (map (λ m. m.0) ms) }
    ensures values { (ms : List (List ℕ × Tree)) (name : List ℕ) → value_at (merged ms) name ≡ last_value ms name }
{}
