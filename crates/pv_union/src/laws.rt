//! What holds of the member that a smart union takes.

ghost use Rattle.std.specs.Prelude.{◌≡◌, ℕ, List, None, Some};
ghost use Rattle.pv_union.specs.Choice.{choice};
ghost use Rattle.pv_union.specs.Winners.{AllCounted, AllFailed, AllUncounted, IsBestGraded, IsFirstSure, IsMostCounted};

use crate::score::Score;

/// The first exact success without a count is taken, whatever the others are.
#[tactic(auto, using(crate::proofs::Winning::sure_is_taken))]
pub fn exact_is_taken()
    ensures { (ss : List Score) (i : ℕ) → IsFirstSure ss i → choice ss ≡ Some i }
{}

/// Where each success has a count, the first of the largest count and, among these, of the best
/// grade is taken.
#[tactic(auto, using(crate::proofs::Winning::most_is_taken))]
pub fn most_fields_are_taken()
    ensures { (ss : List Score) (i : ℕ) → AllCounted ss → choice ss ≡ Some i → IsMostCounted ss i }
{}

/// Where no success has a count, the first of the best grade is taken.
#[tactic(auto, using(crate::proofs::Winning::best_is_taken))]
pub fn best_grade_is_taken()
    ensures { (ss : List Score) (i : ℕ) → AllUncounted ss → choice ss ≡ Some i → IsBestGraded ss i }
{}

/// A member is taken unless all failed.
#[tactic(auto, using(crate::proofs::Winning::none_failed, crate::proofs::Winning::failed_none))]
pub fn none_is_taken_of_failures()
    ensures only { (ss : List Score) → choice ss ≡ None → AllFailed ss }
    ensures always { (ss : List Score) → AllFailed ss → choice ss ≡ None }
{}
