//! What holds of grades and counts of any number of parts.

ghost use Rattle.std.specs.Prelude.{◌≡◌, ◌∷◌, ◌++◌, [], ℕ, List, Option};
ghost use Rattle.pv_fault.specs.declared.grade.Grade.{Grade};
ghost use Rattle.pv_fault.specs.Grades.{least, least_of};
ghost use Rattle.pv_fault.specs.Counts.{sum_of, sum_of_two};

/// The grade and the count of a whole may be kept part by part.
#[tactic(auto, using(crate::proofs::Sums::least_more, crate::proofs::Sums::sum_of_more))]
pub fn part_by_part()
    ensures grades { (own g : Grade) (gs : List Grade) → least_of own (gs ++ g ∷ []) ≡ least (least_of own gs) g }
    ensures counts { (c : Option ℕ) (cs : List (Option ℕ)) → sum_of (cs ++ c ∷ []) ≡ sum_of_two (sum_of cs) c }
{}
