//! Unions.

ghost use Rattle.std.specs.Prelude.{ℕ, Bool, List};
ghost use Rattle.std.specs.List.{AllByRecursion};
ghost use Rattle.pv_tree.specs.declared.Tree.{Tree};
ghost use Rattle.pv_walk.specs.Rules.{Child};
ghost use Rattle.pv_walk.specs.Unions.{union};
ghost use Rattle.pv_laws.specs.Outcomes.{Succeeds, Fails, IsGivenByOne};

/// A union that succeeds answers what one of its choices does, and it fails only where each of them
/// does. So it is of smart unions and of those that are taken from left to right.
#[tactic(auto, using(crate::proofs::Choosing::choosing))]
pub fn unions_answer_by_one_choice()
    ensures succeeds { (left_to_right : Bool) (labels : List (List ℕ)) (children : List Child)
        (t : Tree) → Succeeds (union left_to_right labels children t)
        → IsGivenByOne children t (union left_to_right labels children t) }
    ensures fails { (left_to_right : Bool) (labels : List (List ℕ)) (children : List Child)
        (t : Tree) → Fails (union left_to_right labels children t)
        → AllByRecursion (λ child. Fails (child t)) children }
{}
