//! What holds of every graph. The functions do nothing: their contracts are the laws.

ghost use Rattle.std.specs.Prelude.{◌≡◌, ◌↔◌, ℕ, List, Bool, true, false};
ghost use Rattle.pv_graph.specs.Walks.{ReachesItself};
ghost use Rattle.pv_graph.specs.Reaching.{reaches_itself, flags_of, has_cycle, chain_of};
ghost use Rattle.pv_graph.specs.Cycles.{IsAcyclic, MarksCycles};

/// The function tells of each node whether it reaches itself.
#[tactic(auto, using(crate::proofs::ReachingItself::told_right))]
pub fn reaching_is_told()
    ensures { (g : List (List ℕ)) (i : ℕ) → (reaches_itself g i ≡ true) ↔ ReachesItself g i }
{}

/// Flags mark the nodes that reach themselves exactly where some node does and they are the flags
/// of the graph.
pub fn marks_are_flags()
    ensures { (g : List (List ℕ)) (flags : List Bool) →
        MarksCycles g flags ↔ ((has_cycle g ≡ true) × (flags ≡ flags_of g)) }
{}

/// No node reaches itself and the longest walk has so many steps, exactly where no node is told to
/// reach itself and the chain has so many.
pub fn acyclic_is_told()
    ensures { (g : List (List ℕ)) (n : ℕ) →
        IsAcyclic g n ↔ ((has_cycle g ≡ false) × (n ≡ chain_of g)) }
{}
