//! The patterns of a schema.

ghost use Rattle.std.specs.Prelude.{◌≡◌, ◌↔◌, None};
ghost use Rattle.std.specs.List.{AllByRecursion};
ghost use Rattle.pv_node.specs.declared.Node.{Node};
ghost use Rattle.pv_node.specs.Preorder.{preorder};
ghost use Rattle.pv_plan.specs.BadPatterns.{bad_pattern};
ghost use Rattle.pv_laws.specs.Patterns.{HasGoodPattern};

/// No pattern of a schema is refused exactly where each of its nodes has none or a good one.
#[tactic(auto, using(crate::proofs::GoodPatterns::good_throughout))]
pub fn patterns_are_good_throughout()
    ensures { (root : Node)
        → (bad_pattern root ≡ None) ↔ AllByRecursion HasGoodPattern (preorder root) }
{}
