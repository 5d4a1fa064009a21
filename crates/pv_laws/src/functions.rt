//! Functions of schemas.

ghost use Rattle.std.specs.Prelude.{◌≡◌, Some};
ghost use Rattle.pv_tree.specs.declared.Tree.{Tree};
ghost use Rattle.pv_tree.specs.declared.Value.{Value};
ghost use Rattle.pv_func.specs.declared.Made.{Made};
ghost use Rattle.pv_walk.specs.Functions.{after};
ghost use Rattle.pv_walk.specs.Rules.{Child};
ghost use Rattle.pv_laws.specs.Outcomes.{Fails};

/// A function that sees the value of a child schema has no part in what the child schema refuses:
/// whatever it does, the errors are those of the child schema.
#[tactic(auto, using(crate::proofs::AfterFunctions::refused_before))]
pub fn functions_see_no_refused_input()
    ensures { (function : Value → Made) (child : Child) (t : Tree)
        → Fails (child t) → after (Some function) child t ≡ child t }
{}
