//! A table that stands for a schema means what the schema means.

ghost use Rattle.std.specs.Prelude.{◌≡◌, ℕ, List, Some, slice_get};
ghost use Rattle.pv_tree.specs.declared.Tree.{Tree};
ghost use Rattle.pv_node.specs.declared.Node.{Node};
ghost use Rattle.pv_node.specs.Places.{Place};
ghost use Rattle.pv_plan.specs.declared.Record.{Record};
ghost use Rattle.pv_plan.specs.Records.{Stands, all_places};
ghost use Rattle.pv_walk.specs.Context.{Context};
ghost use Rattle.pv_engine.specs.Meaning.{meaning_at};
ghost use Rattle.pv_walk.specs.Run.{run_table};

/// At each depth, the record of a number means what the place of the number means.
#[tactic(auto, using(crate::proofs::Agrees::agrees))]
pub fn means_the_same()
    ensures { (root : Node) (table : List Record) (run : Context) → Stands root table
        → (d i : ℕ) (place : Place) (t : Tree) → slice_get (all_places root) i ≡ Some place
        → run_table table run d i t ≡ meaning_at run root d place t }
{}
