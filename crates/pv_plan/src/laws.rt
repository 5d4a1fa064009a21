//! What holds of every plan.

ghost use Rattle.pv_node.specs.declared.Node.{Node};
ghost use Rattle.pv_plan.specs.Records.{Stands};
ghost use Rattle.pv_plan.specs.Layout.{table_of};

/// Each record of a schema's table stands for the place of its number.
pub fn stands_for_it()
    ensures { (root : Node) → Stands root (table_of root) }
{}
