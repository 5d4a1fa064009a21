//! What holds of every schema that was read.

ghost use Rattle.std.specs.Prelude.{◌≡◌, Ok};
ghost use Rattle.std.specs.List.{AllByRecursion};
ghost use Rattle.pv_rules.specs.declared.FieldsKind.{FieldsKind};
ghost use Rattle.pv_tree.specs.declared.Tree.{Tree};
ghost use Rattle.pv_node.specs.declared.Node.{Node};
ghost use Rattle.pv_node.specs.Allowed.{AreAllowed};
ghost use Rattle.pv_schema.specs.Effects.{MakesOneField, MakesOneNode};
ghost use Rattle.pv_schema_table.specs.Table.{field_types, node_types};
ghost use Rattle.pv_schema.specs.Reading.{schema_of};

/// Each node of a schema that was read is as the table of keys allows: its counts are below 2^32,
/// its lists have something in them, an enum's members are distinct and of the sub type, and a
/// tuple's variadic position is one of its positions. Each field has a schema and a name that no
/// other field of the node has, aliases begin with a name, and a config lets fields be read by
/// alias or by name. A union has one choice or more, and so has a tagged union, whose tags are
/// distinct. Each schema of a list of definitions has a name.
#[tactic(auto, using(crate::proofs::Allowing::read_is_allowed))]
pub fn what_is_read_is_allowed()
    ensures { (t : Tree) (root : Node) → schema_of t ≡ Ok root → AreAllowed root }
{}

/// Objects of a type that differ in keys without an effect alone are one schema.
#[tactic(auto, using(crate::proofs::Ineffective::nodes_are_one))]
pub fn keys_without_effect_change_no_node()
    ensures { AllByRecursion MakesOneNode node_types }
{}

/// The same of fields: they are one rule and one schema.
#[tactic(auto, using(crate::proofs::Ineffective::fields_are_one))]
pub fn keys_without_effect_change_no_field()
    ensures { (k : FieldsKind) → AllByRecursion (MakesOneField k) (field_types k) }
{}
