//! The errors of a document that is not valid.

ghost use Rattle.std.specs.Prelude.{ℕ};
ghost use Rattle.pv_tree.specs.declared.Tree.{Tree};
ghost use Rattle.pv_node.specs.declared.Node.{Node};
ghost use Rattle.pv_walk.specs.Context.{Context};
ghost use Rattle.pv_engine.specs.Meaning.{meaning};
ghost use Rattle.pv_laws.specs.Located.{IsOutcomeOf};
ghost use Rattle.pv_laws.specs.Locations.{KeepsLocations};

/// A document that is not valid has at least one error, and the location of each error leads to
/// its input: a part of the document, an array that lacks the item at the location, a member's key,
/// or an object in which a path of a field leads nowhere. So it is, whatever the functions do, of
/// schemas whose nodes leave locations as they are: no errors of fields stand under their names in
/// place of their paths, no default is validated, no function sees an input before a child schema
/// does or goes around one, no union is tagged, and each union has one choice.
#[tactic(auto, using(crate::proofs::Locating::outcome_is_located))]
pub fn errors_are_located()
    ensures { (run : Context) (depth : ℕ) (schema : Node) (document : Tree) →
        KeepsLocations schema → IsOutcomeOf document (meaning run depth schema document) }
{}
