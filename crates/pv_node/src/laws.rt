//! What holds of every schema.

ghost use Rattle.std.specs.Prelude.{◌≡◌, ◌∷◌};
ghost use Rattle.std.specs.List.{AllByRecursion, flat_map};
ghost use Rattle.pv_rules.specs.declared.Settings.{Settings};
ghost use Rattle.pv_node.specs.declared.node.Node.{Node};
ghost use Rattle.pv_node.specs.Places.{Path, place_at, places, places_in, places_of, slots_of, under};
ghost use Rattle.pv_node.specs.Preorder.{preorder, parts};
ghost use Rattle.pv_node.specs.Outward.{settings_at};
ghost use Rattle.pv_node.specs.Allowed.{AreAllowed};

/// A place, and then all that its slots hold.
#[tactic(auto, using(crate::proofs::Openings::opens))]
pub fn places_open()
    ensures { (p : Path) (n : Node) (s : Settings) →
        places_of p n s ≡ place_at p n s ∷ flat_map (places_in p (under n s)) (slots_of n) }
{}

/// A node, and then all that its child schemas hold.
#[tactic(auto, using(crate::proofs::Preorder::preorder_opens))]
pub fn preorder_opens()
    ensures { (n : Node) → preorder n ≡ n ∷ flat_map preorder (parts n) }
{}

/// The settings that are handed down to a place are those that a search outward along its path
/// finds. Fields of one node have different names, so that a path leads to one node.
#[tactic(auto, using(crate::proofs::Outward::settings_right))]
pub fn settings_are_in_force()
    ensures { (root : Node) → AreAllowed root →
        AllByRecursion (λ place. place.settings ≡ settings_at root place.path) (places root) }
{}
