//! What holds of picks. These functions do nothing: their contracts are the laws.

ghost use Rattle.std.specs.Prelude.{◌≡◌, ℕ, List, Some, None, true, is_ok, is_some};
ghost use Rattle.pv_tree.specs.Merged.{last_value};
ghost use Rattle.pv_tree.specs.declared.Tree.{Tree};
ghost use Rattle.pv_pick.specs.Picks.{is_item, is_pick};
ghost use Rattle.pv_ser.specs.Force.{InForce, at_part, at_root, is_left_out};
ghost use Rattle.pv_ser.specs.Names.{value_under};
ghost use Rattle.pv_ser.specs.Picks.{Picked, by_name, name_at, pick_read};

/// What is read is a pick of the grammar, and each pick of it is read.
pub fn picks_are_read_so()
    ensures picks { (t : Tree) → is_ok (pick_read t) ≡ is_pick t }
    ensures items { (t : Tree) → is_some (name_at t) ≡ is_item t }
{}

/// What is found under a name is what the last member of this name has.
#[tactic(auto, using(crate::proofs::Lookups::last_is_found))]
pub fn last_picks_are_found()
    ensures { (ms : Picked) (name : List ℕ) → value_under name (by_name ms) ≡ last_value ms name }
{}

/// Without picks each part is kept. A part that is excluded is left out whatever is included.
#[tactic(auto, using(crate::proofs::Excluding::excluded))]
pub fn excluded_parts_are_left_out()
    ensures all { (name : List ℕ) → at_part name (at_root None None) ≡ Some (at_root None None) }
    ensures excluded { (name : List ℕ) (f : InForce) →
        is_left_out name f.exclude ≡ true → at_part name f ≡ None }
{}
