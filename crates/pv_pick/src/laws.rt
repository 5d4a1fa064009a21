//! What a pick is. This function does nothing: its contract is the law.

ghost use Rattle.std.specs.Prelude.{◌≡◌, ℕ, Bool, true, false, List};
ghost use Rattle.std.specs.List.{list_all};
ghost use Rattle.pv_tree.specs.Names.{Distinct};
ghost use Rattle.pv_tree.specs.declared.Tree.{Tree};
ghost use Rattle.pv_tree.specs.declared.Tree.TheVariants as tree;
ghost use Rattle.pv_pick.specs.Picks.{is_count, is_item, is_pick};

/// A pick is `true`, an object of picks, or a list of texts and counts. Nothing else is a pick.
pub fn picks_are_so()
    ensures flag { (b : Bool) → is_pick (tree.Bool b) ≡ b }
    ensures object { (d : Distinct Tree) →
        is_pick (tree.Object d) ≡ list_all (λ m. is_pick m.1) d.members }
    ensures array { (items : List Tree) → is_pick (tree.Array items) ≡ list_all is_item items }
    ensures others { (is_pick tree.Null ≡ false) × ((lexeme : List ℕ) → is_pick (tree.Num lexeme) ≡ false) ×
        ((text : List ℕ) → is_pick (tree.Str text) ≡ false) }
    ensures item { ((text : List ℕ) → is_item (tree.Str text) ≡ true) ×
        ((lexeme : List ℕ) → is_item (tree.Num lexeme) ≡ is_count lexeme) }
    ensures no_item { (is_item tree.Null ≡ false) × ((b : Bool) → is_item (tree.Bool b) ≡ false) ×
        ((items : List Tree) → is_item (tree.Array items) ≡ false) ×
        ((d : Distinct Tree) → is_item (tree.Object d) ≡ false) }
{}
