//! What holds of the outcome of a list of fields, as it is made part by part.

ghost use Rattle.std.specs.Prelude.{◌≡◌, List, [], ◌∷◌, ◌++◌};
ghost use Rattle.pv_tree.specs.declared.Tree.{Tree};
ghost use Rattle.pv_rules.specs.declared.FieldsRule.{FieldsRule};
ghost use Rattle.pv_rules.specs.declared.Settings.{Settings};
ghost use Rattle.pv_fault.specs.declared.Outcome.TheVariants.{Good};
ghost use Rattle.pv_fields.specs.FieldList.{Answered, Extra, all_errors, fields_of};
ghost use Rattle.pv_fields.specs.Kept.{finished, kept_of};

/// Where there is no error, the outcome is what is made of all that was kept.
#[tactic(auto, using(crate::proofs::Parts::finished_all))]
pub fn kept_parts_make_the_whole()
    ensures { (r : FieldsRule) (s : Settings) (t : Tree) (fs : List Answered) (es : List Extra)
        → all_errors s t fs es ≡ []
        → fields_of r s t fs es ≡ Good (finished r.kind (kept_of fs es)).value
        (finished r.kind (kept_of fs es)).grade (finished r.kind (kept_of fs es)).fields }
{}

ghost use Rattle.std.specs.Prelude.{ℕ, Option, map, bytes_eq};
ghost use Rattle.std.specs.List.{IsDistinct};
ghost use Rattle.pv_tree.specs.declared.Value.{Value};
ghost use Rattle.pv_tree.specs.declared.Value.TheVariants as value;
ghost use Rattle.pv_fault.specs.declared.Grade.{Grade};
ghost use Rattle.pv_fields.specs.Sublists.{AreSome};

/// A model has some of the fields, in their order; its set has the names of some of these, in their
/// order. Where the names of the fields are distinct, none stands there twice.
#[tactic(auto, using(crate::proofs::SetNames::set_among, crate::proofs::SetNames::fields_among, crate::proofs::SetNames::set_distinct))]
pub fn set_names_are_fields()
    ensures set { (r : FieldsRule) (s : Settings) (t : Tree) (fs : List Answered) (es : List Extra)
        (cls : List ℕ) (fields : List (List ℕ × Value)) (set : List (List ℕ))
        (extra : List (List ℕ × Value)) (g : Grade) (n : Option ℕ)
        → fields_of r s t fs es ≡ Good (value.Model cls fields set extra) g n
        → AreSome set (map (λ f. f.0) fields) }
    ensures fields { (r : FieldsRule) (s : Settings) (t : Tree) (fs : List Answered)
        (es : List Extra)
        (cls : List ℕ) (fields : List (List ℕ × Value)) (set : List (List ℕ))
        (extra : List (List ℕ × Value)) (g : Grade) (n : Option ℕ)
        → fields_of r s t fs es ≡ Good (value.Model cls fields set extra) g n
        → AreSome (map (λ f. f.0) fields) (map (λ a. a.field.name) fs) }
    ensures once { (r : FieldsRule) (s : Settings) (t : Tree) (fs : List Answered) (es : List Extra)
        (cls : List ℕ) (fields : List (List ℕ × Value)) (set : List (List ℕ))
        (extra : List (List ℕ × Value)) (g : Grade) (n : Option ℕ)
        → fields_of r s t fs es ≡ Good (value.Model cls fields set extra) g n
        → IsDistinct bytes_eq (map (λ a. a.field.name) fs) → IsDistinct bytes_eq set }
{}
