//! Lists of fields.

ghost use Rattle.std.specs.Prelude.{◌≡◌, ℕ, List, Option, None, true};
ghost use Rattle.pv_tree.specs.declared.Tree.{Tree};
ghost use Rattle.pv_rules.specs.declared.FieldRule.{FieldRule};
ghost use Rattle.pv_rules.specs.declared.FieldsRule.{FieldsRule};
ghost use Rattle.pv_rules.specs.declared.Settings.{Settings};
ghost use Rattle.pv_fault.specs.declared.Outcome.{Outcome};
ghost use Rattle.pv_paths.specs.Following.{follow};
ghost use Rattle.pv_fields.specs.Paths.{paths_of, place_of};
ghost use Rattle.pv_walk.specs.Fields.{fields};
ghost use Rattle.pv_walk.specs.Rules.{Child};
ghost use Rattle.pv_laws.specs.Locations.{is_any_path};
ghost use Rattle.pv_laws.specs.MissingFields.{HasError, IsMissing, missing_error};

/// Each missing field is told at its place, with the object that lacks it as the input. Where
/// errors stand at paths, the place leads nowhere in this object.
pub fn missing_fields_are_told()
    ensures told { (r : FieldsRule) (s : Settings) (children : List Child)
        (defaults : List (Option Outcome)) (t : Tree) (i : ℕ) (f : FieldRule)
        → IsMissing s r.fields defaults t i f
        → HasError (missing_error s t f) (fields r s children defaults t) }
    ensures nowhere { (s : Settings) (fs : List FieldRule) (defaults : List (Option Outcome))
        (t : Tree) (i : ℕ) (f : FieldRule)
        → IsMissing s fs defaults t i f → s.loc_by_alias ≡ true
        → is_any_path (paths_of s f) ≡ true → follow (place_of s f) t ≡ None }
{}
