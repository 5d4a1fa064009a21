//! Lists of fields, ready to be looked up.

use crate::beginning::begins_at;
use crate::blank::Blank;
use crate::field_paths::{FieldPaths, all_field_paths};
use pv_paths::{Found, first_found};
use pv_rules::{ExtraBehavior, FieldRule, FieldsKind, FieldsRule, Settings};
use pv_text::{Memory, Text};
use pv_tree::{Loc, Members, Tree};
use sqlite_items::Items;
use std::alloc::Global;
use std::marker::Model;

/// A list of fields with the paths of each. It is seen as its rule and the settings in force.
#[derive(Drop)]
pub struct FieldPlan {
    pub(crate) rule: FieldsRule,
    pub(crate) settings: Settings,
    pub(crate) paths: Items<FieldPaths>,
    /// The names of the fields.
    pub(crate) names: Members,
    pub(crate) blank: Blank,
}

impl Model for FieldPlan {
    ghost use Rattle.std.specs.Prelude.{◌≡◌, map};
    ghost use Rattle.pv_rules.specs.declared.FieldsRule.{FieldsRule};
    ghost use Rattle.pv_rules.specs.declared.Settings.{Settings};
    ghost use Rattle.pv_fields.specs.Planned.{field_paths};

    ghost Value = { FieldsRule × Settings };

    ghost view = { λ p. (p.rule, p.settings) };

    ghost invariant = { λ p. p.paths ≡ map (field_paths p.settings) p.rule.fields };
}

/// The names of fields as those of an object.
fn names_of(alloc: Global, fields: &[FieldRule]) -> Result<Members, Memory> {
    let mut names = Vec::with_capacity(alloc, fields.len())?;
    for field in fields {
        names.push((field.name.share(alloc)?, Tree::Null))?;
    }
    match Tree::object(alloc, names)? {
        Tree::Object(members) => Ok(members),
        _ => Err(Memory),
    }
}

impl FieldPlan {
    ghost use Rattle.std.specs.Prelude.{◌≡◌, ◌<◌, Some, length, slice_get, IfOk};
    ghost use Rattle.std.specs.Option.{option_map};
    ghost use Rattle.pv_fields.specs.Paths.{front_of, place_of, extra_of};
    ghost use Rattle.pv_fields.specs.Finding.{found_field, is_extra, paths_at};
    ghost use Rattle.pv_paths.specs.Following.{hit};

    /// The plan of a rule under settings. The paths of all fields are laid out here.
    pub fn build(alloc: Global, rule: &FieldsRule, settings: &Settings) -> Result<FieldPlan, Memory>
        ensures { IfOk result (λ p. p ≡ (rule.now, settings.now)) }
    {
        let paths = all_field_paths(alloc, settings, rule.fields.as_slice())?;
        Ok(FieldPlan {
            rule: rule.copy(alloc)?,
            settings: settings.copy(alloc)?,
            paths,
            names: names_of(alloc, rule.fields.as_slice())?,
            blank: Blank::new(alloc)?,
        })
    }

    /// The number of fields.
    pub fn len(&self) -> usize
        ensures { result ≡ length self.now.0.fields }
    {
        self.rule.fields.len()
    }

    /// Whether the fields are those of a model or those of a typed dict.
    pub fn kind(&self) -> FieldsKind
        ensures { result ≡ self.now.0.kind }
    {
        self.rule.kind
    }

    /// The name of a field.
    pub fn name(&self, field: usize) -> &Text
        requires { field < length self.now.0.fields }
        ensures { option_map (λ f. f.name) (slice_get self.now.0.fields field) ≡ Some result.now }
    {
        &self.rule.fields.as_slice()[field].name
    }

    /// Whether a field that is not found and has no default is missing. Else it may be absent.
    pub fn required(&self, field: usize) -> bool
        requires { field < length self.now.0.fields }
        ensures { option_map (λ f. f.required) (slice_get self.now.0.fields field) ≡ Some result }
    {
        self.rule.fields.as_slice()[field].required
    }

    /// What is done with extra keys.
    pub fn extra(&self) -> ExtraBehavior
        ensures { result ≡ extra_of self.now.0 self.now.1 }
    {
        self.rule
            .extra_behavior
            .unwrap_or(self.settings.extra_fields_behavior)
    }

    /// What stands in front of the errors of a field that was found at the path of this number.
    pub fn front(&self, field: usize, path: usize) -> &Loc
        requires { field < length self.now.0.fields }
        ensures { option_map (λ f. front_of self.now.1 f path) (slice_get self.now.0.fields field)
            ≡ Some result.now }
    {
        let own = &self.paths.as_slice()[field];
        if !self.settings.loc_by_alias {
            return &own.named;
        }
        match own.paths.as_slice().get(path) {
            Some(path) => path,
            None => &own.named,
        }
    }

    /// Where a field is missing, which stands in front of the errors of its default too.
    pub fn place(&self, field: usize) -> &Loc
        requires { field < length self.now.0.fields }
        ensures { option_map (place_of self.now.1) (slice_get self.now.0.fields field)
            ≡ Some result.now }
    {
        self.front(field, 0)
    }

    /// Where the value of a field is found.
    pub fn lookup<'a>(&self, field: usize, input: &'a Tree) -> Found<'a>
        requires { field < length self.now.0.fields }
        ensures { option_map (found_field self.now.1 input.now) (slice_get self.now.0.fields field)
            ≡ Some (hit result) }
    {
        first_found(self.paths.as_slice()[field].paths.as_slice(), input)
    }

    /// Whether a key begins none of the paths at which fields were found. `found` has the number of
    /// the path for each field.
    pub fn is_extra(&self, key: &Text, found: &[Option<usize>]) -> bool
        ensures { result ≡ is_extra (paths_at self.now.1 self.now.0.fields found.now) key.now }
    {
        for (field, own) in self.paths.as_slice().iter().enumerate() {
            if field >= found.len() {
                return true;
            }
            if begins_at(key, own.paths.as_slice(), found[field]) {
                return false;
            }
        }
        true
    }
}
