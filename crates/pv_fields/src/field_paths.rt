//! The paths of fields under settings.

ghost use Rattle.std.specs.Prelude.{◌≡◌, IfOk, OnOk, ◌++◌, [], ◌∷◌, map};
ghost use Rattle.pv_fields.specs.Paths as spec;
ghost use Rattle.pv_fields.specs.Planned as planned;

use pv_rules::{AliasRule, FieldRule, Settings};
use pv_text::{Memory, Text};
use pv_tree::{Loc, Step};
use sqlite_items::Items;
use std::alloc::Global;

/// The paths of a field, and its name as a path.
#[derive(Drop)]
pub(crate) struct FieldPaths {
    pub(crate) paths: Items<Loc>,
    pub(crate) named: Loc,
}

/// The path of one step, a name.
fn named(alloc: Global, name: &Text) -> Result<Loc, Memory>
    ensures { IfOk result (λ path. path ≡ spec.named name.now) }
{
    let mut path = Loc::new(alloc);
    path.push(Step::Name(name.share(alloc)?))?;
    Ok(path)
}

fn copy_paths(alloc: Global, paths: &[Loc]) -> Result<Vec<Loc>, Memory>
    ensures { IfOk result (λ all. all.items ≡ paths.now) }
{
    let mut all = Vec::with_capacity(alloc, paths.len())?;
    for path in paths {
        all.push(path.copy(alloc)?)?;
    }
    Ok(all)
}

fn one_path(alloc: Global, name: &Text) -> Result<Vec<Loc>, Memory>
    ensures { IfOk result (λ all. all.items ≡ spec.named name.now ∷ []) }
{
    let mut all = Vec::with_capacity(alloc, 1)?;
    all.push(named(alloc, name)?)?;
    Ok(all)
}

/// Whether fields are looked for under their names too.
fn reads_by_name(settings: &Settings) -> bool
    ensures { result ≡ spec.reads_by_name settings.now }
{
    settings.populate_by_name || settings.validate_by_name
}

/// The paths of an alias, where the settings read by alias.
fn alias_paths(alloc: Global, settings: &Settings, alias: &AliasRule) -> Result<Vec<Loc>, Memory>
    ensures { IfOk result (λ all. all.items
        ≡ spec.paths_if settings.now.validate_by_alias alias.now.paths) }
{
    if settings.validate_by_alias {
        copy_paths(alloc, alias.paths.as_slice())
    } else {
        Ok(Vec::new(alloc))
    }
}

/// The paths of a field, by its alias where it has one.
fn paths_by(
    alloc: Global,
    settings: &Settings,
    name: &Text,
    alias: &Option<AliasRule>,
) -> Result<Vec<Loc>, Memory>
    ensures { IfOk result (λ all. all.items ≡ spec.paths_by settings.now name.now alias.now) }
{
    let Some(alias) = alias else {
        return one_path(alloc, name);
    };
    let mut all = alias_paths(alloc, settings, alias)?;
    if reads_by_name(settings) {
        let by_name = named(alloc, name)?;
        all.push(by_name)?;
    }
    Ok(all)
}

fn field_paths(alloc: Global, settings: &Settings, field: &FieldRule) -> Result<FieldPaths, Memory>
    ensures { IfOk result (λ paths. paths ≡ planned.field_paths settings.now field.now) }
{
    let paths = paths_by(alloc, settings, &field.name, &field.validation_alias)?;
    Ok(FieldPaths {
        paths: Items::from_vec(paths),
        named: named(alloc, &field.name)?,
    })
}

/// The paths of each of these fields.
pub(crate) fn all_field_paths(
    alloc: Global,
    settings: &Settings,
    fields: &[FieldRule],
) -> Result<Items<FieldPaths>, Memory>
    ensures { IfOk result (λ all. all ≡ map (planned.field_paths settings.now) fields.now) }
{
    let mut all = Vec::with_capacity(alloc, fields.len())?;
    for field in fields {
        all.push(field_paths(alloc, settings, field)?)?;
    }
    Ok(Items::from_vec(all))
}
