//! The picks in force at an array or an object.

ghost use Rattle.std.specs.Prelude.{◌≡◌, ◌++◌, map, IfOk, OnOk};
ghost use Rattle.std.specs.List.{list_any};
ghost use Rattle.std.specs.Option.{option_copied};
ghost use Rattle.pv_ser.specs.Force as spec;
ghost use Rattle.pv_ser.specs.Force.{each_part};

use crate::pick::Pick;
use pv_text::{Memory, Text};
use std::alloc::Global;

/// Whether all of a value is picked.
fn is_all(pick: &Pick) -> bool
    ensures { result ≡ spec.is_all pick.now }
{
    matches!(pick, Pick::All)
}

/// What a pick has under a name.
fn under<'a>(pick: &'a Pick, name: &Text) -> Option<&'a Pick>
    ensures { option_copied result ≡ spec.under name.now pick.now }
{
    match pick {
        Pick::All => None,
        Pick::Some(picks) => picks.get(name),
    }
}

/// Adds what a pick has under a name.
fn add_under<'a>(pick: &'a Pick, name: &Text, found: &mut Vec<&'a Pick>) -> Result<(), Memory>
    ensures { OnOk result (map (λ r. r.now) found.new.items ≡
        map (λ r. r.now) found.old.items ++ spec.if_there (spec.under name.now pick.now)) }
{
    if let Some(pick) = under(pick, name) {
        found.push(pick)?;
    }
    Ok(())
}

/// Adds what a pick has for a part of this name. Where the part has the name that stands for each
/// part, its pick is added once, so that picks do not double from level to level.
fn add_for_part<'a>(
    pick: &'a Pick,
    name: &Text,
    each: &Text,
    found: &mut Vec<&'a Pick>,
) -> Result<(), Memory>
    requires { each.now ≡ each_part }
    ensures { OnOk result (map (λ r. r.now) found.new.items ≡
        map (λ r. r.now) found.old.items ++ spec.for_part name.now pick.now) }
{
    if name != each {
        add_under(pick, name, found)?;
    }
    add_under(pick, each, found)
}

/// What picks have for a part of this name. No memory is asked for where there are no picks.
fn inside<'a>(
    alloc: Global,
    picks: &[&'a Pick],
    name: &Text,
    each: &Text,
) -> Result<Vec<&'a Pick>, Memory>
    requires { each.now ≡ each_part }
    ensures { IfOk result (λ v. map (λ r. r.now) v.items ≡ spec.inside name.now (map (λ r. r.now) picks.now)) }
{
    let mut found = Vec::new(alloc);
    for pick in picks {
        add_for_part(pick, name, each, &mut found)?;
    }
    Ok(found)
}

/// Whether an include pick keeps a part of this name.
fn keeps(pick: &Pick, name: &Text, each: &Text) -> bool
    requires { each.now ≡ each_part }
    ensures { result ≡ spec.keeps name.now pick.now }
{
    is_all(pick) || under(pick, name).is_some() || under(pick, each).is_some()
}

/// Whether one of these include picks keeps a part of this name.
fn one_keeps(picks: &[&Pick], name: &Text, each: &Text) -> bool
    requires { each.now ≡ each_part }
    ensures { result ≡ list_any (spec.keeps name.now) (map (λ r. r.now) picks.now) }
{
    for pick in picks {
        if keeps(pick, name, each) {
            return true;
        }
    }
    false
}

/// Whether one of these is all of a value.
fn one_is_all(picks: &[&Pick]) -> bool
    ensures { result ≡ list_any spec.is_all (map (λ r. r.now) picks.now) }
{
    for pick in picks {
        if is_all(pick) {
            return true;
        }
    }
    false
}

/// What is there, as a list.
fn if_there(alloc: Global, pick: Option<&Pick>) -> Result<Vec<&Pick>, Memory>
    ensures { IfOk result (λ v. map (λ r. r.now) v.items ≡ spec.if_there (option_copied pick.entry)) }
{
    let mut picks = Vec::new(alloc);
    if let Some(pick) = pick {
        picks.push(pick)?;
    }
    Ok(picks)
}

/// The picks in force at an array or an object, which keep its parts or leave them out.
#[derive(Drop)]
pub struct InForce<'a> {
    include: Vec<&'a Pick>,
    exclude: Vec<&'a Pick>,
}

impl<'a> InForce<'a> {
    ghost use Rattle.std.specs.Prelude.{◌≡◌, IfOk};
    ghost use Rattle.std.specs.Option.{option_copied, option_map};
    ghost use Rattle.pv_ser.specs.Force as spec;
    ghost use Rattle.pv_ser.specs.Seen.{seen};

    /// The picks in force at a whole value: those of the options.
    pub fn at_root(
        alloc: Global,
        include: Option<&'a Pick>,
        exclude: Option<&'a Pick>,
    ) -> Result<InForce<'a>, Memory>
        ensures { IfOk result (λ f. seen f ≡ spec.at_root (option_copied include.entry) (option_copied exclude.entry)) }
    {
        Ok(InForce {
            include: if_there(alloc, include)?,
            exclude: if_there(alloc, exclude)?,
        })
    }

    /// The picks in force at a part of this name (of an item, the decimal text of its place), or `None` where the part is left out.
    pub fn at_part(
        &self,
        alloc: Global,
        name: &Text,
        each: &Text,
    ) -> Result<Option<InForce<'a>>, Memory>
        requires { each.now ≡ spec.each_part }
        ensures { IfOk result (λ part. option_map seen part ≡ spec.at_part name.now (seen self.now)) }
    {
        let include = self.include.as_slice();
        if !(include.is_empty() || one_keeps(include, name, each)) {
            return Ok(None);
        }
        let exclude = inside(alloc, self.exclude.as_slice(), name, each)?;
        if one_is_all(exclude.as_slice()) {
            return Ok(None);
        }
        Ok(Some(InForce {
            include: inside(alloc, include, name, each)?,
            exclude,
        }))
    }
}
