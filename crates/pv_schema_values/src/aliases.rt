//! Aliases: the paths at which the value of a field is looked for.

ghost use Rattle.std.specs.Prelude.{◌≡◌, [], ◌∷◌, IfOk, option_map};
ghost use Rattle.pv_tree.specs.Parts.{items_at};
ghost use Rattle.pv_tree.specs.declared.Step.TheVariants.{Name};
ghost use Rattle.pv_tree.specs.declared.Tree.{out-Tree};
ghost use Rattle.pv_schema_values.specs.Values as spec;

use crate::lists::{FromTree, all_of, some_in};
use crate::numbers::count_of;
use crate::plain_values::text_of;
use pv_rules::AliasRule;
use pv_text::{Memory, Text};
use pv_tree::{Loc, Step, Tree};
use sqlite_items::Items;
use std::alloc::Global;

impl FromTree for Step {
    ghost of = { spec.step_of };

    #[tactic(auto, unfolding(crate::specs::Values::step_of))]
    fn from_tree(alloc: Global, tree: &Tree) -> Result<Option<Step>, Memory> {
        match text_of(tree) {
            Some(text) => Ok(Some(Step::Name(text.share(alloc)?))),
            None => Ok(count_of(tree).map(Step::Index)),
        }
    }
}

/// The path of a name and these steps.
fn path_from(alloc: Global, name: &Text, steps: Vec<Step>) -> Result<Loc, Memory>
    ensures { IfOk result (λ path. path ≡ Name name.now ∷ steps.items) }
{
    let mut path = Loc::new(alloc);
    path.push(Step::Name(name.share(alloc)?))?;
    for step in steps {
        path.push(step)?;
    }
    Ok(path)
}

fn path_by(alloc: Global, items: &[Tree]) -> Result<Option<Loc>, Memory>
    ensures { IfOk result (λ found. found ≡ spec.path_by items.now) }
{
    let [first, later @ ..] = items else {
        return Ok(None);
    };
    let Some(name) = text_of(first) else {
        return Ok(None);
    };
    match all_of::<Step>(alloc, later)? {
        Some(steps) => Ok(Some(path_from(alloc, name, steps)?)),
        None => Ok(None),
    }
}

impl FromTree for Loc {
    ghost of = { spec.path_of };

    #[tactic(auto, unfolding(crate::specs::Values::path_of))]
    fn from_tree(alloc: Global, tree: &Tree) -> Result<Option<Loc>, Memory> {
        match tree.as_array() {
            Some(items) => path_by(alloc, items),
            None => Ok(None),
        }
    }
}

/// The alias of one path.
fn alias_to(alloc: Global, path: Loc) -> Result<AliasRule, Memory>
    ensures { IfOk result (λ alias. alias ≡ spec.alias_to (path ∷ [])) }
{
    let mut paths = Items::new(alloc);
    paths.push(path)?;
    Ok(AliasRule { paths })
}

/// The alias of several paths, where each item of a list is one.
fn alias_in(alloc: Global, tree: &Tree) -> Result<Option<AliasRule>, Memory>
    ensures { IfOk result (λ found. found ≡ option_map spec.alias_to
        (spec.some_in spec.path_of (items_at (out-Tree tree.now)))) }
{
    match some_in(alloc, tree)? {
        Some(paths) => Ok(Some(AliasRule {
            paths: Items::from_vec(paths),
        })),
        None => Ok(None),
    }
}

/// A text, which is the path of one name, a path, or a list of paths that is not empty. A path is a
/// list of texts and counts that begins with a text. Texts are shared.
#[tactic(auto, unfolding(crate::specs::Values::alias_of))]
pub fn alias_of(alloc: Global, tree: &Tree) -> Result<Option<AliasRule>, Memory>
    ensures { IfOk result (λ found. found ≡ spec.alias_of tree.now) }
{
    if let Some(name) = text_of(tree) {
        let path = path_from(alloc, name, Vec::new(alloc))?;
        return Ok(Some(alias_to(alloc, path)?));
    }
    match Loc::from_tree(alloc, tree)? {
        Some(path) => Ok(Some(alias_to(alloc, path)?)),
        None => alias_in(alloc, tree),
    }
}
