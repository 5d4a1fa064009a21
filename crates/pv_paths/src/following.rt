//! Paths into trees.

ghost use Rattle.std.specs.Prelude.{◌≡◌};
ghost use Rattle.std.specs.Option.{option_copied};
ghost use Rattle.pv_tree.specs.Merged.{value_at};
ghost use Rattle.pv_paths.specs.Following as spec;
ghost use Rattle.pv_paths.specs.Following.{hit};

use crate::found::Found;
use pv_text::Text;
use pv_tree::{Loc, Step, Tree};

fn member<'a>(members: &'a [(Text, Tree)], name: &Text) -> Option<&'a Tree>
    ensures { option_copied result ≡ value_at members.now name.now }
{
    for (known, value) in members {
        if name == known {
            return Some(value);
        }
    }
    None
}

/// Where a step leads.
fn part<'a>(step: &Step, tree: &'a Tree) -> Option<&'a Tree>
    ensures { option_copied result ≡ spec.part_at step.now tree.now }
{
    match step {
        Step::Name(name) => member(tree.as_object()?, name),
        Step::Index(place) => tree.as_array()?.get(*place as usize),
    }
}

/// The tree at the end of the steps.
pub fn follow<'a>(steps: &[Step], tree: &'a Tree) -> Option<&'a Tree>
    ensures { option_copied result ≡ spec.follow steps.now tree.now }
{
    let mut here = tree;
    for step in steps {
        here = part(step, here)?;
    }
    Some(here)
}

/// The first path whose steps all lead on.
#[tactic(auto, unfolding(crate::specs::Following::found))]
pub fn first_found<'a>(paths: &[Loc], tree: &'a Tree) -> Found<'a>
    ensures { hit result ≡ spec.found paths.now tree.now }
{
    for (path, steps) in paths.iter().enumerate() {
        if let Some(tree) = follow(steps.as_slice(), tree) {
            return Found::At { path, tree };
        }
    }
    Found::Missing
}
