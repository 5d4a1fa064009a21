//! The errors of a union of which each member failed.

ghost use Rattle.std.specs.Prelude.{◌≡◌, ◌∷◌, ◌++◌, [], length, map, IfOk, OnOk};
ghost use Rattle.pv_tree.specs.declared.Step.TheVariants.{Name};
ghost use Rattle.pv_fault.specs.declared.Outcome.TheVariants.{Bad};
ghost use Rattle.pv_fault.specs.Under.{all_under};
ghost use Rattle.pv_union.specs.Unions.{failures};

use pv_fault::Faults;
use pv_text::{Memory, Text};
use pv_tree::{Loc, Step};
use std::alloc::Global;

/// Moves the errors of a member to the end, each under the label.
fn append_member(
    alloc: Global,
    all: &mut Faults,
    label: &Text,
    faults: Faults,
) -> Result<(), Memory>
    ensures { OnOk result (all.new ≡ all.old ++ all_under (Name label.now) faults) }
{
    let mut path = Loc::new(alloc);
    path.push(Step::Name(label.share(alloc)?))?;
    all.append_under(&path, faults)
}

/// All errors in the order of the members, each under the label of its member.
pub fn all_failed(alloc: Global, labels: &[Text], members: Vec<Faults>) -> Result<Faults, Memory>
    requires { length labels.now ≡ length members.items }
    ensures { IfOk result (λ all. all ≡ failures labels.now (map Bad members.items)) }
{
    let mut all = Faults::new(alloc);
    let mut place = 0;
    for faults in members {
        append_member(alloc, &mut all, &labels[place], faults)?;
        place += 1;
    }
    Ok(all)
}
