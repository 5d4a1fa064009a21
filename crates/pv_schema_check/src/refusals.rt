//! Refusals at a place, and refusals seen from further out.

ghost use Rattle.std.specs.Prelude.{◌≡◌, Some, []};
ghost use Rattle.pv_tree.specs.declared.Step.TheVariants.{Name, Index};
ghost use Rattle.pv_schema_check.specs.Checking as spec;
ghost use Rattle.pv_schema_table.specs.Keys.{text};
ghost use Rattle.pv_schema_check.specs.Answers.{IsUnder};

use crate::check_fault::CheckFault;
use crate::fault::{Code, Refusal};
use pv_schema_table::Key;
use pv_text::{Memory, Text};
use pv_tree::{Loc, Step};
use std::alloc::Global;

impl From<Memory> for CheckFault {
    ghost use Rattle.pv_schema_check.specs.declared.check_fault.CheckFault.TheVariants.{Memory};

    ghost from_gives = { λ _ e. e ≡ Memory };

    fn from(_e: Memory) -> CheckFault {
        CheckFault::Memory
    }
}

/// A refusal at the place itself.
pub(crate) fn refused(alloc: Global, code: Code) -> CheckFault
    ensures { result ≡ CheckFault.Refused (spec.refused code) }
{
    CheckFault::Refused(Refusal {
        path: Loc::new(alloc),
        code,
    })
}

/// A refusal inside, seen from where the step to it begins.
fn under(refusal: Refusal, step: Step) -> CheckFault
    ensures { IsUnder step (CheckFault.Refused refusal) result }
{
    let mut path = refusal.path;
    match path.push_front(step) {
        Ok(()) => CheckFault::Refused(Refusal {
            path,
            code: refusal.code,
        }),
        Err(_) => CheckFault::Memory,
    }
}

/// What went wrong under a key.
pub(crate) fn under_key(alloc: Global, fault: CheckFault, key: &str) -> CheckFault
    ensures { IsUnder (Name key.now) fault result }
{
    match fault {
        CheckFault::Refused(refusal) => match Text::from_str(alloc, key) {
            Ok(name) => under(refusal, Step::Name(name)),
            Err(_) => CheckFault::Memory,
        },
        CheckFault::Memory => CheckFault::Memory,
    }
}

/// What went wrong in an item.
pub(crate) fn under_item(fault: CheckFault, place: u64) -> CheckFault
    ensures { IsUnder (Index place) fault result }
{
    match fault {
        CheckFault::Refused(refusal) => under(refusal, Step::Index(place)),
        CheckFault::Memory => CheckFault::Memory,
    }
}

/// A refusal at a key.
pub(crate) fn refused_at(alloc: Global, key: Key, code: Code) -> CheckFault
    ensures { IsUnder (Name (text key)) (CheckFault.Refused (spec.refused code)) result }
{
    under_key(alloc, refused(alloc, code), key.text())
}
