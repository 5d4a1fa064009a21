//! Why there is no plan, and where that stands.

ghost use Rattle.std.specs.Prelude.{◌≡◌, Option, Some};
ghost use Rattle.std.specs.Option.{option_map};
ghost use Rattle.pv_node.specs.Lending.{lent, steps};
ghost use Rattle.pv_references.specs.Faults as references;
ghost use Rattle.pv_references.specs.Faults.{BadReferences};
ghost use Rattle.pv_plan.specs.BadPatterns.{to_pattern};
ghost use Rattle.pv_plan.specs.Faults.{FailsBy, IsBehind, Tells, for_references};

use pv_node::{ChildSlot, SlotPath};
use pv_references::NoReferences;
use pv_text::{Memory, Text};
use pv_tree::{Loc, Names};
use std::alloc::{AllocError, Global};

/// Why a schema has no plan: what is wrong with its references; where nothing is, the first of its
/// nodes that names a function that is not there; where all are there, the first that names one of
/// another kind; where none does, the first of its patterns that cannot be read; or want of memory.
#[derive(Drop)]
pub enum BuildFault {
    /// The first node whose name a node before it has.
    DuplicateRef { name: Text },
    /// The first reference whose name no node has, where no name stands twice.
    UndefinedRef { name: Text },
    /// The nodes with a name that lead back to themselves without entering the input, in their
    /// order, where each reference leads to one node.
    EmptyCycle { names: Names },
    UnknownFunction { name: Text },
    WrongFunctionKind { name: Text },
    BadPattern { path: Loc },
    Memory,
}

impl From<Memory> for BuildFault {
    ghost use Rattle.pv_plan.specs.declared.faults.BuildFault.TheVariants.{Memory};

    ghost from_gives = { λ _ e. e ≡ Memory };

    fn from(_e: Memory) -> BuildFault {
        BuildFault::Memory
    }
}

impl From<AllocError> for BuildFault {
    ghost use Rattle.pv_plan.specs.declared.faults.BuildFault.TheVariants.{Memory};

    ghost from_gives = { λ _ e. e ≡ Memory };

    fn from(_e: AllocError) -> BuildFault {
        BuildFault::Memory
    }
}

/// What is wrong with references, as a reason why there is no plan.
#[tactic(auto, using(crate::proofs::Searching::carried))]
pub(crate) fn refused(fault: NoReferences) -> BuildFault
    ensures { (reason : Option BadReferences) → references.Tells fault reason
        → Tells result (option_map for_references reason) }
{
    match fault {
        NoReferences::DuplicateRef { name } => BuildFault::DuplicateRef { name },
        NoReferences::UndefinedRef { name } => BuildFault::UndefinedRef { name },
        NoReferences::EmptyCycle { names } => BuildFault::EmptyCycle { names },
        NoReferences::Memory => BuildFault::Memory,
    }
}

/// The pattern of a node is bad.
pub(crate) fn bad_pattern(alloc: Global) -> BuildFault
    ensures { FailsBy result (Some to_pattern) }
{
    match SlotPath::Key("pattern").before(alloc, Loc::new(alloc)) {
        Ok(path) => BuildFault::BadPattern { path },
        Err(_) => BuildFault::Memory,
    }
}

/// What went wrong in a child schema, seen from the node.
fn behind(alloc: Global, fault: BuildFault, path: &SlotPath<'_>) -> BuildFault
    ensures { IsBehind (steps path.now) fault result }
{
    match fault {
        BuildFault::BadPattern { path: inner } => match path.before(alloc, inner) {
            Ok(path) => BuildFault::BadPattern { path },
            Err(_) => BuildFault::Memory,
        },
        BuildFault::DuplicateRef { name } => BuildFault::DuplicateRef { name },
        BuildFault::UndefinedRef { name } => BuildFault::UndefinedRef { name },
        BuildFault::EmptyCycle { names } => BuildFault::EmptyCycle { names },
        BuildFault::UnknownFunction { name } => BuildFault::UnknownFunction { name },
        BuildFault::WrongFunctionKind { name } => BuildFault::WrongFunctionKind { name },
        BuildFault::Memory => BuildFault::Memory,
    }
}

/// What went wrong in a slot.
pub(crate) fn under_slot(alloc: Global, fault: BuildFault, slot: &ChildSlot<'_>) -> BuildFault
    ensures { IsBehind (lent slot.now).path fault result }
{
    behind(alloc, fault, &slot.path)
}
