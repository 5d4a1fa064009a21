use pv_text::{Memory, Text};
use pv_tree::Names;

/// What is wrong with the names of a schema and the references to them: the first of its nodes
/// whose name a node before it has; where no name stands twice, the first reference whose name no
/// node has; where each is there, the nodes with a name that lead back to themselves without
/// entering the input, in their order; or want of memory.
#[derive(Drop)]
pub enum NoReferences {
    DuplicateRef { name: Text },
    UndefinedRef { name: Text },
    EmptyCycle { names: Names },
    Memory,
}

impl From<Memory> for NoReferences {
    ghost use Rattle.std.specs.Prelude.{◌≡◌};
    ghost use Rattle.pv_references.specs.declared.faults.NoReferences.TheVariants.{Memory};

    ghost from_gives = { λ _ e. e ≡ Memory };

    fn from(_e: Memory) -> NoReferences {
        NoReferences::Memory
    }
}
