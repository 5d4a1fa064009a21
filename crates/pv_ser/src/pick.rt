use crate::name_map::NameMap;
use pv_text::{Memory, Text};
use pv_tree::Loc;
use std::alloc::{AllocError, AllocFailed};

/// Names with their picks, each name once, in the order of the document.
pub type Picks = NameMap<Pick>;

/// What is picked of a value.
#[derive(Drop)]
pub enum Pick {
    /// All of it.
    All,
    /// Of its parts what their names have. An item's name is the decimal text of its place from 0.
    Some(Picks),
}

/// Why a tree is not read as a pick.
#[derive(Drop)]
pub enum PickFault {
    /// What stands there is no pick, or in a list neither a text nor a count.
    Shape { path: Loc },
    Memory,
}

impl From<Memory> for PickFault {
    ghost use Rattle.std.specs.Prelude.{◌≡◌};
    ghost use Rattle.pv_ser.specs.declared.pick.PickFault.TheVariants.{Memory};

    ghost from_gives = { λ _ e. e ≡ Memory };

    fn from(_e: Memory) -> PickFault {
        PickFault::Memory
    }
}

impl From<AllocError> for PickFault {
    ghost use Rattle.std.specs.Prelude.{◌≡◌};
    ghost use Rattle.pv_ser.specs.declared.pick.PickFault.TheVariants.{Memory};

    ghost from_gives = { λ _ e. e ≡ Memory };

    fn from(_e: AllocError) -> PickFault {
        PickFault::Memory
    }
}

impl<T: Drop> From<AllocFailed<T>> for PickFault {
    ghost use Rattle.std.specs.Prelude.{◌≡◌};
    ghost use Rattle.pv_ser.specs.declared.pick.PickFault.TheVariants.{Memory};

    ghost from_gives = { λ _ e. e ≡ Memory };

    fn from(_e: AllocFailed<T>) -> PickFault {
        PickFault::Memory
    }
}
