//! Why not all lines were answered.

use pv_edge::{Failed, LineFault};
use pv_text::Memory;
use std::alloc::AllocError;
use thiserror::Error;

/// Why not all lines of a file were answered.
#[derive(Clone, Copy, Debug, PartialEq, Eq, Drop, Error)]
pub enum Stop {
    #[error("out of memory")]
    Memory,
    /// A write failed, and took a part of an answer.
    #[error("the answers cannot be written")]
    WriteFailed,
    /// A read failed.
    #[error("the file cannot be read")]
    ReadFailed,
    /// A line or the file has more bytes than its limit.
    #[error("a line or the file is too large")]
    TooLarge,
}

impl From<Memory> for Stop {
    ghost use Rattle.std.specs.Prelude.{◌≡◌};
    ghost use Rattle.pv_line_mode.specs.declared.stop.Stop.TheVariants as stop;

    ghost from_gives = { λ _ s. s ≡ stop.Memory };

    fn from(_e: Memory) -> Stop {
        Stop::Memory
    }
}

impl From<AllocError> for Stop {
    ghost use Rattle.std.specs.Prelude.{◌≡◌};
    ghost use Rattle.pv_line_mode.specs.declared.stop.Stop.TheVariants as stop;

    ghost from_gives = { λ _ s. s ≡ stop.Memory };

    fn from(_e: AllocError) -> Stop {
        Stop::Memory
    }
}

impl From<Failed> for Stop {
    ghost use Rattle.std.specs.Prelude.{◌≡◌};
    ghost use Rattle.pv_line_mode.specs.declared.stop.Stop.TheVariants as stop;

    ghost from_gives = { λ _ s. s ≡ stop.WriteFailed };

    fn from(_e: Failed) -> Stop {
        Stop::WriteFailed
    }
}

impl From<LineFault> for Stop {
    ghost use Rattle.std.specs.Prelude.{◌≡◌};
    ghost use Rattle.pv_line_mode.specs.Stops.{stop_of};

    ghost from_gives = { λ e s. s ≡ stop_of e };

    fn from(e: LineFault) -> Stop {
        match e {
            LineFault::Failed => Stop::ReadFailed,
            LineFault::TooLarge => Stop::TooLarge,
        }
    }
}
