//! Why there is no next line.

use crate::shelf::Failed;
use thiserror::Error;

/// Why a reader has no next line.
#[derive(Clone, Copy, Debug, PartialEq, Eq, Drop, Error)]
pub enum LineFault {
    /// A read failed.
    #[error("the file cannot be read")]
    Failed,
    /// A line or the file has more bytes than its limit.
    #[error("a line or the file is too large")]
    TooLarge,
}

impl From<Failed> for LineFault {
    ghost use Rattle.std.specs.Prelude.{◌≡◌};
    ghost use Rattle.pv_edge.specs.declared.line_fault.LineFault.TheVariants as fault;

    ghost from_gives = { λ _ e. e ≡ fault.Failed };

    fn from(_e: Failed) -> LineFault {
        LineFault::Failed
    }
}
