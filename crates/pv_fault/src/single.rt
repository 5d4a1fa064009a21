//! One error, at the input itself or at the end of a path.

ghost use Rattle.std.specs.Prelude.{◌≡◌, [], ◌∷◌, ◌++◌, IfOk, OnOk, OnErr};
ghost use Rattle.pv_fault.specs.Under.{at_path};
ghost use Rattle.pv_fault.specs.Single.{error_here};
ghost use Rattle.pv_fault.specs.Single as spec;

use crate::faults::{Faults, LineError};
use crate::kind::Kind;
use crate::outcome::Outcome;
use pv_text::Memory;
use pv_tree::{Loc, Tree};
use std::alloc::Global;

impl Faults {
    /// Adds the error of this kind at the input.
    pub fn push_here(&mut self, alloc: Global, kind: Kind, input: &Tree) -> Result<(), Memory>
        ensures { OnOk result (self.new ≡ self.old ++ error_here kind input.now ∷ []) }
    {
        self.push(LineError {
            kind,
            loc: Loc::new(alloc),
            input: input.share(alloc)?,
        })
    }

    /// Adds the error of this kind at the input, with the path as its location.
    pub fn push_at(
        &mut self,
        alloc: Global,
        kind: Kind,
        path: &Loc,
        input: &Tree,
    ) -> Result<(), Memory>
        ensures ok { OnOk result (self.new ≡ self.old ++ at_path path.now (error_here kind input.now) ∷ []) }
        ensures err { OnErr result (self.new ≡ self.old) }
    {
        self.push(LineError {
            kind,
            loc: path.copy(alloc)?,
            input: input.share(alloc)?,
        })
    }
}

/// The outcome that is the error of this kind alone, at the input.
pub fn one_error(alloc: Global, kind: Kind, input: &Tree) -> Result<Outcome, Memory>
    ensures { IfOk result (λ o. o ≡ spec.one_error kind input.now) }
{
    let mut faults = Faults::new(alloc);
    faults.push_here(alloc, kind, input)?;
    Ok(Outcome::Bad(faults))
}
