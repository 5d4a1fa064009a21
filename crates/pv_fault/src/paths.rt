//! Errors with the steps of a path in front of their locations.

ghost use Rattle.std.specs.Prelude.{◌≡◌, ◌++◌, map, OnOk};
ghost use Rattle.pv_fault.specs.Under.{at_path};

use crate::faults::LineError;
use pv_text::Memory;
use pv_tree::{Loc, Step};
use std::alloc::Global;

fn append_steps(alloc: Global, loc: &mut Loc, steps: &[Step]) -> Result<(), Memory>
    ensures { OnOk result (loc.new ≡ loc.old ++ steps.now) }
{
    for step in steps {
        loc.push(step.copy(alloc)?)?;
    }
    Ok(())
}

fn put_one_at_path(alloc: Global, error: &mut LineError, path: &Loc) -> Result<(), Memory>
    ensures { OnOk result (error.new ≡ at_path path.now error.old) }
{
    let mut loc = path.copy(alloc)?;
    append_steps(alloc, &mut loc, error.loc.as_slice())?;
    error.loc = loc;
    Ok(())
}

/// Puts the steps of the path in front of the location of each error.
pub(crate) fn put_at_path(alloc: Global, errors: &mut [LineError], path: &Loc) -> Result<(), Memory>
    ensures { OnOk result (errors.new ≡ map (at_path path.now) errors.old) }
{
    for place in 0..errors.len() {
        put_one_at_path(alloc, &mut errors[place], path)?;
    }
    Ok(())
}
