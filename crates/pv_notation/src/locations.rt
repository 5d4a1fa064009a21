//! The JSON lists of locations.

ghost use Rattle.std.specs.Prelude.{◌≡◌, ◌++◌, map, OnOk, OnErr};
ghost use Rattle.pv_notation.specs.Lists.{joined};
ghost use Rattle.pv_notation.specs.Locations.{loc_text, step_text};
ghost use Rattle.pv_notation.specs.Fronts.{IsFront};

use crate::strings::write_quoted;
use itoa::Buffer;
use pv_text::{ByteBuf, Memory};
use pv_tree::{Loc, Step};

#[tactic(auto, using(crate::proofs::Fronts::fronts))]
fn write_step(step: &Step, out: &mut ByteBuf) -> Result<(), Memory>
    ensures ok { OnOk result (out.new ≡ out.old ++ step_text step.now) }
    ensures err { OnErr result (IsFront out.old out.new) }
{
    match step {
        Step::Name(name) => write_quoted(name.as_str().as_bytes(), out)?,
        Step::Index(place) => {
            let mut buffer = Buffer::new();
            out.push_slice(buffer.format(*place).as_bytes())?;
        }
    }
    Ok(())
}

#[tactic(auto, using(crate::proofs::Fronts::fronts))]
fn write_steps(steps: &[Step], out: &mut ByteBuf) -> Result<(), Memory>
    ensures ok { OnOk result (out.new ≡ out.old ++ joined (map step_text steps.now)) }
    ensures err { OnErr result (IsFront out.old out.new) }
{
    let Some((first, rest)) = steps.split_first() else {
        return Ok(());
    };
    write_step(first, out)?;
    for step in rest {
        out.push(b',')?;
        write_step(step, out)?;
    }
    Ok(())
}

#[tactic(auto, using(crate::proofs::Fronts::fronts), unfolding(crate::specs::Locations::loc_text))]
fn write_list(steps: &[Step], out: &mut ByteBuf) -> Result<(), Memory>
    ensures ok { OnOk result (out.new ≡ out.old ++ loc_text steps.now) }
    ensures err { OnErr result (IsFront out.old out.new) }
{
    out.push(b'[')?;
    write_steps(steps, out)?;
    out.push(b']')?;
    Ok(())
}

/// Appends a location as a JSON list of names and places.
#[tactic(auto, using(crate::proofs::Fronts::fronts))]
pub fn write_loc(loc: &Loc, out: &mut ByteBuf) -> Result<(), Memory>
    ensures ok { OnOk result (out.new ≡ out.old ++ loc_text loc.now) }
    ensures err { OnErr result (out.new ≡ out.old) }
{
    let mark = out.len();
    match write_list(loc.as_slice(), out) {
        Ok(()) => Ok(()),
        Err(e) => {
            out.cut(mark);
            Err(e)
        }
    }
}
