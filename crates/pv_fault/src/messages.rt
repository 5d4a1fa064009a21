//! The text of an error's type, and its message.

ghost use Rattle.std.specs.Prelude.{◌≡◌, ◌++◌, OnOk, OnErr};
ghost use Rattle.std.specs.List.{flat_map};
ghost use Rattle.pv_notation.specs.Fronts.{IsFront};
ghost use Rattle.pv_fault.specs.Table.{printed_as};
ghost use Rattle.pv_fault.specs.Wordings.{piece_text};

use crate::kind::Kind;
use crate::pieces::Piece;
use crate::table::wording_of;
use itoa::Buffer;
use pv_text::{ByteBuf, Memory};

#[tactic(auto, using(pv_notation::proofs::Fronts::fronts))]
fn write_pieces(pieces: &[Piece<'_>], out: &mut ByteBuf) -> Result<(), Memory>
    ensures ok { OnOk result (out.new ≡ out.old ++ flat_map piece_text pieces.now) }
    ensures err { OnErr result (IsFront out.old out.new) }
{
    for piece in pieces {
        let mut buffer = Buffer::new();
        out.push_slice(piece.as_str(&mut buffer).as_bytes())?;
    }
    Ok(())
}

/// Appends the text of an error's type, without quotes or escapes.
pub fn write_type(kind: &Kind, out: &mut ByteBuf) -> Result<(), Memory>
    ensures ok { OnOk result (out.new ≡ out.old ++ (printed_as kind.now).name) }
    ensures err { OnErr result (out.new ≡ out.old) }
{
    out.push_slice(wording_of(kind).name.as_bytes())
}

/// Appends an error's message.
#[tactic(auto, using(pv_notation::proofs::Fronts::fronts))]
pub fn write_message(kind: &Kind, out: &mut ByteBuf) -> Result<(), Memory>
    ensures ok { OnOk result (out.new ≡ out.old ++ (printed_as kind.now).message) }
    ensures err { OnErr result (out.new ≡ out.old) }
{
    let mark = out.len();
    match write_pieces(&wording_of(kind).message, out) {
        Ok(()) => Ok(()),
        Err(e) => {
            out.cut(mark);
            Err(e)
        }
    }
}
