//! The printed list of errors.

ghost use Rattle.std.specs.Prelude.{◌≡◌, ◌∷◌, [], ◌++◌, map, codes, OnOk, OnErr};
ghost use Rattle.std.specs.List.{flat_map};
ghost use Rattle.pv_notation.specs.Strings.{escaped, quoted};
ghost use Rattle.pv_notation.specs.Lists.{joined};
ghost use Rattle.pv_notation.specs.Compact.{compact, member_text};
ghost use Rattle.pv_notation.specs.Locations.{loc_text};
ghost use Rattle.pv_notation.specs.Fronts.{IsFront};
ghost use Rattle.pv_fault.specs.Wordings.{piece_text, piece_json, key_and_json};
ghost use Rattle.pv_fault.specs.Errors.{context_member, error_text, errors_text};

use crate::faults::{Faults, LineError};
use crate::pieces::{Member, Piece};
use crate::table::wording_of;
use itoa::Buffer;
use pv_notation::{write_all_escaped, write_loc, write_quoted, write_tree};
use pv_text::{ByteBuf, Memory};
use pv_tree::{Loc, Tree};

#[tactic(auto, using(pv_notation::proofs::Fronts::fronts))]
fn write_json(piece: &Piece<'_>, out: &mut ByteBuf) -> Result<(), Memory>
    ensures ok { OnOk result (out.new ≡ out.old ++ piece_json piece.now) }
    ensures err { OnErr result (IsFront out.old out.new) }
{
    match piece {
        Piece::Text(text) => write_quoted(text.as_bytes(), out)?,
        number => {
            let mut buffer = Buffer::new();
            out.push_slice(number.as_str(&mut buffer).as_bytes())?;
        }
    }
    Ok(())
}

#[tactic(auto, using(pv_notation::proofs::Fronts::fronts))]
fn write_key(key: &str, out: &mut ByteBuf) -> Result<(), Memory>
    ensures ok { OnOk result (out.new ≡ out.old ++ (quoted key.now ++ 58 ∷ [])) }
    ensures err { OnErr result (IsFront out.old out.new) }
{
    write_quoted(key.as_bytes(), out)?;
    out.push(b':')?;
    Ok(())
}

#[tactic(auto, using(pv_notation::proofs::Fronts::fronts))]
fn write_member(member: &Member<'_>, out: &mut ByteBuf) -> Result<(), Memory>
    ensures ok { OnOk result (out.new ≡ out.old ++ member_text (key_and_json member.now)) }
    ensures err { OnErr result (IsFront out.old out.new) }
{
    write_key(member.key, out)?;
    write_json(&member.value, out)?;
    Ok(())
}

#[tactic(auto, using(pv_notation::proofs::Fronts::fronts))]
fn write_members(members: &[Member<'_>], out: &mut ByteBuf) -> Result<(), Memory>
    ensures ok { OnOk result (out.new ≡ out.old ++ joined (map member_text (map key_and_json members.now))) }
    ensures err { OnErr result (IsFront out.old out.new) }
{
    let Some((first, rest)) = members.split_first() else {
        return Ok(());
    };
    write_member(first, out)?;
    for member in rest {
        out.push(b',')?;
        write_member(member, out)?;
    }
    Ok(())
}

#[tactic(auto, using(pv_notation::proofs::Fronts::fronts))]
fn write_escaped_pieces(pieces: &[Piece<'_>], out: &mut ByteBuf) -> Result<(), Memory>
    ensures ok { OnOk result (out.new ≡ out.old ++ flat_map escaped (flat_map piece_text pieces.now)) }
    ensures err { OnErr result (IsFront out.old out.new) }
{
    for piece in pieces {
        let mut buffer = Buffer::new();
        write_all_escaped(piece.as_str(&mut buffer).as_bytes(), out)?;
    }
    Ok(())
}

/// The type's text and the location, each behind its key.
#[tactic(auto, using(pv_notation::proofs::Fronts::fronts))]
fn write_type_and_loc(name: &str, loc: &Loc, out: &mut ByteBuf) -> Result<(), Memory>
    ensures ok { OnOk result (out.new ≡ out.old ++ (member_text (codes "type", quoted name.now) ++ 44 ∷ member_text (codes "loc", loc_text loc.now))) }
    ensures err { OnErr result (IsFront out.old out.new) }
{
    write_key("type", out)?;
    write_quoted(name.as_bytes(), out)?;
    out.push(b',')?;
    write_key("loc", out)?;
    write_loc(loc, out)?;
    Ok(())
}

/// The message behind its key.
#[tactic(auto, using(pv_notation::proofs::Fronts::fronts))]
fn write_message_member(message: &[Piece<'_>], out: &mut ByteBuf) -> Result<(), Memory>
    ensures ok { OnOk result (out.new ≡ out.old ++ member_text (codes "msg", quoted (flat_map piece_text message.now))) }
    ensures err { OnErr result (IsFront out.old out.new) }
{
    write_key("msg", out)?;
    out.push(b'"')?;
    write_escaped_pieces(message, out)?;
    out.push(b'"')?;
    Ok(())
}

/// The input behind its key.
#[tactic(auto, using(pv_notation::proofs::Fronts::fronts))]
fn write_input_member(input: &Tree, out: &mut ByteBuf) -> Result<(), Memory>
    ensures ok { OnOk result (out.new ≡ out.old ++ member_text (codes "input", compact input.now)) }
    ensures err { OnErr result (IsFront out.old out.new) }
{
    write_key("input", out)?;
    write_tree(input, out)?;
    Ok(())
}

/// The context behind a comma and its key, where there is one.
#[tactic(auto, using(pv_notation::proofs::Fronts::fronts))]
fn write_context(members: &[Member<'_>], out: &mut ByteBuf) -> Result<(), Memory>
    ensures ok { OnOk result (out.new ≡ out.old ++ flat_map (λ m. 44 ∷ m) (map member_text (context_member (map key_and_json members.now)))) }
    ensures err { OnErr result (IsFront out.old out.new) }
{
    if members.is_empty() {
        return Ok(());
    }
    out.push(b',')?;
    write_key("ctx", out)?;
    out.push(b'{')?;
    write_members(members, out)?;
    out.push(b'}')?;
    Ok(())
}

#[tactic(auto, using(pv_notation::proofs::Fronts::fronts))]
fn write_error(error: &LineError, out: &mut ByteBuf) -> Result<(), Memory>
    ensures ok { OnOk result (out.new ≡ out.old ++ error_text error.now) }
    ensures err { OnErr result (IsFront out.old out.new) }
{
    let wording = wording_of(&error.kind);
    out.push(b'{')?;
    write_type_and_loc(wording.name, &error.loc, out)?;
    out.push(b',')?;
    write_message_member(&wording.message, out)?;
    out.push(b',')?;
    write_input_member(&error.input, out)?;
    write_context(wording.context.as_slice(), out)?;
    out.push(b'}')?;
    Ok(())
}

#[tactic(auto, using(pv_notation::proofs::Fronts::fronts))]
fn write_errors(errors: &[LineError], out: &mut ByteBuf) -> Result<(), Memory>
    ensures ok { OnOk result (out.new ≡ out.old ++ joined (map error_text errors.now)) }
    ensures err { OnErr result (IsFront out.old out.new) }
{
    let Some((first, rest)) = errors.split_first() else {
        return Ok(());
    };
    write_error(first, out)?;
    for error in rest {
        out.push(b',')?;
        write_error(error, out)?;
    }
    Ok(())
}

#[tactic(auto, using(pv_notation::proofs::Fronts::fronts), unfolding(crate::specs::Errors::errors_text))]
fn write_list(errors: &[LineError], out: &mut ByteBuf) -> Result<(), Memory>
    ensures ok { OnOk result (out.new ≡ out.old ++ errors_text errors.now) }
    ensures err { OnErr result (IsFront out.old out.new) }
{
    out.push(b'[')?;
    write_errors(errors, out)?;
    out.push(b']')?;
    Ok(())
}

/// Appends the list of errors as compact JSON: an object for each, with the keys `type`, `loc`, `msg`, `input` and, where its kind
/// has a context, `ctx`.
#[tactic(auto, using(pv_notation::proofs::Fronts::fronts))]
pub fn write_faults(faults: &Faults, out: &mut ByteBuf) -> Result<(), Memory>
    ensures ok { OnOk result (out.new ≡ out.old ++ errors_text faults.now) }
    ensures err { OnErr result (out.new ≡ out.old) }
{
    let mark = out.len();
    match write_list(faults.as_slice(), out) {
        Ok(()) => Ok(()),
        Err(e) => {
            out.cut(mark);
            Err(e)
        }
    }
}
