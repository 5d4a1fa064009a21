//! The compact JSON of trees.

ghost use Rattle.std.specs.Prelude.{◌≡◌, ◌++◌, map, OnOk, OnErr};
ghost use Rattle.pv_notation.specs.Lists.{joined};
ghost use Rattle.pv_notation.specs.Compact.{compact, compact_member};
ghost use Rattle.pv_notation.specs.Fronts.{IsFront};

use crate::strings::write_quoted;
use pv_text::{ByteBuf, Memory, Text};
use pv_tree::{Members, Tree};

#[cycle(tree)]
#[tactic(auto, using(crate::proofs::Fronts::fronts))]
fn write_member(name: &Text, value: &Tree, out: &mut ByteBuf) -> Result<(), Memory>
    ensures ok { OnOk result (out.new ≡ out.old ++ compact_member (name.now, value.now)) }
    ensures err { OnErr result (IsFront out.old out.new) }
{
    write_quoted(name.as_str().as_bytes(), out)?;
    out.push(b':')?;
    write_part(value, out)?;
    Ok(())
}

#[cycle(tree)]
#[tactic(auto, using(crate::proofs::Fronts::fronts))]
fn write_items(items: &[Tree], out: &mut ByteBuf) -> Result<(), Memory>
    ensures ok { OnOk result (out.new ≡ out.old ++ joined (map compact items.now)) }
    ensures err { OnErr result (IsFront out.old out.new) }
{
    let Some((first, rest)) = items.split_first() else {
        return Ok(());
    };
    write_part(first, out)?;
    for tree in rest {
        out.push(b',')?;
        write_part(tree, out)?;
    }
    Ok(())
}

#[cycle(tree)]
#[tactic(auto, using(crate::proofs::Fronts::fronts))]
fn write_members(members: &Members, out: &mut ByteBuf) -> Result<(), Memory>
    ensures ok { OnOk result (out.new ≡ out.old ++ joined (map compact_member members.now.members)) }
    ensures err { OnErr result (IsFront out.old out.new) }
{
    let Some(((name, value), rest)) = members.as_slice().split_first() else {
        return Ok(());
    };
    write_member(name, value, out)?;
    for (name, value) in rest {
        out.push(b',')?;
        write_member(name, value, out)?;
    }
    Ok(())
}

#[cycle(tree)]
#[tactic(auto, using(crate::proofs::Fronts::fronts))]
fn write_part(tree: &Tree, out: &mut ByteBuf) -> Result<(), Memory>
    ensures ok { OnOk result (out.new ≡ out.old ++ compact tree.now) }
    ensures err { OnErr result (IsFront out.old out.new) }
{
    match tree {
        Tree::Null => out.push_slice(b"null")?,
        Tree::Bool(true) => out.push_slice(b"true")?,
        Tree::Bool(false) => out.push_slice(b"false")?,
        Tree::Num(lexeme) => out.push_slice(lexeme.as_slice())?,
        Tree::Str(text) => write_quoted(text.as_str().as_bytes(), out)?,
        Tree::Array(items) => {
            out.push(b'[')?;
            write_items(items.as_slice(), out)?;
            out.push(b']')?;
        }
        Tree::Object(members) => {
            out.push(b'{')?;
            write_members(members, out)?;
            out.push(b'}')?;
        }
    }
    Ok(())
}

/// Appends the compact JSON of a tree.
#[tactic(auto, using(crate::proofs::Fronts::fronts))]
pub fn write_tree(tree: &Tree, out: &mut ByteBuf) -> Result<(), Memory>
    ensures ok { OnOk result (out.new ≡ out.old ++ compact tree.now) }
    ensures err { OnErr result (out.new ≡ out.old) }
{
    let mark = out.len();
    match write_part(tree, out) {
        Ok(()) => Ok(()),
        Err(e) => {
            out.cut(mark);
            Err(e)
        }
    }
}
