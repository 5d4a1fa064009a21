//! Plain values of trees.

ghost use Rattle.std.specs.Prelude.{◌≡◌, IfOk, map};
ghost use Rattle.pv_tree.specs.Plain as spec;
ghost use Rattle.pv_tree.specs.Plain.{plain, plain_member};

use crate::tree::{Members, Tree};
use crate::value::{Entries, Value, Values};
use pv_number::{Lexeme, integer};
use pv_text::Memory;
use sqlite_items::Items;
use std::alloc::Global;

fn plain_number(alloc: Global, lexeme: &Lexeme) -> Result<Value, Memory>
    ensures { IfOk result (λ v. v ≡ spec.plain_number lexeme.now) }
{
    match integer(lexeme) {
        Some(n) => Ok(Value::Int(n)),
        None => Ok(Value::Lexeme(lexeme.share(alloc)?)),
    }
}

#[cycle(plain)]
fn plain_items(alloc: Global, items: &[Tree]) -> Result<Values, Memory>
    ensures { IfOk result (λ all. all ≡ map plain items.now) }
{
    let mut all = Vec::with_capacity(alloc, items.len())?;
    for item in items {
        all.push(plain_value(alloc, item)?)?;
    }
    Ok(Items::from_vec(all))
}

#[cycle(plain)]
fn plain_members(alloc: Global, members: &Members) -> Result<Entries, Memory>
    ensures { IfOk result (λ all. all ≡ map plain_member members.now.members) }
{
    let mut all = Vec::with_capacity(alloc, members.len())?;
    for (name, value) in members.as_slice() {
        let name = name.share(alloc)?;
        let value = plain_value(alloc, value)?;
        all.push((Value::Str(name), value))?;
    }
    Ok(Items::from_vec(all))
}

/// What a tree stands for by itself: null, flags, texts, lists and dicts with texts as keys; an integer
/// of 128 bits that is written without a point and an exponent, and the lexeme of any other number.
#[cycle(plain)]
pub fn plain_value(alloc: Global, tree: &Tree) -> Result<Value, Memory>
    ensures { IfOk result (λ v. v ≡ plain tree.now) }
{
    match tree {
        Tree::Null => Ok(Value::None),
        Tree::Bool(b) => Ok(Value::Bool(*b)),
        Tree::Num(lexeme) => plain_number(alloc, lexeme),
        Tree::Str(text) => Ok(Value::Str(text.share(alloc)?)),
        Tree::Array(items) => Ok(Value::List(plain_items(alloc, items.as_slice())?)),
        Tree::Object(members) => Ok(Value::Dict(plain_members(alloc, members)?)),
    }
}
