//! How trees are made.

ghost use Rattle.std.specs.Prelude.{◌≡◌, IfOk};
ghost use Rattle.pv_tree.specs.Merging.{object_of};

use crate::member_row::MemberRow;
use crate::merging::merge;
use crate::row::Row;
use crate::tree::{Members, Tree, Trees};
use pv_text::{Memory, Text};
use std::alloc::Global;

#[cycle(share)]
fn share_trees(alloc: Global, items: &Trees) -> Result<Trees, Memory>
    ensures { IfOk result (λ all. all ≡ items.now) }
{
    if let Some(row) = items.try_share() {
        return Ok(row);
    }
    let mut all = Vec::with_capacity(alloc, items.len())?;
    for tree in items.as_slice() {
        all.push(tree.share(alloc)?)?;
    }
    Row::from_vec(alloc, all)
}

#[cycle(share)]
fn share_members(alloc: Global, members: &Members) -> Result<Members, Memory>
    ensures { IfOk result (λ all. all ≡ members.now) }
{
    if let Some(row) = members.try_share() {
        return Ok(row);
    }
    let mut all = Vec::with_capacity(alloc, members.len())?;
    for (name, value) in members.as_slice() {
        let name = name.share(alloc)?;
        let value = value.share(alloc)?;
        all.push((name, value))?;
    }
    MemberRow::from_vec(alloc, all)
}

#[tactic(auto, using(crate::proofs::Told::merged_are))]
fn merge_members(alloc: Global, members: Vec<(Text, Tree)>) -> Result<Members, Memory>
    ensures { IfOk result (λ all. all ≡ object_of members.items) }
{
    let members = merge(alloc, members)?;
    MemberRow::from_vec(alloc, members)
}

impl Tree {
    /// The array of these items.
    pub fn array(alloc: Global, items: Vec<Tree>) -> Result<Tree, Memory>
        ensures { IfOk result (λ t. t ≡ Tree.Array items.items) }
    {
        Ok(Tree::Array(Row::from_vec(alloc, items)?))
    }

    /// Of members with one name the first place and the last value are kept.
    pub fn object(alloc: Global, members: Vec<(Text, Tree)>) -> Result<Tree, Memory>
        ensures { IfOk result (λ t. t ≡ Tree.Object (object_of members.items)) }
    {
        Ok(Tree::Object(merge_members(alloc, members)?))
    }

    /// An equal tree, one more owner of what it holds. Where no further owner can be counted, it is a copy.
    #[cycle(share)]
    pub fn share(&self, alloc: Global) -> Result<Tree, Memory>
        ensures { IfOk result (λ t. t ≡ self.now) }
    {
        match self {
            Tree::Null => Ok(Tree::Null),
            Tree::Bool(b) => Ok(Tree::Bool(*b)),
            Tree::Num(lexeme) => Ok(Tree::Num(lexeme.share(alloc)?)),
            Tree::Str(text) => Ok(Tree::Str(text.share(alloc)?)),
            Tree::Array(items) => Ok(Tree::Array(share_trees(alloc, items)?)),
            Tree::Object(members) => Ok(Tree::Object(share_members(alloc, members)?)),
        }
    }
}
