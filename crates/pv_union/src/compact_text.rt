//! The compact JSON of trees as texts.

ghost use Rattle.std.specs.Prelude.{◌≡◌, All, IsUtf8, IfOk};
ghost use Rattle.pv_notation.specs.Compact.{compact, compact_member};

use pv_notation::write_tree;
use pv_text::{ByteBuf, Memory, Text};
use pv_tree::{Members, Tree};
use std::alloc::Global;

#[cycle(utf8)]
fn list_is_utf8(trees: &[Tree])
    ensures { All (λ t. IsUtf8 (compact t)) trees.now }
{
    for tree in trees {
        tree_is_utf8(tree);
    }
}

#[cycle(utf8)]
fn members_are_utf8(members: &Members)
    ensures { All (λ m. IsUtf8 (compact_member m)) members.now.members }
{
    for (name, tree) in members.as_slice() {
        let _name = name.as_str();
        tree_is_utf8(tree);
    }
}

/// The texts of each tree that code can make are UTF-8. It goes over the whole tree.
#[cycle(utf8)]
#[tactic(auto, using(crate::proofs::CompactUtf8::utf8_null))]
fn tree_is_utf8(tree: &Tree)
    ensures { IsUtf8 (compact tree.now) }
{
    match tree {
        Tree::Null => {}
        Tree::Bool(_) => {}
        Tree::Num(lexeme) => {
            let _bytes = lexeme.as_slice();
        }
        Tree::Str(text) => {
            let _text = text.as_str();
        }
        Tree::Array(trees) => list_is_utf8(trees.as_slice()),
        Tree::Object(members) => members_are_utf8(members),
    }
}

/// The compact JSON of a tree.
pub(crate) fn compact_text(alloc: Global, tree: &Tree) -> Result<Text, Memory>
    ensures { IfOk result (λ t. t ≡ compact tree.now) }
{
    tree_is_utf8(tree);
    let mut out = ByteBuf::new(alloc);
    write_tree(tree, &mut out)?;
    Text::from_utf8(out.into_vec())
}
