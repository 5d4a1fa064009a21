//! The tags of inputs.

ghost use Rattle.std.specs.Prelude.{◌≡◌};
ghost use Rattle.pv_tree.specs.declared.Tree.{out-Tree};
ghost use Rattle.pv_paths.specs.Following.{hit};
ghost use Rattle.pv_number.specs.WrittenIntegers.{integer};
ghost use Rattle.pv_union.specs.Tags.{found_read, number_read, read, tag, tree_read};

use pv_number::{Lexeme, integer};
use pv_paths::{Found, first_found};
use pv_rules::TagRule;
use pv_text::Text;
use pv_tree::Tree;

/// The tag of an input.
#[derive(Clone, Copy)]
pub enum Tag<'a> {
    /// The input is no object.
    NotObject,
    /// The input has no tag.
    Missing,
    Text(&'a Text),
    Int(i128),
    /// A tag that no choice can have.
    Odd(&'a Tree),
}

/// The tag that a number is.
fn number_tag<'a>(tree: &'a Tree, lexeme: &Lexeme) -> Tag<'a>
    ensures { read result ≡ number_read tree.now (integer lexeme.now) }
{
    match integer(lexeme) {
        Some(n) => Tag::Int(n),
        None => Tag::Odd(tree),
    }
}

/// The tag that a tree is.
fn tree_tag(tree: &Tree) -> Tag<'_>
    ensures { read result ≡ tree_read tree.now (out-Tree tree.now) }
{
    match tree {
        Tree::Str(text) => Tag::Text(text),
        Tree::Num(lexeme) => number_tag(tree, lexeme),
        Tree::Null => Tag::Odd(tree),
        Tree::Bool(_) => Tag::Odd(tree),
        Tree::Array(_) => Tag::Odd(tree),
        Tree::Object(_) => Tag::Odd(tree),
    }
}

/// The tag that was found.
fn found_tag(found: Found<'_>) -> Tag<'_>
    ensures { read result ≡ found_read (hit found.entry) }
{
    match found {
        Found::At { tree, .. } => tree_tag(tree),
        Found::Missing => Tag::Missing,
    }
}

/// The tag of an input: what stands at the first path of the discriminator that is found.
#[tactic(auto, unfolding(crate::specs::Tags::tag))]
pub fn tag_of<'a>(rule: &TagRule, input: &'a Tree) -> Tag<'a>
    ensures { read result ≡ tag rule.now input.now }
{
    match input.as_object() {
        Some(_) => found_tag(first_found(rule.discriminator.paths.as_slice(), input)),
        None => Tag::NotObject,
    }
}
