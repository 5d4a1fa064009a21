//! What a tree is by itself: an array lends its items, an object its members.

ghost use Rattle.std.specs.Prelude.{◌≡◌};
ghost use Rattle.std.specs.Option.{option_copied};
ghost use Rattle.pv_tree.specs.declared.tree.Tree.{out-Tree};
ghost use Rattle.pv_tree.specs.Parts.{items_at, members_at, text_at, lexeme_at, flag_at, null_at};

use crate::tree::Tree;
use pv_number::Lexeme;
use pv_text::Text;

impl Tree {
    /// The items of an array.
    pub fn as_array(&self) -> Option<&[Tree]>
        ensures { option_copied result ≡ items_at (out-Tree self.now) }
    {
        match self {
            Tree::Array(items) => Some(items.as_slice()),
            Tree::Null | Tree::Bool(_) | Tree::Num(_) | Tree::Str(_) | Tree::Object(_) => None,
        }
    }

    /// The members of an object.
    pub fn as_object(&self) -> Option<&[(Text, Tree)]>
        ensures { option_copied result ≡ members_at (out-Tree self.now) }
    {
        match self {
            Tree::Object(members) => Some(members.as_slice()),
            Tree::Null | Tree::Bool(_) | Tree::Num(_) | Tree::Str(_) | Tree::Array(_) => None,
        }
    }

    /// The text of a string.
    pub fn as_text(&self) -> Option<&Text>
        ensures { option_copied result ≡ text_at (out-Tree self.now) }
    {
        match self {
            Tree::Str(text) => Some(text),
            Tree::Null | Tree::Bool(_) | Tree::Num(_) | Tree::Array(_) | Tree::Object(_) => None,
        }
    }

    /// The spelling of a number.
    pub fn as_lexeme(&self) -> Option<&Lexeme>
        ensures { option_copied result ≡ lexeme_at (out-Tree self.now) }
    {
        match self {
            Tree::Num(lexeme) => Some(lexeme),
            Tree::Null | Tree::Bool(_) | Tree::Str(_) | Tree::Array(_) | Tree::Object(_) => None,
        }
    }

    /// The flag of a `true` or a `false`.
    pub fn as_flag(&self) -> Option<bool>
        ensures { result ≡ flag_at (out-Tree self.now) }
    {
        match self {
            Tree::Bool(flag) => Some(*flag),
            Tree::Null | Tree::Num(_) | Tree::Str(_) | Tree::Array(_) | Tree::Object(_) => None,
        }
    }

    /// Whether it is `null`.
    pub fn is_null(&self) -> bool
        ensures { result ≡ null_at (out-Tree self.now) }
    {
        matches!(self, Tree::Null)
    }
}
