//! Values that a schema names.

ghost use Rattle.std.specs.Prelude.{◌≡◌, IfOk, option_map};
ghost use Rattle.pv_number.specs.WrittenIntegers as written;
ghost use Rattle.pv_rules.specs.declared.Literal.TheVariants as literal;
ghost use Rattle.pv_schema_values.specs.Values as spec;

use crate::lists::{FromTree, some_in};
use pv_number::{Lexeme, integer};
use pv_rules::Literal;
use pv_text::Memory;
use pv_tree::Tree;
use sqlite_items::Items;
use std::alloc::Global;

/// An integer of 128 bits that is written without a point and an exponent.
pub(crate) fn int_literal(lexeme: &Lexeme) -> Option<Literal>
    ensures { result ≡ option_map literal.Int (written.integer lexeme.now) }
{
    match integer(lexeme) {
        None => None,
        Some(n) => Some(Literal::Int(n)),
    }
}

impl FromTree for Literal {
    ghost of = { spec.literal_of };

    #[tactic(auto, unfolding(crate::specs::Values::literal_of))]
    fn from_tree(alloc: Global, tree: &Tree) -> Result<Option<Literal>, Memory> {
        match tree {
            Tree::Null => Ok(Some(Literal::Null)),
            Tree::Bool(flag) => Ok(Some(Literal::Flag(*flag))),
            Tree::Num(lexeme) => Ok(int_literal(lexeme)),
            Tree::Str(text) => Ok(Some(Literal::Text(text.share(alloc)?))),
            Tree::Array(_) | Tree::Object(_) => Ok(None),
        }
    }
}

/// The values of a list of nulls, flags, ints and texts that is not empty. Texts are shared.
#[tactic(auto, unfolding(crate::specs::Values::literals_of))]
pub fn literals_of(alloc: Global, tree: &Tree) -> Result<Option<Items<Literal>>, Memory>
    ensures { IfOk result (λ found. found ≡ spec.literals_of tree.now) }
{
    match some_in(alloc, tree)? {
        Some(all) => Ok(Some(Items::from_vec(all))),
        None => Ok(None),
    }
}
