//! Lists of texts.

ghost use Rattle.std.specs.Prelude.{◌≡◌, IfOk};
ghost use Rattle.pv_schema_values.specs.Values as spec;

use crate::lists::{FromTree, some_in};
use crate::plain_values::text_of;
use pv_text::{Memory, Text};
use pv_tree::{Names, Row, Tree};
use std::alloc::Global;

impl FromTree for Text {
    ghost of = { spec.text_of };

    fn from_tree(alloc: Global, tree: &Tree) -> Result<Option<Text>, Memory> {
        match text_of(tree) {
            None => Ok(None),
            Some(text) => Ok(Some(text.share(alloc)?)),
        }
    }
}

/// The texts of a list of texts that is not empty. They are shared.
#[tactic(auto, unfolding(crate::specs::Values::texts_of))]
pub fn texts_of(alloc: Global, tree: &Tree) -> Result<Option<Names>, Memory>
    ensures { IfOk result (λ found. found ≡ spec.texts_of tree.now) }
{
    match some_in(alloc, tree)? {
        Some(all) => Ok(Some(Row::from_vec(alloc, all)?)),
        None => Ok(None),
    }
}
