//! Texts and flags.

ghost use Rattle.std.specs.Prelude.{◌≡◌};
ghost use Rattle.std.specs.Option.{option_copied};
ghost use Rattle.pv_schema_values.specs.Values as spec;

use pv_text::Text;
use pv_tree::Tree;

/// The text of a tree that is one.
#[tactic(auto, unfolding(crate::specs::Values::text_of))]
pub fn text_of(tree: &Tree) -> Option<&Text>
    ensures { option_copied result ≡ spec.text_of tree.now }
{
    tree.as_text()
}

/// The flag of a tree that is one.
#[tactic(auto, unfolding(crate::specs::Values::flag_of))]
pub fn flag_of(tree: &Tree) -> Option<bool>
    ensures { result ≡ spec.flag_of tree.now }
{
    tree.as_flag()
}
