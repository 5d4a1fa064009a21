//! Functions that a schema names.

ghost use Rattle.std.specs.Prelude.{◌≡◌};
ghost use Rattle.std.specs.Option.{option_copied};
ghost use Rattle.pv_schema_values.specs.Values as spec;

use crate::plain_values::text_of;
use crate::words::is_word;
use pv_text::Text;
use pv_tree::Tree;

/// The name of a function, by the member that says its type and by the one that names it.
fn function_by<'a>(kind: &(Text, Tree), name: &'a (Text, Tree)) -> Option<&'a Text>
    ensures { option_copied result ≡ spec.function_by kind.now name.now }
{
    let is_function = kind.0.as_str() == "type"
        && is_word("no-info", &kind.1)
        && name.0.as_str() == "function";
    if is_function { text_of(&name.1) } else { None }
}

/// The name of a function: of an object of two members, in either order, of which `type` is
/// `no-info` and `function` a text.
#[tactic(auto, unfolding(crate::specs::Values::function_of))]
pub fn function_of(tree: &Tree) -> Option<&Text>
    ensures { option_copied result ≡ spec.function_of tree.now }
{
    match tree.as_object() {
        Some([first, second]) => match function_by(first, second) {
            Some(name) => Some(name),
            None => function_by(second, first),
        },
        _ => None,
    }
}
