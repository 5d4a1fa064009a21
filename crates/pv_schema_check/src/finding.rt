ghost use Rattle.std.specs.Prelude.{◌≡◌};
ghost use Rattle.std.specs.Option.{option_copied};
ghost use Rattle.pv_schema_check.specs.Find.{itself, tree_at};

use pv_schema_table::Key;
use pv_text::Text;
use pv_tree::Tree;

/// The value under a key of an object with these members.
pub fn find<'a>(members: &'a [(Text, Tree)], key: Key) -> Option<&'a Tree>
    ensures { option_copied result ≡ tree_at itself members.now key }
{
    for (name, value) in members {
        if key.text() == name.as_str() {
            return Some(value);
        }
    }
    None
}
