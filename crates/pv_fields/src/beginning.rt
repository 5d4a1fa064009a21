//! Paths that begin with a name.

ghost use Rattle.std.specs.Prelude.{◌≡◌};
ghost use Rattle.std.specs.List.{list_any};
ghost use Rattle.pv_fields.specs.Finding as spec;

use pv_text::Text;
use pv_tree::{Loc, Step};

/// Whether the steps begin with this name.
fn begins(name: &Text, steps: &[Step]) -> bool
    ensures { result ≡ spec.begins name.now steps.now }
{
    match steps.first() {
        None => false,
        Some(Step::Name(first)) => name == first,
        Some(Step::Index(_)) => false,
    }
}

/// Whether the path of this number, where there is one, begins with this name.
pub(crate) fn begins_at(name: &Text, paths: &[Loc], path: Option<usize>) -> bool
    ensures { result ≡ list_any (spec.begins name.now) (spec.path_at paths.now path) }
{
    let Some(path) = path else {
        return false;
    };
    match paths.get(path) {
        Some(steps) => begins(name, steps.as_slice()),
        None => false,
    }
}
