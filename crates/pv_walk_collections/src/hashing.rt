ghost use Rattle.std.specs.Prelude.{◌≡◌, ◌&&◌, not};
ghost use Rattle.pv_walk_collections.specs.Going as spec;

use pv_equality::hashable;
use pv_fault::Good;

fn is_hashable(found: &Option<Good>) -> bool
    ensures { result ≡ spec.is_hashable found.now }
{
    match found {
        Some(good) => hashable(&good.value),
        None => true,
    }
}

/// Whether a value was found that has to be hashable and is not.
pub(crate) fn lacks_hash(needed: bool, found: &Option<Good>) -> bool
    ensures { result ≡ (needed && not (spec.is_hashable found.now)) }
{
    needed && !is_hashable(found)
}
