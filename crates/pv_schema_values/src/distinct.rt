//! Whether keys are distinct.

ghost use Rattle.std.specs.Prelude.{◌≡◌, IfOk};
ghost use Rattle.pv_rules.specs.Members as spec;

use pv_text::Memory;
use std::alloc::Global;
use std::collections::HashSet;
use std::hash::Hash;

/// Whether no two of the keys are equal. The time grows as their number does.
pub(crate) fn are_distinct<K: Eq + Hash + Drop>(alloc: Global, keys: Vec<K>) -> Result<bool, Memory>
    ensures { IfOk result (λ b. b ≡ spec.are_distinct K.eq keys.items) }
{
    let count = keys.len();
    let set: HashSet<K> = keys.into_iter().collect(alloc)?;
    Ok(set.len() == count)
}
