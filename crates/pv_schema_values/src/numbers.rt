//! Integers, and those of them that lie within bounds.

ghost use Rattle.std.specs.Prelude.{◌≡◌, ◌^◌, ◌<◌};
ghost use Rattle.pv_schema_values.specs.Values as spec;

use pv_number::integer;
use pv_tree::Tree;

/// The greatest count.
const MAX_COUNT: u64 = 4_294_967_295;

/// The last of the versions of UUIDs, which count from 1.
const LAST_VERSION: u64 = 8;

/// An integer of 128 bits that is written without a point and an exponent.
#[tactic(auto, unfolding(crate::specs::Values::int_of))]
pub fn int_of(tree: &Tree) -> Option<i128>
    ensures { result ≡ spec.int_of tree.now }
{
    match tree.as_lexeme() {
        Some(lexeme) => integer(lexeme),
        None => None,
    }
}

fn natural_within(least: u64, most: u64, number: Option<i128>) -> Option<u64>
    ensures { result ≡ spec.natural_within least most number }
{
    match number {
        None => None,
        Some(n) => {
            if n >= least as i128 && n <= most as i128 {
                Some(n as u64)
            } else {
                None
            }
        }
    }
}

/// An integer from 0 to 4,294,967,295.
#[tactic(auto, unfolding(crate::specs::Values::count_of))]
pub fn count_of(tree: &Tree) -> Option<u64>
    ensures { result ≡ spec.count_of tree.now }
{
    natural_within(0, MAX_COUNT, int_of(tree))
}

fn positive(number: Option<i128>) -> Option<i128>
    ensures { result ≡ spec.positive number }
{
    match number {
        Some(n) if n >= 1 => Some(n),
        _ => None,
    }
}

/// An integer of at least 1.
#[tactic(auto, unfolding(crate::specs::Values::positive_of))]
pub fn positive_of(tree: &Tree) -> Option<i128>
    ensures { result ≡ spec.positive_of tree.now }
{
    positive(int_of(tree))
}

/// A version of UUIDs: from 1 to 8.
#[tactic(auto, unfolding(crate::specs::Values::version_of))]
pub fn version_of(tree: &Tree) -> Option<u64>
    ensures { result ≡ spec.version_of tree.now }
{
    natural_within(1, LAST_VERSION, int_of(tree))
}
