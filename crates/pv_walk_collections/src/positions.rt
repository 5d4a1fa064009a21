//! Which position of a tuple takes an item.

ghost use Rattle.std.specs.Prelude.{◌≡◌, Some, slice_get};
ghost use Rattle.pv_walk.specs.Rules as spec;

/// The position that takes the item at this place where the position `v` takes the items that the
/// others leave.
#[tactic(auto, using(crate::proofs::Takers::first_ones, crate::proofs::Takers::repeated_one, crate::proofs::Takers::last_ones, crate::proofs::Takers::no_more))]
fn variadic_taker(v: u64, positions: u64, items: u64, place: u64) -> Option<u64>
    ensures { result ≡ slice_get (spec.takers_of (Some v) positions items) place }
{
    if place < v {
        return Some(place);
    }
    let others = positions.saturating_sub(1);
    let left = items.saturating_sub(others);
    let behind = place - v;
    if behind < left {
        return Some(v);
    }
    let last = behind - left;
    if last < others.saturating_sub(v) {
        Some(v + 1 + last)
    } else {
        None
    }
}

/// The position that takes the item at this place of so many items, where one does.
#[tactic(auto, using(crate::proofs::Takers::run_in, crate::proofs::Takers::run_past))]
pub(crate) fn taker(variadic: Option<u64>, positions: u64, items: u64, place: u64) -> Option<u64>
    ensures { result ≡ slice_get (spec.takers_of variadic positions items) place }
{
    let Some(v) = variadic else {
        return if place < positions { Some(place) } else { None };
    };
    variadic_taker(v, positions, items, place)
}
