//! The places of tags.

ghost use Rattle.std.specs.Prelude.{◌≡◌, ℕ, List, bytes_eq, Some, None, if◌then◌else◌, IfOk, OnOk};
ghost use Rattle.std.specs.BTreeMap.{get_by_text};
ghost use Rattle.std.specs.Option.{option_or};
ghost use Rattle.pv_union.specs.TagPlaces.{KeepsPlaces};

use pv_text::{Memory, Text};
use std::alloc::Global;
use std::collections::BTreeMap;

/// Notes the place of a tag, unless it has an earlier one.
fn note(
    alloc: Global,
    places: &mut BTreeMap<String, usize>,
    tag: &Text,
    place: usize,
) -> Result<(), Memory>
    ensures { OnOk result ((key : List ℕ) → get_by_text places.new key
        ≡ option_or (get_by_text places.old key)
        (if bytes_eq key tag.now then Some place else None)) }
{
    if !places.contains_key(tag.as_str()) {
        places.insert(String::from_str(alloc, tag.as_str())?, place)?;
    }
    Ok(())
}

/// The first place of each tag.
pub(crate) fn places_of(alloc: Global, tags: &[Text]) -> Result<BTreeMap<String, usize>, Memory>
    ensures { IfOk result (λ places. KeepsPlaces places tags.now) }
{
    let mut places = BTreeMap::new(alloc);
    for (place, tag) in tags.iter().enumerate() {
        note(alloc, &mut places, tag, place)?;
    }
    Ok(places)
}
