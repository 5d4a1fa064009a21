//! Members of an object that is made, of which a repeated name keeps its first place and its last value.

ghost use Rattle.std.specs.Prelude.{◌≡◌, ◌<◌, ◌+◌, length, take, drop, Some, None, IfOk, OnOk, OnSome};
ghost use Rattle.std.specs.Bool.{OnFalse};
ghost use Rattle.pv_tree.specs.Merging.{IsIndex, merged, place_of};
ghost use Rattle.pv_tree.specs.Merging as spec;

use crate::name_order::{NameOrder, are_ascending};
use pv_text::{Memory, Text};
use std::alloc::Global;
use std::collections::BTreeMap;

/// Up to so many names are compared one by one.
const FEW: usize = 16;

fn is_among<V>(members: &[(Text, V)], name: &Text) -> bool
    ensures { OnFalse result (place_of members.now name.now ≡ None) }
{
    for (known, _) in members {
        if name == known {
            return true;
        }
    }
    false
}

#[tactic(auto, using(crate::proofs::Merges::merged_none, crate::proofs::Merges::merged_more))]
/// Whether a name may be repeated: `false` comes only where none is.
fn may_repeat<V>(members: &[(Text, V)]) -> bool
    ensures { OnFalse result (merged members.now ≡ members.now) }
{
    if members.len() > FEW {
        return !are_ascending(NameOrder::ByLength, members)
            && !are_ascending(NameOrder::ByBytes, members);
    }
    for place in 0..members.len() {
        if is_among(&members[..place], &members[place].0) {
            return true;
        }
    }
    false
}

/// Puts one more member to those that are kept, with the places of their names beside them.
fn put<V: Drop>(
    alloc: Global,
    kept: &mut Vec<(Text, V)>,
    places: &mut BTreeMap<Text, usize>,
    name: Text,
    value: V,
) -> Result<(), Memory>
    requires { IsIndex places.old kept.old.items }
    ensures kept { OnOk result (kept.new.items ≡ spec.put kept.old.items name value) }
    ensures places { OnOk result (IsIndex places.new kept.new.items) }
{
    match places.get(&name).copied() {
        Some(place) => {
            kept[place].1 = value;
            Ok(())
        }
        None => {
            places.insert(name.share(alloc)?, kept.len())?;
            kept.push((name, value))?;
            Ok(())
        }
    }
}

#[tactic(auto, unfolding(crate::specs::Merging::merged))]
fn merge_repeated<V: Drop>(alloc: Global, members: Vec<(Text, V)>) -> Result<Vec<(Text, V)>, Memory>
    ensures { IfOk result (λ all. all.items ≡ merged members.items) }
{
    let mut kept = Vec::new(alloc);
    let mut places = BTreeMap::new(alloc);
    for (name, value) in members {
        put(alloc, &mut kept, &mut places, name, value)?;
    }
    Ok(kept)
}

/// The members in their order, repeated names merged. Takes time in proportion to the length of
/// all names, and, unless they ascend, to the logarithm of their number.
pub(crate) fn merge<V: Drop>(
    alloc: Global,
    members: Vec<(Text, V)>,
) -> Result<Vec<(Text, V)>, Memory>
    ensures { IfOk result (λ all. all.items ≡ merged members.items) }
{
    if may_repeat(members.as_slice()) {
        merge_repeated(alloc, members)
    } else {
        Ok(members)
    }
}
