//! The entries that a dict keeps.

ghost use Rattle.std.specs.Prelude.{◌≡◌, ◌+◌, ◌<◌, List, [], ◌∷◌, ◌++◌, IfOk, OnOk, map, length, slice_set, slice_index_or};
ghost use Rattle.std.specs.List.{position_from};
ghost use Rattle.pv_tree.specs.declared.Value as tree_value;
ghost use Rattle.pv_equality.specs.Equality as equality;
ghost use Rattle.pv_equality.specs.Merging.{merged_entries};
ghost use Rattle.pv_equality.specs.Steps as step;
ghost use Rattle.pv_distinct.specs.Sightings.{place_of};

use crate::ascending::have_ascending_keys;
use crate::items::FEW;
use crate::naming::are_named;
use crate::seen::{Place, Seen};
use pv_equality::same;
use pv_text::Memory;
use pv_tree::{Members, Value};
use std::alloc::Global;
use std::marker::Model;

/// The entry at a place takes this value.
fn set_value(entries: &mut Vec<(Value, Value)>, place: usize, value: Value)
    requires { place < length entries.old.items }
    ensures { (e : tree_value.Value × tree_value.Value) → entries.new.items
        ≡ slice_set entries.old.items place ((slice_index_or entries.old.items place e).0, value) }
{
    entries[place].1 = value;
}

/// The last entry goes, and its value goes to the entry at a place before it.
#[tactic(auto, using(crate::proofs::Putting::moved))]
fn move_last_value(entries: &mut Vec<(Value, Value)>, place: usize)
    requires { place + 1 < length entries.old.items }
    ensures { (es : List (tree_value.Value × tree_value.Value)) (e : tree_value.Value × tree_value.Value)
        → entries.old.items ≡ es ++ e ∷ []
        → entries.new.items ≡ slice_set es place ((slice_index_or es place e).0, e.1) }
{
    if let Some((key, value)) = entries.pop() {
        drop(key);
        set_value(entries, place, value);
    }
}

/// Entries no two of which have the same key, with an index of the keys.
#[derive(Drop)]
struct SeenEntries {
    entries: Vec<(Value, Value)>,
    seen: Seen,
}

impl Model for SeenEntries {
    ghost use Rattle.std.specs.Prelude.{List, map};
    ghost use Rattle.pv_tree.specs.declared.Value as tree_value;
    ghost use Rattle.pv_tree.specs.contracts.Value as value;
    ghost use Rattle.std.specs.Coded.{codes};
    ghost use Rattle.pv_distinct.specs.Sightings.{IsSeen};

    ghost Value = { List (tree_value.Value × tree_value.Value) };

    ghost coded = { Prim.hlevel (codes, value.the_row.coded) };

    ghost view = { λ s. s.entries.items };

    ghost invariant = { λ s. IsSeen s.seen (map (λ e. e.0) s.entries.items) };
}

impl SeenEntries {
    fn new(alloc: Global) -> SeenEntries
        ensures { result ≡ [] }
    {
        SeenEntries {
            entries: Vec::new(alloc),
            seen: Seen::new(alloc),
        }
    }

    /// Adds an entry; where a key that is there is the same, it keeps its place and takes the value.
    fn put(&mut self, alloc: Global, entry: (Value, Value)) -> Result<(), Memory>
        ensures { OnOk result (self.new ≡ step.put_entry self.old entry.0 entry.1) }
    {
        let last = self.entries.len();
        self.entries.push(entry)?;
        match self.seen.place(alloc, &self.entries[last].0) {
            Ok(Place::New) => Ok(()),
            Ok(Place::Old(place)) => {
                move_last_value(&mut self.entries, place);
                Ok(())
            }
            Err(memory) => {
                self.entries.truncate(last);
                Err(memory)
            }
        }
    }
}

#[tactic(auto, using(pv_equality::proofs::Merging::merged_none, pv_equality::proofs::Merging::merged_more))]
fn merged_of_many(
    alloc: Global,
    entries: Vec<(Value, Value)>,
) -> Result<Vec<(Value, Value)>, Memory>
    ensures { IfOk result (λ kept. kept.items ≡ merged_entries entries.items) }
{
    let mut kept = SeenEntries::new(alloc);
    for entry in entries {
        kept.put(alloc, entry)?;
    }
    let SeenEntries { entries, seen: _ } = kept;
    Ok(entries)
}

/// Where a key stands among those of entries.
#[tactic(auto, using(crate::proofs::Placing::place_reached, crate::proofs::Placing::place_missing, std::proofs::lemmas::List::Folds::list_any_more))]
fn place_among(entries: &[(Value, Value)], key: &Value) -> Place
    ensures { result ≡ place_of (map (λ e. e.0) entries.now) key.now }
{
    for (i, entry) in entries.iter().enumerate() {
        if same(&entry.0, key) {
            return Place::Old(i);
        }
    }
    Place::New
}

#[tactic(auto, using(crate::proofs::Placing::entry_new, crate::proofs::Placing::entry_old, crate::proofs::Placing::entry_within))]
fn put_among(kept: &mut Vec<(Value, Value)>, entry: (Value, Value)) -> Result<(), Memory>
    ensures { OnOk result (kept.new.items ≡ step.put_entry kept.old.items entry.0 entry.1) }
{
    match place_among(kept.as_slice(), &entry.0) {
        Place::New => kept.push(entry)?,
        Place::Old(place) => {
            let (key, value) = entry;
            drop(key);
            set_value(kept, place, value);
        }
    }
    Ok(())
}

#[tactic(auto, using(pv_equality::proofs::Merging::merged_none, pv_equality::proofs::Merging::merged_more))]
fn merged_of_few(alloc: Global, entries: Vec<(Value, Value)>) -> Result<Vec<(Value, Value)>, Memory>
    ensures { IfOk result (λ kept. kept.items ≡ merged_entries entries.items) }
{
    let mut kept = Vec::new(alloc);
    for entry in entries {
        put_among(&mut kept, entry)?;
    }
    Ok(kept)
}

/// Of entries whose keys are the same the first, with the value of the last, in their order. It takes time
/// in proportion to the keys' size and to the logarithm of their number.
#[tactic(auto, using(pv_equality::proofs::Merging::entries_stay))]
pub fn merged(alloc: Global, entries: Vec<(Value, Value)>) -> Result<Vec<(Value, Value)>, Memory>
    ensures { IfOk result (λ kept. kept.items ≡ merged_entries entries.items) }
{
    if have_ascending_keys(entries.as_slice()) {
        return Ok(entries);
    }
    if entries.len() <= FEW {
        return merged_of_few(alloc, entries);
    }
    merged_of_many(alloc, entries)
}

/// The same of entries whose keys are most likely the names of an object's members, in their order and as
/// texts: where they are, it takes one pass.
#[tactic(auto, using(pv_equality::proofs::Merging::entries_stay))]
pub fn merged_named(
    alloc: Global,
    members: &Members,
    entries: Vec<(Value, Value)>,
) -> Result<Vec<(Value, Value)>, Memory>
    ensures { IfOk result (λ kept. kept.items ≡ merged_entries entries.items) }
{
    if are_named(members.as_slice(), entries.as_slice()) {
        return Ok(entries);
    }
    let kept = merged(alloc, entries)?;
    Ok(kept)
}
