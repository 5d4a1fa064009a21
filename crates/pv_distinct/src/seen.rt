use crate::making::make_key;
use crate::split_key::SplitKey;
use pv_text::Memory;
use pv_tree::Value;
use std::alloc::Global;
use std::collections::BTreeMap;

/// Where a value stands among those that an index has seen.
#[derive(Clone, Copy, Debug, PartialEq, Eq)]
pub enum Place {
    /// The place of the one that is the same.
    Old(usize),
    New,
}

/// The values that came, no two of them the same, each with its place in the order in which they came.
#[derive(Drop)]
pub struct Seen {
    places: BTreeMap<SplitKey, usize>,
}

impl Seen {
    ghost use Rattle.std.specs.Prelude.{◌≡◌, [], List, OnOk, OnErr, IfOk};
    ghost use Rattle.pv_tree.specs.declared.Value.{Value};
    ghost use Rattle.pv_equality.specs.Steps.{put_item};
    ghost use Rattle.pv_distinct.specs.Sightings.{IsSeen, place_of};

    pub fn new(alloc: Global) -> Seen
        ensures { IsSeen result [] }
    {
        Seen {
            places: BTreeMap::new(alloc),
        }
    }

    /// Finds the value among those that were seen, and adds it where none of them is the same. It takes time in
    /// proportion to the value's size, and to the logarithm of the number of values that were seen.
    pub fn place(&mut self, alloc: Global, value: &Value) -> Result<Place, Memory>
        ensures place { (kept : List Value) → IsSeen self.old kept → IfOk result (λ p. p ≡ place_of kept value.now) }
        ensures seen { (kept : List Value) → IsSeen self.old kept → OnOk result (IsSeen self.new (put_item kept value.now)) }
        ensures err { (kept : List Value) → IsSeen self.old kept → OnErr result (IsSeen self.new kept) }
    {
        let key = make_key(alloc, value)?;
        match self.places.get(&key).copied() {
            Some(place) => Ok(Place::Old(place)),
            None => {
                let next = self.places.len();
                self.places.insert(key, next)?;
                Ok(Place::New)
            }
        }
    }
}
