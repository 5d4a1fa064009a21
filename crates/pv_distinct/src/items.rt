//! The items that a set keeps.

ghost use Rattle.std.specs.Prelude.{◌≡◌, [], IfOk, OnOk, length};
ghost use Rattle.std.specs.List.{list_any};
ghost use Rattle.pv_equality.specs.Equality as equality;
ghost use Rattle.pv_equality.specs.Merging.{first_of_each};
ghost use Rattle.pv_equality.specs.Steps as step;

use crate::ascending::are_ascending;
use crate::seen::{Place, Seen};
use pv_equality::same;
use pv_text::Memory;
use pv_tree::Value;
use std::alloc::Global;
use std::marker::Model;

/// Up to so many values are compared one by one.
pub(crate) const FEW: usize = 8;

/// Values no two of which are the same, with an index of them.
#[derive(Drop)]
struct SeenItems {
    values: Vec<Value>,
    seen: Seen,
}

impl Model for SeenItems {
    ghost use Rattle.std.specs.Prelude.{List};
    ghost use Rattle.pv_tree.specs.declared.Value as tree_value;
    ghost use Rattle.pv_tree.specs.contracts.Value as value;
    ghost use Rattle.std.specs.Coded.{codes};
    ghost use Rattle.pv_distinct.specs.Sightings.{IsSeen};

    ghost Value = { List tree_value.Value };

    ghost coded = { Prim.hlevel (codes, value.the_row.coded) };

    ghost view = { λ s. s.values.items };

    ghost invariant = { λ s. IsSeen s.seen s.values.items };
}

impl SeenItems {
    fn new(alloc: Global) -> SeenItems
        ensures { result ≡ [] }
    {
        SeenItems {
            values: Vec::new(alloc),
            seen: Seen::new(alloc),
        }
    }

    /// Adds a value, unless one that is there is the same.
    fn put(&mut self, alloc: Global, value: Value) -> Result<(), Memory>
        ensures { OnOk result (self.new ≡ step.put_item self.old value) }
    {
        let last = self.values.len();
        self.values.push(value)?;
        match self.seen.place(alloc, &self.values[last]) {
            Ok(Place::New) => Ok(()),
            Ok(Place::Old(_)) => {
                self.values.truncate(last);
                Ok(())
            }
            Err(memory) => {
                self.values.truncate(last);
                Err(memory)
            }
        }
    }
}

#[tactic(auto, using(pv_equality::proofs::Keeping::first_none, pv_equality::proofs::Keeping::first_more))]
fn distinct_of_many(alloc: Global, values: Vec<Value>) -> Result<Vec<Value>, Memory>
    ensures { IfOk result (λ kept. kept.items ≡ first_of_each values.items) }
{
    let mut kept = SeenItems::new(alloc);
    for value in values {
        kept.put(alloc, value)?;
    }
    let SeenItems { values, seen: _ } = kept;
    Ok(values)
}

#[tactic(auto, using(std::proofs::lemmas::List::Folds::list_any_more, std::proofs::lemmas::List::Folds::list_any_at))]
fn is_among(kept: &[Value], value: &Value) -> bool
    ensures { result ≡ list_any (λ k. equality.same k value.now) kept.now }
{
    for other in kept {
        if same(other, value) {
            return true;
        }
    }
    false
}

fn put_among(kept: &mut Vec<Value>, value: Value) -> Result<(), Memory>
    ensures { OnOk result (kept.new.items ≡ step.put_item kept.old.items value) }
{
    if !is_among(kept.as_slice(), &value) {
        kept.push(value)?;
    }
    Ok(())
}

#[tactic(auto, using(pv_equality::proofs::Keeping::first_none, pv_equality::proofs::Keeping::first_more))]
fn distinct_of_few(alloc: Global, values: Vec<Value>) -> Result<Vec<Value>, Memory>
    ensures { IfOk result (λ kept. kept.items ≡ first_of_each values.items) }
{
    let mut kept = Vec::new(alloc);
    for value in values {
        put_among(&mut kept, value)?;
    }
    Ok(kept)
}

/// Of values the first of each that are the same, in their order. It takes time in proportion to their size
/// and to the logarithm of their number.
#[tactic(auto, using(pv_equality::proofs::Keeping::distinct_stay))]
pub fn distinct(alloc: Global, values: Vec<Value>) -> Result<Vec<Value>, Memory>
    ensures { IfOk result (λ kept. kept.items ≡ first_of_each values.items) }
{
    if are_ascending(values.as_slice()) {
        return Ok(values);
    }
    if values.len() <= FEW {
        return distinct_of_few(alloc, values);
    }
    distinct_of_many(alloc, values)
}
