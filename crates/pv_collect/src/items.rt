//! The items of an array, while none of them failed.

ghost use Rattle.std.specs.Prelude.{◌≡◌, IfOk, OnOk};
ghost use Rattle.pv_collect.specs.Gathering.{kept};
ghost use Rattle.pv_collect.specs.Kept.{nothing_kept, item_kept, finished_items};

use crate::kinds::{made_of, needs_hash, own_grade};
use crate::lengths::{fitting, length_fault};
use crate::tally::Tally;
use pv_distinct::distinct;
use pv_fault::{Good, Kind};
use pv_rules::{Collection, GatherRule};
use pv_text::Memory;
use pv_tree::{Value, Values};
use std::alloc::Global;
use std::marker::Model;

/// What is kept of the items of a list, a tuple or a set so far.
#[derive(Drop)]
pub struct KeptItems {
    values: Vec<Value>,
    tally: Tally,
}

impl Model for KeptItems {
    ghost use Rattle.pv_collect.specs.Kept.{Kept};
    ghost use Rattle.pv_tree.specs.declared.Value as tree_value;
    ghost use Rattle.pv_tree.specs.contracts.Value as value;
    ghost use Rattle.std.specs.Coded.{codes};

    ghost Value = { Kept tree_value.Value };

    ghost coded = { Prim.hlevel (codes, value.the_row.coded) };

    ghost view = { λ k. record { values = k.values.items; grade = k.tally.grade; count = k.tally.count } };
}

/// What a collection keeps of values.
fn merged(alloc: Global, kind: Collection, values: Vec<Value>) -> Result<Vec<Value>, Memory>
    ensures { IfOk result (λ vs. vs.items ≡ kept kind values.items) }
{
    if needs_hash(kind) {
        return distinct(alloc, values);
    }
    Ok(values)
}

impl KeptItems {
    /// `items` is how many items are expected.
    pub fn new(alloc: Global, kind: Collection, items: usize) -> Result<KeptItems, Memory>
        ensures { IfOk result (λ k. k ≡ nothing_kept kind) }
    {
        Ok(KeptItems {
            values: Vec::with_capacity(alloc, items)?,
            tally: Tally::new(own_grade(kind)),
        })
    }

    /// Keeps the success of the next item, where there are `mark` errors, as before the first item. Once there
    /// are more, nothing changes.
    pub fn take(&mut self, mark: usize, errors: usize, found: Option<Good>) -> Result<(), Memory>
        ensures keeps { OnOk result (errors ≡ mark → self.new ≡ item_kept self.old found) }
        ensures unchanged { (errors ≡ mark → ⊥) → self.new ≡ self.old }
    {
        if errors != mark {
            return Ok(());
        }
        self.tally.add(&found);
        if let Some(good) = found {
            self.values.push(good.value)?;
        }
        Ok(())
    }

    /// The collection of an array of so many items, or what its length makes wrong.
    pub fn finish(
        self,
        alloc: Global,
        rule: &GatherRule,
        items: u64,
    ) -> Result<Result<Good, Kind>, Memory>
        ensures { IfOk result (λ found. found ≡ finished_items rule.now items self) }
    {
        let KeptItems { values, tally } = self;
        let values = merged(alloc, rule.kind, values)?;
        let fault = length_fault(alloc, rule, items, values.len() as u64)?;
        let good = Good {
            value: made_of(rule.kind, Values::from_vec(values)),
            grade: tally.grade,
            fields: tally.count,
        };
        Ok(fitting(fault, good))
    }
}
