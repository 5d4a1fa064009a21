//! The members of an object, while none of them failed.

ghost use Rattle.std.specs.Prelude.{◌≡◌, IfOk, OnOk};
ghost use Rattle.pv_equality.specs.Merging.{merged_entries};
ghost use Rattle.pv_collect.specs.Kept.{nothing_kept, entry_kept, finished_entries};

use crate::kinds::own_grade;
use crate::lengths::{fitting, length_fault};
use crate::tally::Tally;
use pv_distinct::{merged, merged_named};
use pv_fault::{Good, Kind};
use pv_rules::{Collection, GatherRule};
use pv_text::Memory;
use pv_tree::{Entries, Tree, Value};
use std::alloc::Global;
use std::marker::Model;

/// What is kept of the members of a dict so far.
#[derive(Drop)]
pub struct KeptEntries {
    entries: Vec<(Value, Value)>,
    tally: Tally,
}

impl Model for KeptEntries {
    ghost use Rattle.pv_collect.specs.Kept.{Kept};
    ghost use Rattle.pv_tree.specs.declared.Value as tree_value;
    ghost use Rattle.pv_tree.specs.contracts.Value as value;
    ghost use Rattle.std.specs.Coded.{codes};

    ghost Value = { Kept (tree_value.Value × tree_value.Value) };

    ghost coded = { Prim.hlevel (codes, value.the_row.coded) };

    ghost view = { λ k. record { values = k.entries.items; grade = k.tally.grade; count = k.tally.count } };
}

/// The entries of the members of an object, merged. Most often their keys are the names of the members.
fn merged_of(
    alloc: Global,
    input: &Tree,
    entries: Vec<(Value, Value)>,
) -> Result<Vec<(Value, Value)>, Memory>
    ensures { IfOk result (λ kept. kept.items ≡ merged_entries entries.items) }
{
    match input {
        Tree::Object(members) => merged_named(alloc, members, entries),
        _ => merged(alloc, entries),
    }
}

impl KeptEntries {
    /// `members` is how many members are expected.
    pub fn new(alloc: Global, kind: Collection, members: usize) -> Result<KeptEntries, Memory>
        ensures { IfOk result (λ k. k ≡ nothing_kept kind) }
    {
        Ok(KeptEntries {
            entries: Vec::with_capacity(alloc, members)?,
            tally: Tally::new(own_grade(kind)),
        })
    }

    /// Keeps the successes of the next member's key and value, where there are `mark` errors, as before the first
    /// member. Once there are more, nothing changes.
    pub fn take(
        &mut self,
        mark: usize,
        errors: usize,
        key: Option<Good>,
        value: Option<Good>,
    ) -> Result<(), Memory>
        ensures keeps { OnOk result (errors ≡ mark → self.new ≡ entry_kept self.old key value) }
        ensures unchanged { (errors ≡ mark → ⊥) → self.new ≡ self.old }
    {
        if errors != mark {
            return Ok(());
        }
        self.tally.add(&key);
        self.tally.add(&value);
        if let Some((key, value)) = key.zip(value) {
            self.entries.push((key.value, value.value))?;
        }
        Ok(())
    }

    /// The dict, or what its length makes wrong. `input` is the object, whose names are most often the keys.
    pub fn finish(
        self,
        alloc: Global,
        rule: &GatherRule,
        input: &Tree,
    ) -> Result<Result<Good, Kind>, Memory>
        ensures { IfOk result (λ found. found ≡ finished_entries rule.now self) }
    {
        let KeptEntries { entries, tally } = self;
        let entries = merged_of(alloc, input, entries)?;
        let count = entries.len() as u64;
        let fault = length_fault(alloc, rule, count, count)?;
        let good = Good {
            value: Value::Dict(Entries::from_vec(entries)),
            grade: tally.grade,
            fields: tally.count,
        };
        Ok(fitting(fault, good))
    }
}
