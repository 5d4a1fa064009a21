//! The fields and extra keys of an object, while none of them failed.

ghost use Rattle.std.specs.Prelude.{◌≡◌, ◌++◌, OnOk};
ghost use Rattle.pv_fields.specs.FieldList.{name_under};
ghost use Rattle.pv_fields.specs.Kept.{found_under};

use crate::plan::FieldPlan;
use crate::tally::Tally;
use pv_fault::{Good, Grade, add_counts};
use pv_text::{Memory, Text};
use pv_tree::Value;
use std::alloc::Global;
use std::marker::Model;

/// Adds the name of something, where it was found.
fn add_name(
    alloc: Global,
    all: &mut Vec<Text>,
    name: &Text,
    found: &Option<Good>,
) -> Result<(), Memory>
    ensures { OnOk result (all.new.items ≡ all.old.items ++ name_under name.now found.now) }
{
    match found {
        Some(_) => all.push(name.share(alloc)?)?,
        None => {}
    }
    Ok(())
}

/// Adds a value under a name, where it was found.
fn add(
    alloc: Global,
    all: &mut Vec<(Text, Value)>,
    name: &Text,
    found: Option<Good>,
) -> Result<(), Memory>
    ensures { OnOk result (all.new.items ≡ all.old.items ++ found_under name.now found) }
{
    if let Some(good) = found {
        all.push((name.share(alloc)?, good.value))?;
    }
    Ok(())
}

/// What is kept of the fields and the extra keys of an object so far.
#[derive(Drop)]
pub struct KeptFields {
    fields: Vec<(Text, Value)>,
    given: Vec<Text>,
    extra: Vec<(Text, Value)>,
    tally: Tally,
}

impl Model for KeptFields {
    ghost use Rattle.pv_fields.specs.Kept.{KeptParts};
    ghost use Rattle.pv_tree.specs.contracts.Value as value;
    ghost use Rattle.std.specs.Coded.{codes};

    ghost Value = { KeptParts };

    ghost coded = { Prim.hlevel (codes, value.the_row.coded) };

    ghost view = { λ k. record {
      fields = k.fields.items;
      given = k.given.items;
      extra = k.extra.items;
      grade = k.tally.grade;
      count = k.tally.count;
    } };
}

impl KeptFields {
    ghost use Rattle.std.specs.Prelude.{◌≡◌, ◌≢◌, IfOk, OnOk};
    ghost use Rattle.pv_fields.specs.Kept.{nothing_kept, given_kept, default_kept, extra_kept, finished};

    /// `fields` is how many fields are expected.
    pub fn new(alloc: Global, fields: usize) -> Result<KeptFields, Memory>
        ensures { IfOk result (λ k. k ≡ nothing_kept) }
    {
        Ok(KeptFields {
            fields: Vec::with_capacity(alloc, fields)?,
            given: Vec::with_capacity(alloc, fields)?,
            extra: Vec::new(alloc),
            tally: Tally {
                grade: Grade::Exact,
                count: None,
            },
        })
    }

    /// Adds a field with its value, where it was found.
    fn add_field(&mut self, alloc: Global, name: &Text, found: Option<Good>) -> Result<(), Memory>
        ensures { OnOk result (self.new ≡ default_kept self.old name.now found) }
    {
        self.tally.add(&found);
        add(alloc, &mut self.fields, name, found)
    }

    /// Keeps the success of a field that was found in the object, where there are `mark` errors, as
    /// before the first field. Else nothing changes.
    pub fn given(
        &mut self,
        alloc: Global,
        mark: usize,
        errors: usize,
        name: &Text,
        found: Option<Good>,
    ) -> Result<(), Memory>
        ensures kept { OnOk result (errors ≡ mark → self.new ≡ given_kept self.old name.now found) }
        ensures left { OnOk result (errors ≢ mark → self.new ≡ self.old) }
    {
        if errors != mark {
            return Ok(());
        }
        add_name(alloc, &mut self.given, name, &found)?;
        self.add_field(alloc, name, found)
    }

    /// The same of the default of a field that was not found.
    pub fn defaulted(
        &mut self,
        alloc: Global,
        mark: usize,
        errors: usize,
        name: &Text,
        found: Option<Good>,
    ) -> Result<(), Memory>
        ensures kept { OnOk result (errors ≡ mark
            → self.new ≡ default_kept self.old name.now found) }
        ensures left { OnOk result (errors ≢ mark → self.new ≡ self.old) }
    {
        if errors != mark {
            return Ok(());
        }
        self.add_field(alloc, name, found)
    }

    /// The same of an extra key.
    pub fn extra(
        &mut self,
        alloc: Global,
        mark: usize,
        errors: usize,
        name: &Text,
        found: Option<Good>,
    ) -> Result<(), Memory>
        ensures kept { OnOk result (errors ≡ mark → self.new ≡ extra_kept self.old name.now found) }
        ensures left { OnOk result (errors ≢ mark → self.new ≡ self.old) }
    {
        if errors != mark {
            return Ok(());
        }
        self.tally.add(&found);
        add(alloc, &mut self.extra, name, found)
    }

    /// The value of all that is kept. The plan is that of the fields.
    pub fn finish(self, alloc: Global, plan: &FieldPlan) -> Result<Good, Memory>
        ensures { IfOk result (λ good. good ≡ finished plan.now.0.kind self) }
    {
        let KeptFields {
            fields,
            given,
            extra,
            tally,
        } = self;
        let count = add_counts(Some(given.len() as u64), tally.count);
        let value = plan.value_of(alloc, fields, given, extra)?;
        Ok(Good {
            value,
            grade: tally.grade,
            fields: count,
        })
    }
}
