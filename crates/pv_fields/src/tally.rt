//! The grade and the count of fields of a whole, part by part.

ghost use Rattle.std.specs.Prelude.{◌≡◌};
ghost use Rattle.pv_fields.specs.Kept.{grade_with, count_with};

use pv_fault::{Good, Grade, add_counts};

#[derive(Clone, Copy)]
pub(crate) struct Tally {
    pub(crate) grade: Grade,
    pub(crate) count: Option<u64>,
}

impl Tally {
    /// Adds those of a part, where it succeeded.
    pub(crate) fn add(&mut self, found: &Option<Good>)
        ensures { self.new ≡ record {
          grade = grade_with self.old.grade found.now;
          count = count_with self.old.count found.now;
        } }
    {
        if let Some(good) = found {
            self.grade = self.grade.least(good.grade);
            self.count = add_counts(self.count, good.fields);
        }
    }
}
