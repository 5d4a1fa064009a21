use crate::faults::Faults;
use crate::grade::Grade;
use pv_tree::Value;

/// What validation gives for one input.
#[derive(Drop)]
pub enum Outcome {
    /// `fields` counts the fields that were given, where there are fields at all.
    Good {
        value: Value,
        grade: Grade,
        fields: Option<u64>,
    },
    /// At least one error.
    Bad(Faults),
}

/// A success, where errors are kept apart.
#[derive(Drop)]
pub struct Good {
    pub value: Value,
    pub grade: Grade,
    /// As in `Outcome`.
    pub fields: Option<u64>,
}
