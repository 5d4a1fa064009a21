//! When two values are the same, and which values may be items of sets and keys of dicts.
#![tactic(auto)]

mod hashability;
mod laws;
mod leaves;
mod sameness;

pub use hashability::hashable;
pub use laws::{entries_come_one_by_one, items_come_one_by_one, sameness_is_equivalence};
pub use sameness::same;
