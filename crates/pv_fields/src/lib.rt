//! Lists of fields: where the values of fields stand in an object, which of its keys are extra, and
//! what fields and extra keys make together.
#![tactic(auto)]

mod beginning;
mod blank;
mod directories;
mod directory;
mod field_paths;
mod finding;
mod kept;
mod laws;
mod plan;
mod tally;
mod values;

pub use finding::Finds;
pub use kept::KeptFields;
pub use laws::{kept_parts_make_the_whole, set_names_are_fields};
pub use plan::FieldPlan;
