//! What is wrong with a JSON tree as a core schema, by the table of keys.
#![tactic(auto)]

mod check_fault;
mod checking;
mod fault;
mod finding;
mod fits;
mod missing;
mod object_type;
mod refusals;

pub use check_fault::CheckFault;
pub use checking::check;
pub use fault::{Code, Refusal, ShapeCode};
pub use finding::find;
pub use object_type::row_of;
