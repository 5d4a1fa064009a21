//! Validation: what a schema means for a tree.
#![tactic(auto)]

mod laws;
mod records;
mod validating;
mod walking;

pub use laws::means_the_same;
pub use validating::validate;
