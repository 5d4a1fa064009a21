//! Paths into trees.
#![tactic(auto)]

mod following;
mod found;

pub use following::{first_found, follow};
pub use found::Found;
