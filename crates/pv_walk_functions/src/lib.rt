//! Nodes with functions.
#![tactic(auto)]

mod functions;
mod wraps;

pub use functions::Functions;
