//! Unions, and the nodes that pass on what one of their children gives.
#![tactic(auto)]

mod choices;
mod tagged;
mod unions;

pub use choices::Choices;
