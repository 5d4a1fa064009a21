//! The names of nodes, the references to them, and the edges along which a schema stays at one
//! input.
#![tactic(auto)]

mod checking;
mod circles;
mod duplicates;
mod edges;
mod faults;
mod laws;
mod names;
mod nodes;
mod targets;
mod undefined;

pub use checking::{References, check};
pub use faults::NoReferences;
pub use laws::cycles_have_names;
pub use names::{Names, number};
pub use nodes::nodes_of;
pub use targets::reference;
