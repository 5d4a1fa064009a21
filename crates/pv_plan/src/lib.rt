//! Plans: schemas as tables of numbered records, ready to validate by.
#![tactic(auto)]

mod building;
mod faults;
mod functions;
mod laws;
mod laying;
mod operations;
mod plan;
mod record;

pub use building::build;
pub use faults::BuildFault;
pub use laws::stands_for_it;
pub use plan::Plan;
pub use record::{Op, Record};
