//! Errors: their kinds and texts, lists of them, and outcomes.
#![tactic(auto)]

mod counts;
mod faults;
mod grade;
mod kind;
mod laws;
mod messages;
mod outcome;
mod paths;
mod pieces;
mod printing;
mod single;
mod table;
mod wording;

pub use counts::add_counts;
pub use faults::{Faults, LineError};
pub use grade::Grade;
pub use kind::Kind;
pub use laws::part_by_part;
pub use messages::{write_message, write_type};
pub use outcome::{Good, Outcome};
pub use printing::write_faults;
pub use single::one_error;
