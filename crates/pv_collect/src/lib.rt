//! Lists, tuples, sets and dicts of what validation gave for their parts.
#![tactic(auto)]

mod entries;
mod errors;
mod items;
mod kinds;
mod lengths;
mod tally;

pub use entries::KeptEntries;
pub use errors::type_error;
pub use items::KeptItems;
pub use kinds::needs_hash;
pub use lengths::wanted;
