//! What sets keep of equal items, and dicts of equal keys.
#![tactic(auto)]

mod ascending;
mod entries;
mod items;
mod key;
mod laws;
mod making;
mod naming;
mod seen;
mod split_key;
mod token;

pub use entries::{merged, merged_named};
pub use items::distinct;
pub use laws::keys_tell_values;
