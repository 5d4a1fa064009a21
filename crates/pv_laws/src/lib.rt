//! What holds of every outcome. The functions do nothing: their contracts are the laws. No crate
//! stands on this one.
#![tactic(auto)]

mod chains;
mod errors;
mod fields;
mod functions;
mod patterns;
mod sets;
mod unions;

pub use chains::chain_is_the_most;
pub use errors::errors_are_located;
pub use fields::missing_fields_are_told;
pub use functions::functions_see_no_refused_input;
pub use patterns::patterns_are_good_throughout;
pub use sets::{dicts_keep_each_key_once, sets_keep_each_item_once};
pub use unions::unions_answer_by_one_choice;
