//! The words behind the program's name, and what they ask for.
#![tactic(auto)]

mod asked;
mod laws;
mod options;
mod reading;
mod table;
mod words;

pub use asked::{Asked, Command};
pub use laws::{
    options_may_change_places, refusals_have_places,
    refusals_name_the_first_word_that_cannot_stand, validate_is_written_so,
};
pub use options::Options;
pub use reading::command;
pub use words::Words;
