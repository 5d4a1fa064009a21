//! Whole numbers: in spellings of numbers, in texts, and as multiples of one another.
#![tactic(auto)]

mod laws;
mod multiples;
mod numeric_strings;
mod whole_numbers;

pub use laws::{multiples_are_products, numeric_strings_are_numerals, whole_numbers_are_answers};
pub use multiples::is_multiple;
pub use numeric_strings::numeric_string;
pub use whole_numbers::whole_number;
