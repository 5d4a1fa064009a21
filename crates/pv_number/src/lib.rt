//! The spellings of JSON numbers, and the numbers that they stand for.
#![tactic(auto)]

mod comparing;
mod decimal;
mod exact;
mod exponent;
mod laws;
mod lexeme;
mod scanning;
mod short;
mod splitting;
mod value;
mod written;

pub use comparing::{compare, compare_int};
pub use exact::Whole;
pub use laws::{integers_are_whole, numbers_are_ordered, numbers_are_scanned, wholes_are_one};
pub use lexeme::{Lexeme, LexemeFault};
pub use scanning::{begins, number_len};
pub use splitting::{point_place, split_around, without_sign};
pub use value::{is_integer, whole};
pub use written::integer;
