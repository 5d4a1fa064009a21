//! Scalars: what nodes without child schemas give for a tree.
#![tactic(auto)]

mod answers;
mod built;
mod enums;
mod flags;
mod formats;
mod integers;
mod laws;
mod listing;
mod literals;
mod places;
mod schemes;
mod texts;
mod validation;
mod values;

pub use answers::Graded;
pub use built::Scalar;
pub use laws::{ints_of_texts_are_numerals, strict_ints_are_written};
pub use pv_formats::{Matchers, Pattern, PatternFault, compile_pattern};
pub use validation::{plain_int, scalar, scalar_answer};
