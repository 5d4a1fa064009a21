//! The shipped functions: objects of each kind that the program knows by their names.
#![tactic(auto)]

mod array;
mod constant;
mod deepen;
mod even;
mod listify;
mod or_null;
mod pair;
mod positive;
mod split_commas;
mod strip;
mod unhex;
mod upper;
mod whole_number;

pub use constant::Constant;
pub use deepen::Deepen;
pub use even::Even;
pub use listify::Listify;
pub use or_null::OrNull;
pub use pair::Pair;
pub use positive::Positive;
pub use split_commas::SplitCommas;
pub use strip::Strip;
pub use unhex::Unhex;
pub use upper::Upper;
