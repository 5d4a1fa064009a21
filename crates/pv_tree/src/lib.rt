//! JSON documents as trees, the values that validation gives, and locations in both.
#![tactic(auto)]

mod copying;
mod laws;
mod location;
mod making;
mod member_row;
mod merging;
mod name_order;
mod parts;
mod plain;
mod row;
mod tree;
mod value;

pub use laws::merging_keeps_first_places_and_last_values;
pub use location::{Loc, Step};
pub use member_row::MemberRow;
pub use plain::plain_value;
pub use row::Row;
pub use tree::{Members, Tree, Trees};
pub use value::{AtomKind, Entries, Named, Names, Value, Values};
