//! The table of core schemas: the types of objects, and the keys that each takes.
#![tactic(auto)]

mod key;
mod kind;
mod node_type;
mod row;
mod row_lookup;
mod table;

pub use key::Key;
pub use kind::Kind;
pub use node_type::NodeType;
pub use row::{Fit, KeyRow, Makes, ObjectRow, Test, TypeRow};
pub use row_lookup::{kind_under, row_named};
pub use table::{config, field_types, node_types};
