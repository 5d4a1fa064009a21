//! What trees stand for under the keys of a schema, where they hold no schema.
#![tactic(auto)]

mod aliases;
mod distinct;
mod functions;
mod lists;
mod literals;
mod members;
mod numbers;
mod plain_values;
mod texts;
mod value_kind;
mod values;
mod words;

pub use aliases::alias_of;
pub use functions::function_of;
pub use literals::literals_of;
pub use members::members_of;
pub use numbers::{count_of, int_of, positive_of, version_of};
pub use plain_values::{flag_of, text_of};
pub use texts::texts_of;
pub use value_kind::ValueKind;
pub use values::is_value;
pub use words::{extra_behavior_of, on_error_of, sub_type_of, union_mode_of};
