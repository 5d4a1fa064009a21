//! Objects of fields, models around them, and the defaults of fields.
#![tactic(auto)]

mod defaults;
mod extras;
mod fields;
mod models;
mod object;

pub use fields::Fields;
