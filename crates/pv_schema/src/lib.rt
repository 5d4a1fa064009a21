//! Core schemas: their reading from JSON trees.
//!
//! A tree is first checked against the table of keys, which finds the first of all that is wrong,
//! and then the schema is made of it.
#![tactic(auto)]

mod bodies;
mod children;
mod choice_schemas;
mod choices;
mod configs;
mod fields;
mod laws;
mod making;
mod node_rules;
mod reading;
mod schema_fault;
mod written;

pub use laws::{
    keys_without_effect_change_no_field, keys_without_effect_change_no_node,
    what_is_read_is_allowed,
};
pub use reading::read_schema;
pub use schema_fault::SchemaFault;
