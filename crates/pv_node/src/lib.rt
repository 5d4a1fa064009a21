//! Schemas as trees of nodes, and the places of their nodes.
#![tactic(auto)]

mod child_slot;
mod config;
mod counting;
mod finding;
mod laws;
mod node;
mod schema;
mod slot_path;

pub use child_slot::{ChildSlot, Edge};
pub use counting::count_nodes;
pub use laws::{places_open, preorder_opens, settings_are_in_force};
pub use node::{Body, Node, any_node};
pub use schema::{MAX_NODES, Schema};
pub use slot_path::SlotPath;
