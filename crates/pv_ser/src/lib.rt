//! Picks, which say what a dump keeps or leaves out, as values that a dump looks names up in.
#![tactic(auto)]

mod in_force;
mod laws;
mod name_map;
mod pick;
mod reading;

pub use in_force::InForce;
pub use laws::{excluded_parts_are_left_out, last_picks_are_found, picks_are_read_so};
pub use name_map::NameMap;
pub use pick::{Pick, PickFault, Picks};
pub use reading::read_pick;
