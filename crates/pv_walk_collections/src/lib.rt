//! Collections: their items or members by the children of their node.
#![tactic(auto)]

mod collections;
mod dicts;
mod finishing;
mod hashing;
mod positions;
mod sequences;
mod tuples;

pub use collections::Collections;
