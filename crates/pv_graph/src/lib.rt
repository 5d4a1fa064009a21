//! Graphs of numbered nodes: which nodes stand on cycles, and how long walks are where none does.
#![tactic(auto)]

mod cycles;
mod forest;
mod graph;
mod heights;
mod laws;
mod marks;
mod reversal;
mod search;

pub use cycles::{Cycles, find_cycles};
pub use graph::Graph;
pub use laws::{acyclic_is_told, marks_are_flags, reaching_is_told};
