//! The grammar of picks, which say what a dump keeps or leaves out.
#![tactic(auto)]

mod laws;

pub use laws::picks_are_so;
