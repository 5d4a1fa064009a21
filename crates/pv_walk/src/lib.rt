//! What each step of a walk reads and writes, and what the nodes of a schema give by what their
//! children give.
#![tactic(auto)]

mod level;
mod out;
mod scene;

pub use level::Level;
pub use out::{Before, Out, outcome};
pub use scene::{ScalarNode, Scene};
