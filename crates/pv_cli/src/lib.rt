//! The program's commands over any files and streams.
#![tactic(auto)]

mod answer;
mod checking;
mod commands;
mod document;
mod ending;
mod lined;
mod lines;
mod running;
mod schema;
mod status;
mod working;

pub use answer::Answer;
pub use pv_command::Words;
pub use running::run;
pub use status::Status;
