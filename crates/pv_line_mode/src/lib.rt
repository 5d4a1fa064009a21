//! The lines of a file, each answered before the next one is looked for.
#![tactic(auto)]

mod answering;
mod line_answers;
mod stop;

pub use answering::answer_lines;
pub use line_answers::LineAnswers;
pub use stop::Stop;
