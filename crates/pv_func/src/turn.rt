//! What passes between a function around validation and what drives it.

use crate::raise::Raise;
use pv_fault::Faults;
use pv_tree::{Tree, Value};

/// How such a function begins.
#[derive(Drop)]
pub enum First {
    /// It asks what its inner schema gives for `input`. `state` comes back to it with the answer.
    Ask { state: Tree, input: Tree },
    /// The value that stands in the place, with the lowest grade and no count of fields.
    Done(Value),
    Raise(Raise),
}

/// How it goes on after an answer.
#[derive(Drop)]
pub enum Turn {
    /// It asks again.
    Ask { state: Tree, input: Tree },
    /// As in `First`.
    Done(Value),
    Raise(Raise),
    /// The outcome of its last ask stands, with its grade and count or with its errors.
    Pass,
}

/// What came of an ask. The locations of its errors begin at the node of the function.
#[derive(Drop)]
pub enum Answer {
    Good(Value),
    Bad(Faults),
}
