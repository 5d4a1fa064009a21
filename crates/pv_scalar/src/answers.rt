//! Answers: a value with its grade, or what is wrong.

ghost use Rattle.std.specs.Prelude.{◌≡◌, None, IfOk};
ghost use Rattle.pv_scalar.specs.Tests as spec;

use pv_fault::{Grade, Kind, Outcome, one_error};
use pv_text::Memory;
use pv_tree::{Tree, Value};
use std::alloc::Global;

/// A value with its grade, or what is wrong.
pub type Graded<T> = Result<(T, Grade), Kind>;

/// The value, unless something is wrong.
pub(crate) fn with_fault(fault: Option<Kind>, value: Value, grade: Grade) -> Graded<Value>
    ensures { result ≡ spec.with_fault fault (value, grade) }
{
    match fault {
        None => Ok((value, grade)),
        Some(kind) => Err(kind),
    }
}

fn good(value: Value, grade: Grade) -> Outcome
    ensures { result ≡ Outcome.Good value grade None }
{
    Outcome::Good {
        value,
        grade,
        fields: None,
    }
}

/// The outcome that an answer is for a tree.
pub(crate) fn outcome(alloc: Global, answer: Graded<Value>, tree: &Tree) -> Result<Outcome, Memory>
    ensures { IfOk result (λ o. o ≡ spec.outcome_of tree.now answer) }
{
    match answer {
        Ok((value, grade)) => Ok(good(value, grade)),
        Err(kind) => one_error(alloc, kind, tree),
    }
}
