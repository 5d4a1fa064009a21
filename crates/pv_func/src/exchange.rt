//! Exchanges with functions around validation, one move after another.

ghost use Rattle.std.specs.Prelude.{◌≡◌, IfOk};
ghost use Rattle.pv_fault.specs.Single.{one_error};
ghost use Rattle.pv_notation.specs.Numbers.{HasNumbers};
ghost use Rattle.pv_func.specs.Raised.{raised};
ghost use Rattle.pv_func.specs.Soundness.{OutcomeIsSound, MoveIsSound};
ghost use Rattle.pv_func.specs.Exchange as spec;
ghost use Rattle.pv_func.specs.Exchange.{begun, answer_of, joined, ask_move, move_of, first_move, next_move};

use crate::raise::Raise;
use crate::turn::{Answer, First, Turn};
use crate::wrap::WrapFn;
use pv_fault::{Grade, Kind, Outcome, one_error};
use pv_text::{Memory, Text};
use pv_tree::{Tree, Value};
use std::alloc::Global;

/// An exchange that waits for the outcome of its ask.
#[derive(Drop)]
pub struct WrapRun {
    pub(crate) state: Tree,
    /// How many asks may follow.
    pub(crate) left: u32,
}

/// How an exchange goes on.
#[derive(Drop)]
pub enum Move {
    /// The outcome of the inner schema for `input` is wanted.
    Ask { run: WrapRun, input: Tree },
    /// This is what comes of it.
    End(Outcome),
}

fn asked_too_often(alloc: Global, tree: &Tree) -> Result<Move, Memory>
    ensures { IfOk result (λ m. m ≡ Move.End (spec.asked_too_often tree.now)) }
{
    let error = Text::from_str(alloc, "")?;
    Ok(Move::End(one_error(alloc, Kind::ValueError { error }, tree)?))
}

/// The move that asks, where an ask is left.
#[tactic(auto, using(crate::proofs::Exchanges::asks_again))]
fn ask(alloc: Global, tree: &Tree, left: u32, state: Tree, input: Tree) -> Result<Move, Memory>
    ensures { IfOk result (λ m. m ≡ ask_move tree.now left state input) }
{
    if left == 0 {
        // Calls: a tree that goes out of scope is proved variant by variant.
        drop(state);
        drop(input);
        return asked_too_often(alloc, tree);
    }
    let left = left - 1;
    Ok(Move::Ask {
        run: WrapRun { state, left },
        input,
    })
}

/// The end with a value that the object gives.
fn done(value: Value) -> Move
    ensures { result ≡ Move.End (Outcome.Good value Grade.Lax None) }
{
    Move::End(Outcome::Good {
        value,
        grade: Grade::Lax,
        fields: None,
    })
}

/// The end with the error of an object that raises.
fn refused(alloc: Global, tree: &Tree, raise: Raise) -> Result<Move, Memory>
    ensures { IfOk result (λ m. m ≡ Move.End (one_error (raised raise) tree.now)) }
{
    Ok(Move::End(one_error(alloc, raise.into_kind(), tree)?))
}

/// An outcome as an object sees it, with what the object does not see.
fn split(outcome: Outcome) -> (Answer, Grade, Option<u64>)
    ensures answer { result.0 ≡ answer_of outcome }
    ensures back { outcome ≡ joined result.0 result.1 result.2 }
{
    match outcome {
        Outcome::Good {
            value,
            grade,
            fields,
        } => (Answer::Good(value), grade, fields),
        Outcome::Bad(faults) => (Answer::Bad(faults), Grade::Exact, None),
    }
}

fn join(answer: Answer, grade: Grade, fields: Option<u64>) -> Outcome
    ensures { result ≡ joined answer grade fields }
{
    match answer {
        Answer::Good(value) => Outcome::Good {
            value,
            grade,
            fields,
        },
        Answer::Bad(faults) => Outcome::Bad(faults),
    }
}

/// The move that a later turn is, by the outcome of the ask before it.
fn moved(alloc: Global, tree: &Tree, left: u32, turn: Turn, last: Outcome) -> Result<Move, Memory>
    ensures { IfOk result (λ m. m ≡ move_of tree.now left turn last) }
{
    match turn {
        Turn::Ask { state, input } => {
            drop(last);
            ask(alloc, tree, left, state, input)
        }
        Turn::Done(value) => {
            drop(last);
            Ok(done(value))
        }
        Turn::Raise(raise) => {
            drop(last);
            refused(alloc, tree, raise)
        }
        Turn::Pass => Ok(Move::End(last)),
    }
}

/// The move that a first turn is.
fn opened(alloc: Global, tree: &Tree, asks: u32, first: First) -> Result<Move, Memory>
    ensures { IfOk result (λ m. m ≡ move_of tree.now asks (begun first) (spec.asked_too_often tree.now)) }
{
    match first {
        First::Ask { state, input } => ask(alloc, tree, asks, state, input),
        First::Done(value) => Ok(done(value)),
        First::Raise(raise) => refused(alloc, tree, raise),
    }
}

/// The first move of an exchange about a tree.
#[tactic(auto, unfolding(crate::specs::Exchange::first_move))]
pub fn begin<W: WrapFn>(object: &W, alloc: Global, tree: &Tree) -> Result<Move, Memory>
    ensures value { IfOk result (λ m. m ≡ first_move (W.wrapper object.now) tree.now) }
    ensures sound { HasNumbers tree.now → IfOk result MoveIsSound }
{
    let first = object.start(alloc, tree)?;
    opened(alloc, tree, object.asks(), first)
}

/// The next move of an exchange about a tree, by the outcome of the ask that waits.
#[tactic(auto, unfolding(crate::specs::Exchange::next_move))]
pub fn answer<W: WrapFn>(
    object: &W,
    alloc: Global,
    run: WrapRun,
    tree: &Tree,
    outcome: Outcome,
) -> Result<Move, Memory>
    ensures value { IfOk result (λ m. m ≡ next_move (W.wrapper object.now) tree.now run outcome) }
    ensures sound { HasNumbers tree.now → HasNumbers run.state → OutcomeIsSound outcome → IfOk result MoveIsSound }
{
    let left = run.left;
    let (answer, grade, fields) = split(outcome);
    let turn = object.next(alloc, &run.state, left, &answer);
    drop(run);
    let last = join(answer, grade, fields);
    match turn {
        Ok(turn) => moved(alloc, tree, left, turn, last),
        Err(e) => {
            drop(last);
            Err(e)
        }
    }
}
