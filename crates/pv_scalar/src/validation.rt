//! The outcome of a scalar for a tree.

ghost use Rattle.std.specs.Prelude.{◌≡◌, Bool, Ok, Err, if◌then◌else◌, IfOk, IfSome};
ghost use Rattle.pv_tree.specs.Plain.{plain};
ghost use Rattle.pv_scalar.specs.Bodies.{rule_of};
ghost use Rattle.pv_scalar.specs.Scalars as spec;

use crate::answers::{Graded, outcome};
use crate::built::{Body, Scalar};
use crate::enums::{enum_answer, literal_answer};
use crate::flags::flag;
use crate::formats::{url_answer, uuid_answer};
use crate::integers::{int, int_fault, passing_int};
use crate::texts::{bytes_answer, str_answer};
use pv_fault::{Grade, Kind, Outcome};
use pv_formats::Matchers;
use pv_rules::{IntRule, Settings};
use pv_text::Memory;
use pv_tree::{Tree, Value, plain_value};
use std::alloc::Global;

/// Any tree, as the value that it is.
fn any_answer(alloc: Global, tree: &Tree) -> Result<Graded<Value>, Memory>
    ensures { IfOk result (λ a. a ≡ Ok (plain tree.now, Grade.Lax)) }
{
    let value = plain_value(alloc, tree)?;
    Ok(Ok((value, Grade::Lax)))
}

fn null_answer(is_null: bool) -> Graded<Value>
    ensures { result ≡ (if is_null then Ok (Value.None, Grade.Exact) else Err Kind.NoneRequired) }
{
    if is_null {
        Ok((Value::None, Grade::Exact))
    } else {
        Err(Kind::NoneRequired)
    }
}

#[tactic(auto, unfolding(crate::specs::Scalars::none_answer))]
fn none_answer(tree: &Tree) -> Graded<Value>
    ensures { result ≡ spec.none_answer tree.now }
{
    null_answer(tree.is_null())
}

#[tactic(auto, unfolding(crate::specs::Scalars::bool_answer))]
fn bool_answer(strict: bool, tree: &Tree) -> Graded<Value>
    ensures { result ≡ spec.bool_answer strict tree.now }
{
    match flag(strict, tree) {
        Ok((b, grade)) => Ok((Value::Bool(b), grade)),
        Err(kind) => Err(kind),
    }
}

#[tactic(auto, unfolding(crate::specs::Scalars::int_answer))]
fn int_answer(rule: &IntRule, strict: bool, tree: &Tree) -> Graded<Value>
    ensures { result ≡ spec.int_answer rule.now strict tree.now }
{
    match int(strict, tree) {
        Ok((n, grade)) => match int_fault(rule, n) {
            None => Ok((Value::Int(n), grade)),
            Some(kind) => Err(kind),
        },
        Err(kind) => Err(kind),
    }
}

#[tactic(auto, unfolding(crate::specs::Scalars::answer_of))]
fn answer<'a>(
    alloc: Global,
    matchers: &mut Matchers<'a>,
    body: &'a Body,
    settings: &Settings,
    strict: bool,
    tree: &Tree,
) -> Result<Graded<Value>, Memory>
    ensures { IfOk result (λ a. a ≡ spec.answer_of (rule_of body.now) settings.now strict tree.now) }
{
    match body {
        Body::Any => any_answer(alloc, tree),
        Body::None => Ok(none_answer(tree)),
        Body::Bool => Ok(bool_answer(strict, tree)),
        Body::Int(rule) => Ok(int_answer(rule, strict, tree)),
        Body::Str(tests) => str_answer(alloc, matchers, tests, settings, tree),
        Body::Bytes(rule) => bytes_answer(alloc, rule, tree),
        Body::Uuid(version) => uuid_answer(alloc, *version, tree),
        Body::Url(tests) => url_answer(alloc, tests, tree),
        Body::Literal(values) => literal_answer(alloc, values, tree),
        Body::Enum(tests) => enum_answer(alloc, tests, strict, tree),
    }
}

/// What the scalar gives for a tree: a value with its grade, or what is wrong. Under `strict`, trees
/// of other kinds do not stand for flags, ints and members.
pub fn scalar_answer<'a>(
    alloc: Global,
    matchers: &mut Matchers<'a>,
    s: &'a Scalar,
    strict: bool,
    t: &Tree,
) -> Result<Graded<Value>, Memory>
    ensures { IfOk result (λ a. a ≡ spec.answer_of s.now.0 s.now.1 strict t.now) }
{
    answer(alloc, matchers, &s.body, &s.settings, strict, t)
}

/// The int that the scalar gives for a number that is written as one, with the grade `Exact`: what
/// `scalar_answer` gives too, in more steps.
#[tactic(auto, unfolding(crate::specs::Scalars::answer_of, crate::specs::Scalars::int_answer))]
pub fn plain_int(s: &Scalar, t: &Tree) -> Option<i128>
    ensures { IfSome result (λ n. (strict : Bool) → Ok (Value.Int n, Grade.Exact) ≡ spec.answer_of s.now.0 s.now.1 strict t.now) }
{
    match &s.body {
        Body::Int(rule) => passing_int(rule, t),
        _ => None,
    }
}

/// The answer as an outcome: the value, or one error at the tree itself.
#[tactic(auto, unfolding(crate::specs::Scalars::scalar_of))]
pub fn scalar<'a>(
    alloc: Global,
    matchers: &mut Matchers<'a>,
    s: &'a Scalar,
    strict: bool,
    t: &Tree,
) -> Result<Outcome, Memory>
    ensures { IfOk result (λ o. o ≡ spec.scalar_of s.now.0 s.now.1 strict t.now) }
{
    let answer = scalar_answer(alloc, matchers, s, strict, t)?;
    outcome(alloc, answer, t)
}
