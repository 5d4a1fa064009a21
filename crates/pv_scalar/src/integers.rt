//! Trees as ints, and the bounds of ints.

ghost use Rattle.std.specs.Prelude.{◌≡◌, not, int_lt, Bool, IfSome, Ok};
ghost use Rattle.pv_numeric.specs.Multiples.{is_multiple};
ghost use Rattle.pv_scalar.specs.Tests.{tested, unless};
ghost use Rattle.pv_scalar.specs.Integers as spec;

use crate::answers::Graded;
use pv_fault::{Grade, Kind};
use pv_number::{Lexeme, Whole, integer, is_integer};
use pv_numeric::{is_multiple, numeric_string, whole_number};
use pv_rules::IntRule;
use pv_tree::Tree;

fn whole_int(grade: Grade, whole: Whole) -> Graded<i128>
    ensures { result ≡ spec.whole_int grade whole }
{
    match whole {
        Whole::TooBig => Err(Kind::IntParsingSize),
        Whole::Fraction => Err(Kind::IntFromFloat),
        Whole::Fits(n) => Ok((n, grade)),
    }
}

#[tactic(auto, using(crate::proofs::WrittenInts::written_int))]
fn number_int(strict: bool, lexeme: &Lexeme) -> Graded<i128>
    ensures { result ≡ spec.number_int strict lexeme.now }
{
    if let Some(n) = integer(lexeme) {
        return Ok((n, Grade::Exact));
    }
    if is_integer(lexeme) {
        whole_int(Grade::Exact, whole_number(lexeme))
    } else if strict {
        Err(Kind::IntType)
    } else {
        whole_int(Grade::Lax, whole_number(lexeme))
    }
}

fn text_int(whole: Option<Whole>) -> Graded<i128>
    ensures { result ≡ spec.text_int whole }
{
    match whole {
        Some(whole) => whole_int(Grade::Lax, whole),
        None => Err(Kind::IntParsing),
    }
}

/// The int that a number is, where it is written as one.
fn written_int(tree: &Tree) -> Option<i128>
    ensures { IfSome result (λ n. (strict : Bool) → Ok (n, Grade.Exact) ≡ spec.int_of strict tree.now) }
{
    match tree {
        Tree::Num(lexeme) => integer(lexeme),
        Tree::Bool(_) => None,
        Tree::Str(_) => None,
        Tree::Null => None,
        Tree::Array(_) => None,
        Tree::Object(_) => None,
    }
}

/// The int that a tree stands for.
#[tactic(auto, unfolding(crate::specs::Integers::int_of))]
pub(crate) fn int(strict: bool, tree: &Tree) -> Graded<i128>
    ensures { result ≡ spec.int_of strict tree.now }
{
    match tree {
        Tree::Num(lexeme) => number_int(strict, lexeme),
        Tree::Bool(_) if strict => Err(Kind::IntType),
        Tree::Bool(b) => Ok((i128::from(*b), Grade::Lax)),
        Tree::Str(_) if strict => Err(Kind::IntType),
        Tree::Str(text) => text_int(numeric_string(text.as_str())),
        Tree::Null => Err(Kind::IntType),
        Tree::Array(_) => Err(Kind::IntType),
        Tree::Object(_) => Err(Kind::IntType),
    }
}

fn no_multiple(n: i128, multiple_of: Option<i128>) -> Option<Kind>
    ensures { result ≡ unless multiple_of (λ m. is_multiple n m) Kind.MultipleOf }
{
    let multiple_of = multiple_of?;
    if is_multiple(n, multiple_of) {
        None
    } else {
        Some(Kind::MultipleOf { multiple_of })
    }
}

fn above(n: i128, le: Option<i128>) -> Option<Kind>
    ensures { result ≡ unless le (λ bound. spec.at_most n bound) Kind.LessThanEqual }
{
    let le = le?;
    if n <= le {
        None
    } else {
        Some(Kind::LessThanEqual { le })
    }
}

fn not_below(n: i128, lt: Option<i128>) -> Option<Kind>
    ensures { result ≡ unless lt (λ bound. int_lt n bound) Kind.LessThan }
{
    let lt = lt?;
    if n < lt {
        None
    } else {
        Some(Kind::LessThan { lt })
    }
}

fn below(n: i128, ge: Option<i128>) -> Option<Kind>
    ensures { result ≡ unless ge (λ bound. spec.at_most bound n) Kind.GreaterThanEqual }
{
    let ge = ge?;
    if n >= ge {
        None
    } else {
        Some(Kind::GreaterThanEqual { ge })
    }
}

fn not_above(n: i128, gt: Option<i128>) -> Option<Kind>
    ensures { result ≡ unless gt (λ bound. int_lt bound n) Kind.GreaterThan }
{
    let gt = gt?;
    if n > gt {
        None
    } else {
        Some(Kind::GreaterThan { gt })
    }
}

#[tactic(auto, unfolding(crate::specs::Integers::upper_fault))]
fn upper_fault(rule: &IntRule, n: i128) -> Option<Kind>
    ensures { result ≡ spec.upper_fault rule.now n }
{
    match above(n, rule.le) {
        Some(fault) => Some(fault),
        None => not_below(n, rule.lt),
    }
}

#[tactic(auto, unfolding(crate::specs::Integers::lower_fault))]
fn lower_fault(rule: &IntRule, n: i128) -> Option<Kind>
    ensures { result ≡ spec.lower_fault rule.now n }
{
    match below(n, rule.ge) {
        Some(fault) => Some(fault),
        None => not_above(n, rule.gt),
    }
}

/// The first test that the int does not pass.
#[tactic(auto, unfolding(crate::specs::Integers::int_fault))]
pub(crate) fn int_fault(rule: &IntRule, n: i128) -> Option<Kind>
    ensures { result ≡ spec.int_fault rule.now n }
{
    if let Some(fault) = no_multiple(n, rule.multiple_of) {
        return Some(fault);
    }
    match upper_fault(rule, n) {
        Some(fault) => Some(fault),
        None => lower_fault(rule, n),
    }
}

/// The int that a number is, where it is written as one and passes the tests.
pub(crate) fn passing_int(rule: &IntRule, tree: &Tree) -> Option<i128>
    ensures { IfSome result (λ n. (strict : Bool) → Ok (n, Grade.Exact) ≡ tested (spec.int_fault rule.now) (spec.int_of strict tree.now)) }
{
    match written_int(tree) {
        None => None,
        Some(n) => match int_fault(rule, n) {
            None => Some(n),
            Some(_) => None,
        },
    }
}
