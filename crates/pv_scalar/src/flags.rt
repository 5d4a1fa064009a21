//! Trees as flags.

ghost use Rattle.std.specs.Prelude.{◌≡◌};
ghost use Rattle.std.specs.Str.{str_eq_ignore_ascii_case};
ghost use Rattle.pv_scalar.specs.Flags as spec;

use crate::answers::Graded;
use pv_fault::{Grade, Kind};
use pv_number::Whole;
use pv_numeric::whole_number;
use pv_tree::Tree;

fn is_word(word: &str, text: &str) -> bool
    ensures { result ≡ spec.is_word word.now text.now }
{
    text.eq_ignore_ascii_case(word)
}

#[tactic(auto, unfolding(crate::specs::Flags::is_truth))]
fn is_truth(text: &str) -> bool
    ensures { result ≡ spec.is_truth text.now }
{
    is_word("true", text)
        || is_word("t", text)
        || is_word("yes", text)
        || is_word("y", text)
        || is_word("on", text)
        || is_word("1", text)
}

#[tactic(auto, unfolding(crate::specs::Flags::is_untruth))]
fn is_untruth(text: &str) -> bool
    ensures { result ≡ spec.is_untruth text.now }
{
    is_word("false", text)
        || is_word("f", text)
        || is_word("no", text)
        || is_word("n", text)
        || is_word("off", text)
        || is_word("0", text)
}

fn word_flag(text: &str) -> Option<bool>
    ensures { result ≡ spec.word_flag text.now }
{
    if is_truth(text) {
        Some(true)
    } else if is_untruth(text) {
        Some(false)
    } else {
        None
    }
}

fn whole_flag(whole: Whole) -> Option<bool>
    ensures { result ≡ spec.whole_flag whole }
{
    match whole {
        Whole::Fits(n) => {
            if n == 0 {
                Some(false)
            } else if n == 1 {
                Some(true)
            } else {
                None
            }
        }
        Whole::TooBig => None,
        Whole::Fraction => None,
    }
}

fn read_flag(flag: Option<bool>) -> Graded<bool>
    ensures { result ≡ spec.read_flag flag }
{
    match flag {
        Some(b) => Ok((b, Grade::Lax)),
        None => Err(Kind::BoolParsing),
    }
}

/// The flag that a tree stands for.
#[tactic(auto, unfolding(crate::specs::Flags::flag_of))]
pub(crate) fn flag(strict: bool, tree: &Tree) -> Graded<bool>
    ensures { result ≡ spec.flag_of strict tree.now }
{
    match tree {
        Tree::Bool(b) => Ok((*b, Grade::Exact)),
        Tree::Num(_) if strict => Err(Kind::BoolType),
        Tree::Num(lexeme) => read_flag(whole_flag(whole_number(lexeme))),
        Tree::Str(_) if strict => Err(Kind::BoolType),
        Tree::Str(text) => read_flag(word_flag(text.as_str())),
        Tree::Null => Err(Kind::BoolType),
        Tree::Array(_) => Err(Kind::BoolType),
        Tree::Object(_) => Err(Kind::BoolType),
    }
}
