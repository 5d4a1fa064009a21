//! Values, of which containers hold others, by recursion on the containers that may still nest.

ghost use Rattle.std.specs.Prelude.{◌≡◌, length, []};
ghost use Rattle.pv_json_grammar.specs.Reading as reading;
ghost use Rattle.pv_json_grammar.specs.Values as spec;
ghost use Rattle.pv_json.specs.Gives.{Gives};

use crate::fault::ReadError;
use crate::rest::Rest;
use crate::strings::text;
use crate::symbols::{after, past, skip};
use pv_number::{Lexeme, number_len};
use pv_text::Text;
use pv_tree::Tree;
use std::alloc::Global;

/// A number, and what follows it.
#[tactic(auto, unfolding(pv_json_grammar::specs::Reading::number))]
fn number<'a>(s: &Rest<'a>) -> Result<(Lexeme, Rest<'a>), ReadError>
    ensures { Gives (λ x. (x.0, x.1)) result (reading.number s.now) }
{
    let len = number_len(s.as_slice()).map_err(ReadError::Fault)?;
    Ok((s.number(len)?, s.after(len)))
}

/// A value in which at most `nesting` containers nest, behind white space, and what follows it.
#[cycle(value)]
#[tactic(auto, unfolding(pv_json_grammar::specs::Values::value))]
pub(crate) fn value<'a>(
    alloc: Global,
    nesting: usize,
    s: &Rest<'a>,
) -> Result<(Tree, Rest<'a>), ReadError>
    ensures { Gives (λ x. (x.0, x.1)) result (spec.value nesting s.now) }
{
    let s = skip(s);
    match s.as_slice() {
        [] => Err(ReadError::Fault(0)),
        [b'n', ..] => {
            let rest = after(b"null", &s)?;
            Ok((Tree::Null, rest))
        }
        [b't', ..] => {
            let rest = after(b"true", &s)?;
            Ok((Tree::Bool(true), rest))
        }
        [b'f', ..] => {
            let rest = after(b"false", &s)?;
            Ok((Tree::Bool(false), rest))
        }
        [b'"', ..] => {
            let (text, rest) = text(alloc, &s.after(1))?;
            Ok((Tree::Str(text), rest))
        }
        [b'[', ..] => {
            if nesting == 0 {
                return Err(ReadError::Fault(s.len()));
            }
            array(alloc, nesting - 1, &s.after(1))
        }
        [b'{', ..] => {
            if nesting == 0 {
                return Err(ReadError::Fault(s.len()));
            }
            object(alloc, nesting - 1, &s.after(1))
        }
        _ => {
            let (lexeme, rest) = number(&s)?;
            Ok((Tree::Num(lexeme), rest))
        }
    }
}

/// An array behind its opening bracket, and what follows it.
#[cycle(value)]
#[tactic(auto, unfolding(pv_json_grammar::specs::Values::array))]
fn array<'a>(alloc: Global, nesting: usize, s: &Rest<'a>) -> Result<(Tree, Rest<'a>), ReadError>
    ensures { Gives (λ x. (x.0, x.1)) result (spec.array (spec.value nesting) s.now) }
{
    let s = skip(s);
    if let [b']', ..] = s.as_slice() {
        return Ok((Tree::array(alloc, Vec::new(alloc))?, s.after(1)));
    }
    items(alloc, nesting, &s)
}

/// One item or more, the closing bracket, and what follows it.
#[cycle(value)]
#[tactic(auto, using(crate::proofs::Steps::several_step), unfolding(pv_json_grammar::specs::Values::several))]
fn items<'a>(alloc: Global, nesting: usize, s: &Rest<'a>) -> Result<(Tree, Rest<'a>), ReadError>
    ensures { Gives (λ x. (x.0, x.1)) result
        (spec.items (spec.value nesting) (length s.now) [] s.now) }
{
    let mut all = Vec::new(alloc);
    let mut rest = s.after(0);
    // Each turn takes a byte, so no more come than there are bytes.
    for i in 0..s.len() {
        let (item, more) = value(alloc, nesting, &rest)?;
        all.push(item)?;
        let more = skip(&more);
        let [b, behind @ ..] = more.as_slice() else {
            return Err(ReadError::Fault(0));
        };
        if *b == b']' {
            return Ok((Tree::array(alloc, all)?, more.after(1)));
        }
        if *b != b',' {
            return Err(ReadError::Fault(behind.len() + 1));
        }
        rest = more.after(1);
    }
    Err(ReadError::Fault(rest.len()))
}

/// A name, its colon and its value, and what follows them.
#[cycle(value)]
#[tactic(auto, unfolding(pv_json_grammar::specs::Values::member))]
fn member<'a>(
    alloc: Global,
    nesting: usize,
    s: &Rest<'a>,
) -> Result<((Text, Tree), Rest<'a>), ReadError>
    ensures { Gives (λ x. (((x.0).0, (x.0).1), x.1)) result
        (spec.member (spec.value nesting) s.now) }
{
    let rest = past(b'"', &skip(s))?;
    let (name, rest) = text(alloc, &rest)?;
    let rest = past(b':', &skip(&rest))?;
    let (value, rest) = value(alloc, nesting, &rest)?;
    Ok(((name, value), rest))
}

/// An object behind its opening brace, and what follows it.
#[cycle(value)]
#[tactic(auto, unfolding(pv_json_grammar::specs::Values::object))]
fn object<'a>(alloc: Global, nesting: usize, s: &Rest<'a>) -> Result<(Tree, Rest<'a>), ReadError>
    ensures { Gives (λ x. (x.0, x.1)) result (spec.object (spec.value nesting) s.now) }
{
    let s = skip(s);
    if let [b'}', ..] = s.as_slice() {
        return Ok((Tree::object(alloc, Vec::new(alloc))?, s.after(1)));
    }
    members(alloc, nesting, &s)
}

/// One member or more, the closing brace, and what follows it.
#[cycle(value)]
#[tactic(auto, using(crate::proofs::Steps::several_step), unfolding(pv_json_grammar::specs::Values::several))]
fn members<'a>(alloc: Global, nesting: usize, s: &Rest<'a>) -> Result<(Tree, Rest<'a>), ReadError>
    ensures { Gives (λ x. (x.0, x.1)) result
        (spec.members (spec.value nesting) (length s.now) [] s.now) }
{
    let mut all = Vec::new(alloc);
    let mut rest = s.after(0);
    // Each turn takes a byte, so no more come than there are bytes.
    for i in 0..s.len() {
        let (member, more) = member(alloc, nesting, &rest)?;
        all.push(member)?;
        let more = skip(&more);
        let [b, behind @ ..] = more.as_slice() else {
            return Err(ReadError::Fault(0));
        };
        if *b == b'}' {
            return Ok((Tree::object(alloc, all)?, more.after(1)));
        }
        if *b != b',' {
            return Err(ReadError::Fault(behind.len() + 1));
        }
        rest = more.after(1);
    }
    Err(ReadError::Fault(rest.len()))
}

/// The tree that all of the bytes spell.
#[tactic(auto, unfolding(pv_json_grammar::specs::Values::document))]
pub(crate) fn document(alloc: Global, nesting: usize, s: &Rest<'_>) -> Result<Tree, ReadError>
    ensures { Gives (λ t. t) result (spec.document nesting s.now) }
{
    let (tree, rest) = value(alloc, nesting, s)?;
    match skip(&rest).as_slice() {
        [] => Ok(tree),
        other => Err(ReadError::Fault(other.len())),
    }
}
