//! Texts and bytes.

ghost use Rattle.std.specs.Prelude.{◌≡◌, ◌≤◌, nat_le, if◌then◌else◌, length, chars, IfOk};
ghost use Rattle.std.specs.Str.{trim};
ghost use Rattle.pv_formats.specs.Patterns.{matches};
ghost use Rattle.pv_scalar.specs.Tests.{unless};
ghost use Rattle.pv_scalar.specs.Texts as spec;
ghost use Rattle.pv_scalar.specs.Scalars as answer;
ghost use Rattle.pv_scalar.specs.TestRules.{str_rule};

use crate::answers::{Graded, with_fault};
use pv_fault::{Grade, Kind};
use pv_formats::{Matchers, Pattern};
use pv_rules::{BytesRule, Settings};
use pv_text::{Bytes, Memory, Text};
use pv_tree::{Tree, Value};
use std::alloc::Global;

/// Tests of a text, with the pattern compiled.
#[derive(Drop)]
pub(crate) struct StrTests {
    pub(crate) min_length: Option<u64>,
    pub(crate) max_length: Option<u64>,
    pub(crate) pattern: Option<Pattern>,
    pub(crate) strip_whitespace: Option<bool>,
}

#[tactic(auto, using(std::proofs::lemmas::Str::chars_from_encodes))]
pub(crate) fn char_count(text: &str) -> u64
    ensures { result ≡ spec.char_count text.now }
{
    text.chars().count() as u64
}

/// The text without white space around it. It is a copy only where there is some.
fn trimmed(alloc: Global, text: &Text) -> Result<Text, Memory>
    ensures { IfOk result (λ t. t ≡ trim text.now) }
{
    let trimmed = text.as_str().trim();
    if trimmed == text.as_str() {
        text.share(alloc)
    } else {
        Text::from_str(alloc, trimmed)
    }
}

/// The text without white space around it, where that is asked for.
fn stripped(alloc: Global, strip: bool, text: &Text) -> Result<Text, Memory>
    ensures { IfOk result (λ t. t ≡ (if strip then trim text.now else text.now)) }
{
    if strip {
        trimmed(alloc, text)
    } else {
        text.share(alloc)
    }
}

fn too_short(min_length: Option<u64>, count: u64) -> Option<Kind>
    ensures { result ≡ unless min_length (λ bound. nat_le bound count) Kind.StringTooShort }
{
    let min_length = min_length?;
    if min_length <= count {
        None
    } else {
        Some(Kind::StringTooShort { min_length })
    }
}

fn too_long(max_length: Option<u64>, count: u64) -> Option<Kind>
    ensures { result ≡ unless max_length (λ bound. nat_le count bound) Kind.StringTooLong }
{
    let max_length = max_length?;
    if count <= max_length {
        None
    } else {
        Some(Kind::StringTooLong { max_length })
    }
}

fn mismatch<'a>(
    alloc: Global,
    matchers: &mut Matchers<'a>,
    pattern: &'a Option<Pattern>,
    text: &str,
) -> Result<Option<Kind>, Memory>
    ensures { IfOk result (λ fault. fault ≡ spec.pattern_fault pattern.now text.now) }
{
    match pattern {
        None => Ok(None),
        Some(pattern) => {
            if matchers.is_match(pattern, text)? {
                Ok(None)
            } else {
                Ok(Some(Kind::StringPatternMismatch {
                    pattern: Text::from_str(alloc, pattern.as_str())?,
                }))
            }
        }
    }
}

#[tactic(auto, unfolding(crate::specs::Texts::length_fault))]
fn length_fault(tests: &StrTests, settings: &Settings, text: &str) -> Option<Kind>
    ensures { result ≡ spec.length_fault (str_rule tests.now) settings.now text.now }
{
    let min_length = tests.min_length.or(settings.str_min_length);
    let max_length = tests.max_length.or(settings.str_max_length);
    if min_length.is_none() && max_length.is_none() {
        return None;
    }
    let count = char_count(text);
    too_short(min_length, count).or(too_long(max_length, count))
}

#[tactic(auto, unfolding(crate::specs::Texts::text_fault))]
fn text_fault<'a>(
    alloc: Global,
    matchers: &mut Matchers<'a>,
    tests: &'a StrTests,
    settings: &Settings,
    text: &str,
) -> Result<Option<Kind>, Memory>
    ensures { IfOk result (λ fault. fault ≡ spec.text_fault (str_rule tests.now) settings.now text.now) }
{
    match length_fault(tests, settings, text) {
        Some(kind) => Ok(Some(kind)),
        None => mismatch(alloc, matchers, &tests.pattern, text),
    }
}

/// A string, without the white space around it where that is asked for.
#[tactic(auto, unfolding(crate::specs::Scalars::str_answer))]
pub(crate) fn str_answer<'a>(
    alloc: Global,
    matchers: &mut Matchers<'a>,
    tests: &'a StrTests,
    settings: &Settings,
    tree: &Tree,
) -> Result<Graded<Value>, Memory>
    ensures { IfOk result (λ a. a ≡ answer.str_answer (str_rule tests.now) settings.now tree.now) }
{
    let Some(text) = tree.as_text() else {
        return Ok(Err(Kind::StringType));
    };
    let strip = tests
        .strip_whitespace
        .unwrap_or(settings.str_strip_whitespace);
    let text = stripped(alloc, strip, text)?;
    let fault = text_fault(alloc, matchers, tests, settings, text.as_str())?;
    Ok(with_fault(fault, Value::Str(text), Grade::Exact))
}

fn few_bytes(min_length: Option<u64>, length: usize) -> Option<Kind>
    ensures { result ≡ unless min_length (λ bound. nat_le bound length) Kind.BytesTooShort }
{
    let min_length = min_length?;
    if min_length <= length as u64 {
        None
    } else {
        Some(Kind::BytesTooShort { min_length })
    }
}

fn many_bytes(max_length: Option<u64>, length: usize) -> Option<Kind>
    ensures { result ≡ unless max_length (λ bound. nat_le length bound) Kind.BytesTooLong }
{
    let max_length = max_length?;
    if length as u64 <= max_length {
        None
    } else {
        Some(Kind::BytesTooLong { max_length })
    }
}

#[tactic(auto, unfolding(crate::specs::Texts::bytes_fault))]
fn bytes_fault(rule: &BytesRule, bytes: &[u8]) -> Option<Kind>
    ensures { result ≡ spec.bytes_fault rule.now bytes.now }
{
    few_bytes(rule.min_length, bytes.len()).or(many_bytes(rule.max_length, bytes.len()))
}

/// The bytes of a string.
#[tactic(auto, unfolding(crate::specs::Scalars::bytes_answer))]
pub(crate) fn bytes_answer(
    alloc: Global,
    rule: &BytesRule,
    tree: &Tree,
) -> Result<Graded<Value>, Memory>
    ensures { IfOk result (λ a. a ≡ answer.bytes_answer rule.now tree.now) }
{
    let Some(text) = tree.as_text() else {
        return Ok(Err(Kind::BytesType));
    };
    let bytes = text.as_str().as_bytes();
    match bytes_fault(rule, bytes) {
        Some(kind) => Ok(Err(kind)),
        None => Ok(Ok((
            Value::Bytes(Bytes::from_slice(alloc, bytes)?),
            Grade::Strict,
        ))),
    }
}
