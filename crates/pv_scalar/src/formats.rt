//! UUIDs and URLs.

ghost use Rattle.std.specs.Prelude.{◌≡◌, IfOk};
ghost use Rattle.pv_scalar.specs.TestRules.{url_rule};
ghost use Rattle.pv_scalar.specs.Formats as spec;
ghost use Rattle.pv_scalar.specs.Scalars as answer;

use crate::answers::{Graded, with_fault};
use crate::schemes::Schemes;
use crate::texts::char_count;
use pv_fault::{Grade, Kind};
use pv_formats::{UrlText, UuidText, url, uuid};
use pv_text::{Memory, Text};
use pv_tree::{AtomKind, Tree, Value};
use std::alloc::Global;

/// Tests of a URL.
#[derive(Drop)]
pub(crate) struct UrlTests {
    pub(crate) max_length: Option<u64>,
    pub(crate) allowed_schemes: Option<Schemes>,
}

fn atom(kind: AtomKind, text: Text) -> Value
    ensures { result ≡ Value.Atom kind text }
{
    Value::Atom { kind, text }
}

fn version_fault(version: Option<u64>, id: &UuidText) -> Option<Kind>
    ensures { result ≡ spec.version_fault version id.now }
{
    let expected_version = version?;
    if id.version == expected_version {
        None
    } else {
        Some(Kind::UuidVersion { expected_version })
    }
}

#[tactic(auto, unfolding(crate::specs::Formats::uuid_in))]
fn uuid_in(alloc: Global, version: Option<u64>, text: &str) -> Result<Graded<Value>, Memory>
    ensures { IfOk result (λ a. a ≡ spec.uuid_in version text.now) }
{
    let Some(id) = uuid(alloc, text)? else {
        return Ok(Err(Kind::UuidParsing));
    };
    let fault = version_fault(version, &id);
    Ok(with_fault(fault, atom(AtomKind::Uuid, id.text), Grade::Strict))
}

/// A UUID.
#[tactic(auto, unfolding(crate::specs::Scalars::uuid_answer))]
pub(crate) fn uuid_answer(
    alloc: Global,
    version: Option<u64>,
    tree: &Tree,
) -> Result<Graded<Value>, Memory>
    ensures { IfOk result (λ a. a ≡ answer.uuid_answer version tree.now) }
{
    match tree.as_text() {
        Some(text) => uuid_in(alloc, version, text.as_str()),
        None => Ok(Err(Kind::UuidType)),
    }
}

fn length_fault(tests: &UrlTests, text: &str) -> Option<Kind>
    ensures { result ≡ spec.url_length_fault (url_rule tests.now) text.now }
{
    let max_length = tests.max_length?;
    if char_count(text) <= max_length {
        None
    } else {
        Some(Kind::UrlTooLong { max_length })
    }
}

fn scheme_fault(
    alloc: Global,
    allowed: &Option<Schemes>,
    url: &UrlText,
) -> Result<Option<Kind>, Memory>
    ensures { IfOk result (λ fault. fault ≡ spec.scheme_fault allowed.now url.now) }
{
    match allowed {
        None => Ok(None),
        Some(schemes) => {
            if schemes.contains(&url.scheme) {
                Ok(None)
            } else {
                Ok(Some(Kind::UrlScheme {
                    expected_schemes: schemes.expected().share(alloc)?,
                }))
            }
        }
    }
}

#[tactic(auto, unfolding(crate::specs::Formats::url_in))]
fn url_in(alloc: Global, tests: &UrlTests, text: &str) -> Result<Graded<Value>, Memory>
    ensures { IfOk result (λ a. a ≡ spec.url_in (url_rule tests.now) text.now) }
{
    if let Some(kind) = length_fault(tests, text) {
        return Ok(Err(kind));
    }
    let Some(found) = url(alloc, text)? else {
        return Ok(Err(Kind::UrlParsing));
    };
    let fault = scheme_fault(alloc, &tests.allowed_schemes, &found)?;
    Ok(with_fault(fault, atom(AtomKind::Url, found.text), Grade::Strict))
}

/// A URL.
#[tactic(auto, unfolding(crate::specs::Scalars::url_answer))]
pub(crate) fn url_answer(
    alloc: Global,
    tests: &UrlTests,
    tree: &Tree,
) -> Result<Graded<Value>, Memory>
    ensures { IfOk result (λ a. a ≡ answer.url_answer (url_rule tests.now) tree.now) }
{
    match tree.as_text() {
        Some(text) => url_in(alloc, tests, text.as_str()),
        None => Ok(Err(Kind::UrlType)),
    }
}
