//! The texts of tags and of discriminators in errors.

ghost use Rattle.std.specs.Prelude.{◌≡◌, map, IfOk};
ghost use Rattle.std.specs.Fmt.{decimal, signed_decimal};
ghost use Rattle.pv_union.specs.Tags as spec;

use crate::joining::joined;
use pv_text::{Memory, Text};
use pv_tree::{Loc, Step};
use std::alloc::Global;

fn in_quotes(alloc: Global, text: &Text) -> Result<Text, Memory>
    ensures { IfOk result (λ t. t ≡ spec.in_quotes text.now) }
{
    let mut out = String::new(alloc);
    out.push_str("'")?;
    out.push_str(text.as_str())?;
    out.push_str("'")?;
    Text::from_str(alloc, out.as_str())
}

fn index_text(alloc: Global, index: u64) -> Result<Text, Memory>
    ensures { IfOk result (λ t. t ≡ decimal index) }
{
    let digits = index.to_string(alloc)?;
    Text::from_str(alloc, digits.as_str())
}

/// The decimal text of a whole number.
pub(crate) fn int_text(alloc: Global, n: i128) -> Result<Text, Memory>
    ensures { IfOk result (λ t. t ≡ signed_decimal n) }
{
    let digits = n.to_string(alloc)?;
    Text::from_str(alloc, digits.as_str())
}

fn step_text(alloc: Global, step: &Step) -> Result<Text, Memory>
    ensures { IfOk result (λ t. t ≡ spec.step_text step.now) }
{
    match step {
        Step::Name(name) => in_quotes(alloc, name),
        Step::Index(index) => index_text(alloc, *index),
    }
}

fn path_text(alloc: Global, path: &[Step]) -> Result<Text, Memory>
    ensures { IfOk result (λ t. t ≡ spec.path_text path.now) }
{
    let mut texts = Vec::with_capacity(alloc, path.len())?;
    for step in path {
        texts.push(step_text(alloc, step)?)?;
    }
    joined(alloc, ".", texts.as_slice())
}

/// The paths of a discriminator.
#[tactic(auto, unfolding(crate::specs::Tags::discriminator_text))]
pub(crate) fn discriminator_text(alloc: Global, paths: &[Loc]) -> Result<Text, Memory>
    ensures { IfOk result (λ t. t ≡ spec.discriminator_text paths.now) }
{
    let mut texts = Vec::with_capacity(alloc, paths.len())?;
    for path in paths {
        texts.push(path_text(alloc, path.as_slice())?)?;
    }
    joined(alloc, " | ", texts.as_slice())
}

/// The tags that are expected.
#[tactic(auto, unfolding(crate::specs::Tags::tags_text))]
pub(crate) fn tags_text(alloc: Global, tags: &[Text]) -> Result<Text, Memory>
    ensures { IfOk result (λ t. t ≡ spec.tags_text tags.now) }
{
    let mut texts = Vec::with_capacity(alloc, tags.len())?;
    for tag in tags {
        texts.push(in_quotes(alloc, tag)?)?;
    }
    joined(alloc, ", ", texts.as_slice())
}
