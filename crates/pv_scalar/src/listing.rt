//! Values as a list for a reader.

ghost use Rattle.std.specs.Prelude.{◌≡◌, ◌++◌, map, string_bytes, codes, if◌then◌else◌, IfOk, OnOk};
ghost use Rattle.pv_scalar.specs.Literals as spec;

use pv_rules::Literal;
use pv_text::{Memory, Text};
use std::alloc::Global;

fn in_quotes(alloc: Global, text: &Text) -> Result<Text, Memory>
    ensures { IfOk result (λ t. t ≡ spec.in_quotes text.now) }
{
    let mut out = String::new(alloc);
    out.push_str("'")?;
    out.push_str(text.as_str())?;
    out.push_str("'")?;
    Text::from_str(alloc, out.as_str())
}

fn flag_text(alloc: Global, flag: bool) -> Result<Text, Memory>
    ensures { IfOk result (λ t. t ≡ spec.literal_text (Literal.Flag flag)) }
{
    Text::from_str(alloc, if flag { "True" } else { "False" })
}

fn text_of(alloc: Global, value: &Literal) -> Result<Text, Memory>
    ensures { IfOk result (λ t. t ≡ spec.literal_text value.now) }
{
    match value {
        Literal::Null => Text::from_str(alloc, "None"),
        Literal::Flag(flag) => flag_text(alloc, *flag),
        Literal::Int(n) => {
            let digits = n.to_string(alloc)?;
            Text::from_str(alloc, digits.as_str())
        }
        Literal::Text(text) => in_quotes(alloc, text),
    }
}

fn texts_of(alloc: Global, values: &[Literal]) -> Result<Vec<Text>, Memory>
    ensures { IfOk result (λ texts. texts.items ≡ map spec.literal_text values.now) }
{
    let mut texts = Vec::with_capacity(alloc, values.len())?;
    for value in values {
        texts.push(text_of(alloc, value)?)?;
    }
    Ok(texts)
}

/// Texts with commas between them, and with "or" before the last.
fn listed(alloc: Global, texts: &[Text]) -> Result<Text, Memory>
    ensures { IfOk result (λ t. t ≡ spec.listed texts.now) }
{
    let mut out = String::new(alloc);
    if let Some((first, rest)) = texts.split_first() {
        out.push_str(first.as_str())?;
        push_rest(&mut out, rest)?;
    }
    Text::from_str(alloc, out.as_str())
}

/// What stands before a text of the list, other than the first.
fn push_separator(out: &mut String, is_last: bool) -> Result<(), Memory>
    ensures { OnOk result (string_bytes out.new ≡ string_bytes out.old ++ (if is_last then codes " or " else codes ", ")) }
{
    out.push_str(if is_last { " or " } else { ", " })?;
    Ok(())
}

/// The texts behind the first.
fn push_rest(out: &mut String, rest: &[Text]) -> Result<(), Memory>
    ensures { OnOk result (string_bytes out.new ≡ string_bytes out.old ++ spec.listed_on rest.now) }
{
    for (place, text) in rest.iter().enumerate() {
        push_separator(out, place + 1 == rest.len())?;
        out.push_str(text.as_str())?;
    }
    Ok(())
}

/// The text that names the values.
#[tactic(auto, unfolding(crate::specs::Literals::expected_text))]
pub(crate) fn expected_text(alloc: Global, values: &[Literal]) -> Result<Text, Memory>
    ensures { IfOk result (λ t. t ≡ spec.expected_text values.now) }
{
    let texts = texts_of(alloc, values)?;
    listed(alloc, texts.as_slice())
}
