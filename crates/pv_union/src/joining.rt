//! Texts with a separator between them.

ghost use Rattle.std.specs.Prelude.{◌≡◌, ◌++◌, string_bytes, IfOk, OnOk};
ghost use Rattle.std.specs.List.{flat_map};
ghost use Rattle.pv_union.specs.Labels.{joined_by};

use pv_text::{Memory, Text};
use std::alloc::Global;

/// The texts behind the first.
fn push_rest(out: &mut String, between: &str, rest: &[Text]) -> Result<(), Memory>
    ensures { OnOk result (string_bytes out.new ≡ string_bytes out.old
        ++ flat_map (λ t. between.now ++ t) rest.now) }
{
    for text in rest {
        out.push_str(between)?;
        out.push_str(text.as_str())?;
    }
    Ok(())
}

fn push_joined(out: &mut String, between: &str, texts: &[Text]) -> Result<(), Memory>
    ensures { OnOk result (string_bytes out.new ≡ string_bytes out.old
        ++ joined_by between.now texts.now) }
{
    let Some((first, rest)) = texts.split_first() else {
        return Ok(());
    };
    out.push_str(first.as_str())?;
    push_rest(out, between, rest)?;
    Ok(())
}

/// The texts with this one between them.
pub(crate) fn joined(alloc: Global, between: &str, texts: &[Text]) -> Result<Text, Memory>
    ensures { IfOk result (λ t. t ≡ joined_by between.now texts.now) }
{
    let mut out = String::new(alloc);
    push_joined(&mut out, between, texts)?;
    Text::from_str(alloc, out.as_str())
}
