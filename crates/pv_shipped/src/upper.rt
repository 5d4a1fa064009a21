ghost use Rattle.std.specs.Prelude.{◌≡◌, map, IfOk};
ghost use Rattle.std.specs.Char.{to_ascii_uppercase};
ghost use Rattle.pv_shipped.specs.Shipped as spec;

use pv_func::{Made, PlainFn, Raise};
use pv_text::{Memory, Text};
use pv_tree::{Tree, Value};
use std::alloc::Global;

/// Turns the ASCII letters of a string into upper case.
#[derive(Clone, Copy, Debug, PartialEq, Eq, Drop)]
pub struct Upper;

fn in_upper_case(alloc: Global, text: &Text) -> Result<Text, Memory>
    ensures { IfOk result (λ t. t ≡ map to_ascii_uppercase text.now) }
{
    let mut upper = String::from_str(alloc, text.as_str())?;
    upper.make_ascii_uppercase();
    Text::from_utf8(upper.into_bytes())
}

fn not_text(alloc: Global) -> Result<Made, Memory>
    ensures { IfOk result (λ made. made ≡ spec.not_text) }
{
    Ok(Made::Raise(Raise::Custom {
        kind: Text::from_str(alloc, "not_text")?,
        message: Text::from_str(alloc, "A text is wanted")?,
    }))
}

impl PlainFn for Upper {
    ghost plain = { λ s. spec.upper };

    #[tactic(auto, using(pv_notation::proofs::Sound::soundness))]
    fn call(&self, alloc: Global, input: &Tree) -> Result<Made, Memory> {
        match input.as_text() {
            Some(text) => Ok(Made::Give(Value::Str(in_upper_case(alloc, text)?))),
            None => not_text(alloc),
        }
    }
}
