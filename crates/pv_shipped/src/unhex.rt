ghost use Rattle.std.specs.Prelude.{◌≡◌, IfOk};
ghost use Rattle.pv_shipped.specs.Shipped as spec;

use hex::FromHexError;
use pv_func::{Made, PlainFn, Raise};
use pv_text::{Bytes, Memory, Text};
use pv_tree::{Tree, Value};
use std::alloc::Global;

/// Makes bytes of a string of hexadecimal digits.
#[derive(Clone, Copy, Debug, PartialEq, Eq, Drop)]
pub struct Unhex;

fn not_hexadecimal(alloc: Global) -> Result<Made, Memory>
    ensures { IfOk result (λ made. made ≡ spec.not_hexadecimal) }
{
    Ok(Made::Raise(Raise::Value(Text::from_str(alloc, "not hexadecimal")?)))
}

fn decoded(alloc: Global, text: &Text) -> Result<Made, Memory>
    ensures { IfOk result (λ made. made ≡ spec.decoded text.now) }
{
    match hex::decode(alloc, text.as_str()) {
        Ok(bytes) => Ok(Made::Give(Value::Bytes(Bytes::from_vec(bytes)))),
        Err(FromHexError::OutOfMemory) => Err(Memory),
        Err(FromHexError::OddLength)
        | Err(FromHexError::InvalidHexCharacter { .. })
        | Err(FromHexError::InvalidStringLength) => not_hexadecimal(alloc),
    }
}

impl PlainFn for Unhex {
    ghost plain = { λ s. spec.unhex };

    fn call(&self, alloc: Global, input: &Tree) -> Result<Made, Memory> {
        match input.as_text() {
            Some(text) => decoded(alloc, text),
            None => not_hexadecimal(alloc),
        }
    }
}
