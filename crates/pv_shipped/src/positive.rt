ghost use Rattle.std.specs.Prelude.{◌≡◌};
ghost use Rattle.pv_shipped.specs.Shipped as spec;

use crate::whole_number::whole_number;
use pv_func::{AfterFn, Made, Raise};
use pv_text::{Memory, Text};
use pv_tree::Value;
use std::alloc::Global;

/// Takes whole numbers above 0 alone.
#[derive(Clone, Copy, Debug, PartialEq, Eq, Drop)]
pub struct Positive;

fn is_positive(n: i128) -> bool
    ensures { result ≡ spec.is_positive n }
{
    0 < n
}

impl AfterFn for Positive {
    ghost after = { λ s. spec.positive };

    fn call(&self, alloc: Global, value: &Value) -> Result<Made, Memory> {
        match whole_number(value) {
            Some(n) if is_positive(n) => Ok(Made::Give(Value::Int(n))),
            Some(_) | None => Ok(Made::Raise(Raise::Assertion(Text::from_str(
                alloc,
                "not positive",
            )?))),
        }
    }
}
