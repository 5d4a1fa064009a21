ghost use Rattle.std.specs.Prelude.{◌≡◌};
ghost use Rattle.pv_shipped.specs.Shipped as spec;

use crate::whole_number::whole_number;
use pv_func::{AfterFn, Made, Raise};
use pv_text::{Memory, Text};
use pv_tree::Value;
use std::alloc::Global;

/// Takes even whole numbers alone.
#[derive(Clone, Copy, Debug, PartialEq, Eq, Drop)]
pub struct Even;

fn is_even(n: i128) -> bool
    ensures { result ≡ spec.is_even n }
{
    n.unsigned_abs() % 2 == 0
}

impl AfterFn for Even {
    ghost after = { λ s. spec.even };

    fn call(&self, alloc: Global, value: &Value) -> Result<Made, Memory> {
        match whole_number(value) {
            Some(n) if is_even(n) => Ok(Made::Give(Value::Int(n))),
            Some(_) | None => Ok(Made::Raise(Raise::Value(Text::from_str(alloc, "not even")?))),
        }
    }
}
