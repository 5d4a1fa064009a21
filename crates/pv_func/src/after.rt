//! Functions that see the value that validation gives.

ghost use Rattle.std.specs.Prelude.{◌≡◌, IfOk};
ghost use Rattle.pv_tree.specs.declared.Value.{Value};
ghost use Rattle.pv_notation.specs.Numbers.{IsSound};
ghost use Rattle.pv_func.specs.declared.raise.Made.{Made};
ghost use Rattle.pv_func.specs.Soundness.{MadeIsSound};

use crate::raise::Made;
use pv_text::Memory;
use pv_tree::Value;
use std::alloc::Global;

/// A function that sees the value that validation gives, and may make another of it.
pub trait AfterFn: Drop {
    ghost after: { Self → Value → Made };

    /// The object's meaning. It is a sound value, where the argument is one.
    fn call(&self, alloc: Global, value: &Value) -> Result<Made, Memory>
        ensures value { IfOk result (λ made. made ≡ after self.now value.now) }
        ensures sound { IsSound value.now → IfOk result MadeIsSound };
}

impl AfterFn for Box<dyn AfterFn> {
    ghost after = { λ b. (AfterFn-box b).after b.value };

    fn call(&self, alloc: Global, value: &Value) -> Result<Made, Memory> {
        (**self).call(alloc, value)
    }
}
