//! Functions that see a tree before it is validated.

ghost use Rattle.std.specs.Prelude.{◌≡◌, IfOk};
ghost use Rattle.pv_tree.specs.declared.Tree.{Tree};
ghost use Rattle.pv_notation.specs.Numbers.{HasNumbers};
ghost use Rattle.pv_func.specs.declared.raise.Raw.{Raw};
ghost use Rattle.pv_func.specs.Soundness.{RawIsSound};

use crate::raise::Raw;
use pv_text::Memory;
use pv_tree::Tree;
use std::alloc::Global;

/// A function that sees a tree before it is validated, and may give another in its place.
pub trait BeforeFn: Drop {
    ghost before: { Self → Tree → Raw };

    /// The object's meaning. A lexeme that it gives is a number, where those of the input are.
    fn call(&self, alloc: Global, input: &Tree) -> Result<Raw, Memory>
        ensures value { IfOk result (λ raw. raw ≡ before self.now input.now) }
        ensures sound { HasNumbers input.now → IfOk result RawIsSound };
}

impl BeforeFn for Box<dyn BeforeFn> {
    ghost before = { λ b. (BeforeFn-box b).before b.value };

    fn call(&self, alloc: Global, input: &Tree) -> Result<Raw, Memory> {
        (**self).call(alloc, input)
    }
}
