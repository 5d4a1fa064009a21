//! Functions that stand in the place of validation.

ghost use Rattle.std.specs.Prelude.{◌≡◌, IfOk};
ghost use Rattle.pv_tree.specs.declared.Tree.{Tree};
ghost use Rattle.pv_func.specs.declared.raise.Made.{Made};
ghost use Rattle.pv_func.specs.Soundness.{MadeIsSound};

use crate::raise::Made;
use pv_text::Memory;
use pv_tree::Tree;
use std::alloc::Global;

/// A function that makes a value of a tree, with no validation.
pub trait PlainFn: Drop {
    ghost plain: { Self → Tree → Made };

    /// The object's meaning. It is a sound value.
    fn call(&self, alloc: Global, input: &Tree) -> Result<Made, Memory>
        ensures value { IfOk result (λ made. made ≡ plain self.now input.now) }
        ensures sound { IfOk result MadeIsSound };
}

impl PlainFn for Box<dyn PlainFn> {
    ghost plain = { λ b. (PlainFn-box b).plain b.value };

    fn call(&self, alloc: Global, input: &Tree) -> Result<Made, Memory> {
        (**self).call(alloc, input)
    }
}
