ghost use Rattle.pv_shipped.specs.Shipped as spec;

use crate::array::array_of;
use pv_func::{Answer, First, Turn, WrapFn};
use pv_text::Memory;
use pv_tree::Tree;
use std::alloc::Global;

/// Asks with the array of the array of the input.
#[derive(Clone, Copy, Debug, PartialEq, Eq, Drop)]
pub struct Deepen;

impl WrapFn for Deepen {
    ghost wrapper = { λ s. spec.deepen };

    fn asks(&self) -> u32 {
        1
    }

    #[tactic(auto, using(pv_notation::proofs::TreeNumbers::tree_numbers, crate::proofs::Parts::array_has_numbers))]
    fn start(&self, alloc: Global, input: &Tree) -> Result<First, Memory> {
        let inner = array_of(alloc, input.share(alloc)?)?;
        Ok(First::Ask {
            state: Tree::Null,
            input: array_of(alloc, inner)?,
        })
    }

    fn next(
        &self,
        _alloc: Global,
        _state: &Tree,
        _left: u32,
        _answer: &Answer,
    ) -> Result<Turn, Memory> {
        Ok(Turn::Pass)
    }
}
