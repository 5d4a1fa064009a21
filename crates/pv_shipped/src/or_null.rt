ghost use Rattle.pv_shipped.specs.Shipped as spec;

use pv_func::{Answer, First, Turn, WrapFn};
use pv_text::Memory;
use pv_tree::{Tree, Value};
use std::alloc::Global;

/// Asks with the input, and where that fails gives None.
#[derive(Clone, Copy, Debug, PartialEq, Eq, Drop)]
pub struct OrNull;

impl WrapFn for OrNull {
    ghost wrapper = { λ s. spec.or_null };

    fn asks(&self) -> u32 {
        1
    }

    #[tactic(auto, using(pv_notation::proofs::TreeNumbers::tree_numbers))]
    fn start(&self, alloc: Global, input: &Tree) -> Result<First, Memory> {
        Ok(First::Ask {
            state: Tree::Null,
            input: input.share(alloc)?,
        })
    }

    #[tactic(auto, using(pv_notation::proofs::Sound::soundness))]
    fn next(
        &self,
        _alloc: Global,
        _state: &Tree,
        _left: u32,
        answer: &Answer,
    ) -> Result<Turn, Memory> {
        match answer {
            Answer::Good(_) => Ok(Turn::Pass),
            Answer::Bad(_) => Ok(Turn::Done(Value::None)),
        }
    }
}
