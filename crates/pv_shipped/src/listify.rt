ghost use Rattle.std.specs.Prelude.{◌≡◌, IfOk};
ghost use Rattle.pv_shipped.specs.Shipped as spec;

use crate::array::array_of;
use pv_func::{Answer, First, Turn, WrapFn};
use pv_text::Memory;
use pv_tree::Tree;
use std::alloc::Global;

/// Asks with the input, and where that fails with the array of the input alone.
#[derive(Clone, Copy, Debug, PartialEq, Eq, Drop)]
pub struct Listify;

#[tactic(auto, using(crate::proofs::Listified::asks_again))]
fn after_failure(alloc: Global, state: &Tree, left: u32) -> Result<Turn, Memory>
    ensures { IfOk result (λ turn. turn ≡ spec.listify_failed state.now left) }
{
    if left == 0 {
        return Ok(Turn::Pass);
    }
    let input = array_of(alloc, state.share(alloc)?)?;
    Ok(Turn::Ask {
        state: Tree::Null,
        input,
    })
}

impl WrapFn for Listify {
    ghost wrapper = { λ s. spec.listify };

    fn asks(&self) -> u32 {
        2
    }

    fn start(&self, alloc: Global, input: &Tree) -> Result<First, Memory> {
        Ok(First::Ask {
            state: input.share(alloc)?,
            input: input.share(alloc)?,
        })
    }

    fn next(
        &self,
        alloc: Global,
        state: &Tree,
        left: u32,
        answer: &Answer,
    ) -> Result<Turn, Memory> {
        match answer {
            Answer::Good(_) => Ok(Turn::Pass),
            Answer::Bad(_) => after_failure(alloc, state, left),
        }
    }
}
