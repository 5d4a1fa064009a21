ghost use Rattle.std.specs.Prelude.{◌≡◌, IfOk};
ghost use Rattle.pv_shipped.specs.Shipped as spec;

use pv_func::{Answer, First, Turn, WrapFn};
use pv_text::Memory;
use pv_tree::{Tree, Value, Values};
use std::alloc::Global;

/// Asks with the input, and gives the value twice as a tuple.
#[derive(Clone, Copy, Debug, PartialEq, Eq, Drop)]
pub struct Pair;

fn twice(alloc: Global, value: &Value) -> Result<Value, Memory>
    ensures { IfOk result (λ v. v ≡ spec.twice value.now) }
{
    let mut values = Vec::with_capacity(alloc, 2)?;
    values.push(value.copy(alloc)?)?;
    values.push(value.copy(alloc)?)?;
    Ok(Value::Tuple(Values::from_vec(values)))
}

impl WrapFn for Pair {
    ghost wrapper = { λ s. spec.pair };

    fn asks(&self) -> u32 {
        1
    }

    #[tactic(auto, using(pv_notation::proofs::TreeNumbers::tree_numbers))]
    fn start(&self, alloc: Global, input: &Tree) -> Result<First, Memory> {
        Ok(First::Ask {
            state: Tree::Null,
            input: input.share(alloc)?,
        })
    }

    #[tactic(auto, using(crate::proofs::Parts::twice_is_sound))]
    fn next(
        &self,
        alloc: Global,
        _state: &Tree,
        _left: u32,
        answer: &Answer,
    ) -> Result<Turn, Memory> {
        match answer {
            Answer::Good(value) => Ok(Turn::Done(twice(alloc, value)?)),
            Answer::Bad(_) => Ok(Turn::Pass),
        }
    }
}
