ghost use Rattle.pv_shipped.specs.Shipped as spec;

use pv_func::{Answer, First, Turn, WrapFn};
use pv_text::{Memory, Text};
use pv_tree::{Tree, Value};
use std::alloc::Global;

/// Asks nothing, and gives a text of its own.
#[derive(Clone, Copy, Debug, PartialEq, Eq, Drop)]
pub struct Constant;

impl WrapFn for Constant {
    ghost wrapper = { λ s. spec.constant };

    fn asks(&self) -> u32 {
        0
    }

    #[tactic(auto, using(pv_notation::proofs::Sound::soundness))]
    fn start(&self, alloc: Global, _input: &Tree) -> Result<First, Memory> {
        Ok(First::Done(Value::Str(Text::from_str(alloc, "constant")?)))
    }

    fn next(
        &self,
        _alloc: Global,
        _state: &Tree,
        _left: u32,
        _answer: &Answer,
    ) -> Result<Turn, Memory> {
        Ok(Turn::Pass)
    }
}
