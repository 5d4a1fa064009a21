//! Functions around validation.

ghost use Rattle.std.specs.Prelude.{◌≡◌, IfOk};
ghost use Rattle.pv_notation.specs.Numbers.{HasNumbers};
ghost use Rattle.pv_func.specs.Soundness.{AnswerIsSound, FirstIsSound, TurnIsSound};
ghost use Rattle.pv_func.specs.Wrapper.{Wrapper};

use crate::turn::{Answer, First, Turn};
use pv_text::Memory;
use pv_tree::Tree;
use std::alloc::Global;

/// A function around validation: it asks what the inner schema gives for trees, and is answered. It
/// keeps nothing of an exchange itself, so it may be asked again while one is open.
///
/// Where no ask is left it does not ask. One that did would give an error with an empty text.
pub trait WrapFn: Drop {
    ghost wrapper: { Self → Wrapper };

    /// How many asks it makes at most.
    fn asks(&self) -> u32
        ensures { result ≡ (wrapper self.now).asks };

    /// How it begins with the tree of its node. What it gives is sound, where the input is.
    fn start(&self, alloc: Global, input: &Tree) -> Result<First, Memory>
        ensures value { IfOk result (λ first. first ≡ (wrapper self.now).start input.now) }
        ensures sound { HasNumbers input.now → IfOk result FirstIsSound };

    /// How it goes on, with the state of its last ask, with the number of asks that are left, and
    /// with what came of that ask. What it gives is sound, where state and answer are.
    fn next(&self, alloc: Global, state: &Tree, left: u32, answer: &Answer) -> Result<Turn, Memory>
        ensures value { IfOk result (λ turn. turn ≡ (wrapper self.now).next state.now left answer.now) }
        ensures sound { HasNumbers state.now → AnswerIsSound answer.now → IfOk result TurnIsSound };
}

impl WrapFn for Box<dyn WrapFn> {
    ghost wrapper = { λ b. (WrapFn-box b).wrapper b.value };

    fn asks(&self) -> u32 {
        (**self).asks()
    }

    fn start(&self, alloc: Global, input: &Tree) -> Result<First, Memory> {
        (**self).start(alloc, input)
    }

    fn next(
        &self,
        alloc: Global,
        state: &Tree,
        left: u32,
        answer: &Answer,
    ) -> Result<Turn, Memory> {
        (**self).next(alloc, state, left, answer)
    }
}
