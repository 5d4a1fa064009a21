ghost use Rattle.std.specs.Prelude.{◌≡◌, IfOk};
ghost use Rattle.std.specs.Str.{trim};
ghost use Rattle.pv_shipped.specs.Shipped as spec;

use pv_func::{BeforeFn, Raw};
use pv_text::{Memory, Text};
use pv_tree::Tree;
use std::alloc::Global;

/// Takes the white space from around a string.
#[derive(Clone, Copy, Debug, PartialEq, Eq, Drop)]
pub struct Strip;

/// The text without white space around it. It is a copy only where there is some.
fn trimmed(alloc: Global, text: &Text) -> Result<Text, Memory>
    ensures { IfOk result (λ t. t ≡ trim text.now) }
{
    let trimmed = text.as_str().trim();
    if trimmed == text.as_str() {
        text.share(alloc)
    } else {
        Text::from_str(alloc, trimmed)
    }
}

impl BeforeFn for Strip {
    ghost before = { λ s. spec.strip };

    #[tactic(auto, using(pv_notation::proofs::TreeNumbers::tree_numbers))]
    fn call(&self, alloc: Global, input: &Tree) -> Result<Raw, Memory> {
        match input.as_text() {
            Some(text) => Ok(Raw::Give(Tree::Str(trimmed(alloc, text)?))),
            None => Ok(Raw::Give(input.share(alloc)?)),
        }
    }
}
