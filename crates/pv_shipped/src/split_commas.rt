ghost use Rattle.std.specs.Prelude.{◌≡◌, ◌==◌, map, IfOk};
ghost use Rattle.std.specs.List.{slice_split};
ghost use Rattle.pv_shipped.specs.Shipped as spec;
ghost use Rattle.pv_shipped.specs.Shipped.{comma};

use pv_func::{BeforeFn, Raw};
use pv_text::{Memory, Text};
use pv_tree::Tree;
use std::alloc::Global;

/// Makes an array of the parts of a string between commas.
#[derive(Clone, Copy, Debug, PartialEq, Eq, Drop)]
pub struct SplitCommas;

fn parts(alloc: Global, text: &Text) -> Result<Vec<Tree>, Memory>
    ensures { IfOk result (λ all. all.items ≡ map Tree.Str (slice_split (λ b. b == comma) text.now)) }
{
    let mut all = Vec::new(alloc);
    for part in text.as_str().split(',') {
        all.push(Tree::Str(Text::from_str(alloc, part)?))?;
    }
    Ok(all)
}

impl BeforeFn for SplitCommas {
    ghost before = { λ s. spec.split_commas };

    #[tactic(auto, using(pv_notation::proofs::TreeNumbers::tree_numbers, crate::proofs::Parts::strings_have_numbers))]
    fn call(&self, alloc: Global, input: &Tree) -> Result<Raw, Memory> {
        match input.as_text() {
            Some(text) => Ok(Raw::Give(Tree::array(alloc, parts(alloc, text)?)?)),
            None => Ok(Raw::Give(input.share(alloc)?)),
        }
    }
}
