ghost use Rattle.std.specs.Prelude.{◌≡◌, IfOk, IfErr};
ghost use Rattle.pv_json_grammar.specs.Documents.{whole, reading};
ghost use Rattle.pv_json_grammar.specs.Spells.{SpellsDocument};
ghost use Rattle.pv_json.specs.Refuses.{IsWithoutTree, Refuses};

use crate::fault::{ReadError, ReadFault};
use crate::rest::Rest;
use crate::values::document;
use pv_text::Block;
use pv_tree::Tree;
use std::alloc::Global;

/// How many containers nest in a document at most.
pub const NESTING: usize = 128;

/// The tree that is read of the whole input, or where reading fails.
fn read_whole(alloc: Global, input: &[u8]) -> Result<Tree, ReadFault>
    ensures tree { IfOk result (λ t. reading NESTING input.now ≡ whole t) }
    ensures fault { IfErr result (λ e. Refuses e (reading NESTING input.now)) }
{
    let block = Block::from_slice(alloc, input)?;
    match document(alloc, NESTING, &Rest::new(&block)) {
        Ok(tree) => Ok(tree),
        Err(ReadError::Memory) => Err(ReadFault::Memory),
        Err(ReadError::Fault(0)) => Err(ReadFault::End),
        Err(ReadError::Fault(left)) => Err(ReadFault::Bad {
            at: (input.len() - left) as u64,
        }),
    }
}

/// The tree that the whole input spells (RFC 8259, in UTF-8), of which at most `NESTING` containers
/// nest. The texts and numbers of the tree are pieces of one copy of the input, which lives as long
/// as one of them. Time is linear in the input. An input of 4 GiB or more is want of memory. The
/// answer names the place of the first byte that fits nowhere, by the reading of values in order.
pub fn read(alloc: Global, input: &[u8]) -> Result<Tree, ReadFault>
    // A tree comes exactly where the grammar has one.
    ensures spelled { IfOk result (λ t. SpellsDocument NESTING input.now t) }
    ensures unspelled { IfErr result (λ e. IsWithoutTree e NESTING input.now) }

    // Which tree, and which place.
    ensures tree { IfOk result (λ t. reading NESTING input.now ≡ whole t) }
    ensures fault { IfErr result (λ e. Refuses e (reading NESTING input.now)) }
{
    read_whole(alloc, input)
}
