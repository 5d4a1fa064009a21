ghost use Rattle.std.specs.Prelude.{◌≡◌, IfOk};
ghost use Rattle.pv_shipped.specs.Shipped as spec;

use pv_text::Memory;
use pv_tree::Tree;
use std::alloc::Global;

/// The array of this tree alone.
pub(crate) fn array_of(alloc: Global, item: Tree) -> Result<Tree, Memory>
    ensures { IfOk result (λ t. t ≡ spec.array_of item) }
{
    let mut items = Vec::with_capacity(alloc, 1)?;
    items.push(item)?;
    Tree::array(alloc, items)
}
