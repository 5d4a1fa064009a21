//! Lists whose items are all of one kind.

ghost use Rattle.std.specs.Prelude.{◌≡◌, IfOk, Option, option_map};
ghost use Rattle.pv_tree.specs.Parts.{items_at};
ghost use Rattle.pv_schema_values.specs.Values as spec;
ghost use Rattle.pv_tree.specs.declared.Tree.{Tree, out-Tree};

use pv_text::Memory;
use pv_tree::Tree;
use std::alloc::Global;

/// What a tree may stand for by itself.
pub(crate) trait FromTree: Drop + Sized {
    ghost of: { Tree → Option Self };

    /// `None` where the tree does not stand for such a value.
    fn from_tree(alloc: Global, tree: &Tree) -> Result<Option<Self>, Memory>
        ensures { IfOk result (λ found. found ≡ of tree.now) };
}

/// All that trees stand for. It is `None` where one of them stands for nothing.
pub(crate) fn all_of<T: FromTree>(alloc: Global, items: &[Tree]) -> Result<Option<Vec<T>>, Memory>
    ensures { IfOk result (λ found. option_map (λ v. v.items) found ≡ spec.all_of T.of items.now) }
{
    let mut all = Vec::with_capacity(alloc, items.len())?;
    for item in items {
        let Some(value) = T::from_tree(alloc, item)? else {
            return Ok(None);
        };
        all.push(value)?;
    }
    Ok(Some(all))
}

fn some_of<T: FromTree>(alloc: Global, items: &[Tree]) -> Result<Option<Vec<T>>, Memory>
    ensures { IfOk result (λ found. option_map (λ v. v.items) found ≡ spec.some_of T.of items.now) }
{
    if items.is_empty() {
        Ok(None)
    } else {
        let found = all_of(alloc, items)?;
        Ok(found)
    }
}

/// All that the items of a list stand for. It is `None` where the tree is no list, the list is
/// empty or one of its items stands for nothing.
pub(crate) fn some_in<T: FromTree>(alloc: Global, tree: &Tree) -> Result<Option<Vec<T>>, Memory>
    ensures { IfOk result (λ found. option_map (λ v. v.items) found
        ≡ spec.some_in T.of (items_at (out-Tree tree.now))) }
{
    match tree.as_array() {
        None => Ok(None),
        Some(items) => some_of(alloc, items),
    }
}
