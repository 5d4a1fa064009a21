//! Tuples: every item by the child of its position.

ghost use Rattle.std.specs.Prelude.{map, length, slice_get, ◌≡◌};
ghost use Rattle.pv_collect.specs.Gathering.{gather_items};
ghost use Rattle.pv_walk.specs.Rules as gives;
ghost use Rattle.pv_walk_collections.specs.Going.{from_position};
ghost use Rattle.pv_walk.specs.Walks.{Walks};
ghost use Rattle.pv_walk.specs.Nests.{Nests, below};

use crate::collections::Collections;
use crate::positions::taker;
use pv_collect::KeptItems;
use pv_fault::Good;
use pv_func::Objects;
use pv_rules::GatherRule;
use pv_text::Memory;
use pv_tree::Tree;
use pv_walk::{Out, Scene};

/// The children from the one on that takes the item at this place of so many items; none where no
/// position takes it.
fn children_from<'c>(rule: &GatherRule, children: &'c [u32], items: u64, place: u64) -> &'c [u32]
    ensures { result.now ≡ from_position (slice_get (gives.takers rule.now items) place) children.now }
{
    match taker(rule.variadic_item_index, rule.positions, items, place) {
        Some(position) if (position as usize) < children.len() => &children[position as usize..],
        _ => &[],
    }
}

impl<
    'r,
    's,
    'a,
    O: Objects,
    F: Fn(&Scene<'a>, &O, &mut Out<'a>, u64, u32, &Tree) -> Result<Option<Good>, Memory>,
> Collections<'r, 's, 'a, O, F> {
    #[inline(never)]
    fn positions(
        &self,
        out: &mut Out<'a>,
        rule: &GatherRule,
        children: &[u32],
        items: &[Tree],
        tree: &Tree,
    ) -> Result<Option<Good>, Memory>
        requires { Nests O.functions F.Fn self.now.level.now }
        ensures { Walks out.old out.new result (gather_items rule.now (length items.now) tree.now
            (gives.placed (map (below O.functions self.now.level.now) children.now) (gives.takers rule.now (length items.now)) items.now)) }
    {
        let mark = out.errors.len();
        let count = items.len() as u64;
        let mut kept = KeptItems::new(self.level.scene.alloc, rule.kind, items.len())?;
        for (place, item) in items.iter().enumerate() {
            let takers = children_from(rule, children, count, place as u64);
            if takers.is_empty() {
                return self.finish_items(out, rule, count, mark, kept, tree);
            }
            let found = self.item(out, rule.kind, takers, place as u64, item)?;
            kept.take(mark, out.errors.len(), found)?;
        }
        self.finish_items(out, rule, count, mark, kept, tree)
    }

    #[tactic(auto, unfolding(pv_walk::specs::Rules::tuple))]
    pub(crate) fn tuple(
        &self,
        out: &mut Out<'a>,
        rule: &GatherRule,
        children: &[u32],
        tree: &Tree,
    ) -> Result<Option<Good>, Memory>
        requires { Nests O.functions F.Fn self.now.level.now }
        ensures { Walks out.old out.new result (gives.tuple rule.now (map (below O.functions self.now.level.now) children.now) tree.now) }
    {
        match tree.as_array() {
            Some(items) => self.positions(out, rule, children, items, tree),
            None => self.wrong_type(out, rule, tree),
        }
    }
}
