//! Lists, sets and frozensets: every item by the one child.

ghost use Rattle.std.specs.Prelude.{map, length, ◌≡◌};
ghost use Rattle.pv_fault.specs.Single.{one_error};
ghost use Rattle.pv_fault.specs.Under.{outcome_under};
ghost use Rattle.pv_tree.specs.declared.Step.TheVariants.{Index};
ghost use Rattle.pv_collect.specs.Gathering.{gather_items};
ghost use Rattle.pv_scalar.specs.Scalars.{scalar_of};
ghost use Rattle.pv_walk.specs.Rules as gives;
ghost use Rattle.pv_walk_collections.specs.Going.{item_in};
ghost use Rattle.pv_walk.specs.Walks.{Walks};
ghost use Rattle.pv_walk.specs.Nests.{Nests, below};

use crate::collections::Collections;
use crate::hashing::lacks_hash;
use pv_collect::{KeptItems, needs_hash};
use pv_fault::{Good, Grade, Kind};
use pv_func::Objects;
use pv_rules::{Collection, GatherRule};
use pv_scalar::{plain_int, scalar_answer};
use pv_text::Memory;
use pv_tree::{Step, Tree, Value};
use pv_walk::{Out, ScalarNode, Scene};

impl<
    'r,
    's,
    'a,
    O: Objects,
    F: Fn(&Scene<'a>, &O, &mut Out<'a>, u64, u32, &Tree) -> Result<Option<Good>, Memory>,
> Collections<'r, 's, 'a, O, F> {
    /// An item by the first child.
    fn item_here(
        &self,
        out: &mut Out<'a>,
        kind: Collection,
        children: &[u32],
        item: &Tree,
    ) -> Result<Option<Good>, Memory>
        requires { Nests O.functions F.Fn self.now.level.now }
        ensures { Walks out.old out.new result (item_in kind item.now (gives.first (map (below O.functions self.now.level.now) children.now) item.now)) }
    {
        let found = self.level.first(out, children, item)?;
        if lacks_hash(needs_hash(kind), &found) {
            drop(found);
            return out.fail(self.level.scene.alloc, Kind::SetItemNotHashable, item);
        }
        Ok(found)
    }

    /// An item by a child that may have parts: its place stands on the path while it is walked.
    fn entered_item(
        &self,
        out: &mut Out<'a>,
        kind: Collection,
        children: &[u32],
        place: u64,
        item: &Tree,
    ) -> Result<Option<Good>, Memory>
        requires { Nests O.functions F.Fn self.now.level.now }
        ensures { Walks out.old out.new result (outcome_under (Index place)
            (item_in kind item.now (gives.first (map (below O.functions self.now.level.now) children.now) item.now))) }
    {
        let len = out.path.len();
        out.path.push(Step::Index(place))?;
        let found = self.item_here(out, kind, children, item)?;
        out.path.cut(len);
        Ok(found)
    }

    /// The error of an item, at its place.
    fn fail_at(
        &self,
        out: &mut Out<'a>,
        fault: Kind,
        place: u64,
        item: &Tree,
    ) -> Result<Option<Good>, Memory>
        ensures { Walks out.old out.new result (outcome_under (Index place) (one_error fault item.now)) }
    {
        out.push_below(self.level.scene.alloc, fault, Step::Index(place), item)?;
        Ok(None)
    }

    /// An item by a scalar: its place stands on the path for an error alone.
    #[inline(never)]
    #[tactic(auto, unfolding(pv_scalar::specs::Scalars::scalar_of))]
    fn scalar_item(
        &self,
        out: &mut Out<'a>,
        kind: Collection,
        node: ScalarNode<'a>,
        place: u64,
        item: &Tree,
    ) -> Result<Option<Good>, Memory>
        ensures { Walks out.old out.new result (outcome_under (Index place)
            (item_in kind item.now (scalar_of node.entry.rule.now.0 node.entry.rule.now.1 node.entry.strict item.now))) }
    {
        match scalar_answer(
            self.level.scene.alloc,
            &mut out.matchers,
            node.rule,
            node.strict,
            item,
        )? {
            Ok((value, grade)) => {
                let found = Some(Good {
                    value,
                    grade,
                    fields: None,
                });
                if lacks_hash(needs_hash(kind), &found) {
                    drop(found);
                    return self.fail_at(out, Kind::SetItemNotHashable, place, item);
                }
                Ok(found)
            }
            Err(fault) => self.fail_at(out, fault, place, item),
        }
    }

    /// The item at this place by the first child. Most often it is an int that is written as one.
    pub(crate) fn item(
        &self,
        out: &mut Out<'a>,
        kind: Collection,
        children: &[u32],
        place: u64,
        item: &Tree,
    ) -> Result<Option<Good>, Memory>
        requires { Nests O.functions F.Fn self.now.level.now }
        ensures { Walks out.old out.new result (outcome_under (Index place)
            (item_in kind item.now (gives.first (map (below O.functions self.now.level.now) children.now) item.now))) }
    {
        match self.level.scalar_child(children) {
            Some(node) => match plain_int(node.rule, item) {
                Some(n) => Ok(Some(Good {
                    value: Value::Int(n),
                    grade: Grade::Exact,
                    fields: None,
                })),
                None => self.scalar_item(out, kind, node, place, item),
            },
            None => self.entered_item(out, kind, children, place, item),
        }
    }

    /// All items. What is kept stays out of the frames of the other kinds of nodes, here and for the other collections.
    #[inline(never)]
    fn items(
        &self,
        out: &mut Out<'a>,
        rule: &GatherRule,
        children: &[u32],
        items: &[Tree],
        tree: &Tree,
    ) -> Result<Option<Good>, Memory>
        requires { Nests O.functions F.Fn self.now.level.now }
        ensures { Walks out.old out.new result (gather_items rule.now (length items.now) tree.now
            (map (gives.part (gives.first (map (below O.functions self.now.level.now) children.now))) items.now)) }
    {
        let mark = out.errors.len();
        let mut kept = KeptItems::new(self.level.scene.alloc, rule.kind, items.len())?;
        for (place, item) in items.iter().enumerate() {
            let found = self.item(out, rule.kind, children, place as u64, item)?;
            kept.take(mark, out.errors.len(), found)?;
        }
        self.finish_items(out, rule, items.len() as u64, mark, kept, tree)
    }

    #[tactic(auto, unfolding(pv_walk::specs::Rules::sequence))]
    pub(crate) fn sequence(
        &self,
        out: &mut Out<'a>,
        rule: &GatherRule,
        children: &[u32],
        tree: &Tree,
    ) -> Result<Option<Good>, Memory>
        requires { Nests O.functions F.Fn self.now.level.now }
        ensures { Walks out.old out.new result (gives.sequence rule.now
            (gives.first (map (below O.functions self.now.level.now) children.now)) tree.now) }
    {
        match tree.as_array() {
            Some(items) => self.items(out, rule, children, items, tree),
            None => self.wrong_type(out, rule, tree),
        }
    }
}
