//! Tagged unions: the choice whose tag the input has.

ghost use Rattle.std.specs.Prelude.{map, ◌≡◌, IfOk, Ok};
ghost use Rattle.pv_walk.specs.Unions as spec;
ghost use Rattle.pv_walk.specs.Walks.{Walks};
ghost use Rattle.pv_walk.specs.Nests.{Nests, below};

use crate::choices::Choices;
use pv_fault::{Good, Kind};
use pv_func::Objects;
use pv_text::{Memory, Text};
use pv_tree::{Step, Tree};
use pv_union::TagTable;
use pv_walk::{Out, Scene};
use std::alloc::Global;

/// A tag. Past the tags it is empty.
fn tag_at(alloc: Global, table: &TagTable, place: usize) -> Result<Text, Memory>
    ensures { IfOk result (λ tag. tag ≡ spec.tag_at table.now place) }
{
    match table.tag(place) {
        Some(tag) => tag.share(alloc),
        None => Text::from_str(alloc, ""),
    }
}

impl<
    'r,
    's,
    'a,
    O: Objects,
    F: Fn(&Scene<'a>, &O, &mut Out<'a>, u64, u32, &Tree) -> Result<Option<Good>, Memory>,
> Choices<'r, 's, 'a, O, F> {
    /// The choice at this place, with its tag in front of its errors.
    #[inline(never)]
    fn choice(
        &self,
        out: &mut Out<'a>,
        table: &TagTable,
        children: &[u32],
        place: usize,
        tree: &Tree,
    ) -> Result<Option<Good>, Memory>
        requires { Nests O.functions F.Fn self.now.level.now }
        ensures { Walks out.old out.new result (spec.tagged_by table.now
            (map (below O.functions self.now.level.now) children.now) tree.now (Ok place)) }
    {
        let tag = tag_at(self.level.scene.alloc, table, place)?;
        match children.get(place) {
            Some(number) => self.labelled(out, tag, *number, tree),
            None => {
                out.push_below(
                    self.level.scene.alloc,
                    Kind::RecursionLoop,
                    Step::Name(tag),
                    tree,
                )?;
                Ok(None)
            }
        }
    }

    /// The choice that has the tag of the input, with the tag in front of its errors.
    #[inline(never)]
    #[tactic(auto, unfolding(pv_walk::specs::Unions::tagged))]
    pub fn tagged(
        &self,
        out: &mut Out<'a>,
        table: &TagTable,
        children: &[u32],
        tree: &Tree,
    ) -> Result<Option<Good>, Memory>
        requires { Nests O.functions F.Fn self.now.level.now }
        ensures { Walks out.old out.new result (spec.tagged table.now
            (map (below O.functions self.now.level.now) children.now) tree.now) }
    {
        match table.choose(self.level.scene.alloc, tree)? {
            Ok(place) => self.choice(out, table, children, place, tree),
            Err(kind) => out.fail(self.level.scene.alloc, kind, tree),
        }
    }
}
