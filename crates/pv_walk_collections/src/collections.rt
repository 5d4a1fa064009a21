//! Collections, by the rule of their node.

ghost use Rattle.std.specs.Prelude.{map, ◌≡◌};
ghost use Rattle.pv_walk.specs.Rules as gives;
ghost use Rattle.pv_walk.specs.Walks.{Walks};
ghost use Rattle.pv_walk.specs.Nests.{Nests, below};

use pv_collect::type_error;
use pv_fault::Good;
use pv_func::Objects;
use pv_rules::{Collection, GatherRule};
use pv_text::Memory;
use pv_tree::Tree;
use pv_walk::{Level, Out, Scene};

/// The collections of a level.
#[derive(Drop)]
pub struct Collections<'r, 's, 'a, O, F> {
    pub level: &'r Level<'s, 'a, O, F>,
}

impl<
    'r,
    's,
    'a,
    O: Objects,
    F: Fn(&Scene<'a>, &O, &mut Out<'a>, u64, u32, &Tree) -> Result<Option<Good>, Memory>,
> Collections<'r, 's, 'a, O, F> {
    /// Not an array, or for a dict not an object.
    pub(crate) fn wrong_type(
        &self,
        out: &mut Out<'a>,
        rule: &GatherRule,
        tree: &Tree,
    ) -> Result<Option<Good>, Memory>
        ensures { Walks out.old out.new result (gives.wrong_type rule.now tree.now) }
    {
        out.fail(self.level.scene.alloc, type_error(rule.kind), tree)
    }

    /// A collection of any kind.
    #[tactic(auto, unfolding(pv_walk::specs::Rules::collection))]
    pub fn collection(
        &self,
        out: &mut Out<'a>,
        rule: &GatherRule,
        children: &[u32],
        tree: &Tree,
    ) -> Result<Option<Good>, Memory>
        requires { Nests O.functions F.Fn self.now.level.now }
        ensures { Walks out.old out.new result (gives.collection rule.now (map (below O.functions self.now.level.now) children.now) tree.now) }
    {
        match rule.kind {
            Collection::List | Collection::Set | Collection::Frozen => {
                self.sequence(out, rule, children, tree)
            }
            Collection::Tuple => self.tuple(out, rule, children, tree),
            Collection::Dict => self.dict(out, rule, children, tree),
        }
    }
}
