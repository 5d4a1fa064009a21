//! The records of a scene, one level further down.

ghost use Rattle.std.specs.Prelude.{map, ◌≡◌, IfSome};
ghost use Rattle.pv_tree.specs.declared.Tree.{Tree};
ghost use Rattle.pv_scalar.specs.Scalars.{scalar_of};
ghost use Rattle.pv_walk.specs.Rules as gives;
ghost use Rattle.pv_walk.specs.Walks.{Walks};
ghost use Rattle.pv_walk.specs.Nests.{Nests, below};

use crate::out::Out;
use crate::scene::{ScalarNode, Scene};
use pv_fault::{Good, Grade, Kind};
use pv_func::Objects;
use pv_scalar::{Scalar, scalar_answer};
use pv_text::Memory;
use pv_tree::Tree;

/// Where a walk stands in the records of a scene: `below` walks one level further down, where at most
/// `depth` nodes may still be entered below one another.
#[derive(Drop)]
pub struct Level<'s, 'a, O, F> {
    pub scene: &'s Scene<'a>,
    /// The functions by their names.
    pub objects: &'s O,
    pub depth: u64,
    pub below: F,
}

impl<
    's,
    'a,
    O: Objects,
    F: Fn(&Scene<'a>, &O, &mut Out<'a>, u64, u32, &Tree) -> Result<Option<Good>, Memory>,
> Level<'s, 'a, O, F> {
    /// The record of this number, one level further down.
    pub fn child(&self, out: &mut Out<'a>, number: u32, tree: &Tree) -> Result<Option<Good>, Memory>
        requires { Nests O.functions F.Fn self.now }
        ensures { Walks out.old out.new result (below O.functions self.now number tree.now) }
    {
        (self.below)(self.scene, self.objects, out, self.depth, number, tree)
    }

    /// The first child, where it is a scalar that may still be entered.
    pub fn scalar_child(&self, children: &[u32]) -> Option<ScalarNode<'a>>
        ensures { IfSome result (λ node. (t : Tree) → gives.first (map (below O.functions self.now) children.now) t
            ≡ scalar_of node.rule.now.0 node.rule.now.1 node.strict t) }
    {
        match children {
            [] => None,
            [number, ..] => {
                if self.depth == 0 {
                    return None;
                }
                self.scene.scalar(*number)
            }
        }
    }

    pub fn first(
        &self,
        out: &mut Out<'a>,
        children: &[u32],
        tree: &Tree,
    ) -> Result<Option<Good>, Memory>
        requires { Nests O.functions F.Fn self.now }
        ensures { Walks out.old out.new result (gives.first (map (below O.functions self.now) children.now) tree.now) }
    {
        match children {
            [] => out.fail(self.scene.alloc, Kind::RecursionLoop, tree),
            [number, ..] => self.child(out, *number, tree),
        }
    }

    pub fn second(
        &self,
        out: &mut Out<'a>,
        children: &[u32],
        tree: &Tree,
    ) -> Result<Option<Good>, Memory>
        requires { Nests O.functions F.Fn self.now }
        ensures { Walks out.old out.new result (gives.second (map (below O.functions self.now) children.now) tree.now) }
    {
        match children {
            [] => out.fail(self.scene.alloc, Kind::RecursionLoop, tree),
            [_, rest @ ..] => self.first(out, rest, tree),
        }
    }

    /// A value without parts. Its answer stays out of the frames of the recursion.
    #[inline(never)]
    #[tactic(auto, unfolding(pv_scalar::specs::Scalars::scalar_of))]
    pub fn scalar_node(
        &self,
        out: &mut Out<'a>,
        rule: &'a Scalar,
        strict: bool,
        tree: &Tree,
    ) -> Result<Option<Good>, Memory>
        ensures { Walks out.old out.new result (scalar_of rule.now.0 rule.now.1 strict tree.now) }
    {
        match scalar_answer(self.scene.alloc, &mut out.matchers, rule, strict, tree)? {
            Ok((value, grade)) => Ok(Some(Good {
                value,
                grade,
                fields: None,
            })),
            Err(kind) => out.fail(self.scene.alloc, kind, tree),
        }
    }
}
