//! Nodes that pass on what one of their children gives.

ghost use Rattle.std.specs.Prelude.{map, ◌≡◌};
ghost use Rattle.pv_fault.specs.Single.{one_error};
ghost use Rattle.pv_fault.specs.declared.Kind.TheVariants as kind;
ghost use Rattle.pv_walk.specs.Choices as spec;
ghost use Rattle.pv_walk.specs.Rules as gives;
ghost use Rattle.pv_walk.specs.Rules.{first, second};
ghost use Rattle.pv_walk.specs.Walks.{Walks};
ghost use Rattle.pv_walk.specs.Nests.{Nests, below};

use pv_fault::{Good, Grade, Kind};
use pv_func::Objects;
use pv_text::{Memory, Text};
use pv_tree::{Tree, Value};
use pv_walk::{Level, Out, Scene};

/// The nodes of a level that choose among their children, or pass on what one of them gives.
#[derive(Drop)]
pub struct Choices<'r, 's, 'a, O, F> {
    pub level: &'r Level<'s, 'a, O, F>,
}

impl<
    'r,
    's,
    'a,
    O: Objects,
    F: Fn(&Scene<'a>, &O, &mut Out<'a>, u64, u32, &Tree) -> Result<Option<Good>, Memory>,
> Choices<'r, 's, 'a, O, F> {
    /// None for null, and for any other tree what the child gives.
    #[inline(never)]
    #[tactic(auto, unfolding(pv_walk::specs::Rules::nullable))]
    pub fn nullable(
        &self,
        out: &mut Out<'a>,
        children: &[u32],
        tree: &Tree,
    ) -> Result<Option<Good>, Memory>
        requires { Nests O.functions F.Fn self.now.level.now }
        ensures { Walks out.old out.new result (gives.nullable (gives.first (map (below O.functions self.now.level.now) children.now)) tree.now) }
    {
        if tree.is_null() {
            return Ok(Some(Good {
                value: Value::None,
                grade: Grade::Exact,
                fields: None,
            }));
        }
        self.level.first(out, children, tree)
    }

    /// The first child, or the second where the node is strict.
    #[inline(never)]
    pub fn lax_or_strict(
        &self,
        out: &mut Out<'a>,
        strict: bool,
        children: &[u32],
        tree: &Tree,
    ) -> Result<Option<Good>, Memory>
        requires { Nests O.functions F.Fn self.now.level.now }
        ensures { Walks out.old out.new result (spec.lax_or_strict strict
            (first (map (below O.functions self.now.level.now) children.now))
            (second (map (below O.functions self.now.level.now) children.now)) tree.now) }
    {
        if strict {
            self.level.second(out, children, tree)
        } else {
            self.level.first(out, children, tree)
        }
    }

    /// The one error of a child whose errors were taken back.
    #[inline(never)]
    fn replaced(
        &self,
        out: &mut Out<'a>,
        error_type: &Text,
        message: &Text,
        tree: &Tree,
    ) -> Result<Option<Good>, Memory>
        ensures { Walks out.old out.new result
            (one_error (kind.Custom error_type.now message.now) tree.now) }
    {
        let kind = Kind::Custom {
            kind: error_type.share(self.level.scene.alloc)?,
            message: message.share(self.level.scene.alloc)?,
        };
        out.fail(self.level.scene.alloc, kind, tree)
    }

    /// A child whose errors are taken back, and replaced by one.
    #[inline(never)]
    #[tactic(auto, unfolding(pv_walk::specs::Choices::custom_error))]
    pub fn custom_error(
        &self,
        out: &mut Out<'a>,
        error_type: &Text,
        message: &Text,
        children: &[u32],
        tree: &Tree,
    ) -> Result<Option<Good>, Memory>
        requires { Nests O.functions F.Fn self.now.level.now }
        ensures { Walks out.old out.new result (spec.custom_error error_type.now message.now
            (first (map (below O.functions self.now.level.now) children.now)) tree.now) }
    {
        let mark = out.errors.len();
        match self.level.first(out, children, tree)? {
            Some(good) => Ok(Some(good)),
            None => {
                out.errors.cut(mark);
                self.replaced(out, error_type, message, tree)
            }
        }
    }
}
