//! Nodes with functions: what sees the input, what sees the value, and what stands in the place of
//! a child.

ghost use Rattle.std.specs.Prelude.{map, is_some, ◌≡◌};
ghost use Rattle.pv_fault.specs.declared.Outcome.TheVariants as outcome;
ghost use Rattle.pv_func.specs.Functions.{after_named, before_named, plain_named};
ghost use Rattle.pv_walk.specs.Functions as spec;
ghost use Rattle.pv_walk.specs.Rules.{first};
ghost use Rattle.pv_walk.specs.Walks.{Walks};
ghost use Rattle.pv_walk.specs.Nests.{Nests, below};

use pv_fault::{Good, Grade, Kind};
use pv_func::{FuncKind, Made, Objects, Raw};
use pv_text::{Memory, Text};
use pv_tree::Tree;
use pv_walk::{Level, Out, Scene};

/// The nodes of a level that have functions.
#[derive(Drop)]
pub struct Functions<'r, 's, 'a, O, F> {
    pub level: &'r Level<'s, 'a, O, F>,
}

impl<
    'r,
    's,
    'a,
    O: Objects,
    F: Fn(&Scene<'a>, &O, &mut Out<'a>, u64, u32, &Tree) -> Result<Option<Good>, Memory>,
> Functions<'r, 's, 'a, O, F> {
    /// What the child gives for the tree that a function gives, or the error that it raises.
    #[inline(never)]
    fn given_tree(
        &self,
        out: &mut Out<'a>,
        children: &[u32],
        raw: Raw,
        tree: &Tree,
    ) -> Result<Option<Good>, Memory>
        requires { Nests O.functions F.Fn self.now.level.now }
        ensures { Walks out.old out.new result
            (spec.before_by (first (map (below O.functions self.now.level.now) children.now)) tree.now raw) }
    {
        match raw {
            Raw::Give(given) => {
                let found = self.level.first(out, children, &given)?;
                Ok(found)
            }
            Raw::Raise(raise) => out.fail(self.level.scene.alloc, raise.into_kind(), tree),
        }
    }

    /// The value that a function gives, with this grade and count of fields, or the error that it
    /// raises.
    #[inline(never)]
    fn made(
        &self,
        out: &mut Out<'a>,
        grade: Grade,
        fields: Option<u64>,
        made: Made,
        tree: &Tree,
    ) -> Result<Option<Good>, Memory>
        ensures { Walks out.old out.new result (spec.made_with grade fields tree.now made) }
    {
        match made {
            Made::Give(value) => Ok(Some(Good {
                value,
                grade,
                fields,
            })),
            Made::Raise(raise) => out.fail(self.level.scene.alloc, raise.into_kind(), tree),
        }
    }

    /// Whether the function of this name is there and sees values.
    fn sees_values(&self, name: &Text) -> bool
        ensures { result
            ≡ is_some (after_named (O.functions self.now.level.now.objects.now) name.now) }
    {
        match self.level.objects.kind_named(name) {
            Some(FuncKind::After) => true,
            Some(FuncKind::Before) | Some(FuncKind::Plain) | Some(FuncKind::Wrap) | None => false,
        }
    }

    /// What the function of this name makes of the success of a child, whose value is dropped.
    #[inline(never)]
    fn remade(
        &self,
        out: &mut Out<'a>,
        name: &Text,
        good: Good,
        tree: &Tree,
    ) -> Result<Option<Good>, Memory>
        ensures { Walks out.old out.new result (spec.after
            (after_named (O.functions self.now.level.now.objects.now) name.now)
            (λ t. outcome.Good good.value good.grade good.fields) tree.now) }
    {
        let Good {
            value,
            grade,
            fields,
        } = good;
        let made = self
            .level
            .objects
            .after(self.level.scene.alloc, name, &value)?;
        drop(value);
        match made {
            Some(made) => self.made(out, grade, fields, made, tree),
            None => out.fail(self.level.scene.alloc, Kind::RecursionLoop, tree),
        }
    }

    /// A function that sees the input: the child sees what it gives.
    #[inline(never)]
    pub fn before(
        &self,
        out: &mut Out<'a>,
        name: &Text,
        children: &[u32],
        tree: &Tree,
    ) -> Result<Option<Good>, Memory>
        requires { Nests O.functions F.Fn self.now.level.now }
        ensures { Walks out.old out.new result (spec.before
            (before_named (O.functions self.now.level.now.objects.now) name.now)
            (first (map (below O.functions self.now.level.now) children.now)) tree.now) }
    {
        match self
            .level
            .objects
            .before(self.level.scene.alloc, name, tree)?
        {
            Some(raw) => self.given_tree(out, children, raw, tree),
            None => out.fail(self.level.scene.alloc, Kind::RecursionLoop, tree),
        }
    }

    /// A function that sees the value that the child gives. Where the function is not there, the
    /// errors of the child are taken back.
    #[inline(never)]
    pub fn after(
        &self,
        out: &mut Out<'a>,
        name: &Text,
        children: &[u32],
        tree: &Tree,
    ) -> Result<Option<Good>, Memory>
        requires { Nests O.functions F.Fn self.now.level.now }
        ensures { Walks out.old out.new result (spec.after
            (after_named (O.functions self.now.level.now.objects.now) name.now)
            (first (map (below O.functions self.now.level.now) children.now)) tree.now) }
    {
        let mark = out.errors.len();
        match self.level.first(out, children, tree)? {
            Some(good) => self.remade(out, name, good, tree),
            None => {
                if self.sees_values(name) {
                    return Ok(None);
                }
                out.errors.cut(mark);
                out.fail(self.level.scene.alloc, Kind::RecursionLoop, tree)
            }
        }
    }

    /// A function in the place of a child.
    #[inline(never)]
    pub fn plain(&self, out: &mut Out<'a>, name: &Text, tree: &Tree) -> Result<Option<Good>, Memory>
        ensures { Walks out.old out.new result (spec.plain
            (plain_named (O.functions self.now.level.now.objects.now) name.now) tree.now) }
    {
        match self
            .level
            .objects
            .plain(self.level.scene.alloc, name, tree)?
        {
            Some(made) => self.made(out, Grade::Lax, None, made, tree),
            None => out.fail(self.level.scene.alloc, Kind::RecursionLoop, tree),
        }
    }
}
