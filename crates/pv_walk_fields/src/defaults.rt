//! Defaults: the child, and what stands in where it fails or where no tree is there.

ghost use Rattle.std.specs.Prelude.{map, ◌≡◌, Some, IfOk};
ghost use Rattle.std.specs.Option.{option_map};
ghost use Rattle.pv_collect.specs.Kept.{good_of};
ghost use Rattle.pv_walk.specs.Fields as gives;
ghost use Rattle.pv_walk.specs.Rules.{first};
ghost use Rattle.pv_walk.specs.Run.{default_of};
ghost use Rattle.pv_walk.specs.Wrapping as wraps;
ghost use Rattle.pv_walk.specs.Walks.{Walks};
ghost use Rattle.pv_walk.specs.Nests.{Nests, below};
ghost use Rattle.pv_walk_fields.specs.GoingFields.{stand_in_outcome, lax_good};

use crate::fields::Fields;
use pv_fault::{Good, Grade};
use pv_func::Objects;
use pv_plan::Op;
use pv_text::Memory;
use pv_tree::{Tree, plain_value};
use pv_walk::{Out, Scene};
use std::alloc::Global;

/// What stands in where no tree is there: the tree of a default, and the children of its node, by
/// which the tree is validated where `validates` is true.
#[derive(Clone, Copy)]
pub(crate) struct StandIn<'a> {
    pub(crate) tree: &'a Tree,
    pub(crate) validates: bool,
    pub(crate) children: &'a [u32],
}

/// The plain value of a tree.
#[inline(never)]
pub(crate) fn plainly(alloc: Global, tree: &Tree) -> Result<Option<Good>, Memory>
    ensures { IfOk result (λ found. found ≡ good_of (gives.plainly tree.now)) }
{
    Ok(Some(Good {
        value: plain_value(alloc, tree)?,
        grade: Grade::Exact,
        fields: None,
    }))
}

/// The same success with the lowest grade.
fn laxly(found: Option<Good>) -> Option<Good>
    ensures { result ≡ lax_good found }
{
    match found {
        Some(Good { value, fields, .. }) => Some(Good {
            value,
            grade: Grade::Lax,
            fields,
        }),
        None => None,
    }
}

impl<
    'r,
    's,
    'a,
    O: Objects,
    F: Fn(&Scene<'a>, &O, &mut Out<'a>, u64, u32, &Tree) -> Result<Option<Good>, Memory>,
> Fields<'r, 's, 'a, O, F> {
    /// What stands in for the record of this number, where it is a default.
    pub(crate) fn stand_in(&self, number: u32) -> Option<StandIn<'a>>
        ensures { option_map (stand_in_outcome (below O.functions self.now.level.now)) result
            ≡ default_of self.now.level.now.scene.now.table.now (below O.functions self.now.level.now) number }
    {
        match self.level.scene.table.get(number as usize) {
            None => None,
            Some(slot) => match &slot.op {
                Op::Default { default: tree, .. } => Some(StandIn {
                    tree,
                    validates: slot.validate_default,
                    children: slot.children.as_slice(),
                }),
                Op::Scalar(_) => None,
                Op::Gather(_) => None,
                Op::Nullable => None,
                Op::Fields(_) => None,
                Op::Model { .. } => None,
                Op::Union { .. } => None,
                Op::TaggedUnion(_) => None,
                Op::LaxOrStrict => None,
                Op::Inner => None,
                Op::CustomError { .. } => None,
                Op::Before { .. } => None,
                Op::After { .. } => None,
                Op::Wrap { .. } => None,
                Op::Plain { .. } => None,
            },
        }
    }

    /// The value of a default where no tree is there.
    pub(crate) fn missing_value(
        &self,
        out: &mut Out<'a>,
        validates: bool,
        children: &[u32],
        default: &Tree,
    ) -> Result<Option<Good>, Memory>
        requires { Nests O.functions F.Fn self.now.level.now }
        ensures { Walks out.old out.new result
            (gives.missing_value validates (first (map (below O.functions self.now.level.now) children.now)) default.now) }
    {
        if validates {
            return self.level.first(out, children, default);
        }
        let found = plainly(self.level.scene.alloc, default)?;
        Ok(found)
    }

    /// The value of a default where its child failed.
    fn lax_value(
        &self,
        out: &mut Out<'a>,
        validates: bool,
        children: &[u32],
        default: &Tree,
    ) -> Result<Option<Good>, Memory>
        requires { Nests O.functions F.Fn self.now.level.now }
        ensures { Walks out.old out.new result (wraps.laxly
            (gives.missing_value validates (first (map (below O.functions self.now.level.now) children.now)) default.now)) }
    {
        let found = self.missing_value(out, validates, children, default)?;
        Ok(laxly(found))
    }

    /// A default. Where its child fails and the default stands in, the errors of the child are taken back.
    #[inline(never)]
    #[tactic(auto, unfolding(pv_walk::specs::Wrapping::default))]
    pub fn default(
        &self,
        out: &mut Out<'a>,
        default: &Tree,
        stands_in: bool,
        validates: bool,
        children: &[u32],
        tree: &Tree,
    ) -> Result<Option<Good>, Memory>
        requires { Nests O.functions F.Fn self.now.level.now }
        ensures { Walks out.old out.new result (wraps.default stands_in validates
            (first (map (below O.functions self.now.level.now) children.now)) default.now tree.now) }
    {
        let mark = out.errors.len();
        match self.level.first(out, children, tree)? {
            Some(good) => Ok(Some(good)),
            None => {
                if !stands_in {
                    return Ok(None);
                }
                out.errors.cut(mark);
                self.lax_value(out, validates, children, default)
            }
        }
    }
}
