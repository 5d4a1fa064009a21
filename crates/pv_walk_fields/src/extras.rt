//! The members of an object that no field takes.

ghost use Rattle.std.specs.Prelude.{List, length, slice_get, [], ◌∷◌, ◌++◌, ◌≡◌, Some, IfOk, OnOk};
ghost use Rattle.pv_tree.specs.Parts.{members_at};
ghost use Rattle.pv_tree.specs.declared.Step.TheVariants.{Name};
ghost use Rattle.pv_tree.specs.declared.Tree.{out-Tree};
ghost use Rattle.pv_fault.specs.Single.{error_here};
ghost use Rattle.pv_fault.specs.Under.{all_under, outcome_under};
ghost use Rattle.pv_fields.specs.FieldList.{Answered, Extra};
ghost use Rattle.pv_walk.specs.Fields as gives;
ghost use Rattle.pv_walk_fields.specs.Objects.{GoingObject, IsFound, children_by, extra_by_policy, extra_child_by, extras_by};
ghost use Rattle.pv_walk.specs.Walks.{Adds, Walks};
ghost use Rattle.pv_walk.specs.Nests.{Nests};
ghost use Rattle.pv_walk.specs.declared.Out as written;

use crate::defaults::plainly;
use crate::fields::Fields;
use crate::object::Object;
use pv_fault::{Good, Kind};
use pv_fields::KeptFields;
use pv_func::Objects;
use pv_rules::ExtraBehavior;
use pv_text::{Memory, Text};
use pv_tree::{Step, Tree};
use pv_walk::{Out, Scene};

impl<
    'r,
    's,
    'a,
    O: Objects,
    F: Fn(&Scene<'a>, &O, &mut Out<'a>, u64, u32, &Tree) -> Result<Option<Good>, Memory>,
> Fields<'r, 's, 'a, O, F> {
    /// The value of an extra member by the child behind those of the fields, where there is one.
    fn extra_value(
        &self,
        out: &mut Out<'a>,
        object: &Object<'_, '_>,
        value: &Tree,
    ) -> Result<Option<Good>, Memory>
        requires { Nests O.functions F.Fn self.now.level.now }
        ensures { Walks out.old out.new result (gives.extra_child (extra_child_by O.functions self.now.level.now object.now) value.now) }
    {
        match object.children.get(object.plan.len()) {
            Some(number) => self.level.child(out, *number, value),
            None => {
                let found = plainly(self.level.scene.alloc, value)?;
                Ok(found)
            }
        }
    }

    /// An extra member that is kept, with its name in front of its errors.
    fn allowed(
        &self,
        out: &mut Out<'a>,
        object: &Object<'_, '_>,
        name: &Text,
        value: &Tree,
    ) -> Result<Option<Good>, Memory>
        requires { Nests O.functions F.Fn self.now.level.now }
        ensures { Walks out.old out.new result (outcome_under (Name name.now)
            (gives.extra_child (extra_child_by O.functions self.now.level.now object.now) value.now)) }
    {
        let len = out.path.len();
        out.path
            .push(Step::Name(name.share(self.level.scene.alloc)?))?;
        let found = self.extra_value(out, object, value)?;
        out.path.cut(len);
        Ok(found)
    }

    /// An extra member that is forbidden.
    fn forbidden(&self, out: &mut Out<'a>, name: &Text, value: &Tree) -> Result<(), Memory>
        ensures { OnOk result (Adds out.old out.new (all_under (Name name.now) (error_here Kind.ExtraForbidden value.now ∷ []))) }
    {
        let step = Step::Name(name.share(self.level.scene.alloc)?);
        out.push_below(self.level.scene.alloc, Kind::ExtraForbidden, step, value)?;
        Ok(())
    }

    /// One extra member.
    fn extra(
        &self,
        out: &mut Out<'a>,
        object: &Object<'_, '_>,
        kept: &mut KeptFields,
        name: &Text,
        value: &Tree,
    ) -> Result<(), Memory>
        requires { Nests O.functions F.Fn self.now.level.now }
        ensures { (start : written.Out) (fs : List Answered) (es : List Extra) → GoingObject start out.old object.now kept.old fs es
            → object.now.mark ≡ length start.errors
            → OnOk result (GoingObject start out.new object.now kept.new fs (es ++ extra_by_policy O.functions self.now.level.now object.now (name.now, value.now))) }
    {
        match object.plan.extra() {
            ExtraBehavior::Ignore => Ok(()),
            ExtraBehavior::Forbid => {
                self.forbidden(out, name, value)?;
                Ok(())
            }
            ExtraBehavior::Allow => {
                let found = self.allowed(out, object, name, value)?;
                kept.extra(
                    self.level.scene.alloc,
                    object.mark,
                    out.errors.len(),
                    name,
                    found,
                )?;
                Ok(())
            }
        }
    }

    /// All extra members.
    pub(crate) fn all_extras(
        &self,
        out: &mut Out<'a>,
        object: &Object<'_, '_>,
        kept: &mut KeptFields,
        members: &[(Text, Tree)],
    ) -> Result<(), Memory>
        requires nests { Nests O.functions F.Fn self.now.level.now }
        requires finds { IsFound object.now }
        requires members { members_at (out-Tree object.now.tree.now) ≡ Some members.now }
        ensures { (start : written.Out) (fs : List Answered) → GoingObject start out.old object.now kept.old fs []
            → object.now.mark ≡ length start.errors
            → OnOk result (GoingObject start out.new object.now kept.new fs (extras_by O.functions self.now.level.now object.now)) }
    {
        for (place, (name, value)) in members.iter().enumerate() {
            if object.finds.is_extra(place) {
                self.extra(out, object, kept, name, value)?;
            }
        }
        Ok(())
    }
}
