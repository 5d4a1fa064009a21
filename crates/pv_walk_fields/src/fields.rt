//! Lists of fields: every field of an object by its child.

ghost use Rattle.std.specs.Prelude.{List, map, length, slice_get, [], ◌∷◌, ◌++◌, ◌≡◌, ◌<◌, Some, None, IfOk, OnOk};
ghost use Rattle.std.specs.Option.{option_map};
ghost use Rattle.pv_tree.specs.Parts.{members_at};
ghost use Rattle.pv_tree.specs.declared.Tree.{out-Tree};
ghost use Rattle.pv_rules.specs.declared.FieldRule.{FieldRule};
ghost use Rattle.pv_fault.specs.Single.{error_here};
ghost use Rattle.pv_fault.specs.Under.{all_at_path};
ghost use Rattle.pv_fields.specs.Finding.{found_field};
ghost use Rattle.pv_fields.specs.FieldList.{Answered, Extra, answer_errors, fields_of};
ghost use Rattle.pv_fields.specs.Kept.{nothing_kept};
ghost use Rattle.pv_walk.specs.Fields as gives;
ghost use Rattle.pv_walk_fields.specs.GoingFields.{WalkedAt, stand_in_outcome};
ghost use Rattle.pv_walk_fields.specs.Objects.{GoingObject, IsFound, answered_by, answers_by, children_by, extras_by, fields_in_order, stand_ins_by};
ghost use Rattle.pv_walk.specs.Walks.{Adds, Walks};
ghost use Rattle.pv_walk.specs.Nests.{Nests, below};
ghost use Rattle.pv_walk.specs.declared.Out as written;

use crate::defaults::StandIn;
use crate::object::Object;
use pv_fault::{Good, Kind};
use pv_fields::{FieldPlan, Finds, KeptFields};
use pv_func::Objects;
use pv_paths::Found;
use pv_rules::FieldsKind;
use pv_text::{Memory, Text};
use pv_tree::{Loc, Tree};
use pv_walk::{Level, Out, Scene};

/// The error of a tree that is no object.
fn object_error(kind: FieldsKind) -> Kind
    ensures { result ≡ gives.object_error kind }
{
    match kind {
        FieldsKind::Model => Kind::ModelType,
        FieldsKind::TypedDict => Kind::DictType,
    }
}

/// The nodes of a level that make objects of fields, models of them, and values of defaults.
#[derive(Drop)]
pub struct Fields<'r, 's, 'a, O, F> {
    pub level: &'r Level<'s, 'a, O, F>,
}

impl<
    'r,
    's,
    'a,
    O: Objects,
    F: Fn(&Scene<'a>, &O, &mut Out<'a>, u64, u32, &Tree) -> Result<Option<Good>, Memory>,
> Fields<'r, 's, 'a, O, F> {
    /// The child of a position.
    fn nth(
        &self,
        out: &mut Out<'a>,
        children: &[u32],
        position: usize,
        tree: &Tree,
    ) -> Result<Option<Good>, Memory>
        requires { Nests O.functions F.Fn self.now.level.now }
        ensures { Walks out.old out.new result
            (gives.child_or_none (slice_get (children_by O.functions self.now.level.now children.now) position) tree.now) }
    {
        match children.get(position) {
            Some(number) => self.level.child(out, *number, tree),
            None => out.fail(self.level.scene.alloc, Kind::RecursionLoop, tree),
        }
    }

    /// What stands in for the child of a position where no tree is there.
    fn nth_stand_in(&self, children: &[u32], position: usize) -> Option<StandIn<'a>>
        ensures { option_map (stand_in_outcome (below O.functions self.now.level.now)) result
            ≡ gives.default_or_none (slice_get (stand_ins_by O.functions self.now.level.now children.now) position) }
    {
        match children.get(position) {
            Some(number) => self.stand_in(*number),
            None => None,
        }
    }

    /// The tree that was found for a field, with this path in front of its errors.
    fn given(
        &self,
        out: &mut Out<'a>,
        front: &Loc,
        children: &[u32],
        field: usize,
        tree: &Tree,
    ) -> Result<Option<Good>, Memory>
        requires { Nests O.functions F.Fn self.now.level.now }
        ensures { IfOk result (λ found. WalkedAt out.old out.new front.now found
            (gives.child_or_none (slice_get (children_by O.functions self.now.level.now children.now) field) tree.now)) }
    {
        let len = out.path.len();
        out.enter(self.level.scene.alloc, front.as_slice())?;
        let found = self.nth(out, children, field, tree)?;
        out.path.cut(len);
        Ok(found)
    }

    /// What stands in for a field that was not found, with this path in front of its errors.
    fn defaulted(
        &self,
        out: &mut Out<'a>,
        place: &Loc,
        stand_in: StandIn<'a>,
    ) -> Result<Option<Good>, Memory>
        requires { Nests O.functions F.Fn self.now.level.now }
        ensures { IfOk result (λ found. WalkedAt out.old out.new place.now found (stand_in_outcome (below O.functions self.now.level.now) stand_in.entry)) }
    {
        let len = out.path.len();
        out.enter(self.level.scene.alloc, place.as_slice())?;
        let found = self.missing_value(out, stand_in.validates, stand_in.children, stand_in.tree)?;
        out.path.cut(len);
        Ok(found)
    }

    /// The error of a field that is missing.
    #[inline(never)]
    fn missing(&self, out: &mut Out<'a>, place: &Loc, tree: &Tree) -> Result<(), Memory>
        ensures { OnOk result (Adds out.old out.new (all_at_path place.now (error_here Kind.Missing tree.now ∷ []))) }
    {
        let len = out.path.len();
        out.enter(self.level.scene.alloc, place.as_slice())?;
        out.push(self.level.scene.alloc, Kind::Missing, tree)?;
        out.path.cut(len);
        Ok(())
    }

    /// A field that was not found and has no default.
    fn lacking(
        &self,
        out: &mut Out<'a>,
        object: &Object<'_, '_>,
        field: usize,
    ) -> Result<(), Memory>
        requires { field < length (fields_in_order object.now) }
        ensures { (f : FieldRule) → slice_get (fields_in_order object.now) field ≡ Some f
            → OnOk result (Adds out.old out.new (answer_errors object.now.plan.now.1 object.now.tree.now f (gives.unfound f.required None))) }
    {
        if object.plan.required(field) {
            self.missing(out, object.plan.place(field), object.tree)?;
        }
        Ok(())
    }

    /// A field that was not found.
    fn unfound(
        &self,
        out: &mut Out<'a>,
        object: &Object<'_, '_>,
        kept: &mut KeptFields,
        field: usize,
    ) -> Result<(), Memory>
        requires nests { Nests O.functions F.Fn self.now.level.now }
        requires within { field < length (fields_in_order object.now) }
        ensures { (start : written.Out) (fs : List Answered) (f : FieldRule) → slice_get (fields_in_order object.now) field ≡ Some f
            → found_field object.now.plan.now.1 object.now.tree.now f ≡ None
            → GoingObject start out.old object.now kept.old fs [] → object.now.mark ≡ length start.errors
            → OnOk result (GoingObject start out.new object.now kept.new (fs ++ answered_by O.functions self.now.level.now object.now field f ∷ []) []) }
    {
        match self.nth_stand_in(object.children, field) {
            Some(stand_in) => {
                let found = self.defaulted(out, object.plan.place(field), stand_in)?;
                kept.defaulted(
                    self.level.scene.alloc,
                    object.mark,
                    out.errors.len(),
                    object.plan.name(field),
                    found,
                )?;
                Ok(())
            }
            None => {
                self.lacking(out, object, field)?;
                Ok(())
            }
        }
    }

    /// One field.
    fn field(
        &self,
        out: &mut Out<'a>,
        object: &Object<'_, '_>,
        kept: &mut KeptFields,
        field: usize,
    ) -> Result<(), Memory>
        requires nests { Nests O.functions F.Fn self.now.level.now }
        requires finds { IsFound object.now }
        requires within { field < length (fields_in_order object.now) }
        ensures { (start : written.Out) (fs : List Answered) (f : FieldRule) → slice_get (fields_in_order object.now) field ≡ Some f
            → GoingObject start out.old object.now kept.old fs [] → object.now.mark ≡ length start.errors
            → OnOk result (GoingObject start out.new object.now kept.new (fs ++ answered_by O.functions self.now.level.now object.now field f ∷ []) []) }
    {
        match object.finds.field(field) {
            Found::At { path, tree } => {
                let front = object.plan.front(field, path);
                let found = self.given(out, front, object.children, field, tree)?;
                kept.given(
                    self.level.scene.alloc,
                    object.mark,
                    out.errors.len(),
                    object.plan.name(field),
                    found,
                )?;
                Ok(())
            }
            Found::Missing => {
                self.unfound(out, object, kept, field)?;
                Ok(())
            }
        }
    }

    /// All fields.
    fn all_fields(
        &self,
        out: &mut Out<'a>,
        object: &Object<'_, '_>,
        kept: &mut KeptFields,
    ) -> Result<(), Memory>
        requires nests { Nests O.functions F.Fn self.now.level.now }
        requires finds { IsFound object.now }
        requires kept { kept.old ≡ nothing_kept }
        requires mark { object.now.mark ≡ length out.old.errors }
        ensures { OnOk result (GoingObject out.old out.new object.now kept.new (answers_by O.functions self.now.level.now object.now) []) }
    {
        for field in 0..object.plan.len() {
            self.field(out, object, kept, field)?;
        }
        Ok(())
    }

    /// Ends the walk of all fields and all extra members.
    #[inline(never)]
    fn finish_fields(
        &self,
        out: &mut Out<'a>,
        object: &Object<'_, '_>,
        kept: KeptFields,
    ) -> Result<Option<Good>, Memory>
        ensures { (start : written.Out) (fs : List Answered) (es : List Extra) → GoingObject start out.old object.now kept fs es
            → object.now.mark ≡ length start.errors
            → Walks start out.new result (fields_of object.now.plan.now.0 object.now.plan.now.1 object.now.tree.now fs es) }
    {
        if out.errors.len() != object.mark {
            return Ok(None);
        }
        let good = kept.finish(self.level.scene.alloc, object.plan)?;
        Ok(Some(good))
    }

    /// The fields and the extra members of an object.
    fn object(
        &self,
        out: &mut Out<'a>,
        object: &Object<'_, '_>,
        members: &[(Text, Tree)],
    ) -> Result<Option<Good>, Memory>
        requires nests { Nests O.functions F.Fn self.now.level.now }
        requires finds { IsFound object.now }
        requires members { members_at (out-Tree object.now.tree.now) ≡ Some members.now }
        requires mark { object.now.mark ≡ length out.old.errors }
        ensures { Walks out.old out.new result (fields_of object.now.plan.now.0 object.now.plan.now.1 object.now.tree.now
            (answers_by O.functions self.now.level.now object.now) (extras_by O.functions self.now.level.now object.now)) }
    {
        let mut kept = KeptFields::new(self.level.scene.alloc, object.plan.len())?;
        self.all_fields(out, object, &mut kept)?;
        self.all_extras(out, object, &mut kept, members)?;
        self.finish_fields(out, object, kept)
    }

    #[inline(never)]
    #[tactic(auto, unfolding(pv_walk::specs::Fields::fields))]
    pub fn fields(
        &self,
        out: &mut Out<'a>,
        plan: &FieldPlan,
        children: &[u32],
        tree: &Tree,
    ) -> Result<Option<Good>, Memory>
        requires { Nests O.functions F.Fn self.now.level.now }
        ensures { Walks out.old out.new result (gives.fields plan.now.0 plan.now.1
            (children_by O.functions self.now.level.now children.now) (stand_ins_by O.functions self.now.level.now children.now) tree.now) }
    {
        match tree.as_object() {
            Some(members) => {
                let finds = plan.find(self.level.scene.alloc, tree)?;
                let object = Object {
                    plan: &*plan,
                    children: &*children,
                    finds: &finds,
                    tree: &*tree,
                    mark: out.errors.len(),
                };
                self.object(out, &object, members)
            }
            None => out.fail(self.level.scene.alloc, object_error(plan.kind()), tree),
        }
    }
}
