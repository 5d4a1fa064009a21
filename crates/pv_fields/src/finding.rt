//! All fields of an object at once, and its extra keys.

ghost use Rattle.std.specs.Prelude.{◌≡◌};
ghost use Rattle.pv_fields.specs.Planned.{marked};

use crate::directories::Directories;
use crate::plan::FieldPlan;
use pv_paths::Found;
use pv_text::Memory;
use pv_tree::Tree;
use std::alloc::Global;
use std::marker::Model;

/// What was found of each field, and which members of the object are extra.
#[derive(Drop)]
pub struct Finds<'a> {
    fields: Vec<Found<'a>>,
    extra: Vec<bool>,
}

impl<'a> Model for Finds<'a> {
    ghost use Rattle.std.specs.Prelude.{map};
    ghost use Rattle.pv_tree.specs.contracts.Tree as tree;
    ghost use Rattle.std.specs.Coded.{codes};
    ghost use Rattle.pv_fields.specs.Finding as spec;
    ghost use Rattle.pv_paths.specs.Following.{hit};

    ghost Value = { spec.Finds };

    ghost coded = { Prim.hlevel (codes, tree.the_row.coded) };

    ghost view = { λ f. record { fields = map hit f.fields.items; extra = f.extra.items } };
}

impl<'a> Finds<'a> {
    ghost use Rattle.std.specs.Prelude.{◌≡◌, ◌<◌, Some, length, slice_get};
    ghost use Rattle.pv_paths.specs.Following.{hit};

    /// Where the value of a field was found.
    pub fn field(&self, field: usize) -> Found<'a>
        requires { field < length self.now.fields }
        ensures { slice_get self.now.fields field ≡ Some (hit result) }
    {
        self.fields[field]
    }

    /// Whether the member at this place is extra.
    pub fn is_extra(&self, member: usize) -> bool
        requires { member < length self.now.extra }
        ensures { slice_get self.now.extra member ≡ Some result }
    {
        self.extra[member]
    }
}

/// A member is no longer extra.
fn mark(extra: &mut Vec<bool>, member: Option<usize>)
    ensures { extra.new.items ≡ marked extra.old.items member }
{
    if let Some(member) = member {
        if let Some(flag) = extra.get_mut(member) {
            *flag = false;
        }
    }
}

impl FieldPlan {
    ghost use Rattle.std.specs.Prelude.{◌≡◌, IfOk};
    ghost use Rattle.pv_fields.specs.Finding.{finds_of};

    /// Finds all fields of an object and its extra keys. The object's own members are taken in the
    /// order in which they come, and from an index of their names where many come in another order.
    /// So are those of each object inside it that paths of several steps lead into, by all of these
    /// paths together.
    pub fn find<'a>(&self, alloc: Global, input: &'a Tree) -> Result<Finds<'a>, Memory>
        ensures { IfOk result (λ finds. finds ≡ finds_of self.now.0 self.now.1 input.now) }
    {
        let mut directories = Directories::new(alloc, input);
        let mut fields = Vec::with_capacity(alloc, self.len())?;
        let mut extra = vec![in alloc; true; directories.len()]?;
        for own in self.paths.as_slice() {
            let (found, member) = directories.first_found(alloc, own.paths.as_slice())?;
            fields.push(found)?;
            mark(&mut extra, member);
        }
        Ok(Finds { fields, extra })
    }
}
