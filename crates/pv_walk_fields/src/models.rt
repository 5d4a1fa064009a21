//! Models: the value of the child with a class.

ghost use Rattle.std.specs.Prelude.{map, ◌≡◌, IfOk};
ghost use Rattle.pv_tree.specs.declared.Value.{out-Value};
ghost use Rattle.pv_walk.specs.Rules.{first};
ghost use Rattle.pv_walk.specs.Wrapping as spec;
ghost use Rattle.pv_walk.specs.Walks.{Walks};
ghost use Rattle.pv_walk.specs.Nests.{Nests, below};

use crate::fields::Fields;
use pv_fault::{Good, Kind};
use pv_func::Objects;
use pv_text::{Memory, Text};
use pv_tree::{Tree, Value};
use pv_walk::{Out, Scene};
use sqlite_items::Boxed;
use std::alloc::Global;

/// A model with this class; another value has none.
fn with_class(alloc: Global, cls: &Text, value: Value) -> Result<Option<Value>, Memory>
    ensures { IfOk result (λ model. model ≡ spec.with_class cls.now (out-Value value)) }
{
    match value {
        Value::Model {
            fields,
            set,
            extra,
            ..
        } => Ok(Some(Value::Model {
            cls: cls.share(alloc)?,
            fields,
            set,
            extra,
        })),
        _ => Ok(None),
    }
}

/// The model around the value of its child.
fn model_value(
    alloc: Global,
    cls: &Text,
    root_model: bool,
    value: Value,
) -> Result<Option<Value>, Memory>
    ensures { IfOk result (λ model. model ≡ spec.model_value cls.now root_model value) }
{
    if root_model {
        return Ok(Some(Value::Root {
            cls: cls.share(alloc)?,
            value: Boxed::new(alloc, value)?,
        }));
    }
    let model = with_class(alloc, cls, value)?;
    Ok(model)
}

impl<
    'r,
    's,
    'a,
    O: Objects,
    F: Fn(&Scene<'a>, &O, &mut Out<'a>, u64, u32, &Tree) -> Result<Option<Good>, Memory>,
> Fields<'r, 's, 'a, O, F> {
    /// The model around what its child gave.
    #[inline(never)]
    fn modelled(
        &self,
        out: &mut Out<'a>,
        cls: &Text,
        root_model: bool,
        good: Good,
        tree: &Tree,
    ) -> Result<Option<Good>, Memory>
        ensures { Walks out.old out.new result (spec.modelled tree.now good.grade good.fields
            (spec.model_value cls.now root_model good.value)) }
    {
        let Good {
            value,
            grade,
            fields,
        } = good;
        match model_value(self.level.scene.alloc, cls, root_model, value)? {
            Some(value) => Ok(Some(Good {
                value,
                grade,
                fields,
            })),
            None => out.fail(self.level.scene.alloc, Kind::ModelType, tree),
        }
    }

    #[inline(never)]
    #[tactic(auto, unfolding(pv_walk::specs::Wrapping::model))]
    pub fn model(
        &self,
        out: &mut Out<'a>,
        cls: &Text,
        root_model: bool,
        children: &[u32],
        tree: &Tree,
    ) -> Result<Option<Good>, Memory>
        requires { Nests O.functions F.Fn self.now.level.now }
        ensures { Walks out.old out.new result (spec.model cls.now root_model
            (first (map (below O.functions self.now.level.now) children.now)) tree.now) }
    {
        match self.level.first(out, children, tree)? {
            Some(good) => self.modelled(out, cls, root_model, good, tree),
            None => Ok(None),
        }
    }
}
