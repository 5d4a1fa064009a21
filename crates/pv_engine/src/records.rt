//! The records of a scene, by what their children give.

ghost use Rattle.std.specs.Prelude.{map, slice_get, ◌≡◌};
ghost use Rattle.pv_walk.specs.Run as spec;
ghost use Rattle.pv_walk.specs.Run.{context_of, default_of};
ghost use Rattle.pv_walk.specs.Context.{strict_in};
ghost use Rattle.pv_walk.specs.Walks.{Walks};
ghost use Rattle.pv_walk.specs.Nests.{Nests, below};

use pv_fault::{Good, Kind};
use pv_func::Objects;
use pv_plan::{Op, Record};
use pv_text::Memory;
use pv_tree::Tree;
use pv_walk::{Level, Out, Scene};
use pv_walk_choices::Choices;
use pv_walk_collections::Collections;
use pv_walk_fields::Fields;
use pv_walk_functions::Functions;

/// What a record gives.
#[tactic(auto, unfolding(pv_walk::specs::Run::operation))]
fn operation<
    's,
    'a,
    O: Objects,
    F: Fn(&Scene<'a>, &O, &mut Out<'a>, u64, u32, &Tree) -> Result<Option<Good>, Memory>,
>(
    level: &Level<'s, 'a, O, F>,
    out: &mut Out<'a>,
    slot: &'a Record,
    tree: &Tree,
) -> Result<Option<Good>, Memory>
    requires { Nests O.functions F.Fn level.now }
    ensures { Walks out.old out.new result (spec.operation (O.functions level.now.objects.now) slot.now.op
        (strict_in level.now.scene.now.run slot.now.strict) slot.now.validate_default
        (map (below O.functions level.now) slot.now.children)
        (map (default_of level.now.scene.now.table.now (below O.functions level.now)) slot.now.children) tree.now) }
{
    let children = slot.children.as_slice();
    let strict = level.scene.strictness(slot);
    let collections = Collections { level: &*level };
    let fields = Fields { level: &*level };
    let choices = Choices { level: &*level };
    let functions = Functions { level: &*level };
    match &slot.op {
        Op::Scalar(rule) => level.scalar_node(out, rule, strict, tree),
        Op::Gather(rule) => collections.collection(out, rule, children, tree),
        Op::Nullable => choices.nullable(out, children, tree),
        Op::Fields(plan) => fields.fields(out, plan, children, tree),
        Op::Model { cls, root_model } => fields.model(out, cls, *root_model, children, tree),
        Op::Default {
            default,
            use_on_error,
        } => fields.default(
            out,
            default,
            *use_on_error,
            slot.validate_default,
            children,
            tree,
        ),
        Op::Union {
            labels,
            left_to_right,
        } => choices.union(out, labels.as_slice(), *left_to_right, children, tree),
        Op::TaggedUnion(table) => choices.tagged(out, table, children, tree),
        Op::LaxOrStrict => choices.lax_or_strict(out, strict, children, tree),
        Op::Inner => level.first(out, children, tree),
        Op::CustomError {
            error_type,
            message,
        } => choices.custom_error(out, error_type, message, children, tree),
        Op::Before { name } => functions.before(out, name, children, tree),
        Op::After { name } => functions.after(out, name, children, tree),
        Op::Wrap { name } => functions.wrap(out, name, children, tree),
        Op::Plain { name } => functions.plain(out, name, tree),
    }
}

/// What the record of this number gives.
pub(crate) fn record_at<
    's,
    'a,
    O: Objects,
    F: Fn(&Scene<'a>, &O, &mut Out<'a>, u64, u32, &Tree) -> Result<Option<Good>, Memory>,
>(
    level: &Level<'s, 'a, O, F>,
    out: &mut Out<'a>,
    number: u32,
    tree: &Tree,
) -> Result<Option<Good>, Memory>
    requires { Nests O.functions F.Fn level.now }
    ensures { Walks out.old out.new result (spec.at_record level.now.scene.now.table.now (context_of level.now.scene.now.run (O.functions level.now.objects.now))
        (below O.functions level.now) (slice_get level.now.scene.now.table.now number) tree.now) }
{
    match level.scene.table.get(number as usize) {
        None => out.fail(level.scene.alloc, Kind::RecursionLoop, tree),
        Some(slot) => operation(level, out, slot, tree),
    }
}
