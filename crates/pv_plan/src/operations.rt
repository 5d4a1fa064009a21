//! What nodes do, without their children.

ghost use Rattle.std.specs.Prelude.{◌≡◌, IfOk};
ghost use Rattle.pv_node.specs.declared.Body.{out-Body};
ghost use Rattle.pv_node.specs.Places.{rule_of};
ghost use Rattle.pv_union.specs.Labels as labels;
ghost use Rattle.pv_plan.specs.Records.{is_default, is_left_to_right, op_of, validates_at};
ghost use Rattle.pv_plan.specs.BadPatterns.{any_is_bad, bad_itself, rule_is_bad};
ghost use Rattle.pv_plan.specs.Faults.{Finds};

use crate::faults::{BuildFault, bad_pattern};
use crate::record::Op;
use pv_fields::FieldPlan;
use pv_node::{Body, Node};
use pv_rules::{FieldsRule, OnError, ScalarRule, Settings, TagRule, UnionMode, UnionRule};
use pv_scalar::{PatternFault, Scalar};
use pv_text::{Memory, Text};
use pv_tree::Tree;
use pv_union::{TagTable, choice_labels};
use sqlite_items::Items;
use std::alloc::Global;

fn scalar(alloc: Global, rule: &ScalarRule, settings: &Settings) -> Result<Op, BuildFault>
    ensures value { IfOk result (λ op. op ≡ Op.Scalar (rule.now, settings.now)) }
    ensures pattern { Finds result (bad_itself (rule_is_bad rule.now)) }
{
    match Scalar::build(alloc, rule, settings) {
        Ok(scalar) => Ok(Op::Scalar(scalar)),
        Err(PatternFault::Syntax) => Err(bad_pattern(alloc)),
        Err(PatternFault::Memory) => Err(BuildFault::Memory),
    }
}

fn fields(alloc: Global, rule: &FieldsRule, settings: &Settings) -> Result<Op, Memory>
    ensures { IfOk result (λ op. op ≡ Op.Fields (rule.now, settings.now)) }
{
    let plan = FieldPlan::build(alloc, rule, settings)?;
    Ok(Op::Fields(plan))
}

fn model(alloc: Global, cls: &Text, root_model: bool) -> Result<Op, Memory>
    ensures { IfOk result (λ op. op ≡ Op.Model cls.now root_model) }
{
    let cls = cls.share(alloc)?;
    Ok(Op::Model { cls, root_model })
}

/// Whether a default stands in where the inner schema fails.
fn stands_in(on_error: OnError) -> bool
    ensures { result ≡ is_default on_error }
{
    match on_error {
        OnError::Raise => false,
        OnError::Default => true,
    }
}

fn default(alloc: Global, tree: &Tree, on_error: OnError) -> Result<Op, Memory>
    ensures { IfOk result (λ op. op ≡ Op.Default tree.now (is_default on_error)) }
{
    let default = tree.share(alloc)?;
    let use_on_error = stands_in(on_error);
    Ok(Op::Default {
        default,
        use_on_error,
    })
}

/// Whether a union takes the first of its choices that succeeds.
fn is_first_taken(mode: UnionMode) -> bool
    ensures { result ≡ is_left_to_right mode }
{
    match mode {
        UnionMode::Smart => false,
        UnionMode::LeftToRight => true,
    }
}

fn union(alloc: Global, rule: &UnionRule, choices: &Items<Node>) -> Result<Op, Memory>
    ensures { IfOk result (λ op. op ≡ Op.Union (labels.choice_labels rule.now.labels choices.now)
        (is_left_to_right rule.now.mode)) }
{
    let labels = choice_labels(alloc, rule.labels.as_slice(), choices.as_slice())?;
    let left_to_right = is_first_taken(rule.mode);
    Ok(Op::Union {
        labels,
        left_to_right,
    })
}

fn tagged_union(alloc: Global, rule: &TagRule) -> Result<Op, Memory>
    ensures { IfOk result (λ op. op ≡ Op.TaggedUnion rule.now) }
{
    let table = TagTable::build(alloc, rule)?;
    Ok(Op::TaggedUnion(table))
}

fn custom_error(alloc: Global, error_type: &Text, message: &Text) -> Result<Op, Memory>
    ensures { IfOk result (λ op. op ≡ Op.CustomError error_type.now message.now) }
{
    let error_type = error_type.share(alloc)?;
    let message = message.share(alloc)?;
    Ok(Op::CustomError {
        error_type,
        message,
    })
}

fn before(alloc: Global, function: &Text) -> Result<Op, Memory>
    ensures { IfOk result (λ op. op ≡ Op.Before function.now) }
{
    let name = function.share(alloc)?;
    Ok(Op::Before { name })
}

fn after(alloc: Global, function: &Text) -> Result<Op, Memory>
    ensures { IfOk result (λ op. op ≡ Op.After function.now) }
{
    let name = function.share(alloc)?;
    Ok(Op::After { name })
}

fn wrap(alloc: Global, function: &Text) -> Result<Op, Memory>
    ensures { IfOk result (λ op. op ≡ Op.Wrap function.now) }
{
    let name = function.share(alloc)?;
    Ok(Op::Wrap { name })
}

fn plain(alloc: Global, function: &Text) -> Result<Op, Memory>
    ensures { IfOk result (λ op. op ≡ Op.Plain function.now) }
{
    let name = function.share(alloc)?;
    Ok(Op::Plain { name })
}

/// Whether a node says that its default is validated.
pub(crate) fn validates(body: &Body) -> Option<bool>
    ensures { result ≡ validates_at (out-Body body.now) }
{
    match body {
        Body::Scalar(_) => None,
        Body::Sequence { .. } => None,
        Body::Tuple { .. } => None,
        Body::Dict { .. } => None,
        Body::Nullable { .. } => None,
        Body::Fields { .. } => None,
        Body::Model { .. } => None,
        Body::Default {
            validate_default,
            ..
        } => *validate_default,
        Body::Union { .. } => None,
        Body::TaggedUnion { .. } => None,
        Body::LaxOrStrict { .. } => None,
        Body::JsonOrPython { .. } => None,
        Body::CustomError { .. } => None,
        Body::Before { .. } => None,
        Body::After { .. } => None,
        Body::Wrap { .. } => None,
        Body::Plain { .. } => None,
        Body::Definitions { .. } => None,
        Body::DefinitionRef { .. } => None,
    }
}

/// What a node does, by the settings in force in it.
pub(crate) fn operation(alloc: Global, body: &Body, settings: &Settings) -> Result<Op, BuildFault>
    ensures value { IfOk result (λ op. op ≡ op_of settings.now (out-Body body.now)) }
    ensures pattern { Finds result (bad_itself (any_is_bad (rule_of (out-Body body.now)))) }
{
    match body {
        Body::Scalar(rule) => {
            let op = scalar(alloc, rule, settings)?;
            Ok(op)
        }
        Body::Sequence { rule, .. } => Ok(Op::Gather(*rule)),
        Body::Tuple { rule, .. } => Ok(Op::Gather(*rule)),
        Body::Dict { rule, .. } => Ok(Op::Gather(*rule)),
        Body::Nullable { .. } => Ok(Op::Nullable),
        Body::Fields { rule, .. } => {
            let op = fields(alloc, rule, settings)?;
            Ok(op)
        }
        Body::Model {
            cls,
            root_model,
            ..
        } => {
            let op = model(alloc, cls, *root_model)?;
            Ok(op)
        }
        Body::Default {
            default: tree,
            on_error,
            ..
        } => {
            let op = default(alloc, tree, *on_error)?;
            Ok(op)
        }
        Body::Union { rule, choices } => {
            let op = union(alloc, rule, choices)?;
            Ok(op)
        }
        Body::TaggedUnion { rule, .. } => {
            let op = tagged_union(alloc, rule)?;
            Ok(op)
        }
        Body::LaxOrStrict { .. } => Ok(Op::LaxOrStrict),
        Body::JsonOrPython { .. } => Ok(Op::Inner),
        Body::CustomError {
            error_type,
            message,
            ..
        } => {
            let op = custom_error(alloc, error_type, message)?;
            Ok(op)
        }
        Body::Before { rule, .. } => {
            let op = before(alloc, &rule.function)?;
            Ok(op)
        }
        Body::After { rule, .. } => {
            let op = after(alloc, &rule.function)?;
            Ok(op)
        }
        Body::Wrap { rule, .. } => {
            let op = wrap(alloc, &rule.function)?;
            Ok(op)
        }
        Body::Plain { rule } => {
            let op = plain(alloc, &rule.function)?;
            Ok(op)
        }
        Body::Definitions { .. } => Ok(Op::Inner),
        Body::DefinitionRef { .. } => Ok(Op::Inner),
    }
}
