//! The labels of schemas, which stand in front of the errors of a union's members.

ghost use Rattle.std.specs.Prelude.{◌≡◌, ◌++◌, codes, drop, string_bytes, IfOk, OnOk};
ghost use Rattle.pv_node.specs.declared.Body.{out-Body};
ghost use Rattle.pv_union.specs.Labels as spec;
ghost use Rattle.pv_union.specs.Labels.{body_label, bracketed, joined_by, label_at, position_labels};

use pv_node::{Body, Node};
use pv_rules::{Collection, FieldsKind, ScalarRule};
use pv_text::{Memory, Text};
use sqlite_items::{Boxed, Items};
use std::alloc::Global;

fn rule_label(rule: &ScalarRule) -> &str
    ensures { result.now ≡ spec.rule_label rule.now }
{
    match rule {
        ScalarRule::Any => "any",
        ScalarRule::None => "none",
        ScalarRule::Bool => "bool",
        ScalarRule::Int(_) => "int",
        ScalarRule::Str(_) => "str",
        ScalarRule::Bytes(_) => "bytes",
        ScalarRule::Uuid(_) => "uuid",
        ScalarRule::Url(_) => "url",
        ScalarRule::Literal(_) => "literal",
        ScalarRule::Enum(rule) => rule.cls.as_str(),
    }
}

fn collection_word(kind: Collection) -> &'static str
    ensures { result.now ≡ spec.collection_word kind }
{
    match kind {
        Collection::List => "list",
        Collection::Tuple => "tuple",
        Collection::Set => "set",
        Collection::Frozen => "frozenset",
        Collection::Dict => "dict",
    }
}

fn fields_word(kind: FieldsKind) -> &'static str
    ensures { result.now ≡ spec.fields_word kind }
{
    match kind {
        FieldsKind::Model => "model-fields",
        FieldsKind::TypedDict => "typed-dict",
    }
}

/// What stands behind the label of a position.
fn after_position(variadic: Option<u64>, place: usize) -> &'static str
    ensures { result.now ≡ spec.after_position variadic place }
{
    match variadic {
        Some(v) if v == place as u64 => ", ...",
        Some(_) => "",
        None => "",
    }
}

/// The label of a child schema, which may be absent.
#[cycle(label)]
fn push_child(out: &mut String, child: &Option<Boxed<Node>>) -> Result<(), Memory>
    ensures { OnOk result (string_bytes out.new ≡ string_bytes out.old
        ++ label_at spec.label child.now) }
{
    match child {
        Some(node) => push_label(out, node.get())?,
        None => out.push_str("any")?,
    }
    Ok(())
}

/// The label of the items of a list or a set.
#[cycle(label)]
fn push_sequence(
    out: &mut String,
    kind: Collection,
    items: &Option<Boxed<Node>>,
) -> Result<(), Memory>
    ensures { OnOk result (string_bytes out.new ≡ string_bytes out.old
        ++ bracketed (spec.collection_word kind) (label_at spec.label items.now)) }
{
    out.push_str(collection_word(kind))?;
    out.push_str("[")?;
    push_child(out, items)?;
    out.push_str("]")?;
    Ok(())
}

/// The label of a position.
#[cycle(label)]
fn push_position(
    out: &mut String,
    variadic: Option<u64>,
    place: usize,
    item: &Node,
) -> Result<(), Memory>
    ensures { OnOk result (string_bytes out.new ≡ string_bytes out.old
        ++ (spec.label item.now ++ spec.after_position variadic place)) }
{
    push_label(out, item)?;
    out.push_str(after_position(variadic, place))?;
    Ok(())
}

/// The labels of all positions.
#[cycle(label)]
fn push_positions(out: &mut String, variadic: Option<u64>, items: &[Node]) -> Result<(), Memory>
    ensures { OnOk result (string_bytes out.new ≡ string_bytes out.old
        ++ joined_by (codes ", ") (position_labels spec.label variadic 0 items.now)) }
{
    let Some((first, rest)) = items.split_first() else {
        return Ok(());
    };
    push_position(out, variadic, 0, first)?;
    for (place, item) in rest.iter().enumerate() {
        out.push_str(", ")?;
        push_position(out, variadic, place + 1, item)?;
    }
    Ok(())
}

/// The label of a tuple.
#[cycle(label)]
fn push_tuple(out: &mut String, variadic: Option<u64>, items: &[Node]) -> Result<(), Memory>
    ensures { OnOk result (string_bytes out.new ≡ string_bytes out.old
        ++ bracketed (codes "tuple")
        (joined_by (codes ", ") (position_labels spec.label variadic 0 items.now))) }
{
    out.push_str("tuple[")?;
    push_positions(out, variadic, items)?;
    out.push_str("]")?;
    Ok(())
}

/// The label of a nullable schema.
#[cycle(label)]
fn push_nullable(out: &mut String, inner: &Node) -> Result<(), Memory>
    ensures { OnOk result (string_bytes out.new ≡ string_bytes out.old
        ++ bracketed (codes "nullable") (spec.label inner.now)) }
{
    out.push_str("nullable[")?;
    push_label(out, inner)?;
    out.push_str("]")?;
    Ok(())
}

#[cycle(label)]
fn push_body(out: &mut String, body: &Body) -> Result<(), Memory>
    ensures { OnOk result (string_bytes out.new ≡ string_bytes out.old
        ++ body_label spec.label (out-Body body.now)) }
{
    match body {
        Body::Scalar(rule) => out.push_str(rule_label(rule))?,
        Body::Sequence { rule, items_schema } => push_sequence(out, rule.kind, items_schema)?,
        Body::Tuple { rule, items_schema } => {
            push_tuple(out, rule.variadic_item_index, items_schema.as_slice())?
        }
        Body::Dict {
            keys_schema,
            values_schema,
            ..
        } => {
            out.push_str("dict[")?;
            push_child(out, keys_schema)?;
            out.push_str(",")?;
            push_child(out, values_schema)?;
            out.push_str("]")?;
        }
        Body::Nullable { schema } => push_nullable(out, schema.get())?,
        Body::Fields { rule, .. } => out.push_str(fields_word(rule.kind))?,
        Body::Model { cls, .. } => out.push_str(cls.as_str())?,
        Body::Default { schema, .. } => push_label(out, schema.get())?,
        Body::Union { .. } => out.push_str("union")?,
        Body::TaggedUnion { .. } => out.push_str("tagged-union")?,
        Body::LaxOrStrict { .. } => out.push_str("lax-or-strict")?,
        Body::JsonOrPython { json_schema } => push_label(out, json_schema.get())?,
        Body::CustomError { schema, .. } => push_label(out, schema.get())?,
        Body::Before { schema, .. } => push_label(out, schema.get())?,
        Body::After { schema, .. } => push_label(out, schema.get())?,
        Body::Wrap { schema, .. } => push_label(out, schema.get())?,
        Body::Plain { .. } => out.push_str("function-plain")?,
        Body::Definitions { schema, .. } => push_label(out, schema.get())?,
        Body::DefinitionRef { schema_ref } => out.push_str(schema_ref.as_str())?,
    }
    Ok(())
}

#[cycle(label)]
#[tactic(auto, using(crate::proofs::Openings::opens))]
fn push_label(out: &mut String, node: &Node) -> Result<(), Memory>
    ensures { OnOk result (string_bytes out.new ≡ string_bytes out.old ++ spec.label node.now) }
{
    push_body(out, &node.body)?;
    Ok(())
}

/// The label of a node.
pub fn label(alloc: Global, node: &Node) -> Result<Text, Memory>
    ensures { IfOk result (λ t. t ≡ spec.label node.now) }
{
    let mut out = String::new(alloc);
    push_label(&mut out, node)?;
    Text::from_str(alloc, out.as_str())
}

/// The label of a choice, by the labels of this choice and of those behind it.
fn choice_label(alloc: Global, owns: &[Option<Text>], choice: &Node) -> Result<Text, Memory>
    ensures { IfOk result (λ t. t ≡ spec.choice_label owns.now choice.now) }
{
    match owns.first() {
        Some(Some(own)) => own.share(alloc),
        Some(None) => label(alloc, choice),
        None => label(alloc, choice),
    }
}

fn without_first(owns: &[Option<Text>]) -> &[Option<Text>]
    ensures { result.now ≡ drop 1 owns.now }
{
    match owns.split_first() {
        Some((_, rest)) => rest,
        None => owns,
    }
}

/// The labels of all choices: of each its own, or, where it has none, that of its node.
pub fn choice_labels(
    alloc: Global,
    owns: &[Option<Text>],
    choices: &[Node],
) -> Result<Items<Text>, Memory>
    ensures { IfOk result (λ labels. labels ≡ spec.choice_labels owns.now choices.now) }
{
    let mut labels = Vec::with_capacity(alloc, choices.len())?;
    let mut left = owns;
    for choice in choices {
        labels.push(choice_label(alloc, left, choice)?)?;
        left = without_first(left);
    }
    Ok(Items::from_vec(labels))
}
