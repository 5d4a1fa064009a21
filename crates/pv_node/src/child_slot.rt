//! The slots of nodes for child schemas.

ghost use Rattle.std.specs.Prelude.{◌≡◌, ℕ, true, [], ◌∷◌, ◌++◌, codes, slice_get, unwrap_or};
ghost use Rattle.std.specs.Option.{option_map};
ghost use Rattle.pv_tree.specs.declared.Step.TheVariants.{Name};
ghost use Rattle.pv_node.specs.declared.node.Body.{out-Body};
ghost use Rattle.pv_node.specs.Places as places;
ghost use Rattle.pv_node.specs.Places.{Path, choice_slots, extras_slots, field_slots, inner_slot, listed, part_slot, position_path, slots, slots_of, tag_slots, whole_slot};
ghost use Rattle.pv_node.specs.Lending.{lent, steps};

use crate::node::{Body, Node};
use crate::slot_path::SlotPath;
use pv_rules::{FieldRule, FieldsRule};
use pv_text::Text;
use sqlite_items::{Boxed, Items};

/// How a node leads to the child schema of a slot.
#[derive(Clone, Copy, Debug, PartialEq, Eq)]
pub enum Edge {
    /// It applies it to parts of its input.
    Enters,
    /// It applies it to its input itself, or to what stands in for it.
    Stays,
    /// It does not apply it: the schema is only written there.
    Absent,
}

/// A slot of a node, for a child schema.
#[derive(Clone, Copy)]
pub struct ChildSlot<'a> {
    /// The way to it.
    pub path: SlotPath<'a>,
    pub edge: Edge,
    /// The node that is written there.
    pub node: Option<&'a Node>,
}

/// The slot under a key, for parts of the input.
fn part<'a>(key: &'static str, node: &'a Option<Boxed<Node>>) -> ChildSlot<'a>
    ensures { lent result ≡ part_slot key.now node.now }
{
    let node = match node {
        Some(node) => Some(node.get()),
        None => None,
    };
    ChildSlot {
        path: SlotPath::Key(key),
        edge: Edge::Enters,
        node,
    }
}

/// The slot under a key, for the input itself.
fn whole<'a>(key: &'static str, node: &'a Node) -> ChildSlot<'a>
    ensures { lent result ≡ whole_slot key.now node.now }
{
    ChildSlot {
        path: SlotPath::Key(key),
        edge: Edge::Stays,
        node: Some(node),
    }
}

/// The slot of a number where there is one.
#[tactic(auto, using(crate::proofs::Lending::past_one))]
fn only<'a>(slot: ChildSlot<'a>, place: usize) -> Option<ChildSlot<'a>>
    ensures { option_map lent result ≡ slice_get (lent slot.entry ∷ []) place }
{
    if place == 0 { Some(slot) } else { None }
}

/// The slot of a number where there are two.
#[tactic(auto, using(crate::proofs::Lending::past_two))]
fn either<'a>(first: ChildSlot<'a>, second: ChildSlot<'a>, place: usize) -> Option<ChildSlot<'a>>
    ensures { option_map lent result ≡ slice_get (lent first.entry ∷ lent second.entry ∷ []) place }
{
    match place {
        0 => Some(first),
        1 => Some(second),
        _ => None,
    }
}

/// The slot of the inner schema.
fn inner(node: &Node, place: usize) -> Option<ChildSlot<'_>>
    ensures { option_map lent result ≡ slice_get (inner_slot node.now ∷ []) place }
{
    only(whole("schema", node), place)
}

/// The slot of a number among those for a list of nodes, by the way to the one of that number.
fn of_list<'a>(
    nodes: &'a Items<Node>,
    edge: Edge,
    path: SlotPath<'a>,
    place: usize,
) -> Option<ChildSlot<'a>>
    ensures { (to : ℕ → Path) → steps path.entry ≡ to place
        → option_map lent result ≡ slice_get (listed to edge 0 nodes.now) place }
{
    match nodes.get(place) {
        Some(node) => Some(ChildSlot {
            path,
            edge,
            node: Some(node),
        }),
        None => None,
    }
}

/// The slot of an item of the list under a key.
fn of_items<'a>(
    key: &'static str,
    nodes: &'a Items<Node>,
    edge: Edge,
    place: usize,
) -> Option<ChildSlot<'a>>
    ensures { option_map lent result ≡ slice_get (listed (position_path key.now) edge 0 nodes.now) place }
{
    of_list(nodes, edge, SlotPath::Position(key, place as u64), place)
}

/// The slot of the inner schema, and then those of the definitions.
fn of_definitions<'a>(
    node: &'a Node,
    definitions: &'a Items<Node>,
    place: usize,
) -> Option<ChildSlot<'a>>
    ensures { option_map lent result ≡ slice_get (inner_slot node.now
        ∷ listed (position_path (codes "definitions")) Edge.Absent 0 definitions.now) place }
{
    if place == 0 {
        Some(whole("schema", node))
    } else {
        of_items("definitions", definitions, Edge::Absent, place - 1)
    }
}

/// The name of a field; one past the rules has the empty name.
fn field_name(rules: &[FieldRule], place: usize) -> &str
    ensures { result.now ≡ places.field_name (slice_get rules.now place) }
{
    match rules.get(place) {
        Some(rule) => rule.name.as_str(),
        None => "",
    }
}

/// The slot of a field.
fn of_field<'a>(
    rules: &'a [FieldRule],
    nodes: &'a Items<Node>,
    place: usize,
) -> Option<ChildSlot<'a>>
    ensures { option_map lent result ≡ slice_get (field_slots rules.now nodes.now) place }
{
    let path = SlotPath::Field(field_name(rules, place));
    of_list(nodes, Edge::Enters, path, place)
}

/// The slot for extra keys, where there is one.
fn of_extras(node: &Option<Boxed<Node>>, place: usize) -> Option<ChildSlot<'_>>
    ensures { option_map lent result ≡ slice_get (extras_slots node.now) place }
{
    match node {
        Some(node) => {
            let slot = ChildSlot {
                path: SlotPath::Key("extras_schema"),
                edge: Edge::Enters,
                node: Some(node.get()),
            };
            only(slot, place)
        }
        None => None,
    }
}

/// The slots of the fields, and then that for extra keys.
fn of_fields<'a>(
    rule: &'a FieldsRule,
    nodes: &'a Items<Node>,
    extras: &'a Option<Boxed<Node>>,
    place: usize,
) -> Option<ChildSlot<'a>>
    ensures { option_map lent result
        ≡ slice_get (field_slots rule.now.fields nodes.now ++ extras_slots extras.now) place }
{
    let fields = nodes.len();
    if place < fields {
        of_field(rule.fields.as_slice(), nodes, place)
    } else {
        of_extras(extras, place - fields)
    }
}

/// Whether a choice has a label; one past the labels has none.
fn has_label(labels: &[Option<Text>], place: usize) -> bool
    ensures { result ≡ places.has_label (slice_get labels.now place) }
{
    match labels.get(place) {
        Some(label) => label.is_some(),
        None => false,
    }
}

/// The slot of a choice of a union.
fn of_choice<'a>(
    labels: &'a [Option<Text>],
    nodes: &'a Items<Node>,
    place: usize,
) -> Option<ChildSlot<'a>>
    ensures { option_map lent result ≡ slice_get (choice_slots labels.now nodes.now) place }
{
    let path = SlotPath::Choice {
        position: place as u64,
        labelled: has_label(labels, place),
    };
    of_list(nodes, Edge::Stays, path, place)
}

/// The tag of a choice; one past the tags has the empty one.
fn tag(tags: &[Text], place: usize) -> &str
    ensures { result.now ≡ unwrap_or (slice_get tags.now place) [] }
{
    match tags.get(place) {
        Some(tag) => tag.as_str(),
        None => "",
    }
}

/// The slot of a choice of a tagged union.
fn of_tag<'a>(tags: &'a [Text], nodes: &'a Items<Node>, place: usize) -> Option<ChildSlot<'a>>
    ensures { option_map lent result ≡ slice_get (tag_slots tags.now nodes.now) place }
{
    let path = SlotPath::Tag(tag(tags, place));
    of_list(nodes, Edge::Stays, path, place)
}

impl Body {
    /// The slot of a number, from 0.
    fn slot(&self, place: usize) -> Option<ChildSlot<'_>>
        ensures { option_map lent result ≡ slice_get (slots (out-Body self.now)) place }
    {
        match self {
            Body::Scalar(_) => None,
            Body::Sequence { items_schema, .. } => only(part("items_schema", items_schema), place),
            Body::Tuple { items_schema, .. } => {
                of_items("items_schema", items_schema, Edge::Enters, place)
            }
            Body::Dict {
                keys_schema,
                values_schema,
                ..
            } => {
                let keys = part("keys_schema", keys_schema);
                let values = part("values_schema", values_schema);
                either(keys, values, place)
            }
            Body::Nullable { schema } => inner(schema.get(), place),
            Body::Fields {
                rule,
                fields,
                extras_schema,
                ..
            } => of_fields(rule, fields, extras_schema, place),
            Body::Model { schema, .. } => inner(schema.get(), place),
            Body::Default { schema, .. } => inner(schema.get(), place),
            Body::Union { rule, choices } => of_choice(rule.labels.as_slice(), choices, place),
            Body::TaggedUnion { rule, choices } => of_tag(rule.tags.as_slice(), choices, place),
            Body::LaxOrStrict {
                lax_schema,
                strict_schema,
            } => {
                let lax = whole("lax_schema", lax_schema.get());
                let strict = whole("strict_schema", strict_schema.get());
                either(lax, strict, place)
            }
            Body::JsonOrPython { json_schema } => {
                only(whole("json_schema", json_schema.get()), place)
            }
            Body::CustomError { schema, .. } => inner(schema.get(), place),
            Body::Before { schema, .. } => inner(schema.get(), place),
            Body::After { schema, .. } => inner(schema.get(), place),
            Body::Wrap { schema, .. } => inner(schema.get(), place),
            Body::Plain { .. } => None,
            Body::Definitions {
                schema,
                definitions,
            } => of_definitions(schema.get(), definitions, place),
            Body::DefinitionRef { .. } => None,
        }
    }
}

impl Node {
    /// The slot of a number, from 0, for a child schema.
    pub fn slot(&self, place: usize) -> Option<ChildSlot<'_>>
        ensures { option_map lent result ≡ slice_get (slots_of self.now) place }
    {
        self.body.slot(place)
    }
}
