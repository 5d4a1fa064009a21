//! What a node of each type asks for.

ghost use Rattle.std.specs.Prelude.{◌≡◌, IfOk};
ghost use Rattle.pv_node.specs.Absent.{or_any};
ghost use Rattle.pv_rules.specs.declared.ScalarRule.TheVariants as rule;
ghost use Rattle.pv_schema_values.specs.Values as value;
ghost use Rattle.pv_schema_check.specs.Find.{itself, tree_at};
ghost use Rattle.pv_schema.specs.Making.{body_in, fields_body, made, part_at};
ghost use Rattle.pv_schema.specs.NodeRules.{gather_rule as gather};
ghost use Rattle.pv_schema.specs.Written.{or_empty, read};
ghost use Rattle.pv_schema_table.specs.declared.Kind.TheVariants as kinds;

use crate::children::{
    make_child, make_children, make_definitions_under, make_fields_under, make_required,
};
use crate::choice_schemas::{make_choices_under, make_tagged_under};
use crate::choices::{tag_rule, union_rule};
use crate::configs::config_at;
use crate::fields::fields_rule;
use crate::node_rules::{
    bytes_rule, enum_rule, func_rule, gather_rule, int_rule, required_text, str_rule, tuple_rule,
    url_rule,
};
use crate::written::{default_at, flag_at, flag_or, literals_at, on_error_at, text_at, version_at};
use pv_node::{Body, Node};
use pv_rules::{Collection, FieldsKind, ScalarRule, Settings};
use pv_schema_table::{Key, NodeType};
use pv_text::{Memory, Text};
use pv_tree::{Members, Tree};
use sqlite_items::Boxed;
use std::alloc::Global;

#[cycle(make)]
fn make_sequence(alloc: Global, collection: Collection, members: &Members) -> Result<Body, Memory>
    ensures { IfOk result (λ body. body
        ≡ Body.Sequence (gather (tree_at itself members.now.members) collection)
        (part_at itself made members.now.members kinds.Schema Key.ItemsSchema)) }
{
    Ok(Body::Sequence {
        rule: gather_rule(collection, members.as_slice()),
        items_schema: make_child(alloc, members, Key::ItemsSchema)?,
    })
}

#[cycle(make)]
fn make_tuple(alloc: Global, members: &Members) -> Result<Body, Memory>
    ensures { IfOk result (λ body. body
        ≡ body_in itself made members.now.members NodeType.Tuple) }
{
    let items_schema = make_children(alloc, members, Key::ItemsSchema)?;
    let rule = tuple_rule(items_schema.len() as u64, members.as_slice());
    Ok(Body::Tuple { rule, items_schema })
}

#[cycle(make)]
fn make_dict(alloc: Global, members: &Members) -> Result<Body, Memory>
    ensures { IfOk result (λ body. body
        ≡ body_in itself made members.now.members NodeType.Dict) }
{
    let keys_schema = make_child(alloc, members, Key::KeysSchema)?;
    let values_schema = make_child(alloc, members, Key::ValuesSchema)?;
    Ok(Body::Dict {
        rule: gather_rule(Collection::Dict, members.as_slice()),
        keys_schema,
        values_schema,
    })
}

/// The schema under a key, where it has to stand.
#[cycle(make)]
fn make_boxed(alloc: Global, members: &Members, key: Key) -> Result<Boxed<Node>, Memory>
    ensures { IfOk result (λ node. node
        ≡ or_any (part_at itself made members.now.members kinds.Schema key)) }
{
    Ok(Boxed::new(alloc, make_required(alloc, members, key)?)?)
}

#[cycle(make)]
fn make_nullable(alloc: Global, members: &Members) -> Result<Body, Memory>
    ensures { IfOk result (λ body. body
        ≡ body_in itself made members.now.members NodeType.Nullable) }
{
    Ok(Body::Nullable {
        schema: make_boxed(alloc, members, Key::Schema)?,
    })
}

#[cycle(make)]
fn make_default(alloc: Global, members: &Members) -> Result<Body, Memory>
    ensures { IfOk result (λ body. body
        ≡ body_in itself made members.now.members NodeType.Default) }
{
    let keys = members.as_slice();
    Ok(Body::Default {
        default: default_at(alloc, keys)?,
        validate_default: flag_at(keys, Key::ValidateDefault),
        on_error: on_error_at(keys),
        schema: make_boxed(alloc, members, Key::Schema)?,
    })
}

/// A node with fields of a kind.
#[cycle(make)]
fn make_fields(
    alloc: Global,
    kind: FieldsKind,
    total: Option<bool>,
    members: &Members,
    config: Option<Settings>,
    cls: Option<Text>,
) -> Result<Body, Memory>
    ensures { IfOk result (λ body. body ≡ fields_body
        (tree_at itself members.now.members) (part_at itself made members.now.members)
        kind total
        (or_empty (part_at itself made members.now.members (kinds.Fields kind) Key.Fields))
        config cls) }
{
    Ok(Body::Fields {
        rule: fields_rule(alloc, kind, total, members.as_slice())?,
        fields: make_fields_under(alloc, kind, members)?,
        extras_schema: make_child(alloc, members, Key::ExtrasSchema)?,
        config,
        cls,
    })
}

#[cycle(make)]
fn make_typed_dict(alloc: Global, members: &Members) -> Result<Body, Memory>
    ensures { IfOk result (λ body. body
        ≡ body_in itself made members.now.members NodeType.TypedDict) }
{
    let keys = members.as_slice();
    let total = flag_at(keys, Key::Total);
    let config = config_at(alloc, keys)?;
    let cls = text_at(alloc, keys, Key::Cls)?;
    make_fields(alloc, FieldsKind::TypedDict, total, members, config, cls)
}

#[cycle(make)]
fn make_model(alloc: Global, members: &Members) -> Result<Body, Memory>
    ensures { IfOk result (λ body. body
        ≡ body_in itself made members.now.members NodeType.Model) }
{
    let keys = members.as_slice();
    Ok(Body::Model {
        cls: required_text(alloc, keys, Key::Cls)?,
        root_model: flag_or(false, keys, Key::RootModel),
        config: config_at(alloc, keys)?,
        schema: make_boxed(alloc, members, Key::Schema)?,
    })
}

#[cycle(make)]
fn make_union(alloc: Global, members: &Members) -> Result<Body, Memory>
    ensures { IfOk result (λ body. body
        ≡ body_in itself made members.now.members NodeType.Union) }
{
    Ok(Body::Union {
        rule: union_rule(alloc, members.as_slice())?,
        choices: make_choices_under(alloc, members)?,
    })
}

#[cycle(make)]
fn make_tagged_union(alloc: Global, members: &Members) -> Result<Body, Memory>
    ensures { IfOk result (λ body. body
        ≡ body_in itself made members.now.members NodeType.TaggedUnion) }
{
    Ok(Body::TaggedUnion {
        rule: tag_rule(alloc, members.as_slice())?,
        choices: make_tagged_under(alloc, members)?,
    })
}

#[cycle(make)]
fn make_lax_or_strict(alloc: Global, members: &Members) -> Result<Body, Memory>
    ensures { IfOk result (λ body. body
        ≡ body_in itself made members.now.members NodeType.LaxOrStrict) }
{
    let lax_schema = make_boxed(alloc, members, Key::LaxSchema)?;
    let strict_schema = make_boxed(alloc, members, Key::StrictSchema)?;
    Ok(Body::LaxOrStrict {
        lax_schema,
        strict_schema,
    })
}

#[cycle(make)]
fn make_custom_error(alloc: Global, members: &Members) -> Result<Body, Memory>
    ensures { IfOk result (λ body. body
        ≡ body_in itself made members.now.members NodeType.CustomError) }
{
    let keys = members.as_slice();
    Ok(Body::CustomError {
        error_type: required_text(alloc, keys, Key::CustomErrorType)?,
        message: required_text(alloc, keys, Key::CustomErrorMessage)?,
        schema: make_boxed(alloc, members, Key::Schema)?,
    })
}

#[cycle(make)]
fn make_definitions(alloc: Global, members: &Members) -> Result<Body, Memory>
    ensures { IfOk result (λ body. body
        ≡ body_in itself made members.now.members NodeType.Definitions) }
{
    Ok(Body::Definitions {
        schema: make_boxed(alloc, members, Key::Schema)?,
        definitions: make_definitions_under(alloc, members)?,
    })
}

/// The values of which one is expected.
fn literal_rule(alloc: Global, members: &[(Text, Tree)]) -> Result<ScalarRule, Memory>
    ensures { IfOk result (λ made. made
        ≡ rule.Literal
        (or_empty (read value.literals_of (tree_at itself members.now Key.Expected)))) }
{
    Ok(ScalarRule::Literal(literals_at(alloc, members, Key::Expected)?))
}

#[cycle(make)]
pub(crate) fn make_body(
    alloc: Global,
    node_type: NodeType,
    members: &Members,
) -> Result<Body, Memory>
    ensures { IfOk result (λ body. body
        ≡ body_in itself made members.now.members node_type) }
{
    let keys = members.as_slice();
    match node_type {
        NodeType::Any => Ok(Body::Scalar(ScalarRule::Any)),
        NodeType::None => Ok(Body::Scalar(ScalarRule::None)),
        NodeType::Bool => Ok(Body::Scalar(ScalarRule::Bool)),
        NodeType::Int => Ok(Body::Scalar(ScalarRule::Int(int_rule(keys)))),
        NodeType::Str => Ok(Body::Scalar(ScalarRule::Str(str_rule(alloc, keys)?))),
        NodeType::Bytes => Ok(Body::Scalar(ScalarRule::Bytes(bytes_rule(keys)))),
        NodeType::Uuid => Ok(Body::Scalar(ScalarRule::Uuid(version_at(keys, Key::Version)))),
        NodeType::Url => Ok(Body::Scalar(ScalarRule::Url(url_rule(alloc, keys)?))),
        NodeType::Literal => Ok(Body::Scalar(literal_rule(alloc, keys)?)),
        NodeType::Enum => Ok(Body::Scalar(ScalarRule::Enum(enum_rule(alloc, keys)?))),
        NodeType::List => make_sequence(alloc, Collection::List, members),
        NodeType::Set => make_sequence(alloc, Collection::Set, members),
        NodeType::Frozen => make_sequence(alloc, Collection::Frozen, members),
        NodeType::Tuple => make_tuple(alloc, members),
        NodeType::Dict => make_dict(alloc, members),
        NodeType::Nullable => make_nullable(alloc, members),
        NodeType::Default => make_default(alloc, members),
        NodeType::ModelFields => {
            make_fields(alloc, FieldsKind::Model, None, members, None, None)
        }
        NodeType::TypedDict => make_typed_dict(alloc, members),
        NodeType::Model => make_model(alloc, members),
        NodeType::Union => make_union(alloc, members),
        NodeType::TaggedUnion => make_tagged_union(alloc, members),
        NodeType::LaxOrStrict => make_lax_or_strict(alloc, members),
        NodeType::JsonOrPython => Ok(Body::JsonOrPython {
            json_schema: make_boxed(alloc, members, Key::JsonSchema)?,
        }),
        NodeType::CustomError => make_custom_error(alloc, members),
        NodeType::Before => Ok(Body::Before {
            rule: func_rule(alloc, keys)?,
            schema: make_boxed(alloc, members, Key::Schema)?,
        }),
        NodeType::After => Ok(Body::After {
            rule: func_rule(alloc, keys)?,
            schema: make_boxed(alloc, members, Key::Schema)?,
        }),
        NodeType::Wrap => Ok(Body::Wrap {
            rule: func_rule(alloc, keys)?,
            schema: make_boxed(alloc, members, Key::Schema)?,
        }),
        NodeType::Plain => Ok(Body::Plain {
            rule: func_rule(alloc, keys)?,
        }),
        NodeType::Definitions => make_definitions(alloc, members),
        NodeType::DefinitionRef => Ok(Body::DefinitionRef {
            schema_ref: required_text(alloc, keys, Key::SchemaRef)?,
        }),
    }
}
