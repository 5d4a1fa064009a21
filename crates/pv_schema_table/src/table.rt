//! The types of objects and their keys, as a table.

ghost use Rattle.std.specs.Prelude.{◌≡◌};
ghost use Rattle.pv_schema_table.specs.Table as spec;
ghost use Rattle.pv_schema_table.specs.Rows.{object_in, types_in};

use crate::key::Key;
use crate::kind::Kind;
use crate::node_type::NodeType;
use crate::row::{Fit, KeyRow, Makes, ObjectRow, Test, TypeRow};
use pv_rules::FieldsKind;
use pv_schema_values::ValueKind;

/// A key that has to be there, or one that may, or one of either that has no effect.
macro_rules! row {
    (must $key:ident, $kind:expr) => {
        KeyRow {
            key: Key::$key,
            kind: $kind,
            required: true,
            effect: true,
        }
    };
    (may $key:ident, $kind:expr) => {
        KeyRow {
            key: Key::$key,
            kind: $kind,
            required: false,
            effect: true,
        }
    };
    (unread $key:ident, $kind:expr) => {
        KeyRow {
            key: Key::$key,
            kind: $kind,
            required: true,
            effect: false,
        }
    };
    (idle $key:ident, $kind:expr) => {
        KeyRow {
            key: Key::$key,
            kind: $kind,
            required: false,
            effect: false,
        }
    };
}

/// A type of nodes, with its own keys and its tests.
macro_rules! node {
    ($name:literal, $node_type:ident, $own:expr, $tests:expr) => {
        TypeRow {
            name: $name,
            makes: Makes::Node(NodeType::$node_type),
            object: ObjectRow {
                shared: &NODE_KEYS,
                own: $own,
                tests: $tests,
            },
        }
    };
}

const TEXT: Kind = Kind::Value(ValueKind::Text);

const FLAG: Kind = Kind::Value(ValueKind::Flag);

const FALSE: Kind = Kind::Value(ValueKind::False);

const COUNT: Kind = Kind::Value(ValueKind::Count);

const INTEGER: Kind = Kind::Value(ValueKind::Int);

const NODE_KEYS: [KeyRow; 5] = [
    row!(must Type, TEXT),
    row!(may Ref, TEXT),
    row!(may Strict, FLAG),
    row!(may Serialization, Kind::NotBuilt),
    row!(idle Metadata, Kind::Value(ValueKind::Anything)),
];

const INT: [KeyRow; 5] = [
    row!(may MultipleOf, Kind::Value(ValueKind::AtLeastOne)),
    row!(may Le, INTEGER),
    row!(may Lt, INTEGER),
    row!(may Ge, INTEGER),
    row!(may Gt, INTEGER),
];

const STR: [KeyRow; 5] = [
    row!(may MinLength, COUNT),
    row!(may MaxLength, COUNT),
    row!(may Pattern, TEXT),
    row!(may StripWhitespace, FLAG),
    row!(idle RegexEngine, Kind::Value(ValueKind::Engine)),
];

const BYTES: [KeyRow; 2] = [row!(may MinLength, COUNT), row!(may MaxLength, COUNT)];

const UUID: [KeyRow; 1] = [row!(may Version, Kind::Value(ValueKind::Version))];

const URL: [KeyRow; 2] = [
    row!(may MaxLength, COUNT),
    row!(may AllowedSchemes, Kind::Value(ValueKind::Texts)),
];

const LITERAL: [KeyRow; 1] = [row!(must Expected, Kind::Value(ValueKind::Literals))];

const ENUM: [KeyRow; 3] = [
    row!(must Cls, TEXT),
    row!(must Members, Kind::Value(ValueKind::Members)),
    row!(may SubType, Kind::Value(ValueKind::SubType)),
];

const ENUM_TESTS: [Test; 1] = [Test {
    key: Key::SubType,
    other: Key::Members,
    fit: Fit::OfSubType,
}];

const SEQUENCE: [KeyRow; 4] = [
    row!(may ItemsSchema, Kind::Schema),
    row!(may MinLength, COUNT),
    row!(may MaxLength, COUNT),
    row!(idle FailFast, FALSE),
];

const TUPLE: [KeyRow; 5] = [
    row!(must ItemsSchema, Kind::Schemas),
    row!(may VariadicItemIndex, COUNT),
    row!(may MinLength, COUNT),
    row!(may MaxLength, COUNT),
    row!(idle FailFast, FALSE),
];

const TUPLE_TESTS: [Test; 1] = [Test {
    key: Key::VariadicItemIndex,
    other: Key::ItemsSchema,
    fit: Fit::PlaceInList,
}];

const DICT: [KeyRow; 4] = [
    row!(may KeysSchema, Kind::Schema),
    row!(may ValuesSchema, Kind::Schema),
    row!(may MinLength, COUNT),
    row!(may MaxLength, COUNT),
];

const NULLABLE: [KeyRow; 1] = [row!(must Schema, Kind::Schema)];

const DEFAULT: [KeyRow; 5] = [
    row!(must Schema, Kind::Schema),
    row!(must Default, Kind::Value(ValueKind::Anything)),
    row!(may ValidateDefault, FLAG),
    row!(may OnError, Kind::Value(ValueKind::OnError)),
    row!(idle CopyDefault, FLAG),
];

const MODEL_FIELDS: [KeyRow; 6] = [
    row!(must Fields, Kind::Fields(FieldsKind::Model)),
    row!(may ExtraBehavior, Kind::Value(ValueKind::ExtraBehavior)),
    row!(may ExtrasSchema, Kind::Schema),
    row!(idle ModelName, TEXT),
    row!(idle FromAttributes, FLAG),
    row!(idle ComputedFields, Kind::Value(ValueKind::EmptyList)),
];

const TYPED_DICT: [KeyRow; 7] = [
    row!(must Fields, Kind::Fields(FieldsKind::TypedDict)),
    row!(may ExtraBehavior, Kind::Value(ValueKind::ExtraBehavior)),
    row!(may ExtrasSchema, Kind::Schema),
    row!(idle ComputedFields, Kind::Value(ValueKind::EmptyList)),
    row!(may Cls, TEXT),
    row!(may Total, FLAG),
    row!(may Config, Kind::Config),
];

const MODEL: [KeyRow; 7] = [
    row!(must Cls, TEXT),
    row!(must Schema, Kind::Schema),
    row!(may RootModel, FLAG),
    row!(may Config, Kind::Config),
    row!(idle CustomInit, FALSE),
    row!(idle Frozen, FLAG),
    row!(idle RevalidateInstances, Kind::Value(ValueKind::Revalidation)),
];

const UNION: [KeyRow; 3] = [
    row!(must Choices, Kind::Choices),
    row!(may Mode, Kind::Value(ValueKind::UnionMode)),
    row!(idle AutoCollapse, Kind::Value(ValueKind::True)),
];

const TAGGED_UNION: [KeyRow; 3] = [
    row!(must Choices, Kind::Tagged),
    row!(must Discriminator, Kind::Value(ValueKind::Alias)),
    row!(idle FromAttributes, FLAG),
];

const LAX_OR_STRICT: [KeyRow; 2] = [
    row!(must LaxSchema, Kind::Schema),
    row!(must StrictSchema, Kind::Schema),
];

const JSON_OR_PYTHON: [KeyRow; 2] = [
    row!(must JsonSchema, Kind::Schema),
    row!(unread PythonSchema, Kind::Value(ValueKind::Anything)),
];

const CUSTOM_ERROR: [KeyRow; 3] = [
    row!(must Schema, Kind::Schema),
    row!(must CustomErrorType, TEXT),
    row!(must CustomErrorMessage, TEXT),
];

const FUNCTION: Kind = Kind::Value(ValueKind::Function);

const BESIDE: [KeyRow; 2] = [
    row!(must Function, FUNCTION),
    row!(must Schema, Kind::Schema),
];

const PLAIN: [KeyRow; 1] = [row!(must Function, FUNCTION)];

const DEFINITIONS: [KeyRow; 2] = [
    row!(must Schema, Kind::Schema),
    row!(must Definitions, Kind::Definitions),
];

const DEFINITION_REF: [KeyRow; 1] = [row!(must SchemaRef, TEXT)];

static NODE_TYPES: [TypeRow; 31] = [
    node!("any", Any, &[], &[]),
    node!("none", None, &[], &[]),
    node!("bool", Bool, &[], &[]),
    node!("int", Int, &INT, &[]),
    node!("str", Str, &STR, &[]),
    node!("bytes", Bytes, &BYTES, &[]),
    node!("uuid", Uuid, &UUID, &[]),
    node!("url", Url, &URL, &[]),
    node!("literal", Literal, &LITERAL, &[]),
    node!("enum", Enum, &ENUM, &ENUM_TESTS),
    node!("list", List, &SEQUENCE, &[]),
    node!("set", Set, &SEQUENCE, &[]),
    node!("frozenset", Frozen, &SEQUENCE, &[]),
    node!("tuple", Tuple, &TUPLE, &TUPLE_TESTS),
    node!("dict", Dict, &DICT, &[]),
    node!("nullable", Nullable, &NULLABLE, &[]),
    node!("default", Default, &DEFAULT, &[]),
    node!("model-fields", ModelFields, &MODEL_FIELDS, &[]),
    node!("typed-dict", TypedDict, &TYPED_DICT, &[]),
    node!("model", Model, &MODEL, &[]),
    node!("union", Union, &UNION, &[]),
    node!("tagged-union", TaggedUnion, &TAGGED_UNION, &[]),
    node!("lax-or-strict", LaxOrStrict, &LAX_OR_STRICT, &[]),
    node!("json-or-python", JsonOrPython, &JSON_OR_PYTHON, &[]),
    node!("custom-error", CustomError, &CUSTOM_ERROR, &[]),
    node!("function-before", Before, &BESIDE, &[]),
    node!("function-after", After, &BESIDE, &[]),
    node!("function-wrap", Wrap, &BESIDE, &[]),
    node!("function-plain", Plain, &PLAIN, &[]),
    node!("definitions", Definitions, &DEFINITIONS, &[]),
    node!("definition-ref", DefinitionRef, &DEFINITION_REF, &[]),
];

/// The types of nodes, each with its keys and its tests.
pub fn node_types() -> &'static [TypeRow]
    ensures { types_in result.now ≡ spec.node_types }
{
    &NODE_TYPES
}

const FIELD_KEYS: [KeyRow; 6] = [
    row!(must Type, TEXT),
    row!(must Schema, Kind::Schema),
    row!(may ValidationAlias, Kind::Value(ValueKind::Alias)),
    row!(may SerializationAlias, TEXT),
    row!(may SerializationExclude, FLAG),
    row!(idle Metadata, Kind::Value(ValueKind::Anything)),
];

static MODEL_FIELD: [TypeRow; 1] = [TypeRow {
    name: "model-field",
    makes: Makes::Field,
    object: ObjectRow {
        shared: &FIELD_KEYS,
        own: &[row!(idle Frozen, FLAG)],
        tests: &[],
    },
}];

static TYPED_DICT_FIELD: [TypeRow; 1] = [TypeRow {
    name: "typed-dict-field",
    makes: Makes::Field,
    object: ObjectRow {
        shared: &FIELD_KEYS,
        own: &[row!(may Required, FLAG)],
        tests: &[],
    },
}];

/// The types of fields of a kind: one.
pub fn field_types(kind: FieldsKind) -> &'static [TypeRow]
    ensures { types_in result.now ≡ spec.field_types kind }
{
    match kind {
        FieldsKind::Model => &MODEL_FIELD,
        FieldsKind::TypedDict => &TYPED_DICT_FIELD,
    }
}

static CONFIG: ObjectRow = ObjectRow {
    shared: &[],
    own: &[
        row!(may Title, TEXT),
        row!(may Strict, FLAG),
        row!(may ExtraFieldsBehavior, Kind::Value(ValueKind::ExtraBehavior)),
        row!(may PopulateByName, FLAG),
        row!(may ValidateByAlias, FLAG),
        row!(may ValidateByName, FLAG),
        row!(may SerializeByAlias, FLAG),
        row!(may LocByAlias, FLAG),
        row!(may ValidateDefault, FLAG),
        row!(may StrStripWhitespace, FLAG),
        row!(may StrMinLength, COUNT),
        row!(may StrMaxLength, COUNT),
    ],
    tests: &[Test {
        key: Key::ValidateByName,
        other: Key::ValidateByAlias,
        fit: Fit::NotBothFalse,
    }],
};

/// What a config takes. It has no type.
pub fn config() -> ObjectRow
    ensures { object_in result ≡ spec.config }
{
    CONFIG
}
