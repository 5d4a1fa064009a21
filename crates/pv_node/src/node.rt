ghost use Rattle.std.specs.Prelude.{◌≡◌};
ghost use Rattle.pv_node.specs.Absent.{any};

use pv_rules::{
    FieldsRule, FuncRule, GatherRule, OnError, ScalarRule, Settings, TagRule, UnionRule,
};
use pv_text::Text;
use pv_tree::Tree;
use sqlite_items::{Boxed, Items};

/// A node of a schema: its name where it has one, whether it is strict where that is said, and
/// what its type asks for.
#[cycle(node)]
#[derive(Drop)]
pub struct Node {
    pub own_ref: Option<Text>,
    pub strict: Option<bool>,
    pub body: Body,
}

/// What a node asks for, by its type.
#[cycle(node)]
#[derive(Drop)]
pub enum Body {
    /// A type without child schemas.
    Scalar(ScalarRule),
    /// A list, a set or a frozenset.
    Sequence {
        rule: GatherRule,
        items_schema: Option<Boxed<Node>>,
    },
    /// A tuple with a schema for each position.
    Tuple {
        rule: GatherRule,
        items_schema: Items<Node>,
    },
    Dict {
        rule: GatherRule,
        keys_schema: Option<Boxed<Node>>,
        values_schema: Option<Boxed<Node>>,
    },
    Nullable {
        schema: Boxed<Node>,
    },
    /// The fields of a model, or a typed dict. The schemas of the fields stand in the order of the
    /// fields of the rule. Only a typed dict has settings and a class of its own.
    Fields {
        rule: FieldsRule,
        fields: Items<Node>,
        extras_schema: Option<Boxed<Node>>,
        config: Option<Settings>,
        cls: Option<Text>,
    },
    /// A model: its class, and the schema of its fields or of its root.
    Model {
        cls: Text,
        root_model: bool,
        config: Option<Settings>,
        schema: Boxed<Node>,
    },
    /// A schema with a value for where none is given.
    Default {
        default: Tree,
        validate_default: Option<bool>,
        on_error: OnError,
        schema: Boxed<Node>,
    },
    /// One of several schemas. They stand in the order of the labels of the rule.
    Union {
        rule: UnionRule,
        choices: Items<Node>,
    },
    /// The schema whose tag the input has. They stand in the order of the tags of the rule.
    TaggedUnion {
        rule: TagRule,
        choices: Items<Node>,
    },
    /// One schema where the node is strict, and another one where it is not.
    LaxOrStrict {
        lax_schema: Boxed<Node>,
        strict_schema: Boxed<Node>,
    },
    /// A schema for JSON, which is all that is read here.
    JsonOrPython {
        json_schema: Boxed<Node>,
    },
    /// A schema whose errors are all replaced by one of this type.
    CustomError {
        error_type: Text,
        message: Text,
        schema: Boxed<Node>,
    },
    /// A function that sees the input before the schema does.
    Before {
        rule: FuncRule,
        schema: Boxed<Node>,
    },
    /// A function that sees the value that the schema gives.
    After {
        rule: FuncRule,
        schema: Boxed<Node>,
    },
    /// A function that runs the schema itself, where it wants to.
    Wrap {
        rule: FuncRule,
        schema: Boxed<Node>,
    },
    /// A function in the place of a schema.
    Plain {
        rule: FuncRule,
    },
    /// A schema, and others that references in it name.
    Definitions {
        schema: Boxed<Node>,
        definitions: Items<Node>,
    },
    /// The node of the schema that has this name.
    DefinitionRef {
        schema_ref: Text,
    },
}

/// The node that stands for an absent schema: it takes any value.
pub fn any_node() -> Node
    ensures { result ≡ any }
{
    Node {
        own_ref: None,
        strict: None,
        body: Body::Scalar(ScalarRule::Any),
    }
}
