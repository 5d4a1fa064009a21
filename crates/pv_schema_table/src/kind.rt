use pv_rules::FieldsKind;
use pv_schema_values::ValueKind;

/// What may stand under a key of a node.
#[derive(Clone, Copy, Debug, PartialEq, Eq)]
pub enum Kind {
    Value(ValueKind),
    Schema,
    /// A list of schemas.
    Schemas,
    /// A list of choices that is not empty.
    Choices,
    /// A schema, or a list of a schema and its label, which is a text.
    Choice,
    /// An object of schemas that is not empty. Their names are tags.
    Tagged,
    /// An object of fields, of a model or of a typed dict.
    Fields(FieldsKind),
    /// A field of a model or of a typed dict.
    Field(FieldsKind),
    /// A list of definitions.
    Definitions,
    /// A schema that has a name.
    Definition,
    /// Settings of a model or a typed dict.
    Config,
    /// A key whose meaning is not built yet.
    NotBuilt,
}
