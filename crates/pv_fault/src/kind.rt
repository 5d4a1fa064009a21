use pv_text::Text;

/// What was wrong with an input. The fields are the context of the error, in the order in which it is printed.
#[derive(Drop)]
pub enum Kind {
    Missing,
    ExtraForbidden,
    RecursionLoop,
    JsonInvalid {
        error: Text,
    },
    NoneRequired,
    BoolType,
    BoolParsing,
    IntType,
    IntParsing,
    IntParsingSize,
    IntFromFloat,
    MultipleOf {
        multiple_of: i128,
    },
    GreaterThan {
        gt: i128,
    },
    GreaterThanEqual {
        ge: i128,
    },
    LessThan {
        lt: i128,
    },
    LessThanEqual {
        le: i128,
    },
    StringType,
    StringTooShort {
        min_length: u64,
    },
    StringTooLong {
        max_length: u64,
    },
    StringPatternMismatch {
        pattern: Text,
    },
    BytesType,
    BytesTooShort {
        min_length: u64,
    },
    BytesTooLong {
        max_length: u64,
    },
    LiteralError {
        expected: Text,
    },
    Enum {
        expected: Text,
    },
    UuidType,
    UuidParsing,
    UuidVersion {
        expected_version: u64,
    },
    UrlType,
    UrlParsing,
    UrlTooLong {
        max_length: u64,
    },
    UrlScheme {
        expected_schemes: Text,
    },
    ListType,
    TupleType,
    SetType,
    FrozenSetType,
    DictType,
    ModelType,
    TooShort {
        field_type: Text,
        min_length: u64,
        actual_length: u64,
    },
    TooLong {
        field_type: Text,
        max_length: u64,
        actual_length: u64,
    },
    SetItemNotHashable,
    DictKeyNotHashable,
    UnionTagInvalid {
        discriminator: Text,
        tag: Text,
        expected_tags: Text,
    },
    UnionTagNotFound {
        discriminator: Text,
    },
    ValueError {
        error: Text,
    },
    AssertionError {
        error: Text,
    },
    /// A type and a message of the schema's or a function's own. Both are printed as they are, without a context.
    Custom {
        kind: Text,
        message: Text,
    },
}
