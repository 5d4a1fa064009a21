//! The kinds of errors and their texts.

ghost use Rattle.std.specs.Prelude.{◌≡◌};
ghost use Rattle.pv_fault.specs.Table.{printed_as};
ghost use Rattle.pv_fault.specs.Wordings.{printed_by};

use crate::kind::Kind;
use crate::pieces::{Piece, Wording};
use crate::wording::{around, ending_in, length, plain, sized, tag_unknown};

#[tactic(auto, unfolding(crate::specs::Table::printed_as))]
pub(crate) fn wording_of(kind: &Kind) -> Wording<'_>
    ensures { printed_by result ≡ printed_as kind.now }
{
    match kind {
        Kind::Missing => plain("missing", "Field required"),
        Kind::ExtraForbidden => plain("extra_forbidden", "Extra inputs are not permitted"),
        Kind::RecursionLoop => plain(
            "recursion_loop",
            "Recursion error - cyclic reference detected",
        ),
        Kind::JsonInvalid { error } => ending_in(
            "json_invalid",
            "Invalid JSON: ",
            "error",
            Piece::Text(error.as_str()),
        ),
        Kind::NoneRequired => plain("none_required", "Input should be null"),
        Kind::BoolType => plain("bool_type", "Input should be a valid boolean"),
        Kind::BoolParsing => plain(
            "bool_parsing",
            "Input should be a valid boolean, unable to interpret input",
        ),
        Kind::IntType => plain("int_type", "Input should be a valid integer"),
        Kind::IntParsing => plain(
            "int_parsing",
            "Input should be a valid integer, unable to parse string as an integer",
        ),
        Kind::IntParsingSize => plain(
            "int_parsing_size",
            "Unable to parse input as an integer, exceeded maximum size",
        ),
        Kind::IntFromFloat => plain(
            "int_from_float",
            "Input should be a valid integer, got a number with a fractional part",
        ),
        Kind::MultipleOf { multiple_of } => ending_in(
            "multiple_of",
            "Input should be a multiple of ",
            "multiple_of",
            Piece::Number(*multiple_of),
        ),
        Kind::GreaterThan { gt } => ending_in(
            "greater_than",
            "Input should be greater than ",
            "gt",
            Piece::Number(*gt),
        ),
        Kind::GreaterThanEqual { ge } => ending_in(
            "greater_than_equal",
            "Input should be greater than or equal to ",
            "ge",
            Piece::Number(*ge),
        ),
        Kind::LessThan { lt } => ending_in(
            "less_than",
            "Input should be less than ",
            "lt",
            Piece::Number(*lt),
        ),
        Kind::LessThanEqual { le } => ending_in(
            "less_than_equal",
            "Input should be less than or equal to ",
            "le",
            Piece::Number(*le),
        ),
        Kind::StringType => plain("string_type", "Input should be a valid string"),
        Kind::StringTooShort { min_length } => length(
            "string_too_short",
            "String should have at least ",
            "min_length",
            *min_length,
            " character",
        ),
        Kind::StringTooLong { max_length } => length(
            "string_too_long",
            "String should have at most ",
            "max_length",
            *max_length,
            " character",
        ),
        Kind::StringPatternMismatch { pattern } => around(
            "string_pattern_mismatch",
            "String should match pattern '",
            "pattern",
            Piece::Text(pattern.as_str()),
            "'",
        ),
        Kind::BytesType => plain("bytes_type", "Input should be a valid bytes"),
        Kind::BytesTooShort { min_length } => length(
            "bytes_too_short",
            "Data should have at least ",
            "min_length",
            *min_length,
            " byte",
        ),
        Kind::BytesTooLong { max_length } => length(
            "bytes_too_long",
            "Data should have at most ",
            "max_length",
            *max_length,
            " byte",
        ),
        Kind::LiteralError { expected } => ending_in(
            "literal_error",
            "Input should be ",
            "expected",
            Piece::Text(expected.as_str()),
        ),
        Kind::Enum { expected } => ending_in(
            "enum",
            "Input should be ",
            "expected",
            Piece::Text(expected.as_str()),
        ),
        Kind::UuidType => plain("uuid_type", "UUID input should be a string"),
        Kind::UuidParsing => plain("uuid_parsing", "Input should be a valid UUID"),
        Kind::UuidVersion { expected_version } => around(
            "uuid_version",
            "UUID version ",
            "expected_version",
            Piece::Count(*expected_version),
            " expected",
        ),
        Kind::UrlType => plain("url_type", "URL input should be a string"),
        Kind::UrlParsing => plain("url_parsing", "Input should be a valid URL"),
        Kind::UrlTooLong { max_length } => length(
            "url_too_long",
            "URL should have at most ",
            "max_length",
            *max_length,
            " character",
        ),
        Kind::UrlScheme { expected_schemes } => ending_in(
            "url_scheme",
            "URL scheme should be ",
            "expected_schemes",
            Piece::Text(expected_schemes.as_str()),
        ),
        Kind::ListType => plain("list_type", "Input should be a valid array"),
        Kind::TupleType => plain("tuple_type", "Input should be a valid array"),
        Kind::SetType => plain("set_type", "Input should be a valid array"),
        Kind::FrozenSetType => plain("frozen_set_type", "Input should be a valid array"),
        Kind::DictType => plain("dict_type", "Input should be an object"),
        Kind::ModelType => plain("model_type", "Input should be an object"),
        Kind::TooShort {
            field_type,
            min_length,
            actual_length,
        } => sized(
            "too_short",
            field_type.as_str(),
            " should have at least ",
            "min_length",
            *min_length,
            *actual_length,
        ),
        Kind::TooLong {
            field_type,
            max_length,
            actual_length,
        } => sized(
            "too_long",
            field_type.as_str(),
            " should have at most ",
            "max_length",
            *max_length,
            *actual_length,
        ),
        Kind::SetItemNotHashable => plain("set_item_not_hashable", "Set items should be hashable"),
        Kind::DictKeyNotHashable => plain(
            "dict_key_not_hashable",
            "Dictionary keys should be hashable",
        ),
        Kind::UnionTagInvalid {
            discriminator,
            tag,
            expected_tags,
        } => tag_unknown(discriminator.as_str(), tag.as_str(), expected_tags.as_str()),
        Kind::UnionTagNotFound { discriminator } => ending_in(
            "union_tag_not_found",
            "Unable to extract tag using discriminator ",
            "discriminator",
            Piece::Text(discriminator.as_str()),
        ),
        Kind::ValueError { error } => ending_in(
            "value_error",
            "Value error, ",
            "error",
            Piece::Text(error.as_str()),
        ),
        Kind::AssertionError { error } => ending_in(
            "assertion_error",
            "Assertion failed, ",
            "error",
            Piece::Text(error.as_str()),
        ),
        Kind::Custom { kind, message } => plain(kind.as_str(), message.as_str()),
    }
}
