ghost use Rattle.std.specs.Prelude.{◌≡◌, length};

use crate::fixtures::text;
use pv_fault::{
    Faults, Grade, Kind, LineError, add_counts, write_faults, write_message, write_type,
};
use pv_text::ByteBuf;
use pv_tree::{Loc, Step, Tree};
use std::alloc::Global;
use std::process::Abort;

/// The printed text of one error of each kind, and of both numbers where a kind has counts.
const PRINTED: &str = r#"[{"type":"missing","loc":[],"msg":"Field required","input":null}]
[{"type":"extra_forbidden","loc":[],"msg":"Extra inputs are not permitted","input":null}]
[{"type":"recursion_loop","loc":[],"msg":"Recursion error - cyclic reference detected","input":null}]
[{"type":"json_invalid","loc":[],"msg":"Invalid JSON: unexpected byte at offset 3","input":null,"ctx":{"error":"unexpected byte at offset 3"}}]
[{"type":"none_required","loc":[],"msg":"Input should be null","input":null}]
[{"type":"bool_type","loc":[],"msg":"Input should be a valid boolean","input":null}]
[{"type":"bool_parsing","loc":[],"msg":"Input should be a valid boolean, unable to interpret input","input":null}]
[{"type":"int_type","loc":[],"msg":"Input should be a valid integer","input":null}]
[{"type":"int_parsing","loc":[],"msg":"Input should be a valid integer, unable to parse string as an integer","input":null}]
[{"type":"int_parsing_size","loc":[],"msg":"Unable to parse input as an integer, exceeded maximum size","input":null}]
[{"type":"int_from_float","loc":[],"msg":"Input should be a valid integer, got a number with a fractional part","input":null}]
[{"type":"multiple_of","loc":[],"msg":"Input should be a multiple of -7","input":null,"ctx":{"multiple_of":-7}}]
[{"type":"greater_than","loc":[],"msg":"Input should be greater than -170141183460469231731687303715884105728","input":null,"ctx":{"gt":-170141183460469231731687303715884105728}}]
[{"type":"greater_than_equal","loc":[],"msg":"Input should be greater than or equal to 170141183460469231731687303715884105727","input":null,"ctx":{"ge":170141183460469231731687303715884105727}}]
[{"type":"less_than","loc":[],"msg":"Input should be less than 0","input":null,"ctx":{"lt":0}}]
[{"type":"less_than_equal","loc":[],"msg":"Input should be less than or equal to 10","input":null,"ctx":{"le":10}}]
[{"type":"string_type","loc":[],"msg":"Input should be a valid string","input":null}]
[{"type":"string_too_short","loc":[],"msg":"String should have at least 1 character","input":null,"ctx":{"min_length":1}}]
[{"type":"string_too_short","loc":[],"msg":"String should have at least 2 characters","input":null,"ctx":{"min_length":2}}]
[{"type":"string_too_long","loc":[],"msg":"String should have at most 1 character","input":null,"ctx":{"max_length":1}}]
[{"type":"string_too_long","loc":[],"msg":"String should have at most 2 characters","input":null,"ctx":{"max_length":2}}]
[{"type":"string_pattern_mismatch","loc":[],"msg":"String should match pattern '^\\d\"+\t$'","input":null,"ctx":{"pattern":"^\\d\"+\t$"}}]
[{"type":"bytes_type","loc":[],"msg":"Input should be a valid bytes","input":null}]
[{"type":"bytes_too_short","loc":[],"msg":"Data should have at least 1 byte","input":null,"ctx":{"min_length":1}}]
[{"type":"bytes_too_short","loc":[],"msg":"Data should have at least 2 bytes","input":null,"ctx":{"min_length":2}}]
[{"type":"bytes_too_long","loc":[],"msg":"Data should have at most 1 byte","input":null,"ctx":{"max_length":1}}]
[{"type":"bytes_too_long","loc":[],"msg":"Data should have at most 2 bytes","input":null,"ctx":{"max_length":2}}]
[{"type":"literal_error","loc":[],"msg":"Input should be 'a' or 1","input":null,"ctx":{"expected":"'a' or 1"}}]
[{"type":"enum","loc":[],"msg":"Input should be 'a' or 1","input":null,"ctx":{"expected":"'a' or 1"}}]
[{"type":"uuid_type","loc":[],"msg":"UUID input should be a string","input":null}]
[{"type":"uuid_parsing","loc":[],"msg":"Input should be a valid UUID","input":null}]
[{"type":"uuid_version","loc":[],"msg":"UUID version 4 expected","input":null,"ctx":{"expected_version":4}}]
[{"type":"url_type","loc":[],"msg":"URL input should be a string","input":null}]
[{"type":"url_parsing","loc":[],"msg":"Input should be a valid URL","input":null}]
[{"type":"url_too_long","loc":[],"msg":"URL should have at most 1 character","input":null,"ctx":{"max_length":1}}]
[{"type":"url_too_long","loc":[],"msg":"URL should have at most 2 characters","input":null,"ctx":{"max_length":2}}]
[{"type":"url_scheme","loc":[],"msg":"URL scheme should be 'http' or 'https'","input":null,"ctx":{"expected_schemes":"'http' or 'https'"}}]
[{"type":"list_type","loc":[],"msg":"Input should be a valid array","input":null}]
[{"type":"tuple_type","loc":[],"msg":"Input should be a valid array","input":null}]
[{"type":"set_type","loc":[],"msg":"Input should be a valid array","input":null}]
[{"type":"frozen_set_type","loc":[],"msg":"Input should be a valid array","input":null}]
[{"type":"dict_type","loc":[],"msg":"Input should be an object","input":null}]
[{"type":"model_type","loc":[],"msg":"Input should be an object","input":null}]
[{"type":"too_short","loc":[],"msg":"List should have at least 1 item after validation, not 0","input":null,"ctx":{"field_type":"List","min_length":1,"actual_length":0}}]
[{"type":"too_short","loc":[],"msg":"List should have at least 2 items after validation, not 0","input":null,"ctx":{"field_type":"List","min_length":2,"actual_length":0}}]
[{"type":"too_long","loc":[],"msg":"List should have at most 1 item after validation, not 0","input":null,"ctx":{"field_type":"List","max_length":1,"actual_length":0}}]
[{"type":"too_long","loc":[],"msg":"List should have at most 2 items after validation, not 0","input":null,"ctx":{"field_type":"List","max_length":2,"actual_length":0}}]
[{"type":"set_item_not_hashable","loc":[],"msg":"Set items should be hashable","input":null}]
[{"type":"dict_key_not_hashable","loc":[],"msg":"Dictionary keys should be hashable","input":null}]
[{"type":"union_tag_invalid","loc":[],"msg":"Input tag 'é\"\u0001' found using 'kind' | 'sub'.0 does not match any of the expected tags: 'cat', 'dog'","input":null,"ctx":{"discriminator":"'kind' | 'sub'.0","tag":"é\"\u0001","expected_tags":"'cat', 'dog'"}}]
[{"type":"union_tag_not_found","loc":[],"msg":"Unable to extract tag using discriminator 'kind' | 'sub'.0","input":null,"ctx":{"discriminator":"'kind' | 'sub'.0"}}]
[{"type":"value_error","loc":[],"msg":"Value error, unexpected byte at offset 3","input":null,"ctx":{"error":"unexpected byte at offset 3"}}]
[{"type":"assertion_error","loc":[],"msg":"Assertion failed, unexpected byte at offset 3","input":null,"ctx":{"error":"unexpected byte at offset 3"}}]
[{"type":"my_type","loc":[],"msg":"it is so","input":null}]"#;

/// The kind of a row whose context has no text.
fn kind_of(rt: &impl Abort, alloc: Global, row: usize) -> Kind {
    match row {
        0 => Kind::Missing,
        1 => Kind::ExtraForbidden,
        2 => Kind::RecursionLoop,
        4 => Kind::NoneRequired,
        5 => Kind::BoolType,
        6 => Kind::BoolParsing,
        7 => Kind::IntType,
        8 => Kind::IntParsing,
        9 => Kind::IntParsingSize,
        10 => Kind::IntFromFloat,
        11 => Kind::MultipleOf { multiple_of: -7 },
        12 => Kind::GreaterThan { gt: i128::MIN },
        13 => Kind::GreaterThanEqual { ge: i128::MAX },
        14 => Kind::LessThan { lt: 0 },
        15 => Kind::LessThanEqual { le: 10 },
        16 => Kind::StringType,
        17 => Kind::StringTooShort { min_length: 1 },
        18 => Kind::StringTooShort { min_length: 2 },
        19 => Kind::StringTooLong { max_length: 1 },
        20 => Kind::StringTooLong { max_length: 2 },
        22 => Kind::BytesType,
        23 => Kind::BytesTooShort { min_length: 1 },
        24 => Kind::BytesTooShort { min_length: 2 },
        25 => Kind::BytesTooLong { max_length: 1 },
        26 => Kind::BytesTooLong { max_length: 2 },
        29 => Kind::UuidType,
        30 => Kind::UuidParsing,
        31 => Kind::UuidVersion {
            expected_version: 4,
        },
        32 => Kind::UrlType,
        33 => Kind::UrlParsing,
        34 => Kind::UrlTooLong { max_length: 1 },
        35 => Kind::UrlTooLong { max_length: 2 },
        37 => Kind::ListType,
        38 => Kind::TupleType,
        39 => Kind::SetType,
        40 => Kind::FrozenSetType,
        41 => Kind::DictType,
        42 => Kind::ModelType,
        47 => Kind::SetItemNotHashable,
        48 => Kind::DictKeyNotHashable,
        _ => kind_with_texts(rt, alloc, row),
    }
}

/// The kind of a row whose context has texts.
fn kind_with_texts(rt: &impl Abort, alloc: Global, row: usize) -> Kind {
    match row {
        3 => Kind::JsonInvalid {
            error: text(rt, alloc, "unexpected byte at offset 3"),
        },
        21 => Kind::StringPatternMismatch {
            pattern: text(rt, alloc, "^\\d\"+\t$"),
        },
        27 => Kind::LiteralError {
            expected: text(rt, alloc, "'a' or 1"),
        },
        28 => Kind::Enum {
            expected: text(rt, alloc, "'a' or 1"),
        },
        36 => Kind::UrlScheme {
            expected_schemes: text(rt, alloc, "'http' or 'https'"),
        },
        43 => Kind::TooShort {
            field_type: text(rt, alloc, "List"),
            min_length: 1,
            actual_length: 0,
        },
        44 => Kind::TooShort {
            field_type: text(rt, alloc, "List"),
            min_length: 2,
            actual_length: 0,
        },
        45 => Kind::TooLong {
            field_type: text(rt, alloc, "List"),
            max_length: 1,
            actual_length: 0,
        },
        46 => Kind::TooLong {
            field_type: text(rt, alloc, "List"),
            max_length: 2,
            actual_length: 0,
        },
        49 => Kind::UnionTagInvalid {
            discriminator: text(rt, alloc, "'kind' | 'sub'.0"),
            tag: text(rt, alloc, "é\"\u{1}"),
            expected_tags: text(rt, alloc, "'cat', 'dog'"),
        },
        50 => Kind::UnionTagNotFound {
            discriminator: text(rt, alloc, "'kind' | 'sub'.0"),
        },
        51 => Kind::ValueError {
            error: text(rt, alloc, "unexpected byte at offset 3"),
        },
        52 => Kind::AssertionError {
            error: text(rt, alloc, "unexpected byte at offset 3"),
        },
        _ => Kind::Custom {
            kind: text(rt, alloc, "my_type"),
            message: text(rt, alloc, "it is so"),
        },
    }
}

fn printed(rt: &impl Abort, alloc: Global, faults: &Faults) -> ByteBuf {
    let mut out = ByteBuf::new(alloc);
    write_faults(faults, &mut out).expect(rt, "memory");
    out
}

#[test]
fn each_kind_has_its_text(rt: HostRuntime) {
    let alloc = rt.alloc();
    for (row, want) in PRINTED.lines().enumerate() {
        let mut faults = Faults::new(alloc);
        faults
            .push_here(alloc, kind_of(&rt, alloc, row), &Tree::Null)
            .expect(&rt, "memory");
        let out = printed(&rt, alloc, &faults);
        assert!(rt; out.as_slice() == want.as_bytes(), "in row {row}");
    }
}

fn custom(rt: &impl Abort, alloc: Global) -> Kind {
    Kind::Custom {
        kind: text(rt, alloc, "my \"type\""),
        message: text(rt, alloc, "a\\b\n"),
    }
}

/// The errors of a part and of the whole.
fn two_errors(rt: &impl Abort, alloc: Global) -> Faults
    ensures { length result ≡ 2 }
{
    let mut faults = Faults::new(alloc);
    let input = Tree::Str(text(rt, alloc, "é\\"));
    faults
        .push_here(alloc, custom(rt, alloc), &input)
        .expect(rt, "memory");
    let whole = LineError {
        kind: Kind::Missing,
        loc: Loc::new(alloc),
        input: Tree::Null,
    };
    faults.push(whole).expect(rt, "memory");
    faults
}

const UNDER_A_PATH: &str =
    r#"[{"type":"my \"type\"","loc":["a\"b",3],"msg":"a\\b\n","input":"é\\"},{"type":"missing","loc":["a\"b",3],"msg":"Field required","input":null},{"type":"missing","loc":["a\"b",3],"msg":"Field required","input":true}]"#;

#[test]
fn errors_are_added_under_a_path(rt: HostRuntime) {
    let alloc = rt.alloc();
    let mut path = Loc::new(alloc);
    path.push(Step::Name(text(&rt, alloc, "a\"b")))
        .expect(&rt, "memory");
    path.push(Step::Index(3)).expect(&rt, "memory");
    let mut faults = Faults::new(alloc);
    faults
        .append_under(&path, two_errors(&rt, alloc))
        .expect(&rt, "memory");
    faults
        .push_at(alloc, Kind::Missing, &path, &Tree::Bool(true))
        .expect(&rt, "memory");
    assert_eq!(rt;
        printed(&rt, alloc, &faults).as_slice(),
        UNDER_A_PATH.as_bytes()
    );
    assert_eq!(rt; faults.len(), 3);
    faults.cut(1);
    assert!(rt; faults.get(0).is_some() && faults.get(1).is_none());
}

#[test]
fn types_and_messages_are_written_raw(rt: HostRuntime) {
    let alloc = rt.alloc();
    let kind = custom(&rt, alloc);
    let mut out = ByteBuf::new(alloc);
    write_type(&kind, &mut out).expect(&rt, "memory");
    write_message(&kind, &mut out).expect(&rt, "memory");
    assert_eq!(rt; out.as_slice(), b"my \"type\"a\\b\n".as_slice());
    assert_eq!(rt; add_counts(Some(u64::MAX - 1), Some(2)), Some(u64::MAX));
    assert_eq!(rt; Grade::Exact.least(Grade::Strict), Grade::Strict);
}
