//! The table of types and keys, as docs/SCHEMAS.md has it.

use pv_rules::FieldsKind;
use pv_schema_table::{KeyRow, Kind, Makes, TypeRow, config, field_types, node_types};
use std::alloc::Global;
use std::process::Abort;

/// Each type with its own keys: a star behind a key that has to be there, a tilde behind one that
/// changes nothing, and what may stand under it. A type that is not built has a question mark.
const TABLE: &str = r#"any
none
bool
int multiple_of:AtLeastOne le:Int lt:Int ge:Int gt:Int
str min_length:Count max_length:Count pattern:Text strip_whitespace:Flag regex_engine~:Engine
bytes min_length:Count max_length:Count
uuid version:Version
url max_length:Count allowed_schemes:Texts
literal expected*:Literals
enum cls*:Text members*:Members sub_type:SubType
list items_schema:schema min_length:Count max_length:Count fail_fast~:False
set items_schema:schema min_length:Count max_length:Count fail_fast~:False
frozenset items_schema:schema min_length:Count max_length:Count fail_fast~:False
tuple items_schema*:schemas variadic_item_index:Count min_length:Count max_length:Count fail_fast~:False
dict keys_schema:schema values_schema:schema min_length:Count max_length:Count
nullable schema*:schema
default schema*:schema default*:Anything validate_default:Flag on_error:OnError copy_default~:Flag
model-fields fields*:fields extra_behavior:ExtraBehavior extras_schema:schema model_name~:Text from_attributes~:Flag computed_fields~:EmptyList
typed-dict fields*:fields extra_behavior:ExtraBehavior extras_schema:schema computed_fields~:EmptyList cls:Text total:Flag config:config
model cls*:Text schema*:schema root_model:Flag config:config custom_init~:False frozen~:Flag revalidate_instances~:Revalidation
union choices*:choices mode:UnionMode auto_collapse~:True
tagged-union choices*:tagged discriminator*:Alias from_attributes~:Flag
lax-or-strict lax_schema*:schema strict_schema*:schema
json-or-python json_schema*:schema python_schema*~:Anything
custom-error schema*:schema custom_error_type*:Text custom_error_message*:Text
function-before function*:Function schema*:schema
function-after function*:Function schema*:schema
function-wrap function*:Function schema*:schema
function-plain function*:Function
definitions schema*:schema definitions*:definitions
definition-ref schema_ref*:Text
"#;

const FIELDS: &str = r#"model-field frozen~:Flag
typed-dict-field required:Flag
"#;

/// The keys that all nodes take, and those of all fields.
const SHARED: &str = " type*:Text ref:Text strict:Flag serialization:? metadata~:Anything";

const SHARED_BY_FIELDS: &str =
    " type*:Text schema*:schema validation_alias:Alias serialization_alias:Text serialization_exclude:Flag metadata~:Anything";

const CONFIG: &str =
    " title:Text strict:Flag extra_fields_behavior:ExtraBehavior populate_by_name:Flag validate_by_alias:Flag validate_by_name:Flag serialize_by_alias:Flag loc_by_alias:Flag validate_default:Flag str_strip_whitespace:Flag str_min_length:Count str_max_length:Count";

/// What may stand under a key, in a word.
fn word_of(rt: &impl Abort, alloc: Global, kind: Kind) -> String {
    match kind {
        Kind::Value(value) => format!(in alloc; "{value:?}"),
        Kind::Schema => format!(in alloc; "schema"),
        Kind::Schemas => format!(in alloc; "schemas"),
        Kind::Choices => format!(in alloc; "choices"),
        Kind::Choice => format!(in alloc; "choice"),
        Kind::Tagged => format!(in alloc; "tagged"),
        Kind::Definitions => format!(in alloc; "definitions"),
        Kind::Definition => format!(in alloc; "definition"),
        Kind::Fields(_) => format!(in alloc; "fields"),
        Kind::Field(_) => format!(in alloc; "field"),
        Kind::Config => format!(in alloc; "config"),
        Kind::NotBuilt => format!(in alloc; "?"),
    }
    .expect(rt, "memory")
}

/// The keys of an object, a space before each.
fn keys_of(rt: &impl Abort, alloc: Global, rows: &[KeyRow]) -> String {
    let mut line = String::new(alloc);
    for row in rows {
        let star = if row.required { "*" } else { "" };
        let tilde = if row.effect { "" } else { "~" };
        let word = word_of(rt, alloc, row.kind);
        write!(line, " {}{star}{tilde}:{word}", row.key.text()).expect(rt, "memory");
    }
    line
}

/// Types, a line each: the name, and the keys that are its own.
fn types_of(rt: &impl Abort, alloc: Global, rows: &[TypeRow], shared: &str) -> String {
    let mut lines = String::new(alloc);
    for row in rows {
        assert_eq!(rt; keys_of(rt, alloc, row.object.shared).as_str(), shared);
        let mark = if row.makes == Makes::NotBuilt {
            "?"
        } else {
            ""
        };
        let keys = keys_of(rt, alloc, row.object.own);
        write!(lines, "{}{mark}{keys}\n", row.name).expect(rt, "memory");
    }
    lines
}

#[test]
fn the_table_is_that_of_the_documents(rt: HostRuntime) {
    let alloc = rt.alloc();
    assert_eq!(rt; types_of(&rt, alloc, node_types(), SHARED).as_str(), TABLE);
    let mut fields = String::new(alloc);
    for kind in [FieldsKind::Model, FieldsKind::TypedDict] {
        let lines = types_of(&rt, alloc, field_types(kind), SHARED_BY_FIELDS);
        fields.push_str(&lines).expect(&rt, "memory");
    }
    assert_eq!(rt; fields.as_str(), FIELDS);
    assert_eq!(rt; keys_of(&rt, alloc, config().own).as_str(), CONFIG);
}
