//! Texts, trees and schemas, written as text, and outcomes as text. Tables are texts too, a row a
//! line: a proof does not look into them.

use pv_fault::{Grade, Outcome, write_faults};
use pv_func::Registry;
use pv_json::read;
use pv_node::Schema;
use pv_notation::write_value;
use pv_schema::read_schema;
use pv_shipped::{Even, Pair, Strip, Upper};
use pv_text::{ByteBuf, Text};
use pv_tree::Tree;
use std::alloc::Global;
use std::process::Abort;

pub(crate) fn text(rt: &impl Abort, alloc: Global, s: &str) -> Text {
    Text::from_str(alloc, s).expect(rt, "memory")
}

/// What stands before and behind the first space of a row.
pub(crate) fn cut<'a>(rt: &impl Abort, row: &'a str) -> (&'a str, &'a str) {
    row.split_once(' ').expect(rt, "a space")
}

/// The tree of a JSON document.
pub(crate) fn tree(rt: &impl Abort, alloc: Global, json: &[u8]) -> Tree {
    read(alloc, json).expect(rt, "a document")
}

/// The schema that is written as JSON.
pub(crate) fn schema(rt: &impl Abort, alloc: Global, json: &[u8]) -> Schema {
    let Ok(schema) = read_schema(alloc, &tree(rt, alloc, json)) else {
        panic!(rt; "a schema");
    };
    schema
}

/// A registry without functions.
pub(crate) fn no_functions(alloc: Global) -> Registry<Strip, Even, Upper, Pair> {
    Registry::new(alloc)
}

fn grade_name(grade: Grade) -> &'static str {
    match grade {
        Grade::Lax => "lax ",
        Grade::Strict => "strict ",
        Grade::Exact => "exact ",
    }
}

/// The grade and the value, or the errors.
pub(crate) fn shown(rt: &impl Abort, alloc: Global, outcome: &Outcome) -> ByteBuf {
    let mut out = ByteBuf::new(alloc);
    match outcome {
        Outcome::Good { value, grade, .. } => {
            out.push_slice(grade_name(*grade).as_bytes())
                .expect(rt, "memory");
            write_value(value, &mut out).expect(rt, "memory");
        }
        Outcome::Bad(faults) => write_faults(faults, &mut out).expect(rt, "memory"),
    }
    out
}
