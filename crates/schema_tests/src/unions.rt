use crate::fixtures::{cut, text, tree};
use pv_fault::{Grade, write_message};
use pv_node::{Body, Node};
use pv_rules::{AliasRule, Collection, GatherRule, ScalarRule, TagRule};
use pv_text::ByteBuf;
use pv_tree::{Loc, Row, Step};
use pv_union::{Score, TagTable, best, label};
use sqlite_items::{Boxed, Items};
use std::alloc::Global;
use std::process::Abort;

/// The place of the member that is taken, and what came of each member: its grade and, where it has
/// one, its count.
const CHOICES: &str = r#"0 lax=3 exact=2
1 exact=1 exact=2
1 lax=3 exact
1 lax=2 strict lax=3
0 exact exact=9
none failed failed"#;

/// An input, and the place of the choice that has its tag, or the message of the error.
const TAGGED: &str = r#"{"kind":1} 0
{"kind":"b"} 1
{"sort":["b"]} 1
{"kind":1.0} Input tag '1.0' found using 'kind' | 'sort'.0 does not match any of the expected tags: '1', 'b'
{"kind":{"k":"é"}} Input tag '{"k":"é"}' found using 'kind' | 'sort'.0 does not match any of the expected tags: '1', 'b'
{"sort":"b"} Unable to extract tag using discriminator 'kind' | 'sort'.0
[] Input should be an object"#;

fn score(s: &str) -> Score {
    let (grade, fields) = match s.split_once('=') {
        Some((grade, fields)) => (grade, fields.parse().ok()),
        None => (s, None),
    };
    match grade {
        "lax" => Score::Good {
            grade: Grade::Lax,
            fields,
        },
        "strict" => Score::Good {
            grade: Grade::Strict,
            fields,
        },
        "exact" => Score::Good {
            grade: Grade::Exact,
            fields,
        },
        _ => Score::Failed,
    }
}

#[test]
fn counts_come_before_grades(rt: HostRuntime) {
    let alloc = rt.alloc();
    for row in CHOICES.lines() {
        let (want, members) = cut(&rt, row);
        let mut scores = Vec::new(alloc);
        for member in members.split(' ') {
            scores.push(score(member)).expect(&rt, "memory");
        }
        assert_eq!(rt; best(scores.as_slice()), want.parse().ok(), "at {row}");
    }
}

fn node(body: Body) -> Node {
    Node {
        own_ref: None,
        strict: None,
        body,
    }
}

fn rule(kind: Collection, variadic_item_index: Option<u64>) -> GatherRule {
    GatherRule {
        kind,
        positions: 0,
        variadic_item_index,
        min_length: None,
        max_length: None,
    }
}

#[test]
fn labels_name_the_inner_schemas(rt: HostRuntime) {
    let alloc = rt.alloc();
    let any = Boxed::new(alloc, node(Body::Scalar(ScalarRule::Any))).expect(&rt, "memory");
    let nullable = Boxed::new(alloc, node(Body::Nullable { schema: any })).expect(&rt, "memory");
    let mut items = Vec::new(alloc);
    items
        .push(node(Body::Scalar(ScalarRule::Bool)))
        .expect(&rt, "memory");
    items
        .push(node(Body::Dict {
            rule: rule(Collection::Dict, None),
            keys_schema: None,
            values_schema: Some(nullable),
        }))
        .expect(&rt, "memory");
    items
        .push(node(Body::Sequence {
            rule: rule(Collection::Frozen, None),
            items_schema: None,
        }))
        .expect(&rt, "memory");
    let tuple = node(Body::Tuple {
        rule: rule(Collection::Tuple, Some(1)),
        items_schema: Items::from_vec(items),
    });
    let written = label(alloc, &tuple).expect(&rt, "memory");
    assert_eq!(rt;
        written.as_str(),
        "tuple[bool, dict[any,nullable[any]], ..., frozenset[any]]"
    );
}

/// The paths "kind" and "sort" with 0.
fn discriminator(rt: &impl Abort, alloc: Global) -> AliasRule {
    let mut kind = Loc::new(alloc);
    kind.push(Step::Name(text(rt, alloc, "kind")))
        .expect(rt, "memory");
    let mut sort = Loc::new(alloc);
    sort.push(Step::Name(text(rt, alloc, "sort")))
        .expect(rt, "memory");
    sort.push(Step::Index(0)).expect(rt, "memory");
    let mut paths = Vec::new(alloc);
    paths.push(kind).expect(rt, "memory");
    paths.push(sort).expect(rt, "memory");
    AliasRule {
        paths: Items::from_vec(paths),
    }
}

fn table(rt: &impl Abort, alloc: Global) -> TagTable {
    let mut tags = Vec::new(alloc);
    tags.push(text(rt, alloc, "1")).expect(rt, "memory");
    tags.push(text(rt, alloc, "b")).expect(rt, "memory");
    let rule = TagRule {
        discriminator: discriminator(rt, alloc),
        tags: Row::from_vec(alloc, tags).expect(rt, "memory"),
    };
    TagTable::build(alloc, &rule).expect(rt, "memory")
}

#[test]
fn tags_lead_to_choices(rt: HostRuntime) {
    let alloc = rt.alloc();
    let table = table(&rt, alloc);
    for row in TAGGED.lines() {
        let (input, want) = cut(&rt, row);
        let input = tree(&rt, alloc, input.as_bytes());
        let mut told = ByteBuf::new(alloc);
        match table.choose(alloc, &input).expect(&rt, "memory") {
            Ok(place) => {
                let digits = place.to_string(alloc).expect(&rt, "memory");
                told.push_slice(digits.as_bytes()).expect(&rt, "memory");
            }
            Err(kind) => write_message(&kind, &mut told).expect(&rt, "memory"),
        }
        assert_eq!(rt; told.as_slice(), want.as_bytes(), "at {row}");
    }
}
