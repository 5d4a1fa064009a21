use crate::fixtures::{cut, no_functions, schema};
use pv_plan::{Op, Plan, build};
use pv_rules::Collection;
use std::alloc::Global;
use std::process::Abort;

/// How many nodes a schema has, the schema, and the records of its plan: what each does, its
/// children, whether it is strict and whether it validates defaults.
const PLANS: &str =
    r#"7 {"type":"tuple","items_schema":[{"type":"list","items_schema":{"type":"any"}},{"type":"dict","values_schema":{"type":"nullable","schema":{"type":"str","pattern":"a|b"}}},{"type":"list","strict":true}]} tuple 1 3 6;list 2;scalar;dict 7 4;nullable 5;scalar;list 7 strict;scalar;
3 {"type":"dict","keys_schema":{"type":"any"},"values_schema":{"type":"any"}} dict 1 2;scalar;scalar;scalar;
6 {"type":"model","cls":"M","config":{"strict":true,"validate_default":true},"schema":{"type":"model-fields","fields":{"a":{"type":"model-field","schema":{"type":"default","default":1,"validate_default":false,"schema":{"type":"int"}}},"b":{"type":"model-field","schema":{"type":"int","strict":false}}},"extras_schema":{"type":"str"}}} model 1 strict validates;fields 2 4 5 strict validates;default 3 strict;scalar strict validates;scalar validates;scalar strict validates;scalar;
2 {"type":"typed-dict","fields":{"a":{"type":"typed-dict-field","schema":{"type":"int"}}},"config":{"strict":true}} fields 1 strict;scalar strict;scalar;
10 {"type":"union","choices":[{"type":"lax-or-strict","lax_schema":{"type":"int"},"strict_schema":{"type":"bool"}},{"type":"json-or-python","json_schema":{"type":"str"},"python_schema":{"type":"none"}},{"type":"custom-error","custom_error_type":"bad","custom_error_message":"No","schema":{"type":"int"}},{"type":"tagged-union","discriminator":"k","choices":{"a":{"type":"dict"}}}]} union 1 4 6 8;lax-or-strict 2 3;scalar;scalar;inner 5;scalar;custom-error 7;scalar;tagged-union 9;dict 10 10;scalar;
1 {"type":"any"} scalar;scalar;"#;

fn name_of(op: &Op) -> &'static str {
    match op {
        Op::Scalar(_) => "scalar",
        Op::Gather(rule) => match rule.kind {
            Collection::List => "list",
            Collection::Tuple => "tuple",
            Collection::Set => "set",
            Collection::Frozen => "frozenset",
            Collection::Dict => "dict",
        },
        Op::Nullable => "nullable",
        Op::Fields(_) => "fields",
        Op::Model { .. } => "model",
        Op::Default { .. } => "default",
        Op::Union { .. } => "union",
        Op::TaggedUnion(_) => "tagged-union",
        Op::LaxOrStrict => "lax-or-strict",
        Op::Inner => "inner",
        Op::CustomError { .. } => "custom-error",
        Op::Before { .. } => "before",
        Op::After { .. } => "after",
        Op::Wrap { .. } => "wrap",
        Op::Plain { .. } => "plain",
    }
}

/// The records of a plan, a semicolon behind each.
fn written(rt: &impl Abort, alloc: Global, plan: &Plan) -> String {
    let mut lines = String::new(alloc);
    for record in plan.as_slice() {
        lines.push_str(name_of(&record.op)).expect(rt, "memory");
        for child in record.children.as_slice() {
            write!(lines, " {child}").expect(rt, "memory");
        }
        if record.strict {
            lines.push_str(" strict").expect(rt, "memory");
        }
        if record.validate_default {
            lines.push_str(" validates").expect(rt, "memory");
        }
        lines.push_str(";").expect(rt, "memory");
    }
    lines
}

fn plan(rt: &impl Abort, alloc: Global, json: &str) -> Plan {
    let schema = schema(rt, alloc, json.as_bytes());
    let Ok(plan) = build(alloc, &schema, &no_functions(alloc)) else {
        panic!(rt; "a plan");
    };
    plan
}

#[test]
fn records_are_numbered_in_preorder(rt: HostRuntime) {
    let alloc = rt.alloc();
    for row in PLANS.lines() {
        let (nodes, rest) = cut(&rt, row);
        let (json, want) = cut(&rt, rest);
        let plan = plan(&rt, alloc, json);
        assert_eq!(rt; written(&rt, alloc, &plan).as_str(), want);
        let count = format!(in alloc; "{}", plan.nodes()).expect(&rt, "memory");
        assert_eq!(rt; count.as_str(), nodes);
        assert_eq!(rt; plan.root(), 0);
        assert!(rt; want.starts_with(name_of(&plan.slot(0).op)));
    }
}
