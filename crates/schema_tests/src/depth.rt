use crate::fixtures::{no_functions, text, tree};
use pv_engine::validate;
use pv_fault::Outcome;
use pv_plan::{Plan, build};
use pv_schema::read_schema;
use pv_tree::Tree;
use std::alloc::Global;
use std::process::Abort;

/// The schema of lists in lists around anything, as a tree.
fn nested_lists(rt: &impl Abort, alloc: Global, levels: u64) -> Tree {
    let mut inner = tree(rt, alloc, br#"{"type":"any"}"#);
    for _ in 0..levels {
        let mut members = Vec::new(alloc);
        members
            .push((text(rt, alloc, "type"), Tree::Str(text(rt, alloc, "list"))))
            .expect(rt, "memory");
        members
            .push((text(rt, alloc, "items_schema"), inner))
            .expect(rt, "memory");
        inner = Tree::object(alloc, members).expect(rt, "memory");
    }
    inner
}

/// Arrays in arrays around null.
fn nested_arrays(rt: &impl Abort, alloc: Global, levels: u64) -> Tree {
    let mut tree = Tree::Null;
    for _ in 0..levels {
        let mut items = Vec::new(alloc);
        items.push(tree).expect(rt, "memory");
        tree = Tree::array(alloc, items).expect(rt, "memory");
    }
    tree
}

fn plan_of(rt: &impl Abort, alloc: Global, written: &Tree) -> Plan {
    let Ok(schema) = read_schema(alloc, written) else {
        panic!(rt; "a schema");
    };
    let Ok(plan) = build(alloc, &schema, &no_functions(alloc)) else {
        panic!(rt; "a plan");
    };
    plan
}

/// How many steps lead to the first error, where there is one.
fn steps_to_error(outcome: &Outcome) -> Option<usize> {
    match outcome {
        Outcome::Good { .. } => None,
        Outcome::Bad(faults) => faults.get(0).map(|e| e.loc.len()),
    }
}

#[test]
fn a_thousand_nodes_are_entered_below_one_another(rt: HostRuntime) {
    let alloc = rt.alloc();
    let registry = no_functions(alloc);
    for (levels, steps) in [(999u64, None), (1000, Some(1000usize))] {
        let plan = plan_of(&rt, alloc, &nested_lists(&rt, alloc, levels));
        let tree = nested_arrays(&rt, alloc, levels);
        let outcome = validate(alloc, &plan, &registry, None, &tree).expect(&rt, "memory");
        assert_eq!(rt; steps_to_error(&outcome), steps, "{levels}");
    }
}
