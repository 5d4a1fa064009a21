use crate::fixtures::{text, tree};
use pv_node::{MAX_NODES, count_nodes};
use pv_schema::{SchemaFault, read_schema};
use pv_tree::Tree;
use std::alloc::Global;
use std::process::Abort;

/// As many trees, which share one.
fn shared(rt: &impl Abort, alloc: Global, tree: &Tree, count: u32) -> Vec<Tree> {
    let mut all = Vec::new(alloc);
    for _ in 0..count {
        all.push(tree.share(alloc).expect(rt, "memory"))
            .expect(rt, "memory");
    }
    all
}

/// The schema of a tuple of so many positions, as a tree.
fn tuple_of(rt: &impl Abort, alloc: Global, positions: u32) -> Tree {
    let any = tree(rt, alloc, br#"{"type":"any"}"#);
    let positions = Tree::array(alloc, shared(rt, alloc, &any, positions)).expect(rt, "memory");
    let mut members = Vec::new(alloc);
    members
        .push((text(rt, alloc, "type"), Tree::Str(text(rt, alloc, "tuple"))))
        .expect(rt, "memory");
    members
        .push((text(rt, alloc, "items_schema"), positions))
        .expect(rt, "memory");
    Tree::object(alloc, members).expect(rt, "memory")
}

#[test]
fn a_schema_has_a_hundred_thousand_nodes_at_most(rt: HostRuntime) {
    let alloc = rt.alloc();
    let Ok(largest) = read_schema(alloc, &tuple_of(&rt, alloc, 99_999)) else {
        panic!(rt; "refused");
    };
    let shared = largest.share().expect(&rt, "memory");
    let count = count_nodes(shared.root()).expect(&rt, "memory");
    assert_eq!(rt; count, MAX_NODES);
    let larger = read_schema(alloc, &tuple_of(&rt, alloc, 100_000));
    assert!(rt; matches!(larger, Err(SchemaFault::TooManyNodes { count: 100_001 })));
}
