ghost use Rattle.std.specs.Prelude.{◌<◌};

use crate::fixtures::cut;
use pv_graph::{Cycles, Graph, find_cycles};
use std::alloc::Global;
use std::process::Abort;

/// What is told of a graph, and behind it each node by its successors, `-` where it has none. Told
/// is how many steps the longest walk has, or of each node whether it reaches itself: `o` where it
/// does.
const GRAPHS: &str = "\
0 \n\
0 -
0 - -
o 0
o 0,0
1 1 -
1 - 0
1 1,1 -
0 1 \n\
0 9
1 9,1 -
oo 1 0
oo 0,1 0
.o 1 1
o. 0 0
2 1,2 2 -
2 2 - 1
2 - 0 0,1
3 1 2 3 -
3 - 0 1 2
3 3,1 2 3 -
4 4 3,2 3 - 1
ooo 1 2 0
ooo 2 0 1
.oo 1 2 1
oo. 1,2 0 -
.o.o 1 2,3 - 1
ooo. 1 2 0 -
ooo. 3,1 2,3 3,0 -
.ooo 1 2 3 1
oooo 1 0,2 3 2
oooo 1 2 0,3 3
oo.oo 1 0,2 3 4 3
..oo. 1 2,4 3 2 -
o.o 2 0 0
oo.. 1 0 3,0 -
ooooo 1,3 2 0 4 0
ooooo 4 0 1 2 3
oooo.oo 1 2 3 0 5,6 6 5
.oo.oo.. 1,4 2 1,3 4 5 4,6 7 -";

/// Each of these is a graph of so many nodes: an edge leads from `i` to `j` where bit `i * NODES +
/// j` is set.
const NODES: u32 = 3;

fn graph_of(rt: &impl Abort, alloc: Global, nodes: &str) -> Graph {
    let mut graph = Graph::new(alloc);
    for node in nodes.split_whitespace() {
        let mut successors = Vec::new(alloc);
        if node != "-" {
            for number in node.split(',') {
                let number = number.parse::<u32>().expect(rt, "a number");
                successors.push(number).expect(rt, "memory");
            }
        }
        graph.push(&successors).expect(rt, "memory");
    }
    graph
}

fn told(rt: &impl Abort, alloc: Global, graph: &Graph) -> String {
    match find_cycles(alloc, graph).expect(rt, "memory") {
        Cycles::Absent { longest } => format!(in alloc; "{longest}").expect(rt, "memory"),
        Cycles::Present { nodes } => letters(rt, alloc, &nodes),
    }
}

fn letters(rt: &impl Abort, alloc: Global, flags: &[bool]) -> String {
    let mut text = String::new(alloc);
    for flag in flags {
        text.push(if *flag { 'o' } else { '.' })
            .expect(rt, "memory");
    }
    text
}

#[test]
fn graphs_are_told(rt: HostRuntime) {
    let alloc = rt.alloc();
    for row in GRAPHS.lines() {
        let (want, nodes) = cut(&rt, row);
        let graph = graph_of(&rt, alloc, nodes);
        assert_eq!(rt; told(&rt, alloc, &graph).as_str(), want, "{row}");
    }
}

fn has(edges: u32, from: u32, to: u32) -> bool
    requires from { from < NODES }
    requires to { to < NODES }
{
    edges >> (NODES * from + to) & 1 == 1
}

/// The pairs of nodes that a walk of the first edges joins to one of the second.
fn joined(first: u32, second: u32) -> u32 {
    let mut pairs = 0u32;
    for from in 0..NODES {
        for over in 0..NODES {
            for to in 0..NODES {
                if has(first, from, over) && has(second, over, to) {
                    pairs |= 1 << (NODES * from + to);
                }
            }
        }
    }
    pairs
}

fn graph_of_bits(rt: &impl Abort, alloc: Global, edges: u32) -> Graph {
    let mut graph = Graph::new(alloc);
    for from in 0..NODES {
        let mut successors = Vec::new(alloc);
        for to in 0..NODES {
            if has(edges, from, to) {
                successors.push(to).expect(rt, "memory");
            }
        }
        graph.push(&successors).expect(rt, "memory");
    }
    graph
}

/// What is to be told of such a graph, by following all walks of up to so many steps as there are
/// nodes.
fn wanted(rt: &impl Abort, alloc: Global, edges: u32) -> String {
    let mut longest = 0u32;
    let mut walks = edges;
    let mut reached = 0u32;
    for steps in 0..NODES {
        if walks != 0 {
            longest = steps + 1;
        }
        reached |= walks;
        walks = joined(walks, edges);
    }
    let flags = [has(reached, 0, 0), has(reached, 1, 1), has(reached, 2, 2)];
    if flags.contains(&true) {
        letters(rt, alloc, &flags)
    } else {
        format!(in alloc; "{longest}").expect(rt, "memory")
    }
}

#[test]
fn all_small_graphs_are_told(rt: HostRuntime) {
    let alloc = rt.alloc();
    for edges in 0..512 {
        let graph = graph_of_bits(&rt, alloc, edges);
        let want = wanted(&rt, alloc, edges);
        assert_eq!(rt; told(&rt, alloc, &graph).as_str(), want.as_str(), "{edges}");
    }
}

const MANY: u32 = 20_000;

/// Each node leads to the next, and the last to these.
fn line(rt: &impl Abort, alloc: Global, last: &[u32]) -> Graph {
    let mut graph = Graph::new(alloc);
    for next in 1..MANY {
        graph.push(&[next]).expect(rt, "memory");
    }
    graph.push(last).expect(rt, "memory");
    graph
}

/// The first node leads to all others, and each of them to these.
fn star(rt: &impl Abort, alloc: Global, back: &[u32]) -> Graph {
    let mut others = Vec::new(alloc);
    for other in 1..MANY {
        others.push(other).expect(rt, "memory");
    }
    let mut graph = Graph::new(alloc);
    graph.push(&others).expect(rt, "memory");
    for _ in 1..MANY {
        graph.push(back).expect(rt, "memory");
    }
    graph
}

/// How many steps the longest walk has, or how many nodes reach themselves, after the word for it.
fn summary(rt: &impl Abort, alloc: Global, graph: &Graph) -> (&'static str, u64) {
    match find_cycles(alloc, graph).expect(rt, "memory") {
        Cycles::Absent { longest } => ("longest", longest),
        Cycles::Present { nodes } => {
            let count = nodes.iter().filter(|node| **node).count();
            ("cyclic", count as u64)
        }
    }
}

#[test]
fn long_and_wide_graphs_are_told(rt: HostRuntime) {
    let alloc = rt.alloc();
    let chain = line(&rt, alloc, &[]);
    assert!(rt;
        summary(&rt, alloc, &chain) == ("longest", 19_999),
        "a chain"
    );
    let ring = line(&rt, alloc, &[0]);
    assert!(rt; summary(&rt, alloc, &ring) == ("cyclic", 20_000), "a ring");
    let lasso = line(&rt, alloc, &[15_000]);
    assert!(rt;
        summary(&rt, alloc, &lasso) == ("cyclic", 5_000),
        "a ring at the end of a chain"
    );
    let out = star(&rt, alloc, &[]);
    assert!(rt; summary(&rt, alloc, &out) == ("longest", 1), "a star");
    let both = star(&rt, alloc, &[0]);
    assert!(rt;
        summary(&rt, alloc, &both) == ("cyclic", 20_000),
        "a star that leads back"
    );
}
