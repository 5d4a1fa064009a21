//! Whether the references of a schema can be followed.

ghost use Rattle.std.specs.Prelude.{◌≡◌, ℕ, ◌+◌, List, IfOk, length};
ghost use Rattle.std.specs.Option.{option_map};
ghost use Rattle.pv_node.specs.declared.Node.{out-Node};
ghost use Rattle.pv_node.specs.Preorder.{preorder};
ghost use Rattle.pv_references.specs.Cycles as spec;
ghost use Rattle.pv_references.specs.Cycles.{cycle_names, named_marked};
ghost use Rattle.pv_references.specs.Faults.{Passes, Tells, cycle_of, duplicate_ref, no_references, undefined_ref};
ghost use Rattle.pv_references.specs.Names as naming;
ghost use Rattle.pv_references.specs.Names.{names_in, names_of, with_name};
ghost use Rattle.pv_references.specs.Nodes.{nodes_lent};

use crate::circles::marked_names;
use crate::duplicates::first_duplicate;
use crate::edges::graph_of;
use crate::faults::NoReferences;
use crate::names::Names;
use crate::undefined::first_undefined;
use pv_graph::{Cycles, find_cycles};
use pv_node::Node;
use pv_text::Memory;
use std::alloc::Global;

/// What there is of names in a schema whose references can be followed.
#[derive(Clone, Copy)]
pub struct References {
    /// How many nodes have a name.
    pub definitions: u64,
    /// The most edges in a row that do not enter the input.
    pub chain: u64,
}

/// Counts a node that has a name.
fn counted(count: u64, node: &Node) -> Result<u64, Memory>
    ensures { IfOk result (λ n. (more : List (List ℕ))
        → n + length more ≡ count + length (with_name (out-Node node.now).own_ref more)) }
{
    match &node.own_ref {
        None => Ok(count),
        Some(_) => match count.checked_add(1) {
            Some(count) => Ok(count),
            None => Err(Memory),
        },
    }
}

/// How many nodes have a name.
fn count_names(nodes: &[&Node]) -> Result<u64, Memory>
    ensures { IfOk result (λ n. n ≡ length (names_in (nodes_lent nodes.now))) }
{
    let mut count = 0u64;
    for place in 0..nodes.len() {
        count = counted(count, nodes[place])?;
    }
    Ok(count)
}

/// Refuses a schema in which a name stands twice.
fn check_distinct(alloc: Global, nodes: &[&Node], names: &Names<'_>) -> Result<(), NoReferences>
    requires { nodes_lent nodes.now ≡ preorder names.now }
    ensures { Passes result (option_map duplicate_ref (naming.first_duplicate names.now)) }
{
    match first_duplicate(nodes, names) {
        None => Ok(()),
        Some(name) => {
            let name = name.share(alloc)?;
            Err(NoReferences::DuplicateRef { name })
        }
    }
}

/// Refuses a schema in which a node refers to a name that no node has.
fn check_defined(alloc: Global, nodes: &[&Node], names: &Names<'_>) -> Result<(), NoReferences>
    requires { nodes_lent nodes.now ≡ preorder names.now }
    ensures { Passes result (option_map undefined_ref (naming.first_undefined names.now)) }
{
    match first_undefined(nodes, names) {
        None => Ok(()),
        Some(name) => {
            let name = name.share(alloc)?;
            Err(NoReferences::UndefinedRef { name })
        }
    }
}

/// The empty cycle of the nodes whose flags are true.
fn empty_cycle(alloc: Global, nodes: &[&Node], flags: &[bool]) -> NoReferences
    ensures { Tells result (cycle_of (named_marked flags.now (nodes_lent nodes.now))) }
{
    match marked_names(alloc, nodes, flags) {
        Ok(names) => {
            if names.len() == 0 {
                NoReferences::Memory
            } else {
                NoReferences::EmptyCycle { names }
            }
        }
        Err(_) => NoReferences::Memory,
    }
}

/// Refuses a schema in which a node leads back to itself without entering the input; else the most
/// edges in a row that do not enter it.
fn check_cycles(alloc: Global, nodes: &[&Node], names: &Names<'_>) -> Result<u64, NoReferences>
    requires { nodes_lent nodes.now ≡ preorder names.now }
    ensures reason { Passes result (cycle_of (cycle_names names.now)) }
    ensures chain { IfOk result (λ n. n ≡ spec.chain names.now) }
{
    let graph = graph_of(alloc, names)?;
    match find_cycles(alloc, &graph)? {
        Cycles::Absent { longest } => Ok(longest),
        Cycles::Present { nodes: flags } => Err(empty_cycle(alloc, nodes, flags.as_slice())),
    }
}

/// What there is of names in a schema, by all of its nodes, or what is wrong with its references.
/// It takes time in proportion to the nodes, and for each name or reference to the logarithm of the
/// number of names.
///
/// Where some node leads back to itself, one that has a name does, by
/// [`cycles_have_names`](crate::cycles_have_names). Were there none, the answer would be want of
/// memory.
#[tactic(auto, using(crate::proofs::Telling::duplicate_told, crate::proofs::Telling::undefined_told, crate::proofs::Telling::cycle_told, crate::proofs::Telling::nothing_told, crate::proofs::Telling::names_counted))]
pub fn check(alloc: Global, nodes: &[&Node], names: &Names<'_>) -> Result<References, NoReferences>
    requires { nodes_lent nodes.now ≡ preorder names.now }
    ensures reason { Passes result (no_references names.now) }
    ensures definitions { IfOk result (λ r. r.definitions ≡ length (names_of names.now)) }
    ensures chain { IfOk result (λ r. r.chain ≡ spec.chain names.now) }
{
    check_distinct(alloc, nodes, names)?;
    check_defined(alloc, nodes, names)?;
    let chain = check_cycles(alloc, nodes, names)?;
    let definitions = count_names(nodes)?;
    Ok(References { definitions, chain })
}
