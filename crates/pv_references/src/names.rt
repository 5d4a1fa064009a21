//! The numbers of nodes by their names.

ghost use Rattle.std.specs.Prelude.{◌≡◌, ◌∷◌, [], ◌++◌, List, length, IfOk, OnOk};
ghost use Rattle.pv_node.specs.declared.Node.{Node as NodeValue};
ghost use Rattle.pv_node.specs.Preorder.{preorder};
ghost use Rattle.pv_references.specs.Nodes.{IsNumbering, nodes_lent};

use pv_node::Node;
use pv_text::{Memory, Text};
use std::alloc::Global;
use std::collections::BTreeMap;
use std::marker::Model;

/// The number of the node at this place. A schema has few enough nodes for each to have one; a
/// place that has none is refused as want of memory.
pub fn number(place: usize) -> Result<u32, Memory>
    ensures { IfOk result (λ n. n ≡ place) }
{
    if place <= 4_294_967_295 {
        Ok(place as u32)
    } else {
        Err(Memory)
    }
}

/// Adds the name of the node of this number, unless an earlier node has it.
fn add_name(
    alloc: Global,
    numbers: &mut BTreeMap<Text, u32>,
    node: &Node,
    place: usize,
) -> Result<(), Memory>
    ensures { OnOk result ((earlier : List NodeValue) → length earlier ≡ place
        → IsNumbering numbers.old earlier → IsNumbering numbers.new (earlier ++ node.now ∷ [])) }
{
    let Some(name) = &node.own_ref else {
        return Ok(());
    };
    match numbers.get(name).copied() {
        Some(_) => Ok(()),
        None => {
            let own = number(place)?;
            numbers.insert(name.share(alloc)?, own)?;
            Ok(())
        }
    }
}

fn numbers_of(alloc: Global, nodes: &[&Node]) -> Result<BTreeMap<Text, u32>, Memory>
    ensures { IfOk result (λ numbers. IsNumbering numbers (nodes_lent nodes.now)) }
{
    let mut numbers = BTreeMap::new(alloc);
    for place in 0..nodes.len() {
        add_name(alloc, &mut numbers, nodes[place], place)?;
    }
    Ok(numbers)
}

/// The numbers of the nodes of a schema that have names: of several of one name that of the first.
/// Contracts see it as the root of the schema.
#[derive(Drop)]
pub struct Names<'a> {
    root: &'a Node,
    numbers: BTreeMap<Text, u32>,
}

impl<'a> Model for Names<'a> {
    ghost use Rattle.pv_node.specs.declared.Node.{Node};
    ghost use Rattle.pv_node.specs.contracts.node.Body as body;
    ghost use Rattle.pv_node.specs.Preorder.{preorder};
    ghost use Rattle.pv_references.specs.Nodes.{IsNumbering};
    ghost use Rattle.std.specs.Coded.{codes};

    ghost Value = { Node };

    ghost coded = { Prim.hlevel (codes, body.the_row.coded) };

    ghost view = { λ n. n.root.now };

    ghost invariant = { λ n. IsNumbering n.numbers (preorder n.root.now) };
}

impl<'a> Names<'a> {
    ghost use Rattle.std.specs.Prelude.{◌≡◌, IfOk};
    ghost use Rattle.pv_node.specs.Preorder.{preorder};
    ghost use Rattle.pv_references.specs.Names.{is_named};
    ghost use Rattle.pv_references.specs.Numbers.{number_in, number_named};
    ghost use Rattle.pv_references.specs.Nodes.{nodes_lent};

    /// The names of a schema, by its nodes.
    pub fn build(alloc: Global, root: &'a Node, nodes: &[&Node]) -> Result<Names<'a>, Memory>
        requires { nodes_lent nodes.now ≡ preorder root.now }
        ensures { IfOk result (λ names. names ≡ root.now) }
    {
        let numbers = numbers_of(alloc, nodes)?;
        Ok(Names { root, numbers })
    }

    pub fn root(&self) -> &Node
        ensures { result.now ≡ self.now }
    {
        self.root
    }

    /// The number of the first node of this name.
    pub fn find(&self, name: &Text) -> Option<u32>
        ensures { result ≡ number_in self.now name.now }
    {
        self.numbers.get(name).copied()
    }

    /// Whether a node has this name.
    pub fn contains(&self, name: &Text) -> bool
        ensures { result ≡ is_named name.now (preorder self.now) }
    {
        self.find(name).is_some()
    }

    /// The number of the first node of this name; `last` where no node has it.
    pub fn number(&self, name: &Text, last: u32) -> u32
        ensures { result ≡ number_named self.now last name.now }
    {
        match self.find(name) {
            Some(number) => number,
            None => last,
        }
    }
}
