use crate::functions::all_fit;
use crate::record::Record;
use pv_func::Objects;
use pv_node::Schema;
use sqlite_items::Items;
use std::marker::Model;

/// The records of a schema by their numbers. Contracts see it as the root of the schema.
#[derive(Drop)]
pub struct Plan {
    pub(crate) table: Items<Record>,
    pub(crate) schema: Schema,
    pub(crate) definitions: u64,
    pub(crate) chain: u64,
}

impl Model for Plan {
    ghost use Rattle.std.specs.Prelude.{◌≡◌, length};
    ghost use Rattle.pv_node.specs.declared.Node.{Node};
    ghost use Rattle.pv_node.specs.contracts.node.Body as body;
    ghost use Rattle.pv_references.specs.Cycles as cycles;
    ghost use Rattle.pv_references.specs.Names.{names_of};
    ghost use Rattle.pv_plan.specs.Layout.{table_of};
    ghost use Rattle.std.specs.Coded.{codes};

    ghost Value = { Node };

    ghost coded = { Prim.hlevel (codes, body.the_row.coded) };

    ghost view = { λ p. p.schema };

    ghost invariant = { λ p. (p.table ≡ table_of p.schema)
        × (p.definitions ≡ length (names_of p.schema))
        × (p.chain ≡ cycles.chain p.schema) };
}

impl Plan {
    ghost use Rattle.std.specs.Prelude.{◌≡◌, ◌≤◌, Some, length, slice_get};
    ghost use Rattle.pv_node.specs.Preorder.{node_count};
    ghost use Rattle.pv_references.specs.Cycles as cycles;
    ghost use Rattle.pv_references.specs.Names.{names_of};
    ghost use Rattle.pv_plan.specs.Layout.{table_of};
    ghost use Rattle.pv_plan.specs.Functions as functions;

    /// The number of the root's record.
    pub fn root(&self) -> u32
        ensures { result ≡ 0 }
    {
        0
    }

    /// How many nodes the schema has. The record of this number stands for absent schemas.
    pub fn nodes(&self) -> u64
        ensures { result ≡ node_count self.now }
    {
        self.table.len() as u64 - 1
    }

    /// How many nodes have a name.
    pub fn definitions(&self) -> u64
        ensures { result ≡ length (names_of self.now) }
    {
        self.definitions
    }

    /// The most edges in a row that do not enter the input.
    pub fn chain(&self) -> u64
        ensures { result ≡ cycles.chain self.now }
    {
        self.chain
    }

    /// The record of a number.
    pub fn slot(&self, number: u32) -> &Record
        requires { number ≤ node_count self.now }
        ensures { slice_get (table_of self.now) number ≡ Some result.now }
    {
        &self.table.as_slice()[number as usize]
    }

    pub fn as_slice(&self) -> &[Record]
        ensures { result.now ≡ table_of self.now }
    {
        self.table.as_slice()
    }

    /// Whether each function that a node of the schema names is there, and of its kind.
    pub fn fits<O: Objects>(&self, objects: &O) -> bool
        ensures { result ≡ functions.fits (O.functions objects.now) self.now }
    {
        all_fit(self.table.as_slice(), objects)
    }
}
