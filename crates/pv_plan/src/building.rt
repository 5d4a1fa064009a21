//! From a schema to its plan.

ghost use Rattle.std.specs.Prelude.{◌≡◌, ◌≤◌, [], ◌∷◌, ◌++◌, IfOk, OnOk, length};
ghost use Rattle.std.specs.Option.{option_map};
ghost use Rattle.pv_node.specs.Preorder.{node_count, preorder};
ghost use Rattle.pv_references.specs.Cycles as cycles;
ghost use Rattle.pv_references.specs.Faults.{no_references};
ghost use Rattle.pv_references.specs.Names.{names_of};
ghost use Rattle.pv_references.specs.Nodes.{nodes_lent};
ghost use Rattle.pv_plan.specs.Layout.{absent_record, table_of};
ghost use Rattle.pv_plan.specs.BadPatterns.{bad_pattern};
ghost use Rattle.pv_plan.specs.Faults.{Builds, Finds, for_references, no_plan};

use crate::faults::{BuildFault, refused};
use crate::functions::{check_kinds, check_known};
use crate::laying::Laying;
use crate::plan::Plan;
use crate::record::{Op, Record};
use pv_func::Objects;
use pv_node::{MAX_NODES, Node, Schema, count_nodes};
use pv_references::{Names, References, check, nodes_of};
use pv_rules::{ScalarRule, Settings};
use pv_scalar::Scalar;
use pv_text::Memory;
use sqlite_items::Items;
use std::alloc::Global;

/// The record that stands for absent schemas: it takes any value.
fn any(alloc: Global) -> Result<Record, Memory>
    ensures { IfOk result (λ r. r ≡ absent_record) }
{
    match Scalar::build(alloc, &ScalarRule::Any, &Settings::plain()) {
        Ok(scalar) => Ok(Record {
            op: Op::Scalar(scalar),
            children: Items::new(alloc),
            strict: false,
            validate_default: false,
        }),
        Err(_) => Err(Memory),
    }
}

/// Puts the record that stands for absent schemas at the end.
fn push_any(alloc: Global, table: &mut Vec<Record>) -> Result<(), Memory>
    ensures { OnOk result (table.new.items ≡ table.old.items ++ absent_record ∷ []) }
{
    let record = any(alloc)?;
    match table.push(record) {
        Ok(()) => Ok(()),
        Err(_) => Err(Memory),
    }
}

/// What there is of names in a schema, by all of its nodes, or what is wrong with its references.
#[tactic(auto, using(crate::proofs::Searching::none_carried))]
fn references(alloc: Global, nodes: &[&Node], names: &Names<'_>) -> Result<References, BuildFault>
    requires { nodes_lent nodes.now ≡ preorder names.now }
    ensures reason { Builds result (option_map for_references (no_references names.now)) }
    ensures definitions { IfOk result (λ r. r.definitions ≡ length (names_of names.now)) }
    ensures chain { IfOk result (λ r. r.chain ≡ cycles.chain names.now) }
{
    match check(alloc, nodes, names) {
        Ok(references) => Ok(references),
        Err(fault) => Err(refused(fault)),
    }
}

/// The records of a schema, by its root and its names.
fn table(alloc: Global, root: &Node, names: &Names<'_>) -> Result<Items<Record>, BuildFault>
    requires size { node_count root.now ≤ MAX_NODES }
    requires names { names.now ≡ root.now }
    ensures table { IfOk result (λ table. table ≡ table_of root.now) }
    ensures pattern { Finds result (bad_pattern root.now) }
{
    let last = count_nodes(root)? as u32;
    let mut table = Vec::new(alloc);
    let laying = Laying {
        alloc,
        names: &*names,
        last,
    };
    laying.lay(&mut table, root, &Settings::plain())?;
    push_any(alloc, &mut table)?;
    Ok(Items::from_vec(table))
}

/// The plan of a schema by the functions that there are, or why there is none.
pub fn build<O: Objects>(alloc: Global, schema: &Schema, objects: &O) -> Result<Plan, BuildFault>
    ensures value { IfOk result (λ p. p ≡ schema.now) }
    ensures reason { Builds result (no_plan (O.functions objects.now) schema.now) }
{
    let root = schema.root();
    let nodes = nodes_of(alloc, root)?;
    let all = nodes.as_slice();
    let names = Names::build(alloc, root, all)?;
    let references = references(alloc, all, &names)?;
    check_known(alloc, all, objects)?;
    check_kinds(alloc, all, objects)?;
    let table = table(alloc, root, &names)?;
    let schema = schema.share()?;
    Ok(Plan {
        table,
        schema,
        definitions: references.definitions,
        chain: references.chain,
    })
}
