//! The functions that nodes name.

ghost use Rattle.std.specs.Prelude.{◌≡◌};
ghost use Rattle.std.specs.Option.{option_map, option_copied};
ghost use Rattle.pv_node.specs.declared.Body.{out-Body};
ghost use Rattle.pv_node.specs.Preorder.{first_in};
ghost use Rattle.pv_plan.specs.Functions.{fits_in, records_fit, same_kind, unknown_at, wanted_by, wanted_lent, wanted_of, wrong_at};
ghost use Rattle.pv_references.specs.Nodes.{nodes_lent};
ghost use Rattle.pv_plan.specs.Faults.{Builds, unknown_function, wrong_kind};

use crate::faults::BuildFault;
use crate::record::{Op, Record};
use pv_func::{FuncKind, Objects};
use pv_node::{Body, Node};
use pv_text::Text;
use std::alloc::Global;

/// A function that is named, and the kind of which it has to be.
#[derive(Clone, Copy)]
pub(crate) struct WantedFn<'a> {
    kind: FuncKind,
    name: &'a Text,
}

/// Whether two kinds are the same.
fn is_kind(kind: FuncKind, other: FuncKind) -> bool
    ensures { result ≡ same_kind kind other }
{
    match kind {
        FuncKind::Before => match other {
            FuncKind::Before => true,
            FuncKind::After => false,
            FuncKind::Plain => false,
            FuncKind::Wrap => false,
        },
        FuncKind::After => match other {
            FuncKind::Before => false,
            FuncKind::After => true,
            FuncKind::Plain => false,
            FuncKind::Wrap => false,
        },
        FuncKind::Plain => match other {
            FuncKind::Before => false,
            FuncKind::After => false,
            FuncKind::Plain => true,
            FuncKind::Wrap => false,
        },
        FuncKind::Wrap => match other {
            FuncKind::Before => false,
            FuncKind::After => false,
            FuncKind::Plain => false,
            FuncKind::Wrap => true,
        },
    }
}

/// The function that a node names.
fn wanted(body: &Body) -> Option<WantedFn<'_>>
    ensures { option_map wanted_lent result ≡ wanted_by (out-Body body.now) }
{
    match body {
        Body::Scalar(_) => None,
        Body::Sequence { .. } => None,
        Body::Tuple { .. } => None,
        Body::Dict { .. } => None,
        Body::Nullable { .. } => None,
        Body::Fields { .. } => None,
        Body::Model { .. } => None,
        Body::Default { .. } => None,
        Body::Union { .. } => None,
        Body::TaggedUnion { .. } => None,
        Body::LaxOrStrict { .. } => None,
        Body::JsonOrPython { .. } => None,
        Body::CustomError { .. } => None,
        Body::Before { rule, .. } => Some(WantedFn {
            kind: FuncKind::Before,
            name: &rule.function,
        }),
        Body::After { rule, .. } => Some(WantedFn {
            kind: FuncKind::After,
            name: &rule.function,
        }),
        Body::Wrap { rule, .. } => Some(WantedFn {
            kind: FuncKind::Wrap,
            name: &rule.function,
        }),
        Body::Plain { rule } => Some(WantedFn {
            kind: FuncKind::Plain,
            name: &rule.function,
        }),
        Body::Definitions { .. } => None,
        Body::DefinitionRef { .. } => None,
    }
}

/// The function that a record names.
fn wanted_in(op: &Op) -> Option<WantedFn<'_>>
    ensures { option_map wanted_lent result ≡ wanted_of op.now }
{
    match op {
        Op::Scalar(_) => None,
        Op::Gather(_) => None,
        Op::Nullable => None,
        Op::Fields(_) => None,
        Op::Model { .. } => None,
        Op::Default { .. } => None,
        Op::Union { .. } => None,
        Op::TaggedUnion(_) => None,
        Op::LaxOrStrict => None,
        Op::Inner => None,
        Op::CustomError { .. } => None,
        Op::Before { name } => Some(WantedFn {
            kind: FuncKind::Before,
            name,
        }),
        Op::After { name } => Some(WantedFn {
            kind: FuncKind::After,
            name,
        }),
        Op::Wrap { name } => Some(WantedFn {
            kind: FuncKind::Wrap,
            name,
        }),
        Op::Plain { name } => Some(WantedFn {
            kind: FuncKind::Plain,
            name,
        }),
    }
}

/// The name that a node names, where no function has it.
fn unknown<'a, O: Objects>(node: &'a Node, objects: &O) -> Option<&'a Text>
    ensures { option_copied result ≡ unknown_at (O.functions objects.now) node.now }
{
    match wanted(&node.body) {
        None => None,
        Some(wanted) => match objects.kind_named(wanted.name) {
            None => Some(wanted.name),
            Some(_) => None,
        },
    }
}

/// The name that a node names, where its function is of another kind.
fn wrong<'a, O: Objects>(node: &'a Node, objects: &O) -> Option<&'a Text>
    ensures { option_copied result ≡ wrong_at (O.functions objects.now) node.now }
{
    match wanted(&node.body) {
        None => None,
        Some(wanted) => match objects.kind_named(wanted.name) {
            None => None,
            Some(kind) => {
                if is_kind(wanted.kind, kind) {
                    None
                } else {
                    Some(wanted.name)
                }
            }
        },
    }
}

/// The first name that no function has.
fn first_unknown<'a, O: Objects>(nodes: &[&'a Node], objects: &O) -> Option<&'a Text>
    ensures { option_copied result
        ≡ first_in (unknown_at (O.functions objects.now)) (nodes_lent nodes.now) }
{
    for place in 0..nodes.len() {
        match unknown(nodes[place], objects) {
            Some(name) => return Some(name),
            None => {}
        }
    }
    None
}

/// The first name whose function is of another kind.
fn first_wrong<'a, O: Objects>(nodes: &[&'a Node], objects: &O) -> Option<&'a Text>
    ensures { option_copied result
        ≡ first_in (wrong_at (O.functions objects.now)) (nodes_lent nodes.now) }
{
    for place in 0..nodes.len() {
        match wrong(nodes[place], objects) {
            Some(name) => return Some(name),
            None => {}
        }
    }
    None
}

/// Refuses nodes of which one names a function that is not there.
pub(crate) fn check_known<O: Objects>(
    alloc: Global,
    nodes: &[&Node],
    objects: &O,
) -> Result<(), BuildFault>
    ensures { Builds result (option_map unknown_function
        (first_in (unknown_at (O.functions objects.now)) (nodes_lent nodes.now))) }
{
    match first_unknown(nodes, objects) {
        None => Ok(()),
        Some(name) => {
            let name = name.share(alloc)?;
            Err(BuildFault::UnknownFunction { name })
        }
    }
}

/// Refuses nodes of which one names a function of another kind.
pub(crate) fn check_kinds<O: Objects>(
    alloc: Global,
    nodes: &[&Node],
    objects: &O,
) -> Result<(), BuildFault>
    ensures { Builds result (option_map wrong_kind
        (first_in (wrong_at (O.functions objects.now)) (nodes_lent nodes.now))) }
{
    match first_wrong(nodes, objects) {
        None => Ok(()),
        Some(name) => {
            let name = name.share(alloc)?;
            Err(BuildFault::WrongFunctionKind { name })
        }
    }
}

/// Whether the function that a record names is there, and of its kind.
fn op_fits<O: Objects>(op: &Op, objects: &O) -> bool
    ensures { result ≡ fits_in (O.functions objects.now) (wanted_of op.now) }
{
    match wanted_in(op) {
        None => true,
        Some(wanted) => match objects.kind_named(wanted.name) {
            None => false,
            Some(kind) => is_kind(wanted.kind, kind),
        },
    }
}

/// Whether the functions that records name are there, and each of its kind.
pub(crate) fn all_fit<O: Objects>(records: &[Record], objects: &O) -> bool
    ensures { result ≡ records_fit (O.functions objects.now) records.now }
{
    for place in 0..records.len() {
        if !op_fits(&records[place].op, objects) {
            return false;
        }
    }
    true
}
