ghost use Rattle.pv_node.specs.Allowed.{AreAllowed};
ghost use Rattle.pv_schema.specs.Reading as spec;
ghost use Rattle.pv_schema.specs.Reading.{Reads, schema_of};

use crate::making::make_node;
use crate::schema_fault::SchemaFault;
use pv_node::{MAX_NODES, Node, Schema, count_nodes};
use pv_schema_check::{CheckFault, Code, check};
use pv_schema_table::Kind;
use pv_text::Memory;
use pv_tree::Tree;
use std::alloc::Global;

impl From<Memory> for SchemaFault {
    ghost use Rattle.std.specs.Prelude.{◌≡◌};
    ghost use Rattle.pv_schema.specs.declared.schema_fault.SchemaFault.TheVariants.{Memory};

    ghost from_gives = { λ _ e. e ≡ Memory };

    fn from(_e: Memory) -> SchemaFault {
        SchemaFault::Memory
    }
}

/// A schema with this root, where it has few enough nodes.
fn counted(alloc: Global, root: Node) -> Result<Schema, SchemaFault>
    requires { AreAllowed root }
    ensures { Reads result (spec.counted root) }
{
    let count = count_nodes(&root)?;
    if count <= MAX_NODES {
        Ok(Schema::new(alloc, root)?)
    } else {
        Err(SchemaFault::TooManyNodes { count })
    }
}

/// The schema that a tree is, or the first of all that is wrong with it. Docs: "Schemas" in
/// docs/SCHEMAS.md has the table of keys and the order of refusals.
#[tactic(auto, unfolding(crate::specs::Reading::schema_of))]
pub fn read_schema(alloc: Global, t: &Tree) -> Result<Schema, SchemaFault>
    ensures { Reads result (schema_of t.now) }
{
    match check(alloc, Kind::Schema, t) {
        Ok(()) => {
            let root = make_node(alloc, t)?;
            counted(alloc, root)
        }
        Err(CheckFault::Refused(refusal)) => match refusal.code {
            Code::Shape(code) => Err(SchemaFault::Shape {
                path: refusal.path,
                code,
            }),
            Code::NotYet => Err(SchemaFault::NotYet { path: refusal.path }),
        },
        Err(CheckFault::Memory) => Err(SchemaFault::Memory),
    }
}
