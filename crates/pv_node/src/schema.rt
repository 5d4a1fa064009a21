use crate::finding::{first_named, node_behind};
use crate::node::Node;
use pv_text::{Memory, Text};
use std::alloc::Global;
use std::marker::Model;
use std::rc::Rc;

/// How many nodes a schema may have.
pub const MAX_NODES: u64 = 100_000;

/// A schema of at most [`MAX_NODES`] nodes, each as the table of keys allows. Contracts see it as
/// its root. Its owners share one copy of it.
#[derive(Drop)]
pub struct Schema {
    root: Rc<Node>,
}

impl Model for Schema {
    ghost use Rattle.pv_node.specs.declared.node.Node.{Node};
    ghost use Rattle.pv_node.specs.contracts.node.Body as body;
    ghost use Rattle.pv_node.specs.Allowed.{IsSchema};
    ghost use Rattle.std.specs.Coded.{codes};

    ghost Value = { Node };

    ghost coded = { Prim.hlevel (codes, body.the_row.coded) };

    ghost view = { λ s. s.root.value };

    ghost invariant = { λ s. IsSchema s.root.value };
}

impl Schema {
    ghost use Rattle.std.specs.Prelude.{◌≡◌, ◌≤◌, ◌<◌, IfOk, Some, slice_get};
    ghost use Rattle.std.specs.List.{find};
    ghost use Rattle.std.specs.Option.{option_copied};
    ghost use Rattle.pv_node.specs.Preorder.{node_count, preorder};
    ghost use Rattle.pv_node.specs.References.{has_name};
    ghost use Rattle.pv_node.specs.Allowed.{AreAllowed, IsSchema};

    /// A schema with this root.
    pub fn new(alloc: Global, root: Node) -> Result<Schema, Memory>
        requires { IsSchema root }
        ensures { IfOk result (λ s. s ≡ root) }
    {
        Ok(Schema {
            root: Rc::new(alloc, root)?,
        })
    }

    pub fn root(&self) -> &Node
        ensures root { result.now ≡ self.now }
        ensures size { node_count result.now ≤ MAX_NODES }
        ensures allowed { AreAllowed result.now }
    {
        self.root.as_ref()
    }

    /// The first node that has this name, which is the one that references to the name lead to. It
    /// takes time in proportion to the nodes before it, or to all nodes where none has the name.
    pub fn named(&self, name: &Text) -> Option<&Node>
        ensures { option_copied result ≡ find (has_name name.now) (preorder self.now) }
    {
        first_named(self.root(), name)
    }

    /// The node of this number, as references and plans number the nodes of a schema: from 0, each
    /// node before its child schemas. It takes time in proportion to the nodes before it.
    pub fn node(&self, number: u64) -> &Node
        requires { number < node_count self.now }
        ensures { slice_get (preorder self.now) number ≡ Some result.now }
    {
        let mut left = number;
        match node_behind(self.root(), &mut left) {
            Some(node) => node,
            None => unreachable!(),
        }
    }

    /// One more owner of the same schema; want of memory where no further owner can be counted.
    pub fn share(&self) -> Result<Schema, Memory>
        ensures { IfOk result (λ s. s ≡ self.now) }
    {
        match self.root.clone() {
            Ok(root) => Ok(Schema { root }),
            Err(_) => Err(Memory),
        }
    }
}
