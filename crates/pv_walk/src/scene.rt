ghost use Rattle.std.specs.Prelude.{◌≡◌, ℕ, IfSome, slice_get};
ghost use Rattle.pv_func.specs.Functions.{Named, Meaning};
ghost use Rattle.pv_tree.specs.declared.Tree.{Tree};
ghost use Rattle.pv_scalar.specs.Scalars.{scalar_of};
ghost use Rattle.pv_walk.specs.Context.{strict_in};
ghost use Rattle.pv_walk.specs.Rules.{Child};
ghost use Rattle.pv_walk.specs.Run as spec;
ghost use Rattle.pv_walk.specs.Run.{context_of};

use pv_plan::{Op, Record};
use pv_scalar::Scalar;
use std::alloc::Global;

/// What every step of a walk reads.
#[derive(Drop)]
pub struct Scene<'a> {
    pub alloc: Global,
    pub table: &'a [Record],
    /// The strictness of the run, where it has one.
    pub run: Option<bool>,
}

/// A scalar, with its strictness in a run.
#[derive(Clone, Copy)]
pub struct ScalarNode<'a> {
    pub rule: &'a Scalar,
    pub strict: bool,
}

impl<'a> Scene<'a> {
    pub fn strictness(&self, slot: &Record) -> bool
        ensures { result ≡ strict_in self.now.run slot.now.strict }
    {
        self.run.unwrap_or(slot.strict)
    }

    /// The scalar of the record of this number, where it is one.
    #[tactic(auto, unfolding(crate::specs::Run::operation))]
    pub fn scalar(&self, number: u32) -> Option<ScalarNode<'a>>
        ensures { IfSome result (λ node. (fs : Named Meaning) (child : ℕ → Child) (t : Tree) →
            spec.at_record self.now.table.now (context_of self.now.run fs) child (slice_get self.now.table.now number) t
            ≡ scalar_of node.rule.now.0 node.rule.now.1 node.strict t) }
    {
        match self.table.get(number as usize) {
            None => None,
            Some(slot) => match &slot.op {
                Op::Scalar(rule) => Some(ScalarNode {
                    rule,
                    strict: self.strictness(slot),
                }),
                Op::Gather(_) => None,
                Op::Nullable => None,
                Op::Fields(_) => None,
                Op::Model { .. } => None,
                Op::Default { .. } => None,
                Op::Union { .. } => None,
                Op::TaggedUnion(_) => None,
                Op::LaxOrStrict => None,
                Op::Inner => None,
                Op::CustomError { .. } => None,
                Op::Before { .. } => None,
                Op::After { .. } => None,
                Op::Wrap { .. } => None,
                Op::Plain { .. } => None,
            },
        }
    }
}
